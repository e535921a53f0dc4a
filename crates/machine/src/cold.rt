// A cold machine: pages are loaded and proofread, and then it is fired.
ghost use Rattle.std.specs.Prelude.{◌≡◌, is_ok};
ghost use Rattle.isa.specs.Refusals.{numbered};
ghost use Rattle.memory.specs.Pages.{loaded, Proofread};
ghost use Rattle.memory.specs.Writes.{Load};
ghost use Rattle.processor.specs.Calls.{fired_over};
ghost use Rattle.machine.specs.Views.{view_of};

use crate::fired::Fired;
use isa::refusal::Refusal;
use memory::{Memory, page};
use processor::processor::Processor;

// A machine that does not run. It is moved: firing it consumes it.
#[derive(Drop)]
pub struct Cold<M: Memory> {
    pub(crate) memory: M,
}

impl<M: Memory> Cold<M> {
    // A cold machine over a memory.
    pub fn open(memory: M) -> Cold<M>
        ensures { result.memory ≡ memory }
    {
        Cold { memory }
    }

    // Fills one page. Refused with 3 if the bytes are not 4,096, and with 4 if the page is not writable.
    pub fn load(&mut self, page: u64, bytes: &[u8]) -> Result<(), Refusal>
        ensures whole { (numbered result, M.Memory.model self.new.memory) ≡ loaded (M.Memory.model self.old.memory) page bytes.now }
        ensures law { Load page bytes.now (M.Memory.model self.old.memory) (M.Memory.model self.new.memory) (is_ok result) }
    {
        page::load(&mut self.memory, page, bytes)
    }

    // Reads one page over: the offset of its first illegal word, or none. Refused with 4 if the page is absent.
    pub fn proofread(&self, page: u64) -> Result<Option<u16>, Refusal>
        ensures { Proofread (M.Memory.model self.now.memory) page (numbered result) }
    {
        page::proofread(&self.memory, page)
    }

    // Starts the machine, as a processor is when just fired, over the memory as it is.
    pub fn fire(self) -> Fired<M>
        ensures view { view_of M.Memory.model result ≡ fired_over (M.Memory.model self.memory) }
        ensures memory { result.memory ≡ self.memory }
    {
        Fired {
            processor: Processor::new(),
            memory: self.memory,
        }
    }

    // Gives the memory back.
    pub fn end(self) -> M
        ensures { result ≡ self.memory }
    {
        self.memory
    }
}
