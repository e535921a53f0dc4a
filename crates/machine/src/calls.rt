// The calls on a fired machine. Each answers for every argument; a refused one leaves all as it was.
ghost use Rattle.std.specs.Prelude.{◌≡◌, if◌then◌else◌, Ok, Err, min, ◌++◌, length, take, drop};
ghost use Rattle.processor.specs.Steps.{QueuesFit};
ghost use Rattle.processor.specs.Calls.{run, raise, feed, drain, look, ran, done, item as item_answer, reply};
ghost use Rattle.machine.specs.Views.{view_of, report_of, answered};

use crate::cold::Cold;
use crate::fired::Fired;
use crate::report::Report;
use isa::refusal::Refusal;
use memory::Memory;

// The largest budget of one run.
const MOST_STEPS: u64 = 1_000_000;

impl<M: Memory> Fired<M> {
    // Refused with 6 if the machine is halted.
    fn refuse_if_halted(&self) -> Result<(), Refusal>
        ensures { result ≡ (if (view_of M.Memory.model self.now).state.control.halted then Err Refusal.Halted else Ok tt) }
    {
        if self.processor.state.control.halted {
            return Err(Refusal::Halted);
        }
        Ok(())
    }

    // Makes steps until one ends the run, at most `budget`. Refused with 5 if the budget is above 1,000,000, and with 6 if
    // the machine is halted.
    pub fn run(&mut self, budget: u64) -> Result<Report, Refusal>
        ensures answer { answered (λ r. ran (report_of r)) result ≡ (reply (run budget) (view_of M.Memory.model self.old)).answer }
        ensures after { view_of M.Memory.model self.new ≡ (reply (run budget) (view_of M.Memory.model self.old)).after }
        ensures fits { QueuesFit (view_of M.Memory.model self.new).state }
    {
        self.processor.state.queues_fit();
        if budget > MOST_STEPS {
            return Err(Refusal::BudgetTooLarge);
        }
        self.refuse_if_halted()?;
        let report = self.make_steps(budget);
        self.processor.state.queues_fit();
        Ok(report)
    }

    // Makes an interrupt wait. Refused with 6 if the machine is halted, and with 7 if one waits already.
    pub fn raise(&mut self) -> Result<(), Refusal>
        ensures answer { answered (λ _. done) result ≡ (reply raise (view_of M.Memory.model self.old)).answer }
        ensures after { view_of M.Memory.model self.new ≡ (reply raise (view_of M.Memory.model self.old)).after }
        ensures fits { QueuesFit (view_of M.Memory.model self.new).state }
    {
        self.processor.state.queues_fit();
        self.refuse_if_halted()?;
        if self.processor.state.control.waiting {
            return Err(Refusal::InterruptWaiting);
        }
        self.processor.state.control.waiting = true;
        Ok(())
    }

    // Appends all the bytes to the console's input. Refused with 8 if more than 256 would wait.
    pub fn feed(&mut self, bytes: &[u8]) -> Result<(), Refusal>
        ensures answer { answered (λ _. done) result ≡ (reply (feed bytes.now) (view_of M.Memory.model self.old)).answer }
        ensures after { view_of M.Memory.model self.new ≡ (reply (feed bytes.now) (view_of M.Memory.model self.old)).after }
        ensures fits { QueuesFit (view_of M.Memory.model self.new).state }
    {
        self.processor.state.queues_fit();
        let input = &mut self.processor.state.input;
        input.extend(bytes).map_err(|_| Refusal::InputFull)
    }

    // Moves as much of the console's output as fits to the front of the buffer, the oldest first, and answers how many bytes
    // that are; the buffer's rest stays.
    pub fn drain(&mut self, buffer: &mut [u8]) -> usize
        ensures count { result ≡ min (length buffer.old) (length (view_of M.Memory.model self.old).state.output) }
        ensures moved { buffer.new ≡ take (length buffer.old) (view_of M.Memory.model self.old).state.output ++ drop result buffer.old }
        ensures after { view_of M.Memory.model self.new ≡ (reply (drain (length buffer.old)) (view_of M.Memory.model self.old)).after }
        ensures fits { QueuesFit (view_of M.Memory.model self.old).state }
    {
        self.processor.state.queues_fit();
        self.processor.state.output.drain(buffer)
    }

    // Reads one item of a register set: 0 to 7 registers, 8 LINK, 9 flags in bits 0 to 3, 10 to 25 the code map, 26 to 41 the
    // data map. Refused with 9 if the set is above 15 or the item above 41.
    pub fn look(&self, set: u64, item: u64) -> Result<u16, Refusal>
        ensures answer { answered item_answer result ≡ (reply (look set item) (view_of M.Memory.model self.now)).answer }
        ensures fits { QueuesFit (view_of M.Memory.model self.now).state }
    {
        self.processor.state.queues_fit();
        let sets = &self.processor.state.sets;
        sets.get(set as usize)
            .and_then(|set| set.item(item))
            .ok_or(Refusal::NoSuchItem)
    }

    // Stops the machine; its memory stays as it is.
    pub fn cool(self) -> Cold<M>
        ensures { result.memory ≡ self.memory }
    {
        Cold {
            memory: self.memory,
        }
    }
}
