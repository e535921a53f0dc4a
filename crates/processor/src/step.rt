// The processor's calls.
ghost use Rattle.std.specs.Prelude.{◌≡◌, false};
ghost use Rattle.isa.specs.Refusals.{numbered};
ghost use Rattle.processor.specs.Carrying.{stepped};
ghost use Rattle.processor.specs.Steps.{Sound, QueuesFit, fired, fresh_set, step_reply};

use crate::commit::commit;
use crate::context::Context;
use crate::event::Event;
use crate::judge::judge;
use crate::processor::Processor;
use crate::queue::Queue;
use crate::state::{Control, Maps, Mode, RegSet, Registers, SET_COUNT, State};
use isa::refusal::Refusal;
use memory::Memory;

impl RegSet {
    // Registers 0; map words 0 hold `first`, and all other map words 3.
    fn fresh(first: u16) -> RegSet
        ensures { result ≡ fresh_set first }
    {
        let mut words = [3; 16];
        words[0] = first;
        RegSet {
            file: Registers::default(),
            maps: Maps {
                codes: words,
                datas: words,
            },
        }
    }
}

impl State {
    // The state of a processor that is just fired.
    fn fired() -> State
        ensures { result ≡ fired }
    {
        let mut sets = [RegSet::fresh(3); SET_COUNT];
        sets[0] = RegSet::fresh(0);
        State {
            sets,
            context: Context::first(),
            control: Control {
                mode: Mode::Kernel,
                ..Control::default()
            },
            input: Queue::new(),
            output: Queue::new(),
        }
    }

    // No more bytes wait in either queue than can. This does nothing but tell so: a contract sees a queue as the list of its bytes,
    // which has no bound.
    pub fn queues_fit(&self)
        ensures { QueuesFit self.now }
    {
        let _ = (self.input.is_full(), self.output.is_full());
    }
}

// One step of a processor that is not halted. State and memory are two parameters from here to judge.rt and commit.rt: as one
// struct with these functions for methods they were tried, and the loop of stores and loads ran a fifth slower.
fn advance<M: Memory>(state: &mut State, memory: &mut M) -> Event
    requires was_sound { Sound state.old }
    requires awake { state.old.control.halted ≡ false }
    ensures is { stepped state.old (M.Memory.model memory.old) ≡ record { state = state.new; store = M.Memory.model memory.new; event = result } }
    ensures sound { Sound state.new }
{
    let verdict = judge(state, memory);
    commit(state, memory, verdict)
}

impl Processor {
    // A processor that is just fired.
    pub fn new() -> Processor
        ensures { result.state ≡ fired }
    {
        Processor {
            state: State::fired(),
        }
    }

    // Makes one step over a memory, and tells what it came to. Refused with 6 if the processor is halted.
    pub fn step<M: Memory>(&mut self, memory: &mut M) -> Result<Event, Refusal>
        ensures reply { (numbered result, self.new.state, M.Memory.model memory.new) ≡ step_reply self.old.state (M.Memory.model memory.old) }
        ensures fits { QueuesFit self.new.state }
    {
        if self.state.control.halted {
            self.state.queues_fit();
            return Err(Refusal::Halted);
        }
        let event = advance(&mut self.state, memory);
        self.state.queues_fit();
        Ok(event)
    }
}
