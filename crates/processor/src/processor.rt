// The processor. What its next step will be is in judge.rt, what it leaves in commit.rt, and the calls are in step.rt.
ghost use Rattle.processor.specs.Steps.{Sound};

use crate::state::State;

// A processor. CONTEXT is the number of a user context, and user mode has interrupts enabled and is never halted.
#[derive(Drop)]
pub struct Processor {
    pub state: State,
    ghost sound: { Sound state },
}
