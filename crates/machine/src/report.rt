// What a run answers.
ghost use Rattle.std.specs.Prelude.{◌≡◌};
ghost use Rattle.machine.specs.Views.{reason_number, trap_of};

use processor::event::Trap;
use processor::state::Mode;

// Why a run ended. Each reason has a number.
#[derive(Clone, Copy, Debug, PartialEq, Eq)]
pub enum Reason {
    // 0: the budget is spent, and no further step was tried
    Spent,
    // 1: the kernel was entered from user mode
    Entry { trap: Trap },
    // 2: HLT
    Halt,
    // 3: a double fault
    DoubleFault { trap: Trap },
    // 4: BRK
    Break,
    // 5: the output is full; the step that would write to it was not made
    OutputFull,
}

impl Reason {
    // The reason's number. It is a match, since `as` has no number for a variant with fields.
    pub fn number(self) -> u8
        ensures { result ≡ reason_number self }
    {
        match self {
            Reason::Spent => 0,
            Reason::Entry { .. } => 1,
            Reason::Halt => 2,
            Reason::DoubleFault { .. } => 3,
            Reason::Break => 4,
            Reason::OutputFull => 5,
        }
    }

    // Cause, address and space, if the run ended with an entry from user mode or a double fault.
    pub fn trap(self) -> Option<Trap>
        ensures { result ≡ trap_of self }
    {
        match self {
            Reason::Entry { trap } | Reason::DoubleFault { trap } => Some(trap),
            Reason::Spent | Reason::Halt | Reason::Break | Reason::OutputFull => None,
        }
    }
}

#[derive(Clone, Copy, Debug, PartialEq, Eq)]
pub struct Report {
    pub reason: Reason,
    // the steps made, at most the budget
    pub steps: u64,
    // PC and mode after them
    pub pc: u16,
    pub mode: Mode,
}
