// What leads into the kernel, and what a step came to.
ghost use Rattle.std.specs.Prelude.{◌≡◌};
ghost use Rattle.processor.specs.Numbers.{cause_number};

use crate::state::Mode;

// Which of the two address spaces: code has the number 0, data 1.
#[derive(Clone, Copy, Debug, PartialEq, Eq)]
pub enum Space {
    Code,
    Data,
}

// Why the kernel is entered. Each cause has a number.
#[derive(Clone, Copy, Debug, PartialEq, Eq)]
pub enum Cause {
    // 1: an illegal word, a privileged instruction in user mode, a special register out of reach, a wrong context number
    Illegal,
    // 2: the map word does not admit the access
    Map,
    // 3: a word at an odd address
    Odd,
    // 4: an instruction was traced
    Trace,
    // 5: an interrupt
    Interrupt,
    // 6: the page is absent, or is fixed and to be stored to
    Page,
    // 8 and up: system call n
    Call(u8),
}

impl Cause {
    // The cause's number. A match, since `as` takes no enum of which a case has a field.
    pub fn number(self) -> u16
        ensures { result ≡ cause_number self }
    {
        match self {
            Cause::Illegal => 1,
            Cause::Map => 2,
            Cause::Odd => 3,
            Cause::Trace => 4,
            Cause::Interrupt => 5,
            Cause::Page => 6,
            Cause::Call(n) => 8 + u16::from(n),
        }
    }
}

// A cause with its address and the space of that; 0 and code where the cause has none. No Option: IDR takes the address as it is, and
// the definition of a run's report both.
#[derive(Clone, Copy, Debug, PartialEq, Eq)]
pub struct Trap {
    pub cause: Cause,
    pub address: u16,
    pub space: Space,
}

// What a step came to.
#[derive(Clone, Copy, Debug, PartialEq, Eq)]
pub enum Event {
    // an instruction was carried out, and the next can follow
    Went,
    // the kernel was entered, from this mode
    Entered { from: Mode, trap: Trap },
    // an entry in kernel mode with interrupts disabled: the processor is halted
    DoubleFault { trap: Trap },
    // HLT: the processor is halted
    Halted,
    // BRK
    Broke,
    // no step was made: the byte to be written does not fit the output
    OutputFull,
}
