// What an instruction asks for, and what can be said of it before it is carried out.
ghost use Rattle.std.specs.Prelude.{◌≡◌};
ghost use Rattle.processor.specs.Actions.{legal, asks, writes};

use crate::access::{Found, Purpose, Request};
use crate::special::reaches;
use crate::state::Mode;
use alu::flags::Flags;
use isa::instr::Width;

// The instructions that user mode may not use.
#[derive(Clone, Copy)]
pub enum Privileged {
    // DI
    Disable,
    // EI
    Enable,
    // HLT
    Halt,
    // RTI
    Return,
}

// Where a result goes. What goes to r0 is lost.
#[derive(Clone, Copy)]
pub enum Target {
    Register(u8),
    Link,
}

// Read off the instruction, the register file and PC alone.
#[derive(Clone, Copy)]
pub enum Action {
    // a result, the next PC, and the flags
    Settle {
        to: Target,
        value: u16,
        next: u16,
        flags: Flags,
    },
    // LDW, LDB, LCW
    ReadMemory {
        to: u8,
        request: Request,
    },
    // STW, STB
    WriteMemory {
        width: Width,
        address: u16,
        value: u16,
    },
    // LSP
    ReadSpecial {
        to: u8,
        number: u16,
    },
    // SSP
    WriteSpecial {
        number: u16,
        value: u16,
    },
    // LSI: the special register is stored at the address
    StoreSpecial {
        number: u16,
        address: u16,
    },
    // SSI: the special register is loaded from the address
    LoadSpecial {
        number: u16,
        address: u16,
    },
    // SYS
    SystemCall {
        n: u8,
    },
    // BRK
    Break,
    Privilege {
        op: Privileged,
    },
}

// A value for a special register.
#[derive(Clone, Copy)]
pub struct SpecialWrite {
    pub number: u16,
    pub value: u16,
}

impl Action {
    // Does the mode allow it?
    pub(crate) fn is_legal(self, mode: Mode) -> bool
        ensures { result ≡ legal mode self }
    {
        match self {
            Action::ReadSpecial { to: _, number }
            | Action::WriteSpecial { number, value: _ }
            | Action::StoreSpecial { number, address: _ }
            | Action::LoadSpecial { number, address: _ } => reaches(mode, number),
            Action::Privilege { op: _ } => mode == Mode::Kernel,
            _ => true,
        }
    }

    // The access that it makes, if any.
    pub(crate) fn asks(self) -> Option<Request>
        ensures { result ≡ asks self }
    {
        match self {
            Action::ReadMemory { to: _, request } => Some(request),
            Action::WriteMemory {
                width,
                address,
                value: _,
            } => Some(Request {
                purpose: Purpose::DataStore,
                width,
                address,
            }),
            Action::StoreSpecial { number: _, address } => Some(Request::word(
                Purpose::DataStore,
                address,
            )),
            Action::LoadSpecial { number: _, address } => Some(Request::word(
                Purpose::DataLoad,
                address,
            )),
            _ => None,
        }
    }

    // What it writes to a special register, if anything, where its access has found this.
    pub(crate) fn writes(self, found: Found) -> Option<SpecialWrite>
        ensures { result ≡ writes self found }
    {
        match self {
            Action::WriteSpecial { number, value } => Some(SpecialWrite { number, value }),
            Action::LoadSpecial { number, address: _ } => Some(SpecialWrite {
                number,
                value: found.value,
            }),
            _ => None,
        }
    }
}
