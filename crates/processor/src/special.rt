// The special registers: which number names which, and how each is read and written.
ghost use Rattle.std.specs.Prelude.{◌≡◌, ◌<◌};
ghost use Rattle.processor.specs.Carrying.{named};
ghost use Rattle.processor.specs.Special.{row, reaches, register, accepts};

use crate::context::Context;
use crate::event::Space;
use crate::state::{Mode, State};

// The four registers that an entry leaves.
#[derive(Clone, Copy)]
pub enum EntryField {
    Irr,
    Icr,
    Idr,
    Isr,
}

// What a special register's number names.
#[derive(Clone, Copy)]
pub enum Special {
    // LINK of the mode's set
    LinkRegister,
    // the flags of the mode's set; in kernel mode T and IE too
    FlagsRegister,
    // the counter's low and high half
    CounterLow,
    CounterHigh,
    EntryRegister(EntryField),
    ContextNumber,
    // a register of set CONTEXT
    UserRegister(u8),
    // a map word of set CONTEXT, or of the kernel's set
    MapWord {
        owner: Mode,
        space: Space,
        index: u8,
    },
    ConsoleInput,
    ConsoleOutput,
    // reads 0 and ignores writes
    Unassigned,
}

// Reading this number takes the oldest input byte.
const INPUT_NUMBER: u16 = 96;

// Writing this number appends an output byte.
const OUTPUT_NUMBER: u16 = 97;

fn map_word(owner: Mode, space: Space, index: u16) -> Special
    requires { index < 16 }
    ensures { result ≡ Special.MapWord owner space index }
{
    let index = index as u8;
    Special::MapWord {
        owner,
        space,
        index,
    }
}

// The table of the special registers.
fn row(number: u16) -> Special
    ensures { result ≡ row number }
{
    match number {
        0 => Special::LinkRegister,
        1 => Special::FlagsRegister,
        6 => Special::CounterLow,
        7 => Special::CounterHigh,
        8 => Special::EntryRegister(EntryField::Irr),
        9 => Special::EntryRegister(EntryField::Icr),
        10 => Special::EntryRegister(EntryField::Idr),
        11 => Special::EntryRegister(EntryField::Isr),
        15 => Special::ContextNumber,
        17..=23 => Special::UserRegister((number - 16) as u8),
        32..=47 => map_word(Mode::User, Space::Code, number - 32),
        48..=63 => map_word(Mode::User, Space::Data, number - 48),
        64..=79 => map_word(Mode::Kernel, Space::Code, number - 64),
        80..=95 => map_word(Mode::Kernel, Space::Data, number - 80),
        INPUT_NUMBER => Special::ConsoleInput,
        OUTPUT_NUMBER => Special::ConsoleOutput,
        _ => Special::Unassigned,
    }
}

// May an instruction of this mode name this number?
pub(crate) fn reaches(mode: Mode, number: u16) -> bool
    ensures { result ≡ reaches mode number }
{
    match mode {
        Mode::User => number <= 7,
        Mode::Kernel => number <= 127,
    }
}

// What a number names in a mode.
fn register(mode: Mode, number: u16) -> Special
    ensures { result ≡ register mode number }
{
    if reaches(mode, number) {
        row(number)
    } else {
        Special::Unassigned
    }
}

impl State {
    // What a number names in the state's mode.
    pub(crate) fn named(&self, number: u16) -> Special
        ensures { result ≡ named self.now number }
    {
        register(self.control.mode, number)
    }
}

impl Special {
    // May the register be given this value? Only CONTEXT refuses any.
    pub(crate) fn accepts(self, value: u16) -> bool
        ensures { result ≡ accepts self value }
    {
        match self {
            Special::ContextNumber => Context::try_from(value).is_ok(),
            _ => true,
        }
    }
}
