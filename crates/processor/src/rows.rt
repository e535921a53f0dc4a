// Reading and writing the special registers.
ghost use Rattle.std.specs.Prelude.{◌≡◌, ◌<◌};
ghost use Rattle.processor.specs.State.{own, set_at, set_of, with_control};
ghost use Rattle.processor.specs.Rows.{flags_word, entry_value, with_field, console_byte, reading, consumed, written, mode_of};

use crate::context::Context;
use crate::queue::Queue;
use crate::special::{EntryField, Special};
use crate::state::{Control, EntryRecord, Mode, State};
use alu::flags::Flags;

impl Control {
    // The word of the flags; in kernel mode T and IE are in it too.
    fn flags_word(&self, flags: Flags) -> u16
        ensures { result ≡ flags_word self.now.mode flags self.now.trace self.now.ie }
    {
        let bits = u16::from(flags);
        match self.mode {
            Mode::User => bits,
            Mode::Kernel => bits + 256 * u16::from(self.trace) + 512 * u16::from(self.ie),
        }
    }
}

// The mode that bit 0 of a value names; the other bits do not count.
impl From<u16> for Mode {
    ghost from_gives = { λ value mode. mode ≡ mode_of value };

    fn from(value: u16) -> Mode {
        if value % 2 == 1 {
            Mode::Kernel
        } else {
            Mode::User
        }
    }
}

impl EntryRecord {
    fn value(&self, field: EntryField) -> u16
        ensures { result ≡ entry_value self.now field }
    {
        match field {
            EntryField::Irr => self.irr,
            EntryField::Icr => self.icr,
            EntryField::Idr => self.idr,
            EntryField::Isr => self.isr as u16,
        }
    }

    // Writes reach IRR and bit 0 of ISR.
    fn put(&mut self, field: EntryField, value: u16)
        ensures { self.new ≡ with_field self.old field value }
    {
        match field {
            EntryField::Irr => self.irr = value,
            EntryField::Icr | EntryField::Idr => {}
            EntryField::Isr => self.isr = Mode::from(value),
        }
    }
}

impl Queue {
    // The oldest byte, or 0xFFFF if none waits.
    fn byte(&self) -> u16
        ensures { result ≡ console_byte self.now }
    {
        self.oldest().map_or(0xFFFF, u16::from)
    }
}

impl State {
    // What a special register reads. Nothing changes: `consume` takes the console's byte.
    pub(crate) fn read_special(&self, special: Special) -> u16
        ensures { result ≡ reading self.now special }
    {
        match special {
            Special::LinkRegister => self.own().file.link,
            Special::FlagsRegister => self.control.flags_word(self.own().file.flags),
            Special::CounterLow => (self.control.counter % 0x10000) as u16,
            Special::CounterHigh => (self.control.counter / 0x10000) as u16,
            Special::EntryRegister(field) => self.control.entry.value(field),
            Special::ContextNumber => u16::from(self.context.number()),
            Special::UserRegister(r) => self.set(Mode::User).file.get(r),
            Special::MapWord {
                owner,
                space,
                index,
            } => self.set(owner).maps.word(space, usize::from(index)),
            Special::ConsoleInput => self.input.byte(),
            Special::ConsoleOutput | Special::Unassigned => 0,
        }
    }

    // Takes what reading a special register takes: the console's oldest input byte.
    pub(crate) fn consume(&mut self, special: Special)
        ensures { self.new ≡ consumed self.old special }
    {
        if matches!(special, Special::ConsoleInput) {
            self.input.take_oldest();
        }
    }

    fn write_link(&mut self, value: u16)
        ensures { self.new ≡ written self.old Special.LinkRegister value }
    {
        let i = self.set_of(self.control.mode);
        self.sets[i].file.link = value;
    }

    // The flags and, in kernel mode, T.
    fn write_flags(&mut self, value: u16)
        ensures { self.new ≡ written self.old Special.FlagsRegister value }
    {
        let i = self.set_of(self.control.mode);
        self.sets[i].file.flags = Flags::from(value);
        if self.control.mode == Mode::Kernel {
            self.control.trace = value / 256 % 2 == 1;
        }
    }

    pub(crate) fn write_special(&mut self, special: Special, value: u16)
        ensures { self.new ≡ written self.old special value }
    {
        match special {
            Special::LinkRegister => self.write_link(value),
            Special::FlagsRegister => self.write_flags(value),
            Special::EntryRegister(field) => self.control.entry.put(field, value),
            Special::ContextNumber => if let Ok(context) = Context::try_from(value) {
                self.context = context;
            },
            Special::UserRegister(r) => {
                let i = self.set_of(Mode::User);
                self.sets[i].file.put(r, value);
            }
            Special::MapWord {
                owner,
                space,
                index,
            } => {
                let i = self.set_of(owner);
                self.sets[i].maps.put(space, usize::from(index), value);
            }
            Special::ConsoleOutput => {
                let [low, _] = value.to_le_bytes();
                self.output.push(low);
            }
            Special::CounterLow
            | Special::CounterHigh
            | Special::ConsoleInput
            | Special::Unassigned => {}
        }
    }
}
