// Reading and writing a register file. r0 reads 0 and loses what is written to it.
ghost use Rattle.std.specs.Prelude.{◌≡◌};
ghost use Rattle.processor.specs.Registers.{reg, reg_or_link, put, settled, with_flags};

use crate::action::Target;
use crate::state::Registers;
use alu::flags::Flags;

impl Registers {
    pub(crate) fn get(&self, r: u8) -> u16
        ensures { result ≡ reg self.now r }
    {
        match r {
            1..=7 => self.general[usize::from(r)],
            _ => 0,
        }
    }

    // As `get`, but 0 names LINK.
    pub(crate) fn get_or_link(&self, r: u8) -> u16
        ensures { result ≡ reg_or_link self.now r }
    {
        if r == 0 { self.link } else { self.get(r) }
    }

    pub(crate) fn put(&mut self, r: u8, value: u16)
        ensures { self.new ≡ put self.old r value }
    {
        match r {
            1..=7 => self.general[usize::from(r)] = value,
            _ => {}
        }
    }

    // Puts a result and the flags after it.
    pub(crate) fn settle(&mut self, to: Target, value: u16, flags: Flags)
        ensures { self.new ≡ with_flags (settled self.old to value) flags }
    {
        match to {
            Target::Register(r) => self.put(r, value),
            Target::Link => self.link = value,
        }
        self.flags = flags;
    }
}
