// The register set that the mode works on: the kernel's set 0, or set CONTEXT.
ghost use Rattle.std.specs.Prelude.{◌≡◌, ◌<◌};
ghost use Rattle.processor.specs.State.{set_count, set_of, set_at, current, own, with_own_file, with_set, with_file, onward};
ghost use Rattle.processor.specs.Registers.{put, settled, with_flags};
ghost use Rattle.processor.specs.Access.{with_word};

use crate::action::Target;
use crate::state::{Mode, RegSet, State};
use alu::flags::Flags;

impl State {
    // The number of the set that a mode works on.
    pub(crate) fn set_of(&self, mode: Mode) -> usize
        ensures is { result ≡ set_of mode self.now.context }
        ensures small { result < set_count }
    {
        match mode {
            Mode::User => usize::from(self.context.number()),
            Mode::Kernel => 0,
        }
    }

    // The set that a mode works on.
    pub(crate) fn set(&self, mode: Mode) -> &RegSet
        ensures { result.now ≡ set_at self.now (set_of mode self.now.context) }
    {
        &self.sets[self.set_of(mode)]
    }

    // The set that the current mode works on. It is written by its index, since a method that lends it as `&mut` would need a clause on
    // what is lent, longer than the index.
    pub(crate) fn own(&self) -> &RegSet
        ensures { result.now ≡ own self.now }
    {
        self.set(self.control.mode)
    }

    // Puts a result, the flags after it and the next PC. Four parameters and no struct, since the match on an action has taken them
    // apart, and three go on to the register file.
    pub(crate) fn settle(&mut self, to: Target, value: u16, flags: Flags, next: u16)
        ensures { self.new ≡ onward (with_own_file self.old (with_flags (settled (own self.old).file to value) flags)) next }
    {
        let i = self.set_of(self.control.mode);
        self.sets[i].file.settle(to, value, flags);
        self.control.pc = next;
    }

    // Puts a register of the set that the current mode works on.
    pub(crate) fn put_own(&mut self, r: u8, value: u16)
        ensures { self.new ≡ with_own_file self.old (put (own self.old).file r value) }
    {
        let i = self.set_of(self.control.mode);
        self.sets[i].file.put(r, value);
    }
}
