// A verdict carried out. Nothing here can fault.
ghost use Rattle.std.specs.Prelude.{◌≡◌};
ghost use Rattle.processor.specs.State.{onward};
ghost use Rattle.processor.specs.Carrying.{entered, completed, onwards, privileged, named, performed, plain, put_at, stored, carried, made};
ghost use Rattle.processor.specs.Rows.{written};

use crate::access::Found;
use crate::action::{Action, Privileged};
use crate::event::{Cause, Event, Space, Trap};
use crate::judge::Verdict;
use crate::plan::next;
use crate::state::{EntryRecord, Mode, State};
use isa::instr::Width;
use memory::Memory;

// A trap whose cause has no address.
fn plain(cause: Cause) -> Trap
    ensures { result ≡ plain cause }
{
    Trap {
        cause,
        address: 0,
        space: Space::Code,
    }
}

impl State {
    // An entry to the kernel, which is to return to `back`. In kernel mode with interrupts disabled it is a double fault.
    fn enter(&mut self, trap: Trap, back: u16) -> Event
        ensures { entered self.old trap back ≡ record { state = self.new; event = result } }
    {
        let from = self.control.mode;
        if from == Mode::Kernel && !self.control.ie {
            self.control.halted = true;
            return Event::DoubleFault { trap };
        }
        let cause = trap.cause.number();
        self.control.entry = EntryRecord {
            irr: back,
            icr: cause,
            idr: trap.address,
            isr: from,
        };
        self.control.mode = Mode::Kernel;
        self.control.ie = false;
        self.control.pc = cause.wrapping_mul(4);
        Event::Entered { from, trap }
    }

    // An instruction is completed. A user instruction with T on is followed by an entry that clears T.
    fn complete(&mut self) -> Event
        ensures { completed self.old ≡ record { state = self.new; event = result } }
    {
        if self.control.mode == Mode::User && self.control.trace {
            self.control.trace = false;
            return self.enter(plain(Cause::Trace), self.control.pc);
        }
        Event::Went
    }

    // A privileged instruction; user mode never comes here.
    fn govern(&mut self, op: Privileged) -> Event
        ensures { privileged self.old op ≡ record { state = self.new; event = result } }
    {
        let after = next(self.control.pc);
        match (self.control.mode, op) {
            (Mode::User, _) => Event::Went,
            (Mode::Kernel, Privileged::Disable) => {
                self.control.ie = false;
                self.control.pc = after;
                Event::Went
            }
            (Mode::Kernel, Privileged::Enable) => {
                self.control.ie = true;
                self.control.pc = after;
                Event::Went
            }
            (Mode::Kernel, Privileged::Halt) => {
                self.control.halted = true;
                self.control.pc = after;
                Event::Halted
            }
            (Mode::Kernel, Privileged::Return) => {
                self.control.pc = self.control.entry.irr;
                self.control.mode = self.control.entry.isr;
                self.control.ie = true;
                Event::Went
            }
        }
    }

    // On to an instruction at `next`: this one is completed.
    fn go_on(&mut self, next: u16) -> Event
        ensures { completed (onward self.old next) ≡ record { state = self.new; event = result } }
    {
        self.control.pc = next;
        self.complete()
    }

    // Gives a special register a value, and goes on.
    fn give(&mut self, number: u16, value: u16) -> Event
        ensures { onwards self.old (written self.old (named self.old number) value) ≡ record { state = self.new; event = result } }
    {
        let after = next(self.control.pc);
        self.write_special(self.named(number), value);
        self.go_on(after)
    }

    // What an action does to the state. Action and what its access found are two parameters: the verdict holds both, and each case of
    // an action reads one or the other.
    fn perform(&mut self, action: Action, found: Found) -> Event
        ensures { performed self.old action found ≡ record { state = self.new; event = result } }
    {
        let after = next(self.control.pc);
        match action {
            Action::Settle {
                to,
                value,
                next,
                flags,
            } => {
                self.settle(to, value, flags, next);
                self.complete()
            }
            Action::ReadMemory { to, .. } => {
                self.put_own(to, found.value);
                self.go_on(after)
            }
            Action::WriteMemory { .. } => self.go_on(after),
            Action::ReadSpecial { to, number } => {
                let special = self.named(number);
                let value = self.read_special(special);
                self.consume(special);
                self.put_own(to, value);
                self.go_on(after)
            }
            Action::WriteSpecial { number, value } => self.give(number, value),
            Action::StoreSpecial { number, .. } => {
                self.consume(self.named(number));
                self.go_on(after)
            }
            Action::LoadSpecial { number, .. } => self.give(number, found.value),
            Action::SystemCall { n } => self.enter(plain(Cause::Call(n)), after),
            Action::Break => {
                self.control.pc = after;
                Event::Broke
            }
            Action::Privilege { op } => self.govern(op),
        }
    }
}

// Puts a word, or the low byte of one. The access check has found that memory takes it; no `unwrap`, since that fact would have to be
// required by each function down from the step.
fn put<M: Memory>(memory: &mut M, width: Width, at: u64, value: u16)
    ensures { M.Memory.model memory.new ≡ put_at (M.Memory.model memory.old) width at value }
{
    let [low, _] = value.to_le_bytes();
    let _ = match width {
        Width::Word => memory.write_word(at, value),
        Width::Byte => memory.write_byte(at, low),
    };
}

// What an action does to memory.
fn store<M: Memory>(state: &State, memory: &mut M, action: Action, found: Found)
    ensures { M.Memory.model memory.new ≡ stored state.now (M.Memory.model memory.old) action found }
{
    match action {
        Action::WriteMemory {
            width,
            address: _,
            value,
        } => put(memory, width, found.at, value),
        Action::StoreSpecial { number, address: _ } => {
            let special = state.named(number);
            let value = state.read_special(special);
            put(memory, Width::Word, found.at, value);
        }
        _ => {}
    }
}

// An interrupt's entry, a fault's, or an instruction.
fn carry_out<M: Memory>(state: &mut State, memory: &mut M, verdict: Verdict) -> Event
    ensures { carried state.old (M.Memory.model memory.old) verdict ≡ record { state = state.new; store = M.Memory.model memory.new; event = result } }
{
    let pc = state.control.pc;
    match verdict {
        Verdict::Interrupt => {
            state.control.waiting = false;
            state.enter(plain(Cause::Interrupt), pc)
        }
        Verdict::Fault { trap } => state.enter(trap, pc),
        Verdict::Full => Event::OutputFull,
        Verdict::Go { action, found } => {
            store(state, memory, action, found);
            state.perform(action, found)
        }
    }
}

// A verdict carried out, and counted if it is a step.
pub(crate) fn commit<M: Memory>(state: &mut State, memory: &mut M, verdict: Verdict) -> Event
    ensures { made state.old (M.Memory.model memory.old) verdict ≡ record { state = state.new; store = M.Memory.model memory.new; event = result } }
{
    let event = carry_out(state, memory, verdict);
    if !matches!(verdict, Verdict::Full) {
        state.control.counter = state.control.counter.wrapping_add(1);
    }
    event
}
