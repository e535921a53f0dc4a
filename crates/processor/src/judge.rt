// What a step will be, decided before anything changes: all that is read is read through shared references.
ghost use Rattle.std.specs.Prelude.{◌≡◌};
ghost use Rattle.processor.specs.Special.{prints};
ghost use Rattle.processor.specs.Judging.{instr_of, fault, illegal_at, admitted_in, judged_in, fetched_in, verdict_of, nothing_found};

use crate::access::{Found, Purpose, Request, access};
use crate::action::Action;
use crate::event::{Cause, Space, Trap};
use crate::plan::plan;
use crate::special::Special;
use crate::state::State;
use isa::decode::decode;
use isa::instr::{Instr, Width};
use memory::Memory;

// What the step will be: four outcomes that are carried out, none of which is a failure of judging, and so no Result.
#[derive(Clone, Copy)]
pub enum Verdict {
    // an entry for the interrupt that waits
    Interrupt,
    // an entry for a fault
    Fault { trap: Trap },
    // no step: the output is full
    Full,
    // the instruction is carried out; nothing can fault any more
    Go { action: Action, found: Found },
}

// The instruction of a word, if it is one.
#[tactic(auto, unfolding(crate::specs::Judging::instr_of))]
fn instruction(word: u16) -> Option<Instr>
    ensures { result ≡ instr_of word }
{
    decode(word).ok()
}

// An entry for a fault whose address and space these are.
fn fault(cause: Cause, address: u16, space: Space) -> Verdict
    ensures { result ≡ fault cause address space }
{
    Verdict::Fault {
        trap: Trap {
            cause,
            address,
            space,
        },
    }
}

fn illegal(pc: u16) -> Verdict
    ensures { result ≡ illegal_at pc }
{
    fault(Cause::Illegal, pc, Space::Code)
}

impl Special {
    // Does writing it put a byte to the output?
    fn prints(self) -> bool
        ensures { result ≡ prints self }
    {
        matches!(self, Special::ConsoleOutput)
    }
}

impl State {
    // The access is granted: a value for CONTEXT, and room in the output, are still to be looked at.
    fn admit(&self, action: Action, found: Found) -> Verdict
        ensures { result ≡ admitted_in self.now action found }
    {
        let Some(write) = action.writes(found) else {
            return Verdict::Go { action, found };
        };
        let special = self.named(write.number);
        if !special.accepts(write.value) {
            illegal(self.control.pc)
        } else if special.prints() && self.output.is_full() {
            Verdict::Full
        } else {
            Verdict::Go { action, found }
        }
    }
}

// The instruction is known: is it allowed, and what does its access come to?
fn judge_action<M: Memory>(state: &State, memory: &M, action: Action) -> Verdict
    ensures { result ≡ judged_in state.now (M.Memory.model memory.now) action }
{
    if !action.is_legal(state.control.mode) {
        return illegal(state.control.pc);
    }
    let Some(request) = action.asks() else {
        return state.admit(action, Found { at: 0, value: 0 });
    };
    match access(&state.own().maps, memory, request) {
        Ok(found) => state.admit(action, found),
        Err(cause) => fault(cause, request.address, request.purpose.space()),
    }
}

// The word at PC is fetched, and its instruction judged.
fn fetch<M: Memory>(state: &State, memory: &M) -> Verdict
    ensures { result ≡ fetched_in state.now (M.Memory.model memory.now) }
{
    let pc = state.control.pc;
    match access(&state.own().maps, memory, Request::word(Purpose::Fetch, pc)) {
        Err(cause) => fault(cause, pc, Space::Code),
        Ok(found) => match instruction(found.value) {
            None => illegal(pc),
            Some(instr) => judge_action(state, memory, plan(instr, &state.own().file, pc)),
        },
    }
}

// What the next step will be.
pub(crate) fn judge<M: Memory>(state: &State, memory: &M) -> Verdict
    ensures { result ≡ verdict_of state.now (M.Memory.model memory.now) }
{
    if state.control.waiting && state.control.ie {
        return Verdict::Interrupt;
    }
    fetch(state, memory)
}
