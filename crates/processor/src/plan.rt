// From an instruction to what it asks for.
ghost use Rattle.std.specs.Prelude.{◌≡◌};
ghost use Rattle.isa.specs.Words.{bits_of};
ghost use Rattle.processor.specs.Plans.{next, address_of, computed, changed, taken, register_or_link, settles, jump, branch, target, pair_plan, control_plan, planned};

use crate::access::{Purpose, Request};
use crate::action::{Action, Privileged, Target};
use crate::state::Registers;
use alu::arithmetic::{add, load_upper, negate, subtract};
use alu::flags::Flags;
use alu::logic;
use isa::instr::{AluOp, Condition, ControlOp, Instr, PairOp, UnaryOp, Width};

// The address of the instruction after the one at `pc`.
pub(crate) fn next(pc: u16) -> u16
    ensures { result ≡ next pc }
{
    pc.wrapping_add(2)
}

// A signed number modulo 65,536.
fn modulo(n: i16) -> u16
    ensures { result ≡ bits_of 0x8000 n }
{
    n.cast_unsigned()
}

// The data address rB + imm7.
fn address(file: &Registers, rb: u8, imm: i8) -> u16
    ensures { result ≡ address_of file.now rb imm }
{
    file.get(rb).wrapping_add(modulo(i16::from(imm)))
}

// The register that gets a result, where 0 names LINK.
fn register_or_link(r: u8) -> Target
    ensures { result ≡ register_or_link r }
{
    if r == 0 {
        Target::Link
    } else {
        Target::Register(r)
    }
}

fn compute(op: AluOp, a: u16, b: u16, carry: bool) -> (u16, Flags)
    ensures { result ≡ computed op a b carry }
{
    match op {
        AluOp::Sbb => subtract(a, b, carry),
        AluOp::Adc => add(a, b, carry),
        AluOp::Sub => subtract(a, b, true),
        AluOp::Add => add(a, b, false),
        AluOp::Xor => logic::xor(a, b),
        AluOp::Or => logic::or(a, b),
        AluOp::And => logic::and(a, b),
    }
}

fn change(op: UnaryOp, a: u16) -> (u16, Flags)
    ensures { result ≡ changed op a }
{
    match op {
        UnaryOp::Not => logic::not(a),
        UnaryOp::Neg => negate(a),
        UnaryOp::Dub => logic::dub(a),
        UnaryOp::Sxt => logic::sxt(a),
        UnaryOp::Sra => logic::sra(a),
        UnaryOp::Srl => logic::srl(a),
    }
}

fn is_taken(on: Condition, flags: Flags) -> bool
    ensures { result ≡ taken on flags }
{
    match on {
        Condition::Always | Condition::AlwaysLink => true,
        Condition::Zero => flags.z,
        Condition::NotZero => !flags.z,
        Condition::Carry => flags.c,
        Condition::NotCarry => !flags.c,
        Condition::SignedGreaterEqual => flags.n == flags.v,
        Condition::SignedLess => flags.n != flags.v,
    }
}

// A result with its flags, and on to the next instruction.
fn settle(to: Target, outcome: (u16, Flags), pc: u16) -> Action
    ensures { result ≡ settles to outcome pc }
{
    let (value, flags) = outcome;
    Action::Settle {
        to,
        value,
        flags,
        next: next(pc),
    }
}

// On at `next`, with no result: what goes to r0 is lost. A target for no result would be a second way to say that.
fn jump(flags: Flags, next: u16) -> Action
    ensures { result ≡ jump flags next }
{
    Action::Settle {
        to: Target::Register(0),
        value: 0,
        flags,
        next,
    }
}

fn plan_branch(on: Condition, offset: i16, flags: Flags, pc: u16) -> Action
    ensures { result ≡ branch on offset flags pc }
{
    let after = next(pc);
    let next = if is_taken(on, flags) {
        after.wrapping_add(modulo(offset))
    } else {
        after
    };
    match on {
        Condition::AlwaysLink => Action::Settle {
            to: Target::Link,
            value: after,
            flags,
            next,
        },
        _ => jump(flags, next),
    }
}

// The word with its low six bits replaced.
fn target(base: u16, imm: u8) -> u16
    ensures { result ≡ target base imm }
{
    base / 64 * 64 + u16::from(imm % 64)
}

fn plan_pair(op: PairOp, ra: u8, rb: u8, file: &Registers, pc: u16) -> Action
    ensures { result ≡ pair_plan op ra rb file.now pc }
{
    let (a, b) = (file.get(ra), file.get(rb));
    match op {
        PairOp::Lsp => Action::ReadSpecial { to: ra, number: b },
        PairOp::Lsi => Action::StoreSpecial {
            number: b,
            address: a,
        },
        PairOp::Ssp => Action::WriteSpecial {
            number: b,
            value: a,
        },
        PairOp::Ssi => Action::LoadSpecial {
            number: a,
            address: b,
        },
        PairOp::Lcw => Action::ReadMemory {
            to: ra,
            request: Request::word(Purpose::CodeLoad, b),
        },
        PairOp::Tst => settle(Target::Register(0), subtract(a, b, true), pc),
    }
}

fn with_carry(flags: Flags, c: bool, pc: u16) -> Action
    ensures { result ≡ settles (Target.Register 0) (0, record { c = c; z = flags.z; n = flags.n; v = flags.v }) pc }
{
    settle(Target::Register(0), (0, Flags { c, ..flags }), pc)
}

fn plan_control(op: ControlOp, flags: Flags, pc: u16) -> Action
    ensures { result ≡ control_plan op flags pc }
{
    match op {
        ControlOp::Ccf => with_carry(flags, false, pc),
        ControlOp::Scf => with_carry(flags, true, pc),
        ControlOp::Di => Action::Privilege {
            op: Privileged::Disable,
        },
        ControlOp::Ei => Action::Privilege {
            op: Privileged::Enable,
        },
        ControlOp::Hlt => Action::Privilege {
            op: Privileged::Halt,
        },
        ControlOp::Brk => Action::Break,
        ControlOp::Rti => Action::Privilege {
            op: Privileged::Return,
        },
    }
}

// What an instruction asks for, by the register file and PC: two parameters, since the state has them in two of its structs.
pub(crate) fn plan(instr: Instr, file: &Registers, pc: u16) -> Action
    ensures { result ≡ planned instr file.now pc }
{
    match instr {
        Instr::Load { width, ra, rb, imm } => Action::ReadMemory {
            to: ra,
            request: Request {
                purpose: Purpose::DataLoad,
                width,
                address: address(file, rb, imm),
            },
        },
        Instr::Store { width, ra, rb, imm } => Action::WriteMemory {
            width,
            address: address(file, rb, imm),
            value: file.get(ra),
        },
        Instr::Adi { ra, rb, imm } => settle(
            register_or_link(ra),
            add(file.get(rb), modulo(i16::from(imm)), false),
            pc,
        ),
        Instr::Lui { ra, imm } => settle(register_or_link(ra), (load_upper(imm), file.flags), pc),
        Instr::Br { on, offset } => plan_branch(on, offset, file.flags, pc),
        Instr::Jal { ra, rb, imm } => Action::Settle {
            to: register_or_link(ra),
            value: next(pc),
            flags: file.flags,
            next: target(file.get_or_link(rb), imm),
        },
        Instr::Alu { op, ra, rb, rc } => settle(
            Target::Register(ra),
            compute(op, file.get(rb), file.get(rc), file.flags.c),
            pc,
        ),
        Instr::Pair { op, ra, rb } => plan_pair(op, ra, rb, file, pc),
        Instr::Sys { n } => Action::SystemCall { n },
        Instr::Unary { op, ra } => settle(Target::Register(ra), change(op, file.get(ra)), pc),
        Instr::Ji { ra } => jump(file.flags, file.get_or_link(ra)),
        Instr::Control { op } => plan_control(op, file.flags, pc),
    }
}
