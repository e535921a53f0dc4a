// From a word to its instruction.
ghost use Rattle.std.specs.Prelude.{◌≡◌, ◌*◌, ◌/◌, ◌%◌, ◌<◌, ◌≤◌, IfOk, Ok};
ghost use Rattle.isa.specs.Refusals.{numbered};
ghost use Rattle.isa.specs.Words.{bits, reg_a, reg_b, reg_c, condition, signed, imm7, imm10, level2, decoded, encoded};
ghost use Rattle.isa.specs.declared.instr.Instr.TheVariants.{Load, Store, Adi, Lui, Br, Jal, Alu, Pair, Unary, Control};

use crate::instr::{AluOp, Condition, ControlOp, Instr, PairOp, UnaryOp, Width};
use crate::refusal::Refusal;

// No TryFrom: three bits have no other value, so its error would never come, and `decode` would have to rule it out.
fn condition_of(n: u16) -> Condition
    requires { n < 8 }
    ensures { result ≡ condition n }
{
    match n {
        0 => Condition::Always,
        1 => Condition::AlwaysLink,
        2 => Condition::Zero,
        3 => Condition::NotZero,
        4 => Condition::Carry,
        5 => Condition::NotCarry,
        6 => Condition::SignedGreaterEqual,
        _ => Condition::SignedLess,
    }
}

// The places of the register fields: rA in bits 2 to 0, rB in bits 5 to 3, rC in bits 8 to 6.
const A: u16 = 1;

const B: u16 = 8;

const C: u16 = 64;

// The register field at a place.
fn register<const PLACE: u16>(word: u16) -> u8
    requires { 0 < PLACE }
    ensures { result ≡ word / PLACE % 8 }
{
    (word / PLACE % 8) as u8
}

// A field of the numbers below 2 * HALF, read as a signed number.
fn signed<const HALF: u16>(field: u16) -> i16
    requires half { HALF ≤ 512 }
    requires field { field < 2 * HALF }
    ensures { result ≡ signed HALF field }
{
    let n = field as i16;
    if field < HALF { n } else { n - 2 * HALF as i16 }
}

// Two registers and, in bits 12 to 6, a number from -64 to 63.
fn operands(word: u16) -> (u8, u8, i8)
    ensures { result ≡ (reg_a word, reg_b word, imm7 word) }
{
    let imm = signed::<64>(word / 64 % 128);
    (register::<A>(word), register::<B>(word), imm as i8)
}

// The instructions of one format, with the fields of the word. Each has a function, since a literal of a variant takes lines of
// its own in `decode`.

fn load(width: Width, word: u16) -> Instr
    ensures { result ≡ Load width (reg_a word) (reg_b word) (imm7 word) }
{
    let (ra, rb, imm) = operands(word);
    Instr::Load { width, ra, rb, imm }
}

fn store(width: Width, word: u16) -> Instr
    ensures { result ≡ Store width (reg_a word) (reg_b word) (imm7 word) }
{
    let (ra, rb, imm) = operands(word);
    Instr::Store { width, ra, rb, imm }
}

fn adi(word: u16) -> Instr
    ensures { result ≡ Adi (reg_a word) (reg_b word) (imm7 word) }
{
    let (ra, rb, imm) = operands(word);
    Instr::Adi { ra, rb, imm }
}

fn lui(word: u16) -> Instr
    ensures { result ≡ Lui (reg_a word) (bits 3 10 word) }
{
    let (ra, imm) = (register::<A>(word), word / 8 % 1024);
    Instr::Lui { ra, imm }
}

fn br(word: u16) -> Instr
    ensures { result ≡ Br (condition (word % 8)) (imm10 word) }
{
    let (on, offset) = (condition_of(word % 8), signed::<512>(word / 8 % 1024));
    Instr::Br { on, offset }
}

fn jal(word: u16) -> Instr
    ensures { result ≡ Jal (reg_a word) (reg_b word) (bits 6 6 word) }
{
    let (ra, rb, imm) = (
        register::<A>(word),
        register::<B>(word),
        (word / 64 % 64) as u8,
    );
    Instr::Jal { ra, rb, imm }
}

fn alu(op: AluOp, word: u16) -> Instr
    ensures { result ≡ Alu op (reg_a word) (reg_b word) (reg_c word) }
{
    let (ra, rb, rc) = (
        register::<A>(word),
        register::<B>(word),
        register::<C>(word),
    );
    Instr::Alu { op, ra, rb, rc }
}

fn pair(op: PairOp, word: u16) -> Instr
    ensures { result ≡ Pair op (reg_a word) (reg_b word) }
{
    let (ra, rb) = (register::<A>(word), register::<B>(word));
    Instr::Pair { op, ra, rb }
}

fn unary(op: UnaryOp, word: u16) -> Instr
    ensures { result ≡ Unary op (reg_a word) }
{
    let ra = register::<A>(word);
    Instr::Unary { op, ra }
}

fn control(op: ControlOp) -> Instr
    ensures { result ≡ Control op }
{
    Instr::Control { op }
}

// The instructions with two registers, one or none, whose words have bits 15 to 9 all 1. No TryFrom gives an operation of its
// number: a level mixes formats (5 is SYS, 6 is JI, and the last goes on to the next level), and would be tested twice.
fn few_registers(word: u16) -> Result<Instr, Refusal>
    requires { 0xFE00 ≤ word }
    ensures means { numbered result ≡ level2 word }
    ensures back { IfOk result (λ i. encoded i ≡ Ok word) }
{
    match word / 64 % 8 {
        0 => Ok(pair(PairOp::Lsp, word)),
        1 => Ok(pair(PairOp::Lsi, word)),
        2 => Ok(pair(PairOp::Ssp, word)),
        3 => Ok(pair(PairOp::Ssi, word)),
        4 => Ok(pair(PairOp::Lcw, word)),
        5 if register::<B>(word) != 0 => Err(Refusal::IllegalWord),
        5 => Ok(Instr::Sys {
            n: register::<A>(word),
        }),
        6 => Ok(pair(PairOp::Tst, word)),
        _ => match word / 8 % 8 {
            0 => Ok(unary(UnaryOp::Not, word)),
            1 => Ok(unary(UnaryOp::Neg, word)),
            2 => Ok(unary(UnaryOp::Dub, word)),
            3 => Ok(unary(UnaryOp::Sxt, word)),
            4 => Ok(unary(UnaryOp::Sra, word)),
            5 => Ok(unary(UnaryOp::Srl, word)),
            6 => Ok(Instr::Ji {
                ra: register::<A>(word),
            }),
            _ => match word % 8 {
                0 => Ok(control(ControlOp::Ccf)),
                1 => Ok(control(ControlOp::Scf)),
                2 => Ok(control(ControlOp::Di)),
                3 => Ok(control(ControlOp::Ei)),
                4 => Ok(control(ControlOp::Hlt)),
                5 => Ok(control(ControlOp::Brk)),
                6 => Ok(control(ControlOp::Rti)),
                _ => Err(Refusal::IllegalWord),
            },
        },
    }
}

// The instruction of a word. A word that is none is refused with 1. It is made part of its callers: called once for each step of
// a processor, it costs a third of the step's speed.
#[inline(always)]
#[tactic(auto, using(crate::proofs::WordsBack::level2_is, std::proofs::lemmas::Bool::Decides::nat_tests))]
pub fn decode(word: u16) -> Result<Instr, Refusal>
    ensures means { numbered result ≡ decoded word }
    ensures back { IfOk result (λ i. encoded i ≡ Ok word) }
{
    match word / 8192 % 8 {
        0 if word == 0 => Err(Refusal::IllegalWord),
        0 => Ok(load(Width::Word, word)),
        1 => Ok(load(Width::Byte, word)),
        2 => Ok(store(Width::Word, word)),
        3 => Ok(store(Width::Byte, word)),
        4 => Ok(adi(word)),
        5 => Ok(lui(word)),
        6 => Ok(br(word)),
        _ => match word / 512 % 16 {
            0..=7 => Ok(jal(word)),
            8 => Ok(alu(AluOp::Sbb, word)),
            9 => Ok(alu(AluOp::Adc, word)),
            10 => Ok(alu(AluOp::Sub, word)),
            11 => Ok(alu(AluOp::Add, word)),
            12 => Ok(alu(AluOp::Xor, word)),
            13 => Ok(alu(AluOp::Or, word)),
            14 => Ok(alu(AluOp::And, word)),
            _ => {
                // in a variable, since the proof of the other arms takes longer where this call is an arm's value
                let few = few_registers(word);
                few
            }
        },
    }
}
