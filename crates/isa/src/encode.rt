// From an instruction to its word.
ghost use Rattle.std.specs.Prelude.{◌≡◌, ◌+◌, ◌*◌, ◌≤◌, ◌&&◌, true, nat_lt, IfOk, Ok};
ghost use Rattle.isa.specs.Refusals.{numbered};
ghost use Rattle.isa.specs.Words.{within, bits_of, fits, word_of, encoded, decoded};

use crate::instr::Instr;
use crate::refusal::Refusal;

// A signed number as a field of the numbers below 2 * HALF.
fn bits_of<const HALF: u16>(number: i16) -> u16
    requires half { HALF ≤ 512 }
    requires within { within HALF number ≡ true }
    ensures { result ≡ bits_of HALF number }
{
    number.rem_euclid(2 * HALF as i16) as u16
}

// Two registers and a signed immediate of seven bits: three numbers and no struct, since callers write them as fields of `Instr`.
fn operands_fit(ra: u8, rb: u8, imm: i8) -> bool
    ensures { result ≡ (nat_lt ra 8 && (nat_lt rb 8 && within 64 imm)) }
{
    ra < 8 && rb < 8 && -64 <= imm && imm < 64
}

fn fields_fit(instr: Instr) -> bool
    ensures { result ≡ fits instr }
{
    match instr {
        // three arms alike: tried as one and as two, and the check fails at this function then, at the signed byte
        Instr::Load { ra, rb, imm, .. } => operands_fit(ra, rb, imm),
        Instr::Store { ra, rb, imm, .. } => operands_fit(ra, rb, imm),
        Instr::Adi { ra, rb, imm } => operands_fit(ra, rb, imm),
        Instr::Lui { ra, imm } => ra < 8 && imm < 1024,
        Instr::Br { offset, .. } => -512 <= offset && offset < 512,
        Instr::Jal { ra, rb, imm } => ra < 8 && rb < 8 && imm < 64,
        Instr::Alu { ra, rb, rc, .. } => ra < 8 && rb < 8 && rc < 8,
        Instr::Pair { ra, rb, .. } => ra < 8 && rb < 8,
        Instr::Sys { n } => n < 8,
        Instr::Unary { ra, .. } | Instr::Ji { ra } => ra < 8,
        Instr::Control { .. } => true,
    }
}

// Two register fields, rB and rA, at the word's lower end.
fn registers(ra: u8, rb: u8) -> u16
    ensures { result ≡ 8 * rb + ra }
{
    8 * u16::from(rb) + u16::from(ra)
}

// Two registers and a signed immediate of seven bits, each at its place.
fn operands(ra: u8, rb: u8, imm: i8) -> u16
    requires { within 64 imm ≡ true }
    ensures { result ≡ 64 * bits_of 64 imm + 8 * rb + ra }
{
    64 * bits_of::<64>(i16::from(imm)) + registers(ra, rb)
}

fn word_of(instr: Instr) -> u16
    requires { fits instr ≡ true }
    ensures { result ≡ word_of instr }
{
    match instr {
        Instr::Load { width, ra, rb, imm } => 0x2000 * width as u16 + operands(ra, rb, imm),
        Instr::Store { width, ra, rb, imm } => 0x4000
            + 0x2000 * width as u16
            + operands(ra, rb, imm),
        Instr::Adi { ra, rb, imm } => 0x8000 + operands(ra, rb, imm),
        Instr::Lui { ra, imm } => 0xA000 + 8 * imm + u16::from(ra),
        Instr::Br { on, offset } => 0xC000 + 8 * bits_of::<512>(offset) + on as u16,
        Instr::Jal { ra, rb, imm } => 0xE000 + 64 * u16::from(imm) + registers(ra, rb),
        Instr::Alu { op, ra, rb, rc } => 0xF000
            + 512 * op as u16
            + 64 * u16::from(rc)
            + registers(ra, rb),
        Instr::Pair { op, ra, rb } => 0xFE00 + 64 * op as u16 + registers(ra, rb),
        Instr::Sys { n } => 0xFF40 + u16::from(n),
        Instr::Unary { op, ra } => 0xFFC0 + 8 * op as u16 + u16::from(ra),
        Instr::Ji { ra } => 0xFFF0 + u16::from(ra),
        Instr::Control { op } => 0xFFF8 + op as u16,
    }
}

// The one word of an instruction. Refused with 2: a field too wide for its bits, and LDW with all fields 0.
pub fn encode(instr: Instr) -> Result<u16, Refusal>
    ensures means { numbered result ≡ encoded instr }
    ensures back { IfOk result (λ w. decoded w ≡ Ok instr) }
{
    if !fields_fit(instr) {
        return Err(Refusal::NoSuchWord);
    }
    match word_of(instr) {
        0 => Err(Refusal::NoSuchWord),
        word => Ok(word),
    }
}
