// The worked examples of the instruction words and of the arithmetic, and that of the map.
ghost use Rattle.std.specs.Prelude.{◌≡◌, [], ◌∷◌, Ok};
ghost use Rattle.laws.specs.Examples.{Examples};
ghost use Rattle.laws.specs.MapExample.{MapExamples};

use isa::encode::encode;
use isa::instr::{AluOp, Condition, Instr, Width};
use isa::refusal::Refusal;

// The worked example of the map holds of the definitions. A law is proved where a function's contract names it, so the
// function itself does nothing.
#[tactic(auto, using(std::proofs::lemmas::Bool::Decides::nat_tests))]
fn map_example()
    ensures { MapExamples }
{}

// The words of the examples, as they are written; the table of examples holds of the definitions.
pub fn worked_examples() -> Result<[u16; 7], Refusal>
    ensures table { Examples }
    ensures words { result ≡ Ok (0x8141 ∷ 0xA242 ∷ 0xF68B ∷ 0xDFE2 ∷ 0xEF91 ∷ 0x3FD1 ∷ 0xFF43 ∷ []) }
{
    Ok([
        encode(Instr::Adi {
            ra: 1,
            rb: 0,
            imm: 5,
        })?,
        encode(Instr::Lui { ra: 2, imm: 0x48 })?,
        encode(Instr::Alu {
            op: AluOp::Add,
            ra: 3,
            rb: 1,
            rc: 2,
        })?,
        encode(Instr::Br {
            on: Condition::Zero,
            offset: -4,
        })?,
        encode(Instr::Jal {
            ra: 1,
            rb: 2,
            imm: 62,
        })?,
        encode(Instr::Load {
            width: Width::Byte,
            ra: 1,
            rb: 2,
            imm: -1,
        })?,
        encode(Instr::Sys { n: 3 })?,
    ])
}
