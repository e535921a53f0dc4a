// Words and instructions are one to one.
ghost use Rattle.std.specs.Prelude.{◌≡◌, ◌+◌, is_ok, is_err};
ghost use Rattle.isa.specs.Refusals.{numbered};
ghost use Rattle.isa.specs.Words.{decoded};
ghost use Rattle.word_laws.specs.Words.{illegal_word, word_again, instr_again, count, OneToOne};

use isa::decode::decode;
use isa::encode::encode;
use isa::instr::Instr;
use isa::refusal::Refusal;

// Is the word one of the illegal ones: 0x0000, 0xFFFF, or the system call with rB not 0?
pub fn is_illegal(word: u16) -> bool
    ensures listed { result ≡ illegal_word word }
    ensures refused { result ≡ is_err (decoded word) }
{
    matches!(word, 0 | 0xFFFF | 0xFF48..=0xFF7F)
}

// How many of the words up to `last` are illegal, each of them decoded.
fn illegal_up_to(last: u16) -> u32
    ensures { result ≡ count (λ w. is_err (decoded w)) (last + 1) }
{
    (0..=last).filter(|word| decode(*word).is_err()).count() as u32
}

// How many of the 65,536 words are illegal.
#[tactic(auto, using(crate::proofs::AllWords::illegal_count))]
pub fn illegal_word_count() -> u32
    ensures counts { result ≡ count (λ w. is_err (decoded w)) 65536 }
    ensures number { result ≡ 58 }
{
    illegal_up_to(u16::MAX)
}

// How many of the 65,536 words are an instruction: each is one, and no instruction has two words.
#[tactic(auto, using(crate::proofs::AllWords::counted, crate::proofs::AllWords::one_to_one))]
pub fn instruction_count() -> u32
    ensures counts { result ≡ count (λ w. is_ok (decoded w)) 65536 }
    ensures number { result ≡ 65478 }
    ensures one_to_one { OneToOne }
{
    65_536 - illegal_word_count()
}

// Decodes the word and encodes what it is: every word that is an instruction comes back.
pub fn word_again(word: u16) -> Result<u16, Refusal>
    ensures { numbered result ≡ word_again word }
{
    encode(decode(word)?)
}

// Encodes the instruction and decodes its word: every instruction that has a word comes back.
pub fn instr_again(instr: Instr) -> Result<Instr, Refusal>
    ensures { numbered result ≡ instr_again instr }
{
    decode(encode(instr)?)
}
