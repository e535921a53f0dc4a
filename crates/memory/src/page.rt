// Filling one page of any memory, and reading one over.
ghost use Rattle.std.specs.Prelude.{◌≡◌, ◌≢◌, ◌%◌, ◌<◌, is_ok};
ghost use Rattle.isa.specs.Refusals.{numbered};
ghost use Rattle.memory.specs.Pages.{illegal, illegal_at, loaded, FirstIllegal, Proofread};
ghost use Rattle.memory.specs.Writes.{Load};

use crate::kind::Kind;
use crate::memory::Memory;
use isa::decode::decode;
use isa::refusal::Refusal;

// Fills one page. Refused with 3 if the bytes are not 4,096, and with 4 if the page is not writable.
pub fn load<M: Memory>(m: &mut M, page: u64, bytes: &[u8]) -> Result<(), Refusal>
    ensures whole { (numbered result, M.Memory.model m.new) ≡ loaded (M.Memory.model m.old) page bytes.now }
    ensures law { Load page bytes.now (M.Memory.model m.old) (M.Memory.model m.new) (is_ok result) }
{
    if bytes.len() != 4096 {
        return Err(Refusal::NotOnePage);
    }
    if m.kind(page) != Kind::Writable {
        return Err(Refusal::PageKind);
    }
    for (offset, byte) in bytes.iter().enumerate() {
        m.write_byte(4096 * page + offset as u64, *byte).unwrap();
    }
    Ok(())
}

// The offset in the page of its first illegal word, or none. Refused with 4 if the page is absent.
pub fn proofread<M: Memory>(m: &M, page: u64) -> Result<Option<u16>, Refusal>
    ensures { Proofread (M.Memory.model m.now) page (numbered result) }
{
    if m.kind(page) == Kind::Absent {
        return Err(Refusal::PageKind);
    }
    let first = (0..4096)
        .step_by(2)
        .find(|offset| is_illegal_at(m, page, *offset));
    Ok(first)
}

// Is the word illegal at this offset of a page that is there?
fn is_illegal_at<M: Memory>(m: &M, page: u64, offset: u16) -> bool
    requires there { (M.Memory.model m.now).kinds page ≢ 0 }
    requires low { page < 4096 }
    requires inside { offset < 4096 }
    ensures { offset % 2 ≡ 0 → result ≡ illegal_at (M.Memory.model m.now) page offset }
{
    m.read_word(4096 * page + u64::from(offset))
        .is_some_and(is_illegal)
}

#[tactic(auto, using(isa::proofs::Numbering::err_numbered), unfolding(crate::specs::Pages::illegal))]
fn is_illegal(word: u16) -> bool
    ensures { result ≡ illegal word }
{
    decode(word).is_err()
}
