// Code over any memory.
use isa::refusal::Refusal;
use memory::{Kind, Memory};
use std::alloc::{AllocError, Global};

// So many bytes, all 0.
pub(crate) fn zeros(heap: Global, len: usize) -> Result<Vec<u8>, AllocError> {
    vec![in heap; 0; len]
}

// The byte at a place, if there is one.
pub(crate) fn byte_at(bytes: &[u8], at: usize) -> Option<u8> {
    bytes.get(at).copied()
}

// The number of the refusal, if there is one.
pub(crate) fn refusal_number<T: Drop>(r: Result<T, Refusal>) -> Option<u8> {
    r.err().map(Refusal::number)
}

// The word at an address.
pub(crate) fn word<M: Memory>(m: &M, address: u64) -> Option<u16> {
    m.read_word(address)
}

// How many pages are fixed, and how many writable, among the first 4,200.
pub(crate) fn census<M: Memory>(m: &M) -> (usize, usize) {
    let count = |kind| (0..4200).filter(|page| m.kind(*page) == kind).count();
    (count(Kind::Fixed), count(Kind::Writable))
}

// Are the word and the byte both refused, and the word there as it was?
pub(crate) fn refuses<M: Memory>(m: &mut M, address: u64) -> bool {
    let before = m.read_word(address);
    let word = m.write_word(address, 0xABCD).is_err();
    let byte = m.write_byte(address, 0xEF).is_err();
    word && byte && m.read_word(address) == before
}

// Is no page there whose number or address is above those of the last page?
pub(crate) fn ends_at_the_last_page<M: Memory>(m: &mut M) -> bool {
    m.kind(4096) == Kind::Absent
        && m.kind(u64::MAX) == Kind::Absent
        && m.read_word(16_777_216).is_none()
        && m.read_word(u64::MAX - 1).is_none()
        && m.read_word(u64::MAX).is_none()
        && refuses(m, 16_777_216)
        && refuses(m, u64::MAX - 1)
        && refuses(m, u64::MAX)
}
