// What the flat memory and the image share: bytes in whole pages.
ghost use Rattle.std.specs.Prelude.{◌≡◌, ℕ, ◌+◌, ◌/◌, ◌%◌, ◌<◌, ◌&&◌, true, is_some, length, nat_lt, slice_index, if◌then◌else◌};
ghost use Rattle.memory.specs.Bytes.{bytes_store, pages_in};
ghost use Rattle.memory.specs.Kinds.{kind_number};
ghost use Rattle.memory.specs.Stores.{even, word_at, word_written};

use crate::kind::Kind;

// How many whole pages the bytes make, at most 4,096.
pub(crate) fn page_count(bytes: &[u8]) -> u64
    ensures { result ≡ pages_in (length bytes.now) }
{
    (bytes.len() / 4096).min(4096) as u64
}

// Is the page one of the whole pages?
pub(crate) fn has_page(bytes: &[u8], page: u64) -> bool
    ensures { result ≡ nat_lt page (pages_in (length bytes.now)) }
{
    page < page_count(bytes)
}

// The kind of a page, where all the whole pages are of one kind.
pub(crate) fn kind_of(bytes: &[u8], page: u64, whole: Kind) -> Kind
    ensures { kind_number result ≡ (if nat_lt page (pages_in (length bytes.now)) then kind_number whole else 0) }
{
    if has_page(bytes, page) {
        whole
    } else {
        Kind::Absent
    }
}

// Is the address even, and its page one of the whole pages?
pub(crate) fn has_word(bytes: &[u8], address: u64) -> bool
    ensures { result ≡ (even address && nat_lt (address / 4096) (pages_in (length bytes.now))) }
{
    address % 2 == 0 && has_page(bytes, address / 4096)
}

// The two bytes at an address, low byte first; none if the address is odd or its page is not there.
pub(crate) fn read_word(bytes: &[u8], address: u64) -> Option<u16>
    ensures word { (k : ℕ) → 0 < k → result ≡ word_at (bytes_store k bytes.now) address }
    ensures low { is_some result ≡ true → slice_index bytes.now address < 256 }
    ensures high { is_some result ≡ true → slice_index bytes.now (address + 1) < 256 }
{
    if !has_word(bytes, address) {
        return None;
    }
    let at = address as usize;
    Some(u16::from_le_bytes([bytes[at], bytes[at + 1]]))
}

// Puts the two bytes of a word at an even address whose page is there, low byte first.
#[tactic(auto, using(crate::proofs::ByteStores::word_put))]
pub(crate) fn put_word(bytes: &mut [u8], address: u64, word: u16)
    requires even { address % 2 ≡ 0 }
    requires there { address / 4096 < pages_in (length bytes.old) }
    ensures { bytes_store 2 bytes.new ≡ word_written (bytes_store 2 bytes.old) address word }
{
    let at = address as usize;
    let [low, high] = word.to_le_bytes();
    bytes[at] = low;
    bytes[at + 1] = high;
}
