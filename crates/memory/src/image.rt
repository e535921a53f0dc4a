// The image: a slice of bytes, in whole pages, all fixed.
ghost use Rattle.std.specs.Prelude.{◌≡◌, length};
ghost use Rattle.memory.specs.Bytes.{bytes_store, bytes_after, pages_in, BytesTold};

use crate::bytes::{kind_of, page_count, read_word};
use crate::kind::Kind;
use crate::memory::{Memory, NotWritten};

// The whole pages of `bytes`, at most 4,096. What is left after them is in no page.
// It has no model, which a `Copy` struct with a lifetime may not have: no list of bytes gives a reference back.
#[derive(Clone, Copy)]
pub struct Image<'a> {
    bytes: &'a [u8],
}

impl<'a> Image<'a> {
    // A memory of these bytes.
    pub fn new(content: &'a [u8]) -> Image<'a>
        ensures model { bytes_store 1 result.bytes.now ≡ bytes_store 1 content.now }
        ensures bytes { result.bytes.now ≡ content.now }
    {
        Image { bytes: content }
    }

    // The bytes again.
    #[tactic(auto, using(crate::proofs::ByteStores::bytes_told))]
    pub fn into_slice(self) -> &'a [u8]
        ensures bytes { result.now ≡ self.entry.bytes.now }
        ensures told { BytesTold 1 result.now }
    {
        let Image { bytes } = self;
        bytes
    }

    // How many pages it has.
    pub fn page_count(&self) -> u64
        ensures { result ≡ pages_in (length self.now.bytes.now) }
    {
        page_count(self.bytes)
    }

    // The bytes after the whole pages.
    pub fn tail(&self) -> &[u8]
        ensures { result.now ≡ bytes_after self.now.bytes.now }
    {
        let end = 4096 * self.page_count() as usize;
        &self.bytes[end..]
    }
}

impl<'a> Memory for Image<'a> {
    ghost model = { λ m. bytes_store 1 m.bytes.now };

    fn kind(&self, page: u64) -> Kind {
        kind_of(self.bytes, page, Kind::Fixed)
    }

    fn read_word(&self, address: u64) -> Option<u16> {
        read_word(self.bytes, address)
    }

    fn write_word(&mut self, _address: u64, _word: u16) -> Result<(), NotWritten> {
        Err(NotWritten)
    }

    fn write_byte(&mut self, _address: u64, _byte: u8) -> Result<(), NotWritten> {
        Err(NotWritten)
    }
}
