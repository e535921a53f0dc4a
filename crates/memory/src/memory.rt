// A memory: a kind for each page of 4,096 bytes and, unless absent, the page's bytes.
ghost use Rattle.std.specs.Prelude.{◌≡◌, ◌+◌, ◌<◌, ◌≤◌, true, ◌&&◌, is_some, is_ok};
ghost use Rattle.memory.specs.Kinds.{kind_number};
ghost use Rattle.memory.specs.Stores.{Store, even, writable, word_at, word_written, byte_written};

use crate::kind::Kind;

// A write that was refused, and changed nothing.
#[derive(Clone, Copy, Debug, PartialEq, Eq)]
pub struct NotWritten;

// Pages are numbered from 0 to 4,095, and those above are absent. Physical byte `address` lies in page `address / 4096`.
// Any number may be passed.
pub trait Memory {
    // What the memory holds.
    ghost model: { Self → Store };

    // The kind of a page.
    fn kind(&self, page: u64) -> Kind
        ensures number { kind_number result ≡ (Self.Memory.model self.now).kinds page }
        ensures above { 4096 ≤ page → kind_number result ≡ 0 };

    // The two bytes at an address, low byte first; none if the address is odd or its page is absent.
    fn read_word(&self, address: u64) -> Option<u16>
        ensures word { result ≡ word_at (Self.Memory.model self.now) address }
        ensures bytes { is_some result ≡ true → ((Self.Memory.model self.now).cells address < 256) × ((Self.Memory.model self.now).cells (address + 1) < 256) };

    // Puts the two bytes of a word, low byte first; refused if the address is odd or its page is not writable.
    fn write_word(&mut self, address: u64, word: u16) -> Result<(), NotWritten>
        ensures answer { is_ok result ≡ (even address && writable (Self.Memory.model self.old) address) }
        ensures after { Self.Memory.model self.new ≡ word_written (Self.Memory.model self.old) address word };

    // Puts one byte; refused if the page is not writable.
    fn write_byte(&mut self, address: u64, byte: u8) -> Result<(), NotWritten>
        ensures answer { is_ok result ≡ writable (Self.Memory.model self.old) address }
        ensures after { Self.Memory.model self.new ≡ byte_written (Self.Memory.model self.old) address byte };
}
