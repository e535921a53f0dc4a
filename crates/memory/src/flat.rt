// The flat memory: bytes that are handed over, in whole pages, all writable.
ghost use Rattle.std.specs.Prelude.{◌≡◌};
ghost use Rattle.memory.specs.Bytes.{bytes_store, flat_store, BytesTold};

use crate::bytes::{has_page, has_word, kind_of, put_word, read_word};
use crate::kind::Kind;
use crate::memory::{Memory, NotWritten};
use std::marker::Model;

// The whole pages of `bytes`, at most 4,096. What is left after them is kept, and never touched.
#[derive(Drop)]
pub struct Flat {
    bytes: Vec<u8>,
}

// In clauses a flat memory is the list of its bytes.
impl Model for Flat {
    ghost use Rattle.std.specs.Prelude.{ℕ, List};

    ghost Value = { List ℕ };

    ghost view = { λ m. m.bytes.items };
}

impl Flat {
    // A memory of these bytes.
    pub fn new(content: Vec<u8>) -> Flat
        ensures model { flat_store result ≡ bytes_store 2 content.items }
        ensures bytes { result ≡ content.items }
    {
        Flat { bytes: content }
    }

    // The bytes again, as they are now.
    #[tactic(auto, using(crate::proofs::ByteStores::bytes_told))]
    pub fn into_bytes(self) -> Vec<u8>
        ensures bytes { result.items ≡ self }
        ensures told { BytesTold 2 result.items }
    {
        let Flat { bytes } = self;
        bytes
    }
}

impl Memory for Flat {
    ghost model = { flat_store };

    fn kind(&self, page: u64) -> Kind {
        kind_of(&self.bytes, page, Kind::Writable)
    }

    fn read_word(&self, address: u64) -> Option<u16> {
        read_word(&self.bytes, address)
    }

    fn write_word(&mut self, address: u64, word: u16) -> Result<(), NotWritten> {
        if !has_word(&self.bytes, address) {
            return Err(NotWritten);
        }
        put_word(&mut self.bytes, address, word);
        Ok(())
    }

    #[tactic(auto, using(crate::proofs::ByteStores::byte_put))]
    fn write_byte(&mut self, address: u64, byte: u8) -> Result<(), NotWritten> {
        if !has_page(&self.bytes, address / 4096) {
            return Err(NotWritten);
        }
        self.bytes[address as usize] = byte;
        Ok(())
    }
}
