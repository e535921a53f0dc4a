// Writes to any memory, and the laws that they keep. There is one function for each width: a function over both would need a trait
// with a method, a law and an `impl` for each, around one call.
ghost use Rattle.std.specs.Prelude.{◌≡◌, ◌&&◌, is_ok};
ghost use Rattle.memory.specs.Stores.{even, writable};
ghost use Rattle.memory.specs.Writes.{ByteWrite, WordWrite};

use crate::memory::{Memory, NotWritten};

// Puts a byte: a refused write changes nothing, an accepted one its byte alone.
pub fn put_byte<M: Memory>(m: &mut M, address: u64, byte: u8) -> Result<(), NotWritten>
    ensures answer { is_ok result ≡ writable (M.Memory.model m.old) address }
    ensures law { ByteWrite address byte (M.Memory.model m.old) (M.Memory.model m.new) (is_ok result) }
{
    m.write_byte(address, byte)
}

// Puts a word: a refused write changes nothing, an accepted one its two bytes alone.
pub fn put_word<M: Memory>(m: &mut M, address: u64, word: u16) -> Result<(), NotWritten>
    ensures answer { is_ok result ≡ (even address && writable (M.Memory.model m.old) address) }
    ensures law { WordWrite address word (M.Memory.model m.old) (M.Memory.model m.new) (is_ok result) }
{
    m.write_word(address, word)
}
