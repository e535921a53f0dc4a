// The access check: a word at an odd address, then the map, then the page.
ghost use Rattle.std.specs.Prelude.{◌≡◌, ◌/◌, ◌%◌, cond, slice_index_or, slice_set};
ghost use Rattle.memory.specs.Stores.{present};
ghost use Rattle.processor.specs.Actions.{word_of};
ghost use Rattle.processor.specs.Access.{space_of, word_in, with_word, odd, admits, physical, read_at, byte_at, accessed};

use crate::event::{Cause, Space};
use crate::state::Maps;
use alu::logic::sxt;
use isa::instr::Width;
use memory::{Kind, Memory};

// What an access is for.
#[derive(Clone, Copy)]
pub enum Purpose {
    // a word that is to be carried out
    Fetch,
    // LCW
    CodeLoad,
    DataLoad,
    DataStore,
}

// An access that is asked for.
#[derive(Clone, Copy)]
pub struct Request {
    pub purpose: Purpose,
    pub width: Width,
    pub address: u16,
}

impl Request {
    // An access to a word.
    pub(crate) fn word(purpose: Purpose, address: u16) -> Request
        ensures { result ≡ word_of purpose address }
    {
        Request {
            purpose,
            width: Width::Word,
            address,
        }
    }
}

// What an access that is granted leads to: the physical address, and the value that is found there; 0 for a store, and both 0 where
// an action makes no access. No Option: only actions that have asked for an access read it, and each would take the Some apart.
#[derive(Clone, Copy)]
pub struct Found {
    pub at: u64,
    pub value: u16,
}

// Map word i of sixteen; a map word that does not exist admits nothing.
fn word_at(words: &[u16; 16], i: usize) -> u16
    ensures { result ≡ slice_index_or words.now i 3 }
{
    words.get(i).copied().unwrap_or(3)
}

// By index: `get_mut` was tried, and the proof does not know the elements after a write through it.
fn put_word_at(words: &mut [u16; 16], i: usize, word: u16)
    ensures { words.new ≡ slice_set words.old i word }
{
    if i < 16 {
        words[i] = word;
    }
}

impl Maps {
    // Map word i for a space.
    pub(crate) fn word(&self, space: Space, i: usize) -> u16
        ensures { result ≡ word_in self.now space i }
    {
        match space {
            Space::Code => word_at(&self.codes, i),
            Space::Data => word_at(&self.datas, i),
        }
    }

    pub(crate) fn put(&mut self, space: Space, i: usize, word: u16)
        ensures { self.new ≡ with_word self.old space i word }
    {
        match space {
            Space::Code => put_word_at(&mut self.codes, i, word),
            Space::Data => put_word_at(&mut self.datas, i, word),
        }
    }
}

impl Purpose {
    // The space that an access goes to.
    pub(crate) fn space(self) -> Space
        ensures { result ≡ space_of self }
    {
        match self {
            Purpose::Fetch | Purpose::CodeLoad => Space::Code,
            Purpose::DataLoad | Purpose::DataStore => Space::Data,
        }
    }

    // Does the map word admit the access? Its lowest two bits tell.
    fn admitted_by(self, word: u16) -> bool
        ensures { result ≡ admits self word }
    {
        match self {
            Purpose::Fetch | Purpose::CodeLoad | Purpose::DataLoad => word % 4 < 2,
            Purpose::DataStore => word % 4 == 0,
        }
    }
}

fn is_odd(width: Width, address: u16) -> bool
    ensures { result ≡ odd width address }
{
    width == Width::Word && address % 2 == 1
}

// The physical address that a map word gives an address.
fn physical(word: u16, address: u16) -> u64
    ensures is { result ≡ physical word address }
    ensures page { result / 4096 ≡ word / 16 }
    ensures parity { result % 2 ≡ address % 2 }
{
    u64::from(word / 16) * 4096 + u64::from(address % 4096)
}

// The byte at a physical address, none if its page is absent.
fn read_byte<M: Memory>(memory: &M, at: u64) -> Option<u8>
    ensures { result ≡ byte_at (M.Memory.model memory.now) at }
{
    let [low, high] = memory.read_word(at - at % 2)?.to_le_bytes();
    Some(if at % 2 == 0 { low } else { high })
}

// What a load finds at a physical address: a word, or a byte with its sign extended.
fn read<M: Memory>(memory: &M, width: Width, at: u64) -> Option<u16>
    ensures { result ≡ read_at (M.Memory.model memory.now) width at }
{
    match width {
        Width::Word => memory.read_word(at),
        Width::Byte => Some(sxt(u16::from(read_byte(memory, at)?)).0),
    }
}

// The access check, with what a load finds. It is made part of its two callers, which every step goes through.
#[inline(always)]
pub(crate) fn access<M: Memory>(maps: &Maps, memory: &M, request: Request) -> Result<Found, Cause>
    ensures { result ≡ accessed (M.Memory.model memory.now) maps.now request }
{
    if is_odd(request.width, request.address) {
        return Err(Cause::Odd);
    }
    let word = maps.word(request.purpose.space(), usize::from(request.address / 4096));
    if !request.purpose.admitted_by(word) {
        return Err(Cause::Map);
    }
    let at = physical(word, request.address);
    match request.purpose {
        Purpose::DataStore => match memory.kind(at / 4096) {
            Kind::Writable => Ok(Found { at, value: 0 }),
            Kind::Fixed | Kind::Absent => Err(Cause::Page),
        },
        Purpose::Fetch | Purpose::CodeLoad | Purpose::DataLoad => {
            let value = read(memory, request.width, at).ok_or(Cause::Page)?;
            Ok(Found { at, value })
        }
    }
}
