// Two memories joined at a page.
ghost use Rattle.std.specs.Prelude.{◌≡◌};
ghost use Rattle.memory.specs.Joins.{join_model, joined_store, InPart, JoinTold};

use crate::kind::Kind;
use crate::memory::{Memory, NotWritten};

// Pages below `boundary` are the first's; page p from there on is the second's page p - `boundary`. Page 4,095 is the last.
// It has no model: a store holds functions, which no model may, and the three fields as one value would only lose their names.
#[derive(Drop)]
pub struct Joined<F: Memory, S: Memory> {
    first: F,
    second: S,
    boundary: u64,
}

// Which of the two memories a page is in.
#[derive(Clone, Copy)]
enum Part {
    First,
    // with the address, in the join, of its page 0
    Second { start: u64 },
}

impl<F: Memory, S: Memory> Joined<F, S> {
    // The two memories, the second from page `boundary` on.
    pub fn new(first: F, second: S, boundary: u64) -> Joined<F, S>
        ensures model { join_model F.Memory.model S.Memory.model result ≡ joined_store boundary (F.Memory.model first) (S.Memory.model second) }
        ensures parts { (result.first ≡ first) × (result.second ≡ second) × (result.boundary ≡ boundary) }
    {
        Joined {
            first,
            second,
            boundary,
        }
    }

    // The two memories again, as they are now.
    #[tactic(auto, using(crate::proofs::Joins::join_told))]
    pub fn into_parts(self) -> (F, S)
        ensures parts { (result.0 ≡ self.first) × (result.1 ≡ self.second) }
        ensures told { JoinTold self.boundary (F.Memory.model result.0) (S.Memory.model result.1) }
    {
        let Joined {
            first,
            second,
            boundary: _,
        } = self;
        (first, second)
    }

    // The part that a page is in; none above the last page.
    fn part(&self, page: u64) -> Option<Part>
        ensures { InPart self.now.boundary page result }
    {
        if page >= 4096 {
            None
        } else if page < self.boundary {
            Some(Part::First)
        } else {
            Some(Part::Second {
                start: 4096 * self.boundary,
            })
        }
    }
}

impl<F: Memory, S: Memory> Memory for Joined<F, S> {
    ghost model = { join_model F.Memory.model S.Memory.model };

    fn kind(&self, page: u64) -> Kind {
        match self.part(page) {
            Some(Part::First) => self.first.kind(page),
            Some(Part::Second { .. }) => self.second.kind(page - self.boundary),
            None => Kind::Absent,
        }
    }

    fn read_word(&self, address: u64) -> Option<u16> {
        match self.part(address / 4096)? {
            Part::First => self.first.read_word(address),
            Part::Second { start } => self.second.read_word(address - start),
        }
    }

    #[tactic(auto, using(crate::proofs::Joins::first_written, crate::proofs::Joins::second_written))]
    fn write_word(&mut self, address: u64, word: u16) -> Result<(), NotWritten> {
        match self.part(address / 4096).ok_or(NotWritten)? {
            Part::First => self.first.write_word(address, word),
            Part::Second { start } => self.second.write_word(address - start, word),
        }
    }

    fn write_byte(&mut self, address: u64, byte: u8) -> Result<(), NotWritten> {
        match self.part(address / 4096).ok_or(NotWritten)? {
            Part::First => self.first.write_byte(address, byte),
            Part::Second { start } => self.second.write_byte(address - start, byte),
        }
    }
}
