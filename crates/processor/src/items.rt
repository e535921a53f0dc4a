// A register set as numbered items.
ghost use Rattle.std.specs.Prelude.{◌≡◌, if◌then◌else◌, Some, None, nat_le};
ghost use Rattle.processor.specs.Calls.{item_of, last_item};

use crate::event::Space;
use crate::state::RegSet;

impl RegSet {
    // Item 0 to 7 is a register, 8 LINK, 9 the flags in bits 0 to 3, 10 to 25 the code map, 26 to 41 the data map; others
    // there are none.
    pub fn item(&self, i: u64) -> Option<u16>
        ensures { result ≡ (if nat_le i last_item then Some (item_of self.now i) else None) }
    {
        match i {
            0..=7 => Some(self.file.get(i as u8)),
            8 => Some(self.file.link),
            9 => Some(u16::from(self.file.flags)),
            10..=25 => Some(self.maps.word(Space::Code, (i - 10) as usize)),
            26..=41 => Some(self.maps.word(Space::Data, (i - 26) as usize)),
            _ => None,
        }
    }
}
