//! The three engines, each with the room that it is lent.
ghost use Rattle.engines.specs.Bytes.{bytes_lacked};
ghost use Rattle.engines.specs.Lacks.{entries_lacked, nothing_lacked};
ghost use Rattle.std.specs.Prelude.{length};

use crate::finder::Finder;
use answers::Refusal;
use choices::Ring;
use order::Bag;

/// The scan, which takes no room.
#[derive(Clone, Copy)]
pub struct Scan;

/// The two halves, in lent entries: `halves::room_for` of the pans are enough, and `halves::ROOM` for every ring.
#[derive(Drop)]
pub struct Halves<'a> {
    pub entries: &'a mut [u64],
}

/// The table by weight, in lent bytes: `table::room_for` of the ring are enough.
#[derive(Drop)]
pub struct Table<'a> {
    pub bytes: &'a mut [u8],
}

impl Finder for Scan {
    ghost lacks = { nothing_lacked };

    fn suffices(&self, _ring: Ring) -> Result<(), Refusal> {
        Ok(())
    }

    fn best(&mut self, ring: Ring) -> Option<Bag> {
        search::best(ring)
    }
}

impl<'a> Finder for Halves<'a> {
    ghost lacks = { λ f r s. entries_lacked s (length f.entries.now) };

    fn suffices(&self, ring: Ring) -> Result<(), Refusal> {
        let takes = halves::room_for(ring.weights.len());
        Refusal::unless_room(takes, self.entries.len())
    }

    fn best(&mut self, ring: Ring) -> Option<Bag> {
        halves::best(ring, self.entries)
    }
}

impl<'a> Finder for Table<'a> {
    ghost lacks = { λ f r s. bytes_lacked r s (length f.bytes.now) };

    fn suffices(&self, ring: Ring) -> Result<(), Refusal> {
        if table::most_room_for(ring) <= self.bytes.len() {
            return Ok(());
        }
        let takes = table::room_for(ring);
        Refusal::unless_room(takes, self.bytes.len())
    }

    fn best(&mut self, ring: Ring) -> Option<Bag> {
        table::best(ring, self.bytes)
    }
}
