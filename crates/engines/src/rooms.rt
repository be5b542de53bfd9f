//! Rooms lent for every engine, and which of them runs in these.
ghost use Rattle.engines.specs.Lacks.{nothing_lacked};

use crate::finder::Finder;
use answers::Refusal;
use choices::Ring;
use order::Bag;

/// Entries for the two halves, and bytes for the table by weight, however many there are: `halves::ROOM` entries and
/// `TABLE_ROOM` bytes serve every ring as fast as can be. Where neither engine has enough, the scan runs.
#[derive(Drop)]
pub struct Rooms<'a> {
    pub entries: &'a mut [u64],
    pub bytes: &'a mut [u8],
}

impl<'a> Rooms<'a> {
    ghost use Rattle.answers.specs.Refusals.{passed};
    ghost use Rattle.std.specs.Prelude.{◌≡◌, ◌≤◌, length};
    ghost use Rattle.engines.specs.Lacks.{too_few_entries};
    ghost use Rattle.choices.specs.declared.limits.TheConstants.{PANS};

    /// Refusal 5, with how many entries the two halves of so many pans take, where the room has fewer.
    pub fn unless_halves(&self, pans: usize) -> Result<(), Refusal>
        requires { pans ≤ PANS }
        ensures { result ≡ passed (too_few_entries pans (length self.now.entries.now)) tt }
    {
        Refusal::unless_room(halves::room_for(pans), self.entries.len())
    }
}

// A table of more bytes than so many times the halves' entries takes longer than the halves do (measured, see bench/).
const PAYS: usize = 100;

impl<'a> Finder for Rooms<'a> {
    ghost use Rattle.choices.specs.Stand.{Stand, by_rule, stand};
    ghost use Rattle.choices.specs.declared.rule.Rule.{Rule};
    ghost use Rattle.order.specs.Order.{Found};
    ghost use Rattle.std.specs.Prelude.{◌≡◌, length};

    ghost lacks = { nothing_lacked };

    fn suffices(&self, _ring: Ring) -> Result<(), Refusal> {
        Ok(())
    }

    // The table by weight where its rows fit the lent bytes and pay; else the two halves, where these fit the lent entries;
    // else the scan, which takes no room at all. The lent rooms are as long afterwards as before.
    fn best(&mut self, ring: Ring) -> Option<Bag>
        ensures found { Found (by_rule ring.entry.rule (stand ring.entry.weights.now ring.entry.ages.now)) ring.entry.weights.now result }
        ensures kept { (r : Rule) (s : Stand) → nothing_lacked self.new r s ≡ nothing_lacked self.old r s }
        ensures entries { length self.new.entries.now ≡ length self.old.entries.now }
        ensures bytes { length self.new.bytes.now ≡ length self.old.bytes.now }
    {
        let takes = halves::room_for(ring.weights.len());
        let most = self.bytes.len().min(PAYS * takes);
        if table::most_room_for(ring) <= most || table::room_for(ring) <= most {
            table::best(ring, self.bytes)
        } else if takes <= self.entries.len() {
            halves::best(ring, self.entries)
        } else {
            search::best(ring)
        }
    }
}
