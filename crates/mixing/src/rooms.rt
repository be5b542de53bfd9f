//! Rooms lent for the best mixed bag, and which engine runs in these.
ghost use Rattle.kinds.specs.Kinds.{mixes};
ghost use Rattle.order.specs.Order.{Found};
ghost use Rattle.std.specs.Prelude.{◌≡◌, length};

use kinds::MixedRing;
use order::Bag;

/// What is lent for the best bag with so much of each kind, however much it is: words for the tables by kind and weight, and
/// entries for the two halves. `KEYS` words and `halves::ROOM` entries serve every ring as fast as can be. Where neither has
/// enough, the scan runs, which takes no room.
#[derive(Drop)]
pub struct MixRooms<'a> {
    pub keys: &'a mut [u32],
    pub entries: &'a mut [u64],
}

/// Words for the tables, as many as they are ever asked for: where they take more, the halves are the faster way.
pub const KEYS: usize = 131_072;

/// The best of all choices that fit the ring's rule and have so much of each kind, or `None` where there is none. What the
/// rooms hold afterwards has no meaning, and they are as long as before.
pub fn find_mix(mixed: MixedRing, rooms: &mut MixRooms) -> Option<Bag>
    ensures found { Found (mixes mixed.entry.ring.rule mixed.entry.windows.now mixed.entry.kinds.now mixed.entry.ring.weights.now mixed.entry.ring.ages.now) mixed.entry.ring.weights.now result }
    ensures keys { length rooms.new.keys.now ≡ length rooms.old.keys.now }
    ensures entries { length rooms.new.entries.now ≡ length rooms.old.entries.now }
{
    if kinds_table::room_for(mixed) <= rooms.keys.len().min(KEYS) {
        kinds_table::best(mixed, rooms.keys)
    } else if halves::room_for(mixed.ring.weights.len()) <= rooms.entries.len() {
        kinds_halves::best(mixed, rooms.entries)
    } else {
        kinds_scan::best(mixed)
    }
}
