//! The best bag with so much of each kind.
ghost use Rattle.halves.specs.Entries.{room_for};
ghost use Rattle.kinds.specs.Kinds.{mixes};
ghost use Rattle.order.specs.Order.{Found};
ghost use Rattle.std.specs.Prelude.{◌≤◌, length};

use crate::sides::Sides;
use crate::sums::Sums;
use crate::walk::least;
use halves::{bag_in, fill_for};
use kinds::MixedRing;
use order::Bag;

/// The best choice that fits the ring's rule and has so much of each kind, or `None` where there is none.
///
/// Found in a lent room of at least [`room_for`](crate::room_for) entries for the ring's pans; its contents are unspecified
/// afterwards. Bit `i` of the answer's `pans` is pan `i`.
pub fn best(mixed: MixedRing, room: &mut [u64]) -> Option<Bag>
    requires { room_for (length mixed.ring.weights.now) ≤ length room.old }
    ensures { Found (mixes mixed.entry.ring.rule mixed.entry.windows.now mixed.entry.kinds.now mixed.entry.ring.weights.now mixed.entry.ring.ages.now) mixed.entry.ring.weights.now result }
{
    let halves = fill_for(mixed.ring, room);
    let sums = Sums::of(mixed);
    let from = u64::from(mixed.ring.rule.target) << 29;
    let to = halves.bounds.to;
    let sides = Sides {
        lists: halves.lists,
        free: (mixed.ring.weights.len() - 1) / 2,
    };
    let place = least(&sums, &halves.tops[..halves.top], sides, from, to);
    if place < to {
        Some(bag_in(mixed.ring, place))
    } else {
        None
    }
}
