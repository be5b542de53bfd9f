// The best bag of a ring by its two halves.
ghost use Rattle.std.specs.Prelude.{◌≤◌, length};
ghost use Rattle.choices.specs.Choice.{fits};
ghost use Rattle.halves.specs.Entries.{room_for};
ghost use Rattle.order.specs.Order.{Found};

use crate::ring_halves::RingHalves;
use choices::Ring;
use order::Bag;

/// The best choice by the ring's rule, or `None` where no choice fits.
///
/// Found in a lent room of at least [`room_for`](crate::room_for) entries for the ring's pans, whose contents are
/// unspecified afterwards.
pub fn best(ring: Ring, room: &mut [u64]) -> Option<Bag>
    requires { room_for (length ring.weights.now) ≤ length room.old }
    ensures { Found (fits ring.entry.rule ring.entry.weights.now ring.entry.ages.now) ring.entry.weights.now result }
{
    let placed = RingHalves::of(ring, room).next_from(0)?;
    Some(placed.bag)
}
