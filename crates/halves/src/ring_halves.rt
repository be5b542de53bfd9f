// The halves of a ring, filled once and asked again and again.
ghost use Rattle.halves.specs.Asked.{FilledFor, FirstFrom, NextOf};
ghost use Rattle.halves.specs.Entries.{room_for};
ghost use Rattle.std.specs.Prelude.{◌≡◌, ◌≤◌, length};

use crate::filled::Halves;
use crate::halves::{fill, first_place};
use crate::placed::Placed;
use choices::Ring;
use halves_places::{Pans, bag_in, ways};

/// The two halves of a ring's pans in a lent room. Filled once, they tell the ring's fitting choices one after another, the
/// best one first.
#[derive(Clone, Copy)]
pub struct RingHalves<'a> {
    /// The ring whose choices these are.
    pub ring: Ring<'a>,
    /// The entries of both halves.
    pub halves: Halves<'a>,
    ghost filled: { ∥ FilledFor ring.rule ring.weights.now ring.ages.now halves ∥₁ },
}

/// Fills a lent room with the choices that fit a ring's rule.
///
/// The room has at least [`room_for`](crate::room_for) entries for the ring's pans, and stays lent.
pub fn fill_for<'a>(ring: Ring, room: &'a mut [u64]) -> Halves<'a>
    requires { room_for (length ring.weights.now) ≤ length room.old }
    ensures { FilledFor ring.entry.rule ring.entry.weights.now ring.entry.ages.now result }
{
    let count = ring.weights.len();
    let made = ways(ring);
    let pans = Pans {
        weights: ring.weights,
        ways: &made[..count],
    };
    let target = u64::from(ring.rule.target);
    let above = u64::from(ring.rule.above);
    fill(
        pans,
        ring.rule.pans,
        ring.rule.target,
        (target + above + 1) << 29,
        room,
    )
}

impl<'a> RingHalves<'a> {
    /// Fills a lent room, which has at least [`room_for`](crate::room_for) entries for the ring's pans and stays lent.
    pub fn of(ring: Ring<'a>, room: &'a mut [u64]) -> RingHalves<'a>
        requires { room_for (length ring.weights.now) ≤ length room.old }
        ensures rule { result.ring.rule ≡ ring.entry.rule }
        ensures weights { result.ring.weights.now ≡ ring.entry.weights.now }
        ensures ages { result.ring.ages.now ≡ ring.entry.ages.now }
    {
        let halves = fill_for(ring, room);
        RingHalves { ring, halves }
    }

    /// The first fitting choice whose place is `from` or higher, or `None` where every fitting choice has a lower one.
    ///
    /// `next_from(0)` is the best choice of all. After `Some(placed)` the next one is `next_from(placed.place + 1)`.
    /// Each call is one sweep over the halves; nothing is kept between calls. The place is the one that [`next`](crate::next)
    /// finds for the ring's pans and their ways, from the target's first place on.
    pub fn next_from(self, from: u64) -> Option<Placed>
        ensures fitting { FirstFrom self.entry.ring.rule self.entry.ring.weights.now self.entry.ring.ages.now from result }
        ensures next { NextOf self.entry.ring.rule self.entry.ring.weights.now self.entry.ring.ages.now from result }
    {
        let lightest = u64::from(self.ring.rule.target) << 29;
        let place = first_place(self.halves, from.max(lightest))?;
        Some(Placed {
            place,
            bag: bag_in(self.ring, place),
        })
    }
}
