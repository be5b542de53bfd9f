//! The bags of a season of any kind.
ghost use Rattle.std.specs.Prelude.{◌≡◌, ℕ, ◌≤◌, length, slice_index};
ghost use Rattle.choices.specs.Stand.{InOrder, stand};
ghost use Rattle.choices.specs.declared.limits.TheConstants.{LIMIT};
ghost use Rattle.seasons.specs.Season.{Plays};

use crate::handfuls::refill;
use crate::limits::LONGEST;
use engines::Kind;
use packing::pack;

/// How many bags were made, what they weigh together, and whether it ended early, at a bag for which no choice is allowed.
#[derive(Clone, Copy, Debug, PartialEq, Eq)]
pub struct Run {
    pub bags: u32,
    pub weight: u64,
    pub ended_early: bool,
}

/// Makes so many bags of a kind, the best of each stand, and lets the list's handfuls fall in turn into the empty pans
/// after each; ends early at a bag for which no choice is allowed. The lent rooms are as long afterwards as before.
///
/// What an entry checked is asked for: pans in order, a kind that is ready for so many bags, no handful above `LIMIT`,
/// and no more than `LONGEST` bags.
pub fn play<R, K: Kind<R>>(
    kind: &mut K,
    weights: &mut [u32],
    ages: &mut [u32],
    handfuls: &[u32],
    bags: u32,
    rooms: &mut R,
) -> Run
    requires pans { InOrder (stand weights.old ages.old) }
    requires numbers { K.ready kind.old (length weights.old) bags }
    requires small { (i : ℕ) → slice_index handfuls.now i ≤ LIMIT }
    requires few { bags ≤ LONGEST }
    ensures played { Plays K.allows K.age K.least K.top K.after K.ready handfuls.now bags kind.old (stand weights.old ages.old) kind.new (stand weights.new ages.new) result.bags result.weight result.ended_early }
    ensures rooms { K.size rooms.new ≡ K.size rooms.old }
{
    let mut weight = 0u64;
    let mut next = 0;
    for made in 0..bags {
        match pack(kind, weights, ages, rooms) {
            None => {
                return Run {
                    bags: made,
                    weight,
                    ended_early: true,
                };
            }
            Some(bag) => {
                weight += u64::from(bag.weight);
                next = refill(weights, handfuls, next);
            }
        }
    }
    Run {
        bags,
        weight,
        ended_early: false,
    }
}
