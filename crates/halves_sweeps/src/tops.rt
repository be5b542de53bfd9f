//! The least sum of a top and an entry of each list that opens few enough pans. Where there is none, `to` is answered: the
//! minimum starts from it, and an `Option` would be tested at each step.
ghost use Rattle.std.specs.Prelude.{ℕ, ◌^◌, ◌<◌, ◌≤◌, length, slice_index};
ghost use Rattle.halves_sweeps.specs.Sweep.{Apart, LeastOf, Together, Whatever};

use crate::counted::fewest;
use crate::four::each;
use crate::lists::Lists;
use halves_places::pans_in;

// The least sum of all, however many pans it opens.
fn first(tops: &[u64], lists: Lists, from: u64, to: u64) -> u64
    requires { length tops.now ≤ 4 }
    ensures { LeastOf Whatever (length tops.now) tops.now lists.entry.front.now lists.entry.back.now from to result }
{
    let found = each(tops, lists, from, to);
    let mut least = to;
    for (top, more) in tops.iter().zip(&found) {
        least = least.min(more + top);
    }
    least
}

// How many weights are tried, from the least on, before sweeps look at how many pans are opened.
const TRIES: u32 = 3;

/// The least sum of a top and an entry of each list that opens at most `limit` pans, from `from` on and below `to`.
///
/// Answers `to` where there is none. There are at most four tops, each below 2^62, and the counts of pans in a top and an
/// entry of each list add up in their sum.
pub fn least(tops: &[u64], lists: Lists, limit: u64, from: u64, to: u64) -> u64
    requires few { length tops.now ≤ 4 }
    requires low { (t : ℕ) → t < length tops.now → slice_index tops.now t < 2 ^ 62 }
    requires apart { Apart tops.now lists.front.now lists.back.now }
    ensures { LeastOf (Together limit) (length tops.now) tops.now lists.entry.front.now lists.entry.back.now from to result }
{
    let mut at = from;
    // The first sum found opens the fewest pans of its weight; if these are too many, the next weight is tried.
    for _ in 0..TRIES {
        let found = first(tops, lists, at, to);
        if found >= to {
            return to;
        }
        if pans_in(found) <= limit {
            return found;
        }
        at = ((found >> 29) + 1) << 29;
    }
    fewest(tops, lists, limit, at, to)
}
