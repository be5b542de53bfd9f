//! A walk over two sorted lists for the least sum that passes a test, beside each top.
//!
//! Like a sweep it goes down the front list and up the back list to the first sum that is large enough. From there it goes
//! on up the back list until a sum passes, or is no better than the best so far.
ghost use Rattle.kinds_halves.specs.Passing.{passes};
ghost use Rattle.kinds_halves.specs.Walk.{Beside, LeastPassing, Passing};
ghost use Rattle.halves_sweeps.specs.Sweep.{LeastOf};
ghost use Rattle.std.specs.Prelude.{◌≡◌, ℕ, ◌+◌, ◌%◌, ◌^◌, ◌<◌, ◌≤◌, length, slice_index};

use crate::row::Row;
use crate::sides::Sides;
use crate::sums::Sums;

// The same beside one top.
fn beside(sums: &Sums, top: u64, sides: Sides, from: u64, to: u64) -> u64
    requires low { top < 2 ^ 62 }
    requires clear { top % 2 ^ sides.free ≡ 0 }
    requires within { sides.free ≤ length sums.now.mixed.ring.weights.now }
    ensures { Beside (passes sums.now.mixed) top sides.entry.lists.front.now sides.entry.lists.back.now from to result }
{
    let mut at = 0;
    let mut left = sides.lists.front.len();
    let mut found = to;
    while left > 0 {
        left -= 1;
        let row = Row {
            top,
            front: sides.lists.front[left],
            back: sides.lists.back,
            free: sides.free,
        };
        at = row.reach(at, from);
        found = row.first(sums, at, found);
    }
    found
}

/// The least sum of a top and an entry of each list that passes, from `from` on and below `to`; `to` where there is none.
pub fn least(sums: &Sums, tops: &[u64], sides: Sides, from: u64, to: u64) -> u64
    requires low { (t : ℕ) → t < length tops.now → slice_index tops.now t < 2 ^ 62 }
    requires clear { (t : ℕ) → t < length tops.now → slice_index tops.now t % 2 ^ sides.free ≡ 0 }
    requires within { sides.free ≤ length sums.now.mixed.ring.weights.now }
    ensures { LeastPassing (passes sums.now.mixed) (length tops.now) tops.now sides.entry.lists.front.now sides.entry.lists.back.now from to result }
{
    let mut found = to;
    for &top in tops {
        found = beside(sums, top, sides, from, found);
    }
    found
}
