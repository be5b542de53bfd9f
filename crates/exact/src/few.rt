//! The choice of the fewest pans that weighs exactly so much, of at most four pans.
ghost use Rattle.choices.specs.declared.limits.TheConstants.{PANS};
ghost use Rattle.std.specs.Prelude.{ℕ, ◌+◌, ◌<◌, ◌≤◌, length, slice_index, EachIndex};
ghost use Rattle.exact.specs.Few.{Chosen};

use crate::picks::{four, one, three, two};
use crate::tables::{fill_ones, fill_pairs};

/// The choice of the fewest pans that weighs exactly `weight`, of at most `most` pans and never more than four.
///
/// Of choices of as many pans it is the one that opens the first pan that differs; bit `i` of the answer is pan `i`.
/// `free` is what `free_weights` writes. `ones` and `pairs` have at least `weight` + 2 bytes and may hold anything; their
/// contents are unspecified afterwards.
pub fn few(free: &[u32], weight: u32, most: u32, ones: &mut [u8], pairs: &mut [u8]) -> Option<u32>
    requires few { length free.now ≤ PANS }
    requires some { EachIndex free.now (λ i. 1 ≤ slice_index free.now i) }
    requires all { EachIndex free.now (λ i. slice_index free.now i ≤ 26000000) }
    requires room { (weight + 1 < length ones.old) × (weight + 1 < length pairs.old) }
    ensures { Chosen most free.now weight result }
{
    // One more pan is tried only where fewer do not make it, and each table is filled only when it is needed.
    if weight == 0 {
        return Some(0);
    }
    if most == 0 {
        return None;
    }
    if let Some(pans) = one(free, weight) {
        return Some(pans);
    }
    if most == 1 {
        return None;
    }
    fill_ones(free, ones);
    if let Some(pans) = two(free, ones, weight) {
        return Some(pans);
    }
    if most == 2 {
        return None;
    }
    fill_pairs(free, pairs);
    if let Some(pans) = three(free, ones, pairs, weight) {
        return Some(pans);
    }
    if most == 3 {
        return None;
    }
    four(free, ones, pairs, weight)
}
