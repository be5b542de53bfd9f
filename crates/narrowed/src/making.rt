// How a ring is narrowed.
ghost use Rattle.choices.specs.Numbered.{choice_from, odd};
ghost use Rattle.choices.specs.declared.limits.TheConstants.{LIMIT};
ghost use Rattle.narrowed.specs.Narrows.{Narrows};
ghost use Rattle.std.specs.Prelude.{◌≡◌, ℕ, ◌||◌, ◌/◌, ◌^◌, ◌<◌, ◌≤◌, length, nat_le, slice_index, if◌then◌else◌};

use crate::narrowed::Narrowed;
use choices::{Ring, Rule};
use std::array;

// Whether pan `pan` is one of `pans`.
fn is_in(pans: u32, pan: usize) -> bool
    requires { pan < 32 }
    ensures { result ≡ odd (pans / 2 ^ pan) }
{
    (pans >> pan) % 2 == 1
}

// What is left in a pan; nothing where the ring has no pan of that number.
fn weight_left(ring: Ring, taken: u32, pan: usize) -> u32
    ensures known { pan < length ring.entry.weights.now → result ≡ (if odd (taken / 2 ^ pan) then 0 else slice_index ring.entry.weights.now pan) }
    ensures light { result ≤ LIMIT }
{
    if pan < ring.weights.len() && !is_in(taken, pan) {
        ring.weights[pan]
    } else {
        0
    }
}

// Whether a pan has to be opened, as 1 or 0.
fn mark(ring: Ring, forced: u32, pan: usize) -> u32
    ensures known { pan < length ring.entry.weights.now → result ≡ (if odd (forced / 2 ^ pan) || nat_le ring.entry.rule.age (slice_index ring.entry.ages.now pan) then 1 else 0) }
    ensures young { result ≤ 1 }
{
    if pan < ring.weights.len() && (is_in(forced, pan) || ring.ages[pan] >= ring.rule.age) {
        1
    } else {
        0
    }
}

/// Takes the pans of `taken` away from a ring, and forces those of `forced` open: bit `i` of each is pan `i`, and bits
/// for pans that the ring doesn't have say nothing. An old pan that is taken away, or a pan that is both, leaves
/// nothing that fits.
///
/// Takes the time of one look over the pans.
pub fn narrow(ring: Ring, taken: u32, forced: u32) -> Narrowed
    ensures { let n = length ring.entry.weights.now in Narrows ring.entry.rule ring.entry.weights.now ring.entry.ages.now (choice_from n taken) (choice_from n forced) result }
{
    let weights = array::from_fn(|pan| weight_left(ring, taken, pan));
    let marks = array::from_fn(|pan| mark(ring, forced, pan));
    Narrowed {
        rule: Rule {
            age: 1,
            ..ring.rule
        },
        weights,
        marks,
        pans: ring.weights.len(),
    }
}
