//! What the pans of a ring are to the rows.
ghost use Rattle.choices.specs.declared.limits.TheConstants.{PANS};
ghost use Rattle.choices.specs.Numbered.{number_of};
ghost use Rattle.exact.specs.Pans.{only_old};
ghost use Rattle.table.specs.Pans.{old_count_of, free_at, pairs_of};
ghost use Rattle.std.specs.Prelude.{◌≡◌, ℕ, ◌<◌, length, slice_index};

use choices::{PANS, Ring};

/// How many pairs the rows take the pans of a ring in; where their number is odd, the last pair has one pan.
pub fn pairs(ring: Ring) -> usize
    ensures { result ≡ pairs_of (length ring.entry.weights.now) }
{
    (ring.weights.len() + 1) / 2
}

/// The choice that opens just the old pans: bit `i` is pan `i`. `old_count` is how many they are.
///
/// Seldom is there an old pan, so the pans are only gone through where there is.
pub fn old_number(ring: Ring, old_count: u32) -> u32
    requires { old_count ≡ old_count_of ring.rule.age ring.ages.now }
    ensures { result ≡ number_of (only_old ring.entry.rule.age ring.entry.ages.now) }
{
    if old_count == 0 {
        0
    } else {
        exact::old_pans(ring).number
    }
}

/// The weight of each free pan; 0 for an old one and for places past the last pan.
pub fn free_of(ring: Ring) -> [u32; PANS]
    ensures { (i : ℕ) → i < PANS → slice_index result i ≡ free_at ring.entry.rule.age ring.entry.weights.now ring.entry.ages.now i }
{
    let mut free = [0; PANS];
    // By index: the loop over a zip has two ends, and is not compiled to work on four pans at once.
    for pan in 0..ring.weights.len() {
        free[pan] = ring.weights[pan] * u32::from(ring.ages[pan] < ring.rule.age);
    }
    free
}
