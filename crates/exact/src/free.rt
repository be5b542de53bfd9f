//! The free pans of a ring: neither old nor empty, so that they may be opened or stay shut.
ghost use Rattle.std.specs.Prelude.{◌≡◌, ℕ, ◌<◌, ◌≤◌, ◌⊎◌, length, slice_index};
ghost use Rattle.exact.specs.Pans.{free_of, if_free};

use choices::Ring;

// Heavier than any target, so that a pan of this weight is never opened.
const BARRED: u32 = 26_000_000;

// A pan's weight if it is free; else it is barred.
fn weight_if_free(young: bool, weight: u32) -> u32
    ensures { result ≡ if_free young weight }
{
    if young && weight >= 1 { weight } else { BARRED }
}

/// Writes the weight of each free pan of a ring, and more than any target for each old or empty one: so these stay shut.
///
/// `free` has as many places as the ring has pans.
pub fn free_weights(ring: Ring, free: &mut [u32])
    requires { length free.old ≡ length ring.weights.now }
    ensures { free.new ≡ free_of ring.entry.rule.age ring.entry.weights.now ring.entry.ages.now }
{
    for (pan, lies) in free.iter_mut().enumerate() {
        *lies = weight_if_free(ring.ages[pan] < ring.rule.age, ring.weights[pan]);
    }
}

/// The heaviest of the pans that weigh at most `most`, or 0 where there is none.
pub fn heaviest(free: &[u32], most: u32) -> u32
    ensures within { result ≤ most }
    ensures some { (result ≡ 0) ⊎ ((i : ℕ) × (i < length free.now) × (slice_index free.now i ≡ result)) }
    ensures heaviest { (i : ℕ) → i < length free.now → slice_index free.now i ≤ most → slice_index free.now i ≤ result }
{
    let mut found = 0;
    for w in free {
        if *w <= most {
            found = found.max(*w);
        }
    }
    found
}
