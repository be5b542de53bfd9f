//! The most that so many of some pans weigh together.
ghost use Rattle.choices.specs.declared.limits.TheConstants.{LIMIT, PANS};
ghost use Rattle.std.specs.Prelude.{◌≡◌, ℕ, ◌+◌, ◌*◌, ◌^◌, ◌<◌, ◌≤◌, max, List, ◌++◌, length, slice_index};
ghost use Rattle.halves_sieves.specs.Sieve.{Most};

// Takes one more pan in: it is among the heaviest, or it is not.
fn with_pan(most: &mut [u64; 25], weight: u32)
    requires { (r : ℕ) → slice_index most.old r < 2 ^ 62 }
    ensures none { slice_index most.new 0 ≡ slice_index most.old 0 }
    ensures more { (r : ℕ) → r < PANS → slice_index most.new (r + 1) ≡ max (slice_index most.old (r + 1)) (slice_index most.old r + weight) }
{
    // From the most pans down, since each entry is made from the one before it as that was.
    for r in (0..24).rev() {
        most[r + 1] = most[r + 1].max(most[r] + u64::from(weight));
    }
}

/// Takes more pans in. `most[r]` is the most that up to `r` of the pans taken in so far weigh together.
///
/// All 0 is right for no pans. At most 24 pans are taken in, of weights up to 1,000,000; `most` holds at most 2^40.
pub fn with_pans(most: &mut [u64; 25], weights: &[u32])
    requires low { (r : ℕ) → slice_index most.old r ≤ 2 ^ 40 }
    requires few { length weights.now ≤ PANS }
    requires light { (i : ℕ) → slice_index weights.now i ≤ LIMIT }
    ensures most { (us : List ℕ) → Most us most.old → Most (weights.now ++ us) most.new }
    ensures low { (b : ℕ) → ((r : ℕ) → slice_index most.old r ≤ b) → (r : ℕ) → slice_index most.new r ≤ b + length weights.now * LIMIT }
{
    for weight in weights.iter().rev() {
        with_pan(most, *weight);
    }
}
