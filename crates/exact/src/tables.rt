//! Two tables in a lent room, of one pan and of two: byte x tells how few of the last pans are enough for one pan, or two,
//! of them to weigh exactly x. It is 255 where none do, and the last byte collects what is too heavy.
ghost use Rattle.choices.specs.declared.limits.TheConstants.{PANS};
ghost use Rattle.std.specs.Prelude.{◌≡◌, ℕ, ◌+◌, ◌<◌, ◌≤◌, length, slice_index, EachIndex};
ghost use Rattle.exact.specs.Few.{Marked, Sums, Tells};

/// Fills the table of single pans of `free`, which is what `free_weights` writes.
pub fn fill_ones(free: &[u32], ones: &mut [u8])
    requires few { length free.now ≤ PANS }
    requires some { EachIndex free.now (λ i. 1 ≤ slice_index free.now i) }
    requires room { 2 ≤ length ones.old }
    ensures { Tells 1 free.now ones.new }
{
    let top = ones.len() - 1;
    ones.fill(255);
    // A later pan overwrites an earlier one.
    for (pan, w) in free.iter().enumerate() {
        ones[(*w as usize).min(top)] = (free.len() - pan) as u8;
    }
}

// Writes `byte` for the sums of `first` and each pan of `behind`.
fn mark(first: u32, behind: &[u32], byte: u8, pairs: &mut [u8])
    requires light { first ≤ 26000000 }
    requires all { EachIndex behind.now (λ i. slice_index behind.now i ≤ 26000000) }
    requires room { 1 ≤ length pairs.old }
    ensures { Marked (Sums first behind.now) byte pairs.old pairs.new }
{
    let top = pairs.len() - 1;
    for w in behind {
        pairs[((first + *w) as usize).min(top)] = byte;
    }
}

/// Fills the table of pairs of pans of `free`, which is what `free_weights` writes.
pub fn fill_pairs(free: &[u32], pairs: &mut [u8])
    requires few { length free.now ≤ PANS }
    requires some { EachIndex free.now (λ i. 1 ≤ slice_index free.now i) }
    requires all { EachIndex free.now (λ i. slice_index free.now i ≤ 26000000) }
    requires room { 2 ≤ length pairs.old }
    ensures { Tells 2 free.now pairs.new }
{
    pairs.fill(255);
    for (pan, w) in free.iter().enumerate() {
        mark(*w, &free[pan + 1..], (free.len() - pan) as u8, pairs);
    }
}
