//! One more pan in a sorted list of places.
ghost use Rattle.std.specs.Prelude.{◌≡◌, ℕ, ◌+◌, ◌^◌, ◌<◌, ◌≤◌, length, slice_index};
ghost use Rattle.halves_growth.specs.Entries.{Below, Grown, Opening, Rises, Sorted};

use crate::job::Merge;
use crate::merges::merge;
use crate::pan::Pan;

// How many of the sorted entries stay below `to` when they are raised by `gain`.
fn below(es: &[u64], gain: u64, to: u64) -> usize
    requires { Rises es.now (length es.now) }
    ensures { Below es.now (length es.now) gain to result }
{
    let under = to.saturating_sub(gain);
    es.partition_point(|e| *e < under)
}

// Raises each entry by `gain`.
fn raise(es: &mut [u64], gain: u64)
    requires low { (p : ℕ) → p < length es.old → slice_index es.old p < 2 ^ 62 }
    requires small { gain < 2 ^ 62 }
    ensures { (p : ℕ) → p < length es.old → slice_index es.new p ≡ slice_index es.old p + gain }
{
    for e in es.iter_mut() {
        *e += gain;
    }
}

/// Beside how many of the entries, from the first on, `pan` is opened: those that stay below `to` with it.
///
/// It is 0 where the pan may not be opened. `es` is sorted.
pub fn openable(es: &[u64], pan: Pan, to: u64) -> usize
    requires { Rises es.now (length es.now) }
    ensures { Opening to pan.way pan.gain es.now (length es.now) result }
{
    if pan.way.opens {
        below(es, pan.gain, to)
    } else {
        0
    }
}

/// Takes one more pan into the first `n` entries of `es`, and answers how many there are then; they stay sorted.
///
/// An entry stays as it is where the pan is young, and comes again with the pan opened where this may be and stays below
/// `to`. The first `n` entries are sorted and below 2^62. `es` has at least 2 * `n` places; those behind do not change.
pub fn grow(es: &mut [u64], n: usize, pan: Pan, to: u64) -> usize
    requires room { n + n ≤ length es.old }
    requires sorted { Sorted es.old n }
    ensures within { result ≤ length es.new }
    ensures grown { Grown to pan.way pan.gain es.old es.new n result }
    ensures rest { (q : ℕ) → n + n ≤ q → slice_index es.new q ≡ slice_index es.old q }
{
    let added = openable(&es[..n], pan, to);
    if pan.way.young {
        merge(
            es,
            Merge {
                kept: n,
                added,
                gain: pan.gain,
            },
        );
        n + added
    } else {
        raise(&mut es[..added], pan.gain);
        added
    }
}
