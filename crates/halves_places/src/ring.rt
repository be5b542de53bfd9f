//! What may be done with the pans of a ring.
ghost use Rattle.choices.specs.declared.limits.TheConstants.{PANS};
ghost use Rattle.halves_places.specs.Ring.{neither, way as way_by, ways as ways_by};
ghost use Rattle.halves_places.specs.declared.way.Way.{Way};
ghost use Rattle.std.specs.Prelude.{◌≡◌, ℕ, ◌<◌, ◌≤◌, length, slice_index, slice_index_or, take};

use crate::way::Way;
use choices::{PANS, Ring};
use std::array;

// What may be done with pan `pan`: nothing, where the ring has no such pan.
fn way(ring: Ring, pan: usize) -> Way
    ensures known { pan < length ring.entry.weights.now → result ≡ way_by ring.entry.rule.age (slice_index ring.entry.weights.now pan) (slice_index ring.entry.ages.now pan) }
    ensures others { length ring.entry.weights.now ≤ pan → result ≡ neither }
{
    if pan < ring.weights.len() {
        Way {
            opens: ring.weights[pan] >= 1,
            young: ring.ages[pan] < ring.rule.age,
        }
    } else {
        Way {
            opens: false,
            young: false,
        }
    }
}

/// What may be done with each pan of a ring; nothing with places past its last pan.
///
/// It is an array for the most pans that a ring has, since no memory is asked for.
pub fn ways(ring: Ring) -> [Way; PANS]
    ensures front { take (length ring.entry.weights.now) result ≡ ways_by ring.entry.rule.age ring.entry.weights.now ring.entry.ages.now }
    ensures others { (pan : ℕ) (d : Way) → length ring.entry.weights.now ≤ pan → pan < PANS → slice_index_or result pan d ≡ neither }
{
    array::from_fn(|pan| way(ring, pan))
}
