//! A pan, as a list of places takes it in.
ghost use Rattle.choices.specs.declared.limits.TheConstants.{PANS};
ghost use Rattle.std.specs.Prelude.{◌≡◌, ◌+◌, ◌*◌, ◌^◌, ◌<◌, length, slice_index, slice_index_or};
ghost use Rattle.halves_places.specs.declared.way.Way.{Way};

use crate::parts::gain;
use halves_places::{Pans, Way};

/// A pan that a list of places is to take in.
#[derive(Clone, Copy)]
pub struct Pan {
    /// What may be done with it.
    pub way: Way,
    /// What a place gains where the pan is opened instead of shut; below 2^62.
    pub gain: u64,
    ghost small: { gain < 2 ^ 62 },
}

impl Pan {
    /// Pan `number` of `pans`, with `behind` pans behind it in the ring, at most 23.
    pub fn of(pans: Pans, number: usize, behind: usize) -> Pan
        requires within { number < length pans.weights.now }
        requires few { behind < PANS }
        ensures way { (d : Way) → result.way ≡ slice_index_or pans.entry.ways.now number d }
        ensures gain { result.gain + 2 ^ behind ≡ slice_index pans.entry.weights.now number * 2 ^ 29 + 2 ^ 24 }
    {
        Pan {
            way: pans.ways[number],
            gain: gain(pans.weights[number], behind),
        }
    }
}
