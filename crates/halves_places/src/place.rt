//! What a place tells of its choice.
ghost use Rattle.std.specs.Prelude.{◌≡◌, ◌/◌, ◌^◌, ◌<◌};
ghost use Rattle.halves_places.specs.Place.{pans_in};
ghost use Rattle.halves_places.specs.Ring.{Says};

use choices::{Ring, number};
use order::Bag;

/// How many pans the choice of this place opens.
pub fn pans_in(place: u64) -> u64
    ensures { result ≡ pans_in place }
{
    (place >> 24) % 32
}

/// What the opened pans of the choice of this place weigh together.
pub fn weight_in(place: u64) -> u64
    ensures { result ≡ place / 2 ^ 29 }
{
    place >> 29
}

/// The bag of the choice of a ring's pans that has this place: bit `i` of its `pans` is pan `i`. `place` is below 2^61.
pub fn bag_in(ring: Ring, place: u64) -> Bag
    requires { place < 2 ^ 61 }
    ensures { Says ring.entry.weights.now place result }
{
    let choices = 1u64 << ring.weights.len();
    let choice = choices - 1 - place % choices;
    Bag {
        pans: number(ring, choice as u32),
        weight: weight_in(place) as u32,
    }
}
