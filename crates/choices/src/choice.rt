//! A choice as the bits of a number, pan 0 in the highest of the ring's: what it weighs, how many pans it opens, whether it
//! fits.
//!
//! Ring and choice stay two parameters: the ring is lent once and its choices come one after another, as bare numbers.
ghost use Rattle.choices.specs.Choice.{fits as fits_rule, opened, weight_of};
ghost use Rattle.choices.specs.Numbered.{choice_of, number_of};
ghost use Rattle.std.specs.Prelude.{◌≡◌, length};

use crate::ring::Ring;
use crate::tally::{look, old_count};

/// What the opened pans weigh together, in the scale's unit. Pan 0 is the highest of the ring's bits of `choice`.
pub fn weight(ring: Ring, choice: u32) -> u32
    ensures { result ≡ weight_of ring.entry.weights.now (choice_of (length ring.entry.weights.now) choice) }
{
    look(ring, choice).weight
}

/// How many pans are opened. Pan 0 is the highest of the ring's bits of `choice`.
pub fn count(ring: Ring, choice: u32) -> u32
    ensures { result ≡ opened (choice_of (length ring.entry.weights.now) choice) }
{
    look(ring, choice).pans
}

/// Whether the choice makes a bag by the ring's rule. Pan 0 is the highest of the ring's bits of `choice`.
pub fn fits(ring: Ring, choice: u32) -> bool
    ensures { result ≡ fits_rule ring.entry.rule ring.entry.weights.now ring.entry.ages.now (choice_of (length ring.entry.weights.now) choice) }
{
    look(ring, choice).fits(ring.rule, old_count(ring))
}

/// The number that is answered for a choice: 2 to the power of each opened pan's number, added, so bit `i` is pan `i`.
pub fn number(ring: Ring, choice: u32) -> u32
    ensures { result ≡ number_of (choice_of (length ring.entry.weights.now) choice) }
{
    let mut made = 0;
    for place in 0..ring.weights.len() {
        made = 2 * made + (choice >> place) % 2;
    }
    made
}
