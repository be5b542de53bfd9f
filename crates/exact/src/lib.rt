//! Bags of just the target: the best bag of a ring where few pans make it, found by two small tables in a lent room.
//!
//! Weights are in the scale's unit, at most 1,000,000; pans count from 0, and bit `i` of a number of pans is pan `i`.
#![tactic(auto)]

mod answer;
mod few;
mod free;
mod old;
mod picks;
mod tables;

pub use answer::best;
pub use old::{OldPans, old_pans};
