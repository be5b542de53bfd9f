//! The table by weight: the best bag of a ring, read off rows of least counts in a lent room.
//!
//! Weights are in the scale's unit, at most 1,000,000; pans count from 0, and bit `i` of a number of pans is pan `i`. A pan
//! is old where its age is the rule's age or more, and then has to be opened; the pans that are not old are free.
#![tactic(auto)]

mod answer;
mod blocks;
mod look;
mod pans;
mod read;
mod rows;
mod shape;
mod survey;

pub use answer::best;
pub use look::{most_room_for, room_for};
