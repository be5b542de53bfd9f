//! The places of all choices of some pans as a sorted list, grown pan by pan in a lent room.
//!
//! With each pan the list is merged with a copy of itself, raised by what the pan adds, so that it never has to be sorted:
//! the lists of Horowitz and Sahni (1974). An entry is the place of a choice (see `halves_places`).
#![tactic(auto)]

mod job;
mod merges;
mod more;
mod pan;
mod parts;

pub use job::Merge;
pub use merges::{above, merge};
pub use more::{grow, openable};
pub use pan::Pan;
pub use parts::{all_shut, gain, part};
