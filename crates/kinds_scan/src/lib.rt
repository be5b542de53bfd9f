//! The scan with a test more for each kind: the best bag with so much of each kind, by trying choices one after another,
//! with no lent room.
#![tactic(auto)]

mod answer;
mod own;
mod within;

pub use answer::best;
