//! The scan: the best bag of a ring by trying its choices one after another, with no lent room.
//!
//! `search` is generic over numbered candidates (`Criterion`); `best` is its use for the choices of a ring's pans.
#![tactic(auto)]

mod criterion;
mod ring;
mod scan;
mod tallies;

pub use criterion::Criterion;
pub use ring::best;
pub use scan::{Progress, advance, search};
pub use tallies::Tallies;
