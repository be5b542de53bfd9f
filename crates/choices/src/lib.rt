//! Pans, rules and choices: what a choice weighs, how many pans it opens, and whether it fits a rule.
#![tactic(auto)]

mod choice;
mod limits;
mod ring;
mod rule;
mod tally;

pub use choice::{count, fits, number, weight};
pub use limits::{LIMIT, PANS, WIDEST};
pub use ring::Ring;
pub use rule::Rule;
pub use tally::{Tally, look, old_count};
