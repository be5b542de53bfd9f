//! What programs in other languages may call: the engines and the season, on numbers and lent slices.
#![tactic(auto)]

mod bags;
mod seasons_told;
mod told;

pub use bags::{weigh_by_halves, weigh_by_scan, weigh_by_table};
pub use seasons_told::weigh_season;
pub use told::Told;
