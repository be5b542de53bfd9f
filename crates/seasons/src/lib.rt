//! Bag after bag: handfuls that fall into empty pans, and seasons of bags of any kind with handfuls from a list.
#![tactic(auto)]

mod falling;
mod handfuls;
mod limits;
mod run;
mod seasons;

pub use answers::Played;
pub use falling::fall;
pub use limits::{LONGEST, limits_are};
pub use run::{Run, play};
pub use seasons::{season, season_checked, told};
