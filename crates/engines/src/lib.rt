//! What finds the best bag of a ring: one promise, the engines that keep it, and the kinds of bag that are found by them.
#![tactic(auto)]

mod finder;
mod kind;
mod plain;
mod rooms;
mod single;

pub use finder::Finder;
pub use kind::Kind;
pub use rooms::Rooms;
pub use single::{Halves, Scan, Table};
