//! The desk: what the program keeps between its lines, and what it answers to each.
#![tactic(auto)]

mod hearing;
mod kept;
mod obeying;
mod printed;
mod replies;

pub use hearing::hear;
pub use kept::{Desk, Loaded, TABLE_ROOM, empty_desk};
pub use obeying::obey;
pub use printed::{Refused, Reply};
