//! The best bag with so much of each kind, found by the two halves of a ring: for any weights, in a small lent room.
#![tactic(auto)]

mod answer;
mod row;
mod sides;
mod sums;
mod walk;

pub use answer::best;
pub use halves::{ROOM, full_room, room_for};
