//! Bags with so much of each kind: what is turned away, one bag, and a season of them.
#![tactic(auto)]

mod entry;
mod exactness;
mod kind;
mod refusal;
mod rooms;
mod season;

pub use entry::mix;
pub use exactness::mix_refusals_are_exact;
pub use kind::Mix;
pub use refusal::KINDS_REFUSED;
pub use rooms::{KEYS, MixRooms, find_mix};
pub use season::mix_season;
