//! The places of all choices of two parts of the pans as two sorted lists, grown side by side in two lent rooms.
#![tactic(auto)]

mod pair;
mod sizes;

pub use pair::both;
pub use sizes::Sizes;
