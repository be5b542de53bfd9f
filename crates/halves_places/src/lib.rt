//! A choice's place in the order as one number that adds up over the pans: from a ring's pans to places, and back to a bag.
//!
//! A place holds, from the highest bit on, the weight (from bit 29), how many pans are opened (bits 24 to 28) and which are
//! shut (a bit for each pan, the last pan in bit 0). So the best choice has the least place, and no two have the same.
//! Weights are in the scale's unit, at most 1,000,000; pans count from 0.
#![tactic(auto)]

mod pans;
mod place;
mod ring;
mod way;

pub use pans::Pans;
pub use place::{bag_in, pans_in, weight_in};
pub use ring::ways;
pub use way::Way;
