//! Rings whose pans have kinds, and bags with so much of each: what is allowed.
#![tactic(auto)]

mod mixed;

pub use mixed::{KINDS, MixedRing, Window};
