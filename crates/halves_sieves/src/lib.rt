//! What no allowed choice needs is sieved out of a part's entries: what opens too many pans, or is too light even with the
//! heaviest other pans.
#![tactic(auto)]

mod bounds;
mod most;
mod sieve;
mod span;
mod worth;

pub use bounds::Bounds;
pub use sieve::thin;
pub use span::Span;
