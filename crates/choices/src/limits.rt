//! The limits of what is taken from outside, and of what a ring can hold.

/// No number of a rule, no weight, no age and no handful from outside is above this. Weights are in the scale's unit, ages
/// in bags.
pub const LIMIT: u32 = 1_000_000;

/// No number of a ring's rule is above this. A rule from outside is held to `LIMIT`; one that was changed may be wider.
pub const WIDEST: u32 = 25_000_000;

/// A ring has at most so many pans.
pub const PANS: usize = 24;
