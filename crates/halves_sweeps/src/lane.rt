//! How far a sweep over two lists has come.

/// A sweep for the least sum from `from` on and below `to`. An entry is settled once all its sums are known to be no better.
#[derive(Clone, Copy)]
pub struct Lane {
    /// The least sum that will do.
    pub from: u64,
    /// All sums have to be below this.
    pub to: u64,
    /// The entries of the back list before this one are settled.
    pub at: usize,
    /// The entries of the front list from this one on are settled.
    pub left: usize,
    /// The least sum so far, or `to` where there is none.
    pub found: u64,
}
