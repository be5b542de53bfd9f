// A bag as it is answered.

/// A bag: which pans are opened for it, and what it weighs.
#[derive(Clone, Copy, Debug, PartialEq, Eq)]
pub struct Bag {
    /// Bit `i` is 1 where pan `i` is opened.
    pub pans: u32,
    /// What lies in the opened pans together, in the unit of the ring's weights.
    pub weight: u32,
}
