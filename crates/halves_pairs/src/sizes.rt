//! How many entries two parts of the pans have.

/// How many entries two parts have, each at the front of its room.
#[derive(Clone, Copy)]
pub struct Sizes {
    /// Those of the front part.
    pub front: usize,
    /// Those of the back part.
    pub back: usize,
}
