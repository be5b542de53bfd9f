//! Which pairs a sweep looks at, by how many pans they open.

/// The pairs whose entries open `count` pans in the back list, and at most `rest` pans in the front list.
#[derive(Clone, Copy)]
pub struct Band {
    /// How many pans the entry of the back list opens.
    pub count: u64,
    /// How many pans the entry of the front list opens at most.
    pub rest: u64,
}
