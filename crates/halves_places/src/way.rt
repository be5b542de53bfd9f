//! What may be done with a pan.

/// What may be done with a pan. All four cases occur.
#[derive(Clone, Copy)]
pub struct Way {
    /// The pan may be opened: something lies in it.
    pub opens: bool,
    /// The pan may stay shut: it is not old, which a pan is at the rule's age.
    pub young: bool,
}
