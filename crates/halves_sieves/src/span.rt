//! Some pans of a ring that stand side by side.
ghost use Rattle.std.specs.Prelude.{◌+◌, ◌≤◌, length};

use halves_places::Pans;

/// `len` pans, behind the first `skip` of all.
#[derive(Clone, Copy)]
pub struct Span<'a> {
    /// All pans of the ring.
    pub pans: Pans<'a>,
    /// How many pans stand before the span.
    pub skip: usize,
    /// How many pans the span has.
    pub len: usize,
    ghost within: { skip + len ≤ length pans.weights.now },
}
