// What the pans of a ring fill.
ghost use Rattle.std.specs.Prelude.{◌≡◌, ◌≤◌, length};

use halves_sieves::Bounds;
use halves_sweeps::Lists;

/// What the pans of a ring fill: the places of the choices of each part of the pans, in order. None is left out that
/// the bounds allow.
#[derive(Clone, Copy)]
pub struct Halves<'a> {
    /// The choices of the one or two pans before the halves: four at most, so they need no lent room.
    pub tops: [u64; 4],
    /// How many of the four there are.
    pub top: usize,
    /// The choices of the front half and of the back half, in the lent room.
    pub lists: Lists<'a>,
    /// What a choice of all pans has to keep within.
    pub bounds: Bounds,
    ghost long: { length tops ≡ 4 },
    ghost few: { top ≤ 4 },
}
