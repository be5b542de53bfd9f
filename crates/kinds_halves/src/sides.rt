//! The halves' lists, with what is known of the pans that they are of.
ghost use Rattle.std.specs.Prelude.{◌≡◌, ℕ, ◌%◌, ◌^◌, ◌<◌, length, slice_index};

use halves_sweeps::Lists;

/// The lists of both halves. The back half's pans are the last of the ring.
#[derive(Clone, Copy)]
pub struct Sides<'a> {
    /// The places of the front half's choices and of the back half's.
    pub lists: Lists<'a>,
    /// How many pans the back half has.
    pub free: usize,
    ghost clear: { (p : ℕ) → p < length lists.front.now → slice_index lists.front.now p % 2 ^ free ≡ 0 },
    ghost shut: { (q : ℕ) → q < length lists.back.now → slice_index lists.back.now q % 2 ^ 24 < 2 ^ free },
}
