//! The two lists of a sweep.
ghost use Rattle.std.specs.Prelude.{ℕ, ◌^◌, ◌<◌, length, slice_index};
ghost use Rattle.halves_growth.specs.Entries.{Rises};

/// Two sorted lists of places, each below 2^62, so that sums fit in 64 bits.
#[derive(Clone, Copy)]
pub struct Lists<'a> {
    /// The places of the front half's choices.
    pub front: &'a [u64],
    /// The places of the back half's choices.
    pub back: &'a [u64],
    ghost front_rises: { Rises front.now (length front.now) },
    ghost back_rises: { Rises back.now (length back.now) },
    ghost front_low: { (p : ℕ) → p < length front.now → slice_index front.now p < 2 ^ 62 },
    ghost back_low: { (p : ℕ) → p < length back.now → slice_index back.now p < 2 ^ 62 },
}
