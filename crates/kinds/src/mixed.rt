//! A ring whose pans have kinds, and how much of each kind a bag may have.
ghost use Rattle.std.specs.Prelude.{◌≡◌, ℕ, ◌<◌, ◌≤◌, length, slice_index};
ghost use Rattle.kinds.specs.declared.mixed.TheConstants.{KINDS};

use choices::Ring;

/// A rule has a window for at most so many kinds.
pub const KINDS: usize = 4;

/// How much of a kind a bag may have: at least `least` and at most `most`, in the scale's unit, none above `LIMIT`.
#[derive(Clone, Copy, Debug, PartialEq, Eq)]
pub struct Window {
    /// What the opened pans of the kind weigh together at least.
    pub least: u32,
    /// What they weigh at most. Where it is below `least` no bag is allowed at all.
    pub most: u32,
}

/// A ring, the kind of each of its pans, and a window for each kind, from kind 0 on. Every pan's kind has a window.
#[derive(Clone, Copy)]
pub struct MixedRing<'a> {
    /// The pans and the rule for the whole bag.
    pub ring: Ring<'a>,
    /// The kind of each pan, from 0 on.
    pub kinds: &'a [u32],
    /// The window of each kind, that of kind 0 first.
    pub windows: &'a [Window],
    pub ghost paired: { length kinds.now ≡ length ring.weights.now },
    pub ghost some: { 1 ≤ length windows.now },
    pub ghost few: { length windows.now ≤ KINDS },
    pub ghost known: { (i : ℕ) → slice_index kinds.now i < length windows.now },
}
