// A bag with its place in the order of choices.
ghost use Rattle.std.specs.Prelude.{◌^◌, ◌<◌};

use order::Bag;

/// A fitting choice as a bag, with its place in the order of choices: better choices have lower places.
#[derive(Clone, Copy, Debug, PartialEq, Eq)]
pub struct Placed {
    /// What the bag weighs times 2^29, how many pans it opens times 2^24, and a number of which pans stay shut, added:
    /// of equal weights and counts the choice that opens the first pan that differs has the lower place. No two choices
    /// of a ring share one.
    pub place: u64,
    /// The bag itself.
    pub bag: Bag,
    ghost low: { place < 2 ^ 61 },
}
