//! What a choice has to keep to be wanted.
ghost use Rattle.std.specs.Prelude.{◌^◌, ◌<◌};

/// What a choice of all pans has to keep; what no such choice needs may be left out of the lists.
#[derive(Clone, Copy)]
pub struct Bounds {
    /// It opens at most so many pans.
    pub limit: u64,
    /// It weighs at least so much, in the scale's unit.
    pub least: u64,
    /// Its place is below this.
    pub to: u64,
    ghost few: { limit < 2 ^ 32 },
    ghost low: { least < 2 ^ 32 },
}
