//! What a merge has to do.
ghost use Rattle.std.specs.Prelude.{◌^◌, ◌<◌, ◌≤◌};

/// A merge of the first `kept` entries with copies of the first `added` of them, raised by `gain`.
#[derive(Clone, Copy)]
pub struct Merge {
    /// How many entries are kept as they are.
    pub kept: usize,
    /// How many raised copies are added; at most `kept`.
    pub added: usize,
    /// By how much the copies are raised; below 2^62.
    pub gain: u64,
    ghost fewer: { added ≤ kept },
    ghost small: { gain < 2 ^ 62 },
}
