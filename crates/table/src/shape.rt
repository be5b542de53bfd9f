//! How a row lies in the room of a table, and the room that is asked for it.
ghost use Rattle.choices.specs.declared.limits.TheConstants.{LIMIT};
ghost use Rattle.std.specs.Prelude.{◌≡◌, ◌+◌, ◌*◌, ◌/◌, ◌≤◌};
ghost use Rattle.table.specs.Pans.{row_bytes, width_of};

use crate::blocks::BLOCK;

/// How a row lies in the room: a pad of bytes of 255, then whole blocks with a byte for each weight from 0 on.
///
/// A look back by what two pans weigh needs no test whether the weight is below 0: it is cut short so that it ends in the
/// pad.
#[derive(Clone, Copy)]
pub struct Shape {
    /// The bytes of the pad, whole blocks too.
    pub pad: usize,
    /// The blocks of 64 bytes behind the pad.
    pub blocks: usize,
    ghost whole: { pad ≡ 64 * (pad / 64) },
    ghost long: { 64 ≤ pad },
    ghost short: { pad ≤ 64 * blocks },
    ghost some: { 1 ≤ blocks },
    ghost small: { blocks ≤ 800000 },
}

/// The bytes of whole blocks that hold a byte for each weight from 0 to `span`, at most a ring's target + above.
pub fn width_of(span: usize) -> usize
    requires { span ≤ 50000000 }
    ensures { result ≡ width_of span }
{
    BLOCK * (span / BLOCK + 1)
}

/// The bytes that are asked for a row for weights from 0 to `span`, of free pans that weigh at most `heaviest`.
///
/// `span` is at most a ring's target + above, and `heaviest` at most 1,000,000.
///
/// They are at least as many as the row takes: as many as with a pad as long as two pans reach back, or as its blocks if
/// these are fewer.
pub fn row_bytes(span: usize, heaviest: usize) -> usize
    requires { (span ≤ 50000000) × (heaviest ≤ LIMIT) }
    ensures is { result ≡ row_bytes span heaviest }
    ensures small { result ≤ 2 * width_of span }
{
    width_of(span).min(width_of(2 * heaviest)) + width_of(span)
}

impl Shape {
    /// The shape of rows for weights from 0 to `span`, at most a ring's target + above, with a block as the pad.
    pub fn of(span: usize) -> Shape
        requires { span ≤ 50000000 }
        ensures pad { result.pad ≡ 64 }
        ensures blocks { 64 * result.blocks ≡ width_of span }
    {
        Shape {
            pad: BLOCK,
            blocks: span / BLOCK + 1,
        }
    }

    /// The bytes of a row with its pad.
    pub fn wide(self) -> usize
        ensures { result ≡ self.pad + 64 * self.blocks }
    {
        self.pad + BLOCK * self.blocks
    }
}
