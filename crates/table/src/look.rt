//! One look over a ring's pans, and the room that is asked for its table.
ghost use Rattle.table.specs.Pans.{most_bytes, table_bytes};
ghost use Rattle.table.specs.Surveyed.{Surveyed};
ghost use Rattle.std.specs.Prelude.{◌≡◌, ◌≤◌, length};

use crate::pans::pairs;
use crate::shape::{row_bytes, width_of};
use crate::survey::Survey;
use choices::Ring;

/// What the old and the free pans of a ring add up to.
pub fn survey(ring: Ring) -> Survey
    ensures { Surveyed ring.entry.rule.age ring.entry.weights.now ring.entry.ages.now result }
{
    let mut seen = Survey::NOTHING;
    // By index: the loop over a zip has two ends, and is not compiled to work on four pans at once.
    for pan in 0..ring.weights.len() {
        seen = seen.with(ring.weights[pan], ring.ages[pan] < ring.rule.age);
    }
    seen
}

/// The bytes of room that `best` asks for with this ring.
pub fn room_for(ring: Ring) -> usize
    ensures { result ≡ table_bytes ring.entry.rule ring.entry.weights.now ring.entry.ages.now }
{
    let seen = survey(ring);
    row_bytes(seen.span(ring.rule), seen.heaviest as usize) * (pairs(ring) + 1)
}

/// The most bytes of room that `best` asks for with any ring of this rule and as many pans.
///
/// It lets a caller size the room without scanning the pans.
pub fn most_room_for(ring: Ring) -> usize
    ensures is { result ≡ most_bytes ring.entry.rule (length ring.entry.weights.now) }
    ensures enough { table_bytes ring.entry.rule ring.entry.weights.now ring.entry.ages.now ≤ result }
{
    let rule = ring.rule;
    2 * width_of((rule.target + rule.above) as usize) * (pairs(ring) + 1)
}
