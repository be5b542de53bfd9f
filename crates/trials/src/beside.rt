// The engines beside the scan, on rings that are too large to try all choices of.
ghost use Rattle.trials.specs.Counted.{one_more};
ghost use Rattle.std.specs.Prelude.{◌≡◌};

use crate::asked::{by_engine, by_entry, by_entry_in};
use crate::case::Case;
use crate::outcome::Answer;
use crate::scores::Score;
use engines::{Halves, Rooms, Scan, Table};
use packing::{Refusal, bag};

// A score for each way to a bag that is compared with the scan.
#[derive(Clone, Copy, Default)]
pub struct Beside {
    pub scan: Score,
    pub by_table: Score,
    pub by_halves: Score,
    pub rooms: Score,
    pub halves: Score,
    pub table: Score,
}

// Whether an engine could be asked with the room that it was lent.
fn had_room(answer: Answer) -> bool {
    !matches!(answer, Err(Refusal::Room(_)))
}

// Goes every way with a case, beside the scan.
pub fn try_beside(scores: &mut Beside, case: &Case, entries: &mut [u64], bytes: &mut [u8])
    ensures scan { scores.new.scan.tried ≡ one_more scores.old.scan.tried }
    ensures table { scores.new.by_table.tried ≡ one_more scores.old.by_table.tried }
    ensures halves { scores.new.by_halves.tried ≡ one_more scores.old.by_halves.tried }
{
    let scanned = by_engine(case, &mut Scan);
    let expected = by_entry(case, |weights, ages| bag(&case.rule, weights, ages));
    scores.scan.note(scanned == Some(expected.answer));
    scores
        .by_table
        .note(by_entry_in(case, entries, bytes) == expected);
    scores
        .by_halves
        .note(by_entry_in(case, entries, &mut bytes[0..0]) == expected);
    if let Some(answer) = by_engine(case, &mut Rooms { entries, bytes }) {
        scores.rooms.note(answer == expected.answer);
    }
    if let Some(answer) = by_engine(case, &mut Halves { entries }) {
        scores.halves.note(answer == expected.answer);
    }
    if let Some(answer) = by_engine(case, &mut Table { bytes }) {
        if had_room(answer) {
            scores.table.note(answer == expected.answer);
        }
    }
}
