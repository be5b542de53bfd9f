// What the entries and the engines answer to a case.
ghost use Rattle.trials.specs.Counted.{one_more};
ghost use Rattle.std.specs.Prelude.{◌≡◌};

use crate::case::Case;
use crate::outcome::{Answer, Outcome};
use crate::plain::all_tried;
use crate::scores::Scores;
use engines::{Finder, Halves, Rooms, Scan, Table};
use packing::{bag, bag_in, checked, find};

// The table is asked for bags up to this weight: those of the trade, and some beyond.
const TABLE_WEIGHT: u32 = 10_000;

// What an entry answers, and what it leaves in the pans.
pub fn by_entry<E: FnOnce(&mut [u32], &mut [u32]) -> Answer>(case: &Case, entry: E) -> Outcome
    requires { E.IsAlwaysCallable entry }
{
    let mut weights = case.weights;
    let mut ages = case.ages;
    let answer = entry(&mut weights[..case.pans], &mut ages[..case.pans]);
    Outcome {
        answer,
        weights,
        ages,
    }
}

// What an engine finds; nothing where the case is turned away.
pub fn by_engine<F: Finder>(case: &Case, finder: &mut F) -> Option<Answer> {
    let weights = case.weights();
    let ages = case.ages();
    checked(&case.rule, 0, weights, ages).ok()?;
    Some(find(&case.rule, weights, ages, finder))
}

// Whether a bag is light enough to ask the table for it.
fn suits_the_table(case: &Case) -> bool {
    let [target, above, _, _] = case.rule;
    target.saturating_add(above) <= TABLE_WEIGHT
}

// The entry over lent rooms. Entries and bytes are lent one by one, since the engines are tried with one of them each.
pub fn by_entry_in(case: &Case, entries: &mut [u64], bytes: &mut [u8]) -> Outcome {
    let mut rooms = Rooms { entries, bytes };
    by_entry(case, |weights, ages| {
        bag_in(&case.rule, weights, ages, &mut rooms)
    })
}

// Goes every way with a case, beside all choices tried.
pub fn try_case(scores: &mut Scores, case: &Case, entries: &mut [u64], bytes: &mut [u8])
    ensures bag { scores.new.bag.tried ≡ one_more scores.old.bag.tried }
    ensures table { scores.new.bag_by_table.tried ≡ one_more scores.old.bag_by_table.tried }
    ensures halves { scores.new.bag_by_halves.tried ≡ one_more scores.old.bag_by_halves.tried }
{
    let expected = all_tried(case);
    let scanned = by_entry(case, |weights, ages| bag(&case.rule, weights, ages));
    scores.bag.note(scanned == expected);
    scores
        .bag_by_table
        .note(by_entry_in(case, entries, bytes) == expected);
    scores
        .bag_by_halves
        .note(by_entry_in(case, entries, &mut bytes[0..0]) == expected);
    if let Some(answer) = by_engine(case, &mut Scan) {
        scores.scan.note(answer == expected.answer);
    }
    if let Some(answer) = by_engine(case, &mut Halves { entries }) {
        scores.halves.note(answer == expected.answer);
    }
    if suits_the_table(case) {
        if let Some(answer) = by_engine(case, &mut Table { bytes }) {
            scores.table.note(answer == expected.answer);
        }
    }
}
