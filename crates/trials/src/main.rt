// The trials: rings at fixed seeds through the entries and the engines, beside all choices tried in the plainest way, and
// beside each other where there are too many choices.
#![tactic(auto)]

mod asked;
mod beside;
mod case;
mod made_up;
mod makes_up;
mod mixed;
mod outcome;
mod plain;
mod rings;
mod scores;
mod worked;

use asked::try_case;
use beside::{Beside, try_beside};
use engines::Rooms;
use halves::ROOM;
use made_up::season_agrees;
use mixed::{Mixed, random_mixed, try_mixed};
use mixing::{KEYS, MixRooms};
use plain::all_tried;
use rings::{Dice, large_case, random_case, some_handfuls};
use scores::{Score, Scores};
use worked::WORKED;

// How many rings of each size, and how many seasons.
const SMALL: u32 = 20_000;

const MIDDLE: u32 = 150;

const LARGE: u32 = 600;

const SEASONS: u32 = 500;

const MIXED: u32 = 8_000;

// Bytes enough for the table of every case of up to 16 pans that it is asked for.
const BYTES: usize = 409_600;

// All choices tried, beside bags worked by hand.
fn try_by_hand() -> Score {
    let mut score = Score::default();
    for row in WORKED {
        score.note(all_tried(&row.case()).answer == row.answer);
    }
    score
}

// Bags worked by hand, and rings of up to 12 pans.
fn try_small(entries: &mut [u64], bytes: &mut [u8]) -> Scores {
    let mut scores = Scores::default();
    for row in WORKED {
        try_case(&mut scores, &row.case(), entries, bytes);
    }
    let mut dice = Dice::new(2024);
    for _ in 0..SMALL {
        let case = random_case(&mut dice, 1, 12);
        try_case(&mut scores, &case, entries, bytes);
    }
    scores
}

// Rings of 13 to 16 pans.
fn try_middle(entries: &mut [u64], bytes: &mut [u8]) -> Scores {
    let mut scores = Scores::default();
    let mut dice = Dice::new(2025);
    for _ in 0..MIDDLE {
        let case = random_case(&mut dice, 13, 4);
        try_case(&mut scores, &case, entries, bytes);
    }
    scores
}

// Rings of 13 to 24 pans.
fn try_large(entries: &mut [u64], bytes: &mut [u8]) -> Beside {
    let mut scores = Beside::default();
    let mut dice = Dice::new(2026);
    for _ in 0..LARGE {
        let case = large_case(&mut dice);
        try_beside(&mut scores, &case, entries, bytes);
    }
    scores
}

// Seasons of a kind of bag with a state, of rings of 3 to 8 pans.
fn try_seasons(entries: &mut [u64], bytes: &mut [u8]) -> Score {
    let mut rooms = Rooms { entries, bytes };
    let mut score = Score::default();
    let mut dice = Dice::new(2027);
    for _ in 0..SEASONS {
        let case = random_case(&mut dice, 3, 6);
        let handfuls = some_handfuls(&mut dice, &case);
        if let Some(agreed) = season_agrees(&case, &handfuls, 12, &mut rooms) {
            score.note(agreed);
        }
    }
    score
}

// Rings of up to 12 pans that have kinds, in rooms of so many words and entries.
fn try_kinds(keys: &mut [u32], entries: &mut [u64]) -> Mixed {
    let mut rooms = MixRooms { keys, entries };
    let mut scores = Mixed::default();
    let mut dice = Dice::new(2028);
    for _ in 0..MIXED {
        let case = random_mixed(&mut dice);
        try_mixed(&mut scores, &case, &mut rooms);
    }
    scores
}

// A line for each way to a bag, beside all choices.
fn report(rt: &HostRuntime, scores: Scores) -> anyhow::Result<()> {
    println!(rt; "- the entry, by the scan: {}", scores.bag)?;
    println!(rt;
        "- the entry over rooms, by the table where it fits: {}",
        scores.bag_by_table
    )?;
    println!(rt;
        "- the entry over rooms, by the halves: {}",
        scores.bag_by_halves
    )?;
    println!(rt; "- the scan: {}", scores.scan)?;
    println!(rt; "- the halves: {}", scores.halves)?;
    println!(rt; "- the table: {}", scores.table)?;
    Ok(())
}

// A line for each way to a bag, beside the entry by the scan.
fn report_beside(rt: &HostRuntime, scores: Beside) -> anyhow::Result<()> {
    println!(rt; "- the scan: {}", scores.scan)?;
    println!(rt;
        "- the entry over rooms, by the table where it fits: {}",
        scores.by_table
    )?;
    println!(rt;
        "- the entry over rooms, by the halves: {}",
        scores.by_halves
    )?;
    println!(rt; "- the rooms: {}", scores.rooms)?;
    println!(rt; "- the halves: {}", scores.halves)?;
    println!(rt; "- the table: {}", scores.table)?;
    Ok(())
}

// A line for each way to a bag with so much of each kind.
fn report_kinds(rt: &HostRuntime, way: &str, mixed: Mixed) -> anyhow::Result<()> {
    println!(rt; "- {way}: {}", mixed.all)?;
    println!(rt;
        "  where the kinds make another bag the best: {}",
        mixed.another
    )?;
    println!(rt; "  where they allow none: {}", mixed.none)?;
    Ok(())
}

fn run(rt: &HostRuntime) -> anyhow::Result<()> {
    let heap = rt.alloc();
    let mut entries = vec![in heap; 0; ROOM]?;
    let mut bytes = vec![in heap; 0; BYTES]?;
    let by_hand = try_by_hand();
    println!(rt; "all choices, beside bags worked by hand: {by_hand}")?;
    println!(rt; "up to 12 pans, beside all choices:")?;
    report(rt, try_small(&mut entries, &mut bytes))?;
    println!(rt; "13 to 16 pans, beside all choices:")?;
    report(rt, try_middle(&mut entries, &mut bytes))?;
    println!(rt; "13 to 24 pans, beside the entry by the scan:")?;
    report_beside(rt, try_large(&mut entries, &mut bytes))?;
    println!(rt; "up to 12 pans of one to four kinds, beside all choices:")?;
    let mut keys = vec![in heap; 0; KEYS]?;
    report_kinds(
        rt,
        "by the tables where they fit",
        try_kinds(&mut keys, &mut entries),
    )?;
    report_kinds(rt, "by the halves", try_kinds(&mut [], &mut entries))?;
    report_kinds(rt, "by the scan", try_kinds(&mut [], &mut []))?;
    let seasons = try_seasons(&mut entries, &mut bytes);
    println!(rt; "seasons of a kind of bag with a state, beside all choices: {seasons}")?;
    Ok(())
}

fn main(rt: HostRuntime) -> anyhow::Result<()> {
    run(&rt)
}
