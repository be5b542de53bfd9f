//! Sweeps that look at how many pans are opened.
ghost use Rattle.std.specs.Prelude.{ℕ, ◌+◌, ◌<◌, ◌≤◌, length};
ghost use Rattle.halves_sweeps.specs.Sweep.{Few, LeastOf, LeastSum, Meets, Together};

use crate::band::Band;
use crate::lists::Lists;
use halves_places::pans_in;

// Goes up the back list and down the front list, past each entry that opens too many or too few pans for the band.
fn sweep(lists: Lists, band: Band, from: u64, to: u64) -> u64
    ensures { LeastSum (Meets band) lists.entry.front.now lists.entry.back.now from to result }
{
    let mut i = 0;
    let mut j = lists.front.len();
    let mut found = to;
    // By index: slices that are split at an end in each turn took a seventh longer.
    while i < lists.back.len() && j > 0 {
        let a = lists.back[i];
        let b = lists.front[j - 1];
        if pans_in(a) != band.count {
            i += 1;
        } else if pans_in(b) > band.rest {
            j -= 1;
        } else if a + b < from {
            i += 1;
        } else {
            found = found.min(a + b);
            j -= 1;
        }
    }
    found
}

// One sweep for each count of pans in the back list, each for sums below the least found before.
fn counted(lists: Lists, limit: u64, from: u64, to: u64) -> u64
    ensures { LeastSum (Few limit) lists.entry.front.now lists.entry.back.now from to result }
{
    let mut found = to;
    for k in 0..limit.min(31) + 1 {
        let band = Band {
            count: k,
            rest: limit - k,
        };
        found = sweep(lists, band, from, found);
    }
    found
}

// The same beside a top, which opens some of the `limit` pans itself.
fn beside(top: u64, lists: Lists, limit: u64, from: u64, to: u64) -> u64
    ensures { LeastSum (Together limit top) lists.entry.front.now lists.entry.back.now from to result }
{
    let opened = pans_in(top);
    if opened <= limit {
        counted(lists, limit - opened, from, to)
    } else {
        to
    }
}

/// The least sum of a top and an entry of each list that opens at most `limit` pans, from `from` on and below `to`.
///
/// Answers `to` where there is none. Takes as many sweeps for each top as there are counts.
pub fn fewest(tops: &[u64], lists: Lists, limit: u64, from: u64, to: u64) -> u64
    ensures { LeastOf (Together limit) (length tops.now) tops.now lists.entry.front.now lists.entry.back.now from to result }
{
    let mut found = to;
    for &top in tops {
        let more = beside(
            top,
            lists,
            limit,
            from.saturating_sub(top),
            found.saturating_sub(top),
        );
        found = found.min(more + top);
    }
    found
}
