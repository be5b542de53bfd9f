//! What each kind may weigh, and how the rows lie in the lent room.
ghost use Rattle.std.specs.Prelude.{◌≡◌, ℕ, ◌+◌, ◌-◌, ◌*◌, ◌^◌, ◌<◌, ◌≤◌, length, max, min, slice_index, slice_index_or};
ghost use Rattle.kinds_table.specs.Rows.{sum_below};
ghost use Rattle.kinds_table.specs.Plans.{Based, Cut, Laid, Planned, shut, wide_of};

use crate::blocks::BLOCK;
use kinds::{KINDS, MixedRing, Window};
use std::array;

/// What each kind may weigh, cut by what the others have to and may weigh, and how long a row is.
#[derive(Clone, Copy)]
pub struct Plan {
    /// The least weight of each kind; 0 past the last kind.
    pub least: [usize; KINDS],
    /// The most weight of each kind; 0 past the last kind.
    pub most: [usize; KINDS],
    /// How many kinds there are.
    pub kinds: usize,
    /// What all kinds weigh at least.
    pub base: usize,
    /// What a bag may weigh above that.
    pub span: usize,
    /// How far one row stands from the next.
    pub wide: usize,
}

/// The words of a row for each weight up to `top`, with a block before it.
pub fn wide_for(top: usize) -> usize
    requires { top ≤ 50000000 }
    ensures { result ≡ wide_of top }
{
    BLOCK * (top / BLOCK + 2)
}

// What the windows of all kinds come to.
#[derive(Clone, Copy)]
struct Totals {
    least: usize,
    most: usize,
}

fn totalled(windows: &[Window]) -> Totals
    requires { length windows.now ≤ 4 }
    ensures least { result.least ≡ sum_below (λ k. (slice_index_or windows.now k shut).least) (length windows.now) }
    ensures most { result.most ≡ sum_below (λ k. (slice_index_or windows.now k shut).most) (length windows.now) }
{
    let mut all = Totals { least: 0, most: 0 };
    for kind in 0..windows.len() {
        all.least += windows[kind].least as usize;
        all.most += windows[kind].most as usize;
    }
    all
}

// The least that a kind may weigh: its window's, or what the most of all others leaves of the target. 0 past the last kind.
fn least_of(mixed: MixedRing, all: Totals, kind: usize) -> usize
    ensures known { kind < length mixed.entry.windows.now → result ≡ max (slice_index_or mixed.entry.windows.now kind shut).least (mixed.entry.ring.rule.target - (all.most - (slice_index_or mixed.entry.windows.now kind shut).most)) }
    ensures others { length mixed.entry.windows.now ≤ kind → result ≡ 0 }
    ensures small { result ≤ 2 ^ 32 }
{
    if kind < mixed.windows.len() {
        let window = mixed.windows[kind];
        let others = all.most.saturating_sub(window.most as usize);
        let left = (mixed.ring.rule.target as usize).saturating_sub(others);
        left.max(window.least as usize)
    } else {
        0
    }
}

// The most that a kind may weigh: its window's, or what the least of all others leaves of the top. 0 past the last kind.
fn most_of(mixed: MixedRing, all: Totals, kind: usize) -> usize
    ensures known { kind < length mixed.entry.windows.now → result ≡ min (slice_index_or mixed.entry.windows.now kind shut).most (mixed.entry.ring.rule.target + mixed.entry.ring.rule.above - (all.least - (slice_index_or mixed.entry.windows.now kind shut).least)) }
    ensures others { length mixed.entry.windows.now ≤ kind → result ≡ 0 }
{
    if kind < mixed.windows.len() {
        let window = mixed.windows[kind];
        let others = all.least.saturating_sub(window.least as usize);
        let top = mixed.ring.rule.target as usize + mixed.ring.rule.above as usize;
        top.saturating_sub(others).min(window.most as usize)
    } else {
        0
    }
}

// What each kind may weigh; 0 past the last kind.
#[derive(Clone, Copy)]
struct Limits {
    least: [usize; KINDS],
    most: [usize; KINDS],
}

// What each kind may weigh beside all others.
fn cut(mixed: MixedRing) -> Limits
    ensures { Cut mixed.entry.ring.rule mixed.entry.windows.now result.least result.most }
{
    let all = totalled(mixed.windows);
    Limits {
        least: array::from_fn(|kind| least_of(mixed, all, kind)),
        most: array::from_fn(|kind| most_of(mixed, all, kind)),
    }
}

// What all kinds weigh at least; `None` where one may not weigh anything.
fn base_of(least: &[usize; KINDS], most: &[usize; KINDS], kinds: usize) -> Option<usize>
    requires few { kinds ≤ 4 }
    requires small { (k : ℕ) → slice_index least.now k ≤ 2 ^ 32 }
    ensures { Based (slice_index least.now) (slice_index most.now) kinds result }
{
    let mut base = 0;
    for kind in 0..kinds {
        if least[kind] > most[kind] {
            return None;
        }
        base += least[kind];
    }
    Some(base)
}

impl Plan {
    /// The plan for a ring; `None` where the windows alone leave no weight for a bag.
    pub fn of(mixed: MixedRing) -> Option<Plan>
        ensures { Planned mixed.entry.ring.rule mixed.entry.windows.now mixed.entry.kinds.now mixed.entry.ring.weights.now mixed.entry.ring.ages.now result }
    {
        let top = mixed.ring.rule.target as usize + mixed.ring.rule.above as usize;
        let kinds = mixed.windows.len();
        let Limits { least, most } = cut(mixed);
        let base = base_of(&least, &most, kinds)?;
        let span = top.checked_sub(base)?;
        Some(Plan {
            least,
            most,
            kinds,
            base,
            span,
            wide: wide_for(top),
        })
    }

    /// Where the row of a kind starts.
    pub fn row(self, kind: usize) -> usize
        requires laid { Laid self }
        requires known { kind < self.kinds }
        ensures { result ≡ self.wide * kind + 16 }
    {
        self.wide * kind + BLOCK
    }
}
