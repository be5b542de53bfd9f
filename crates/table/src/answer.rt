//! The best bag of a ring, found in its table.
ghost use Rattle.std.specs.Prelude.{◌≡◌, ◌+◌, ◌*◌, ◌≤◌, ◌&&◌, true, length, nat_le};
ghost use Rattle.choices.specs.Choice.{fits};
ghost use Rattle.order.specs.Order.{Found};
ghost use Rattle.table.specs.Pans.{table_bytes};
ghost use Rattle.table.specs.Surveyed.{Surveyed};

use crate::look::survey;
use crate::pans::{free_of, old_number, pairs};
use crate::read::Table;
use crate::rows::fill;
use crate::shape::Shape;
use crate::survey::Survey;
use choices::Ring;
use order::Bag;

// From so many bytes of rows on the scan of up to two pans takes less time than they do. Each three pans more double that.
const SCAN_PAYS: usize = 65_536;

// The scan of more pans may take far longer than most of them do, so the rows are filled.
const SCAN_MOST: u32 = 12;

/// The best bag of a ring, or `None` where no choice of its pans fits its rule.
///
/// Row by row, for two pans more each, holds the least number of free pans that make each weight: Bellman's rows for subset
/// sums (1957), with counts. Where rows are long, and few pans are neither old nor empty, the scan takes less time and is
/// asked in their place. `room` has at least the bytes that `room_for` says and may hold anything; its contents are
/// unspecified afterwards.
pub fn best(ring: Ring, room: &mut [u8]) -> Option<Bag>
    requires { table_bytes ring.rule ring.weights.now ring.ages.now ≤ length room.old }
    ensures { Found (fits ring.entry.rule ring.entry.weights.now ring.entry.ages.now) ring.entry.weights.now result }
{
    let seen = survey(ring);
    if !seen.leaves_a_bag(ring.rule) {
        return None;
    }
    // A bag of exactly the target by few pans takes a fraction of the time of the rows.
    if seen.few_may_do(ring.rule) && few_may_hit(ring, seen) {
        let easy = exact::best(ring, room);
        if easy.is_some() {
            return easy;
        }
    }
    if scan_may_do(ring, seen) {
        return search::best(ring);
    }
    by_rows(ring, seen, room)
}

// Whether the scan is likely to take less time than the rows: where these are long, and few of the pans are neither old nor
// empty (measured, see bench/). Only the time that `best` takes depends on it, so it promises nothing.
fn scan_may_do(ring: Ring, seen: Survey) -> bool {
    let bytes = Shape::of(seen.span(ring.rule)).wide() * pairs(ring);
    if bytes < SCAN_PAYS {
        return false;
    }
    let mut pans = 0u32;
    for pan in 0..ring.weights.len() {
        pans |= u32::from(ring.weights[pan] >= 1 && ring.ages[pan] < ring.rule.age) << pan;
    }
    let filled = pans.count_ones();
    filled <= SCAN_MOST && bytes >> (filled / 3) >= SCAN_PAYS
}

// Whether up to four pans that weigh between the lightest and the heaviest may weigh exactly `left`.
fn four_may_weigh(left: u64, lightest: u64, heaviest: u64) -> bool {
    for pans in 0..5u64 {
        if pans.saturating_mul(lightest) <= left && left <= pans.saturating_mul(heaviest) {
            return true;
        }
    }
    false
}

// Whether up to four free pans may weigh exactly what is left of the target: not all are even where it is odd, and so many
// of the lightest are not too heavy, and of the heaviest not too light. Only the time that `best` takes depends on it, so it
// promises nothing.
fn few_may_hit(ring: Ring, seen: Survey) -> bool {
    let left = ring.rule.target - seen.old_weight.min(ring.rule.target);
    let mut below = u32::MAX;
    let mut bits = 0;
    // By index, as `survey` is. An empty pan is never opened, so it counts as the heaviest here.
    for pan in 0..ring.weights.len() {
        below = below.min(ring.weights[pan].wrapping_sub(1));
        bits |= ring.weights[pan];
    }
    if left % 2 > bits % 2 {
        return false;
    }
    let lightest = u64::from(below).saturating_add(1);
    four_may_weigh(u64::from(left), lightest, u64::from(seen.heaviest))
}

// Fills all rows, finds the lightest weight in the window that few enough pans make, and reads off its pans.
fn by_rows(ring: Ring, seen: Survey, room: &mut [u8]) -> Option<Bag>
    requires seen { Surveyed ring.rule.age ring.weights.now ring.ages.now seen }
    requires leaves { (seen.old_filled && (nat_le seen.old_count ring.rule.pans && nat_le seen.old_weight (ring.rule.target + ring.rule.above))) ≡ true }
    requires room { table_bytes ring.rule ring.weights.now ring.ages.now ≤ length room.old }
    ensures { Found (fits ring.entry.rule ring.entry.weights.now ring.entry.ages.now) ring.entry.weights.now result }
{
    let rule = ring.rule;
    let span = seen.span(rule);
    let from = rule.target.saturating_sub(seen.old_weight) as usize;
    let shape = Shape::of(span);
    let free = free_of(ring);
    fill(ring, seen, &free, from, shape, room);
    let table = Table {
        ring,
        span,
        shape,
        bytes: room,
    };
    let limit = (rule.pans - seen.old_count).min(254) as u8;
    let x = table.lightest(from, limit)?;
    Some(Bag {
        pans: table.read(&free, old_number(ring, seen.old_count), x),
        weight: seen.old_weight + x as u32,
    })
}
