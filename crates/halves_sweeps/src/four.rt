//! Four sweeps in one loop, so that the processor works on all at once. Each goes up the back list and down the front list.
ghost use Rattle.std.specs.Prelude.{◌≡◌, ℕ, ◌+◌, ◌-◌, ◌<◌, ◌≤◌, ◌⊎◌, length, slice_index};
ghost use Rattle.std.specs.List.{All};
ghost use Rattle.halves_sweeps.specs.Lane.{Free, Fresh, Strides, Strode, Swept};
ghost use Rattle.halves_sweeps.specs.Sweep.{Any, LeastSum};

use crate::lane::Lane;
use crate::lists::Lists;
use halves_growth::above;
use std::array;

// A sweep that has not begun, for sums that are from `from` on and below `to` together with `top`.
fn fresh(top: u64, front: usize, from: u64, to: u64) -> Lane
    ensures { Fresh top front from to result }
{
    let below = to.saturating_sub(top);
    Lane {
        from: from.saturating_sub(top),
        to: below,
        at: 0,
        left: front,
        found: below,
    }
}

// Tests one pair. If the sum is too small, advances in the back list; else records it and steps down the front list.
fn step(lane: Lane, lists: Lists) -> Lane
    requires swept { Swept lists.front.now lists.back.now lane }
    requires behind { lane.at < length lists.back.now }
    requires front { 0 < lane.left }
    ensures { Strode lists.entry.front.now lists.entry.back.now lane result 1 }
{
    let sum = lists.back[lane.at] + lists.front[lane.left - 1];
    let short = above(lane.from, sum);
    let found = if sum < lane.from {
        lane.found
    } else {
        lane.found.min(sum)
    };
    Lane {
        from: lane.from,
        to: lane.to,
        at: lane.at + short,
        left: lane.left - 1 + short,
        found,
    }
}

// How many steps a sweep can take at least, where the back list has `back` entries.
fn free(lane: Lane, back: usize) -> usize
    requires { lane.at ≤ back }
    ensures behind { lane.at + result ≤ back }
    ensures front { result ≤ lane.left }
{
    (back - lane.at).min(lane.left)
}

// Takes `steps` steps of all four sweeps.
fn stride(lanes: [Lane; 4], lists: Lists, steps: usize) -> [Lane; 4]
    requires { All (Free lists.front.now lists.back.now steps) lanes }
    ensures { Strides lists.entry.front.now lists.entry.back.now lanes result steps }
{
    let mut run = lanes;
    for _done in 0..steps {
        for lane in &mut run {
            *lane = step(*lane, lists);
        }
    }
    run
}

// How many steps each of the four can take at least.
fn all_free(lanes: &[Lane; 4], back: usize) -> usize
    requires { All (λ x. x.at ≤ back) lanes.now }
    ensures { All (λ x. (x.at + result ≤ back) × (result ≤ x.left)) lanes.now }
{
    let mut steps = usize::MAX;
    for lane in lanes {
        steps = steps.min(free(*lane, back));
    }
    steps
}

// Takes steps of all four until one of them is at its end.
fn side_by_side(lanes: [Lane; 4], lists: Lists) -> [Lane; 4]
    requires { All (Swept lists.front.now lists.back.now) lanes }
    ensures { (k : ℕ) × Strides lists.entry.front.now lists.entry.back.now lanes result k }
{
    let mut run = lanes;
    let mut steps = all_free(&run, lists.back.len());
    while steps > 0 {
        run = stride(run, lists, steps);
        steps = all_free(&run, lists.back.len());
    }
    run
}

// Takes one sweep to its end.
fn finish(lane: Lane, lists: Lists) -> u64
    requires { Swept lists.front.now lists.back.now lane }
    ensures { LeastSum Any lists.entry.front.now lists.entry.back.now lane.from lane.to result }
{
    let mut run = lane;
    while run.at < lists.back.len() && run.left > 0 {
        run = step(run, lists);
    }
    run.found
}

// The least sum beside one top.
fn alone(top: u64, lists: Lists, from: u64, to: u64) -> u64
    ensures { LeastSum Any lists.entry.front.now lists.entry.back.now (from - top) (to - top) result }
{
    finish(fresh(top, lists.front.len(), from, to), lists)
}

// The least sum beside each of one to four tops, by four sweeps in one loop; the last top stands in for those missing.
fn four(tops: &[u64], lists: Lists, from: u64, to: u64) -> [u64; 4]
    requires some { 0 < length tops.now }
    requires few { length tops.now ≤ 4 }
    ensures { (t : ℕ) → t < length tops.now → LeastSum Any lists.entry.front.now lists.entry.back.now (from - slice_index tops.now t) (to - slice_index tops.now t) (slice_index result t) }
{
    let last = tops.len() - 1;
    let lanes = array::from_fn(|t| fresh(tops[t.min(last)], lists.front.len(), from, to));
    let run = side_by_side(lanes, lists);
    array::from_fn(|t| finish(run[t], lists))
}

/// For each of at most four tops, the least sum of an entry of each list that with the top is from `from` on, below `to`.
///
/// Where a top has none, its answer is `to` less the top. Answers past the last top have no meaning.
pub fn each(tops: &[u64], lists: Lists, from: u64, to: u64) -> [u64; 4]
    requires { length tops.now ≤ 4 }
    ensures { (t : ℕ) → t < length tops.now → LeastSum Any lists.entry.front.now lists.entry.back.now (from - slice_index tops.now t) (to - slice_index tops.now t) (slice_index result t) }
{
    match tops {
        [] => [to; 4],
        // One top alone needs no other sweeps beside it.
        [top] => [alone(*top, lists, from, to); 4],
        _ => four(tops, lists, from, to),
    }
}
