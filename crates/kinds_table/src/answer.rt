//! The best bag with so much of each kind.
ghost use Rattle.std.specs.Prelude.{◌≡◌, ◌-◌, ◌*◌, ◌≤◌, length};
ghost use Rattle.kinds.specs.Kinds.{mixes};
ghost use Rattle.kinds_table.specs.Plans.{Plans, lot_of, room_of};
ghost use Rattle.kinds_table.specs.Rows.{Capped, Joined, Tables, row_at};
ghost use Rattle.order.specs.Order.{Found};

use crate::joins::join_all;
use crate::plan::{Plan, wide_for};
use crate::search::lightest;
use crate::tables::fill;
use halves_places::bag_in;
use kinds::MixedRing;
use order::Bag;

/// The words of room that [`best`] needs: for each kind two rows, of at most target + above + 32 words.
pub fn room_for(mixed: MixedRing) -> usize
    ensures { result ≡ room_of mixed.entry.ring.rule (length mixed.entry.windows.now) }
{
    let rule = mixed.ring.rule;
    2 * mixed.windows.len() * wide_for(rule.target as usize + rule.above as usize)
}

// The bag of the first weight whose least cost tells of few enough pans.
fn read(mixed: MixedRing, plan: Plan, rows: &[u32], sums: &[u32]) -> Option<Bag>
    requires plans { Plans mixed.ring.rule mixed.windows.now mixed.kinds.now mixed.ring.weights.now mixed.ring.ages.now plan }
    requires room { (plan.wide * plan.kinds ≤ length rows.now) × (plan.wide * plan.kinds ≤ length sums.now) }
    requires tables { Tables (lot_of mixed.ring.rule mixed.kinds.now mixed.ring.weights.now mixed.ring.ages.now) plan.most plan.kinds plan.wide rows.now }
    requires joined { Joined (plan.kinds - 1) (lot_of mixed.ring.rule mixed.kinds.now mixed.ring.weights.now mixed.ring.ages.now) plan.least plan.most plan.span (row_at sums.now (plan.wide * (plan.kinds - 1))) }
    requires capped { Capped sums.now }
    ensures { Found (mixes mixed.entry.ring.rule mixed.entry.windows.now mixed.entry.kinds.now mixed.entry.ring.weights.now mixed.entry.ring.ages.now) mixed.entry.ring.weights.now result }
{
    let ring = mixed.ring;
    let last = plan.kinds - 1;
    let row = &rows[plan.row(last) + plan.least[last]..plan.row(last) + plan.most[last] + 1];
    let joined = &sums[plan.wide * last..plan.wide * plan.kinds];
    let from = (ring.rule.target as usize).saturating_sub(plan.base);
    let shut = (1u32 << ring.weights.len()) - 1;
    let limit = (ring.rule.pans.min(24) + 1) * (1 << 24) - shut;
    let found = lightest(row, joined, from, plan.span, limit)?;
    let weight = (plan.base + found.over) as u64;
    Some(bag_in(ring, weight * (1 << 29) + u64::from(found.cost + shut)))
}

/// The best bag with so much of each kind, or `None` where no choice of the pans fits the rule with so much of each.
///
/// `room` has at least the words that [`room_for`] says and may hold anything; its contents are unspecified afterwards.
pub fn best(mixed: MixedRing, room: &mut [u32]) -> Option<Bag>
    requires { room_of mixed.ring.rule (length mixed.windows.now) ≤ length room.old }
    ensures { Found (mixes mixed.entry.ring.rule mixed.entry.windows.now mixed.entry.kinds.now mixed.entry.ring.weights.now mixed.entry.ring.ages.now) mixed.entry.ring.weights.now result }
{
    let plan = Plan::of(mixed)?;
    let long = plan.wide * plan.kinds;
    let (rows, rest) = room.split_at_mut(long);
    let sums = &mut rest[..long];
    fill(mixed, plan, rows);
    join_all(plan, rows, sums);
    read(mixed, plan, rows, sums)
}
