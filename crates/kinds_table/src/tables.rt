//! The rows of all kinds.
ghost use Rattle.std.specs.Prelude.{◌≡◌, ℕ, ◌+◌, ◌-◌, ◌*◌, ◌^◌, ◌<◌, ◌≤◌, length};
ghost use Rattle.kinds_table.specs.Costs.{Lot, from};
ghost use Rattle.kinds_table.specs.Plans.{Laid, lot_of};
ghost use Rattle.kinds_table.specs.Rows.{Tables};

use crate::blocks::{BLOCK, NEVER};
use crate::plan::Plan;
use crate::rows::{force, offer};
use kinds::MixedRing;

// Writes the row of no pan for each kind.
fn start(plan: Plan, rows: &mut [u32])
    requires laid { Laid plan }
    requires room { plan.wide * plan.kinds ≤ length rows.old }
    ensures { (l : Lot) → length l.weights ≡ 0 → Tables l plan.most plan.kinds plan.wide rows.new }
{
    rows.fill(NEVER);
    for kind in 0..plan.kinds {
        rows[plan.row(kind)] = 0;
    }
}

// What it costs to open a pan: 2^24 for one pan more, less the pan's own bit, which is the higher the further in front it
// stands. So of two choices of as many pans the one that opens the first pan that differs costs less.
fn gain(pans: usize, pan: usize) -> u32
    requires { (pan < pans) × (pans ≤ 24) }
    ensures { result ≡ 2 ^ 24 - 2 ^ (pans - 1 - pan) }
{
    (1 << 24) - (1 << (pans - 1 - pan))
}

// Takes a pan into the row of its kind.
fn take_in(mixed: MixedRing, plan: Plan, rows: &mut [u32], pan: usize)
    requires laid { Laid plan }
    requires kinds { plan.kinds ≡ length mixed.windows.now }
    requires room { plan.wide * plan.kinds ≤ length rows.old }
    requires pan { pan < length mixed.ring.weights.now }
    requires tables { Tables (from (lot_of mixed.ring.rule mixed.kinds.now mixed.ring.weights.now mixed.ring.ages.now) (pan + 1)) plan.most plan.kinds plan.wide rows.old }
    ensures { Tables (from (lot_of mixed.entry.ring.rule mixed.entry.kinds.now mixed.entry.ring.weights.now mixed.entry.ring.ages.now) pan) plan.most plan.kinds plan.wide rows.new }
{
    let ring = mixed.ring;
    let kind = mixed.kinds[pan] as usize;
    let row = plan.row(kind);
    let blocks = plan.most[kind] / BLOCK + 1;
    let gain = gain(ring.weights.len(), pan);
    let lies = ring.weights[pan] as usize;
    // An empty pan is never opened, as if it were too heavy.
    let weight = if lies == 0 { BLOCK * blocks } else { lies };
    if ring.ages[pan] < ring.rule.age {
        offer(rows, row, blocks, weight, gain);
    } else {
        force(rows, row, blocks, weight, gain);
    }
}

/// Fills the rows of all kinds, side by side, the last pans first; each pan changes the row of its own kind alone.
pub fn fill(mixed: MixedRing, plan: Plan, rows: &mut [u32])
    requires laid { Laid plan }
    requires kinds { plan.kinds ≡ length mixed.windows.now }
    requires room { plan.wide * plan.kinds ≤ length rows.old }
    ensures { Tables (lot_of mixed.entry.ring.rule mixed.entry.kinds.now mixed.entry.ring.weights.now mixed.entry.ring.ages.now) plan.most plan.kinds plan.wide rows.new }
{
    start(plan, rows);
    for pan in (0..mixed.ring.weights.len()).rev() {
        take_in(mixed, plan, rows, pan);
    }
}
