//! The rows of the kinds are joined, kind by kind. In a joined row weights count from the least that its kinds weigh.
ghost use Rattle.std.specs.Prelude.{◌≡◌, ℕ, ◌+◌, ◌-◌, ◌*◌, ◌<◌, ◌≤◌, ◌⊎◌, min, length, slice_index};
ghost use Rattle.kinds_table.specs.Costs.{Lot, never};
ghost use Rattle.kinds_table.specs.Plans.{Laid};
ghost use Rattle.kinds_table.specs.Rows.{Capped, Joined, Sum, Tables, cost_in, row_at};

use crate::blocks::{BLOCK, NEVER, lower};
use crate::plan::Plan;

// Lowers `blocks` blocks from `at` on to those from `from` on and `gain` more.
fn lay(sums: &mut [u32], at: usize, from: usize, blocks: usize, gain: u32)
    requires room { (at + 16 * blocks ≤ length sums.old) × (from + 16 * blocks ≤ at) }
    requires gain { gain ≤ never }
    requires capped { Capped sums.old }
    ensures same { (j : ℕ) → (j < at) ⊎ (at + 16 * blocks ≤ j) → slice_index sums.new j ≡ slice_index sums.old j }
    ensures made { (x : ℕ) → x < 16 * blocks → slice_index sums.new (at + x) ≡ min (slice_index sums.old (at + x)) (slice_index sums.old (from + x) + gain) }
{
    for block in 0..blocks {
        lower(sums, at + BLOCK * block, from + BLOCK * block, gain);
    }
}

// Writes the first kind's row, from its least weight on, as the joined row of this kind alone.
fn copy(row: &[u32], sums: &mut [u32], at: usize, span: usize)
    requires room { at + span < length sums.old }
    requires blank { (x : ℕ) → x ≤ span → slice_index sums.old (at + x) ≡ never }
    ensures same { (j : ℕ) → (j < at) ⊎ (at + span < j) → slice_index sums.new j ≡ slice_index sums.old j }
    ensures made { (x : ℕ) → x ≤ span → row_at sums.new at x ≡ cost_in row.now x }
{
    for v in 0..row.len().min(span + 1) {
        sums[at + v] = row[v];
    }
}

// Joins a kind's row, from its least weight on, with the joined row at `from`: writes the least sum of a cost of each, for
// each weight up to `span`, from `at` on.
fn join(row: &[u32], sums: &mut [u32], from: usize, at: usize, span: usize)
    requires room { (from + span + 16 ≤ at) × (at + span + 16 ≤ length sums.old) }
    requires blank { (x : ℕ) → x ≤ span → slice_index sums.old (at + x) ≡ never }
    requires capped { Capped sums.old }
    ensures same { (j : ℕ) → (j < at) ⊎ (at + span + 16 ≤ j) → slice_index sums.new j ≡ slice_index sums.old j }
    ensures capped { Capped sums.new }
    ensures made { (x : ℕ) → x ≤ span → Sum (cost_in row.now) (row_at sums.old from) x (row_at sums.new at x) }
{
    for v in 0..row.len().min(span + 1) {
        let gain = row[v];
        if gain < NEVER {
            lay(sums, at + v, from, (span - v) / BLOCK + 1, gain);
        }
    }
}

/// Joins the rows of all kinds but the last, each into a joined row behind the one without it.
pub fn join_all(plan: Plan, rows: &[u32], sums: &mut [u32])
    requires laid { Laid plan }
    requires room { (plan.wide * plan.kinds ≤ length rows.now) × (plan.wide * plan.kinds ≤ length sums.old) }
    requires capped { Capped rows.now }
    ensures capped { Capped sums.new }
    ensures joined { (l : Lot) → Tables l plan.most plan.kinds plan.wide rows.now → Joined (plan.kinds - 1) l plan.least plan.most plan.span (row_at sums.new (plan.wide * (plan.kinds - 1))) }
{
    sums.fill(NEVER);
    sums[0] = 0;
    for kind in 0..plan.kinds - 1 {
        let row = &rows[plan.row(kind) + plan.least[kind]..plan.row(kind) + plan.most[kind] + 1];
        let from = plan.wide * kind;
        if kind == 0 {
            copy(row, sums, plan.wide, plan.span);
        } else {
            join(row, sums, from, from + plan.wide, plan.span);
        }
    }
}
