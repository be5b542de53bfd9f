//! The first weight that will do: the last kind's row is joined with the others weight by weight, only until one is found.
ghost use Rattle.std.specs.Prelude.{ℕ, ◌<◌, length, slice_index};
ghost use Rattle.kinds_table.specs.Rows.{Capped, First, Sum, cost_in};

use crate::blocks::NEVER;

// The least cost of one of the last row and one of the joined rows that make `x` together.
fn least_sum(row: &[u32], joined: &[u32], x: usize) -> u32
    requires room { x < length joined.now }
    requires capped { Capped row.now × Capped joined.now }
    ensures { Sum (cost_in row.now) (slice_index joined.now) x result }
{
    let mut least = NEVER;
    for v in 0..row.len().min(x + 1) {
        least = least.min(row[v] + joined[x - v]);
    }
    least
}

/// How much more than the least of all kinds a bag weighs, and the least cost of a choice that weighs so much.
#[derive(Clone, Copy)]
pub struct Reached {
    pub over: usize,
    pub cost: u32,
}

/// The first of `from` to `span` at which the least cost is below `limit`; `None`: there is none.
pub fn lightest(
    row: &[u32],
    joined: &[u32],
    from: usize,
    span: usize,
    limit: u32,
) -> Option<Reached>
    requires room { span < length joined.now }
    requires capped { Capped row.now × Capped joined.now }
    ensures { First (cost_in row.now) (slice_index joined.now) from span limit result }
{
    for over in from..span + 1 {
        let cost = least_sum(row, joined, over);
        if cost < limit {
            return Some(Reached { over, cost });
        }
    }
    None
}
