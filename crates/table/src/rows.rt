//! The rows of the table: for each weight the least number of free pans that weigh exactly so much.
ghost use Rattle.choices.specs.declared.limits.TheConstants.{LIMIT, PANS};
ghost use Rattle.std.specs.Prelude.{◌≡◌, ℕ, ◌+◌, ◌-◌, ◌*◌, ◌<◌, ◌≤◌, true, ◌≢◌, length, slice_index};
ghost use Rattle.table.specs.Pans.{free_at, none_old_empty, pairs_of};
ghost use Rattle.table.specs.Rows.{Rows, joined, row_at};
ghost use Rattle.table.specs.Surveyed.{Surveyed};

use crate::blocks::{BLOCK, add_blocks, blank, get};
use crate::pans::pairs;
use crate::shape::Shape;
use crate::survey::Survey;
use choices::{PANS, Ring};

// Writes the row of no pan: weight 0 takes no pan, and no other weight can be made.
fn start_row(row: &mut [u8], pad: usize)
    requires { pad < length row.old }
    ensures none { slice_index row.new pad ≡ 0 }
    ensures rest { (x : ℕ) → x ≢ pad → x < length row.old → slice_index row.new x ≡ 255 }
{
    row.fill(255);
    row[pad] = 0;
}

// Writes the row with two pans more behind the row without them, and joins the blocks from `low` up to `high`. From `high`
// on the row is 255, since all its pans together weigh less.
fn add_pair(
    room: &mut [u8],
    never: [u8; BLOCK],
    row: usize,
    shape: Shape,
    low: usize,
    high: usize,
    first: usize,
    second: usize,
)
    requires never { (x : ℕ) → x < 64 → slice_index never x ≡ 255 }
    requires room { (shape.pad ≤ row) × (row + 64 * shape.blocks + (shape.pad + 64 * shape.blocks) ≤ length room.old) }
    requires within { high ≤ shape.blocks }
    requires small { (first ≤ LIMIT) × (second ≤ LIMIT) }
    requires blank { (j : ℕ) → j < shape.pad → slice_index room.old (row - shape.pad + j) ≡ 255 }
    ensures same { (j : ℕ) → j < row + 64 * shape.blocks → slice_index room.new j ≡ slice_index room.old j }
    ensures blank { (j : ℕ) → j < shape.pad → slice_index room.new (row + 64 * shape.blocks + j) ≡ 255 }
    ensures made { (x : ℕ) → 64 * low ≤ x → x < 64 * high → row_at room.new (row + (shape.pad + 64 * shape.blocks)) x ≡ joined (joined (row_at room.old row) second) first x }
    ensures never { (x : ℕ) → 64 * high ≤ x → x < 64 * shape.blocks → row_at room.new (row + (shape.pad + 64 * shape.blocks)) x ≡ 255 }
{
    let pad = shape.pad;
    let next = row + shape.wide();
    blank(room, never, next - pad, pad / BLOCK);
    add_blocks(room, row, next, low, high, first, second);
    blank(room, never, next + BLOCK * high, shape.blocks - high);
}

/// Fills all rows of a ring, from that of no pan to that of all pans, two pans more each, the last pans first.
///
/// Each row is right from the least weight on that, with all free pans before, still reaches `from`. `seen` is the survey of
/// the ring, in which no old pan is empty; `free` is what `free_of` answers; `room` is long enough for rows of this shape.
pub fn fill(
    ring: Ring,
    seen: Survey,
    free: &[u32; PANS],
    from: usize,
    shape: Shape,
    room: &mut [u8],
)
    requires free { (i : ℕ) → i < PANS → slice_index free.now i ≡ free_at ring.rule.age ring.weights.now ring.ages.now i }
    requires seen { Surveyed ring.rule.age ring.weights.now ring.ages.now seen }
    requires old_filled { none_old_empty ring.rule.age ring.weights.now ring.ages.now ≡ true }
    requires enough { (shape.pad + 64 * shape.blocks) * (pairs_of (length ring.weights.now) + 1) ≤ length room.old }
    ensures { Rows ring.entry.rule.age ring.entry.weights.now ring.entry.ages.now from (64 * shape.blocks - 1) shape.pad (shape.pad + 64 * shape.blocks) 0 room.new }
{
    let wide = shape.wide();
    let all = seen.free as usize;
    start_row(&mut room[..wide], shape.pad);
    let never = get(room, 0);
    let mut row = shape.pad;
    let mut before = all;
    for pair in (0..pairs(ring)).rev() {
        let first = free[2 * pair] as usize;
        let second = free[2 * pair + 1] as usize;
        before -= first + second;
        let low = from.saturating_sub(before) / BLOCK;
        let high = shape.blocks.min((all - before) / BLOCK + 1);
        add_pair(room, never, row, shape, low, high, first, second);
        row += wide;
    }
}
