//! A row of least costs takes in one more pan.
ghost use Rattle.std.specs.Prelude.{◌≡◌, ℕ, ◌+◌, ◌-◌, ◌*◌, ◌^◌, ◌<◌, ◌≤◌, ◌⊎◌, min, length, slice_index};
ghost use Rattle.kinds_table.specs.Costs.{never};
ghost use Rattle.kinds_table.specs.Rows.{Capped, back, row_at};

use crate::blocks::{BLOCK, NEVER, lower};

/// Takes in a pan that may be opened or stay shut: it weighs `weight`, at least 1, and costs `gain`.
///
/// The row's weight 0 stands at `row`, behind a block of `NEVER`; the row is `blocks` blocks long.
pub fn offer(room: &mut [u32], row: usize, blocks: usize, weight: usize, gain: u32)
    requires room { (16 ≤ row) × (row + 16 * blocks ≤ length room.old) }
    requires some { 1 ≤ weight }
    requires gain { gain ≤ 2 ^ 24 }
    requires capped { Capped room.old }
    requires blank { (j : ℕ) → j < 16 → slice_index room.old (row - 16 + j) ≡ never }
    ensures same { (j : ℕ) → (j < row) ⊎ (row + 16 * blocks ≤ j) → slice_index room.new j ≡ slice_index room.old j }
    ensures made { (x : ℕ) → x < 16 * blocks → row_at room.new row x ≡ min (row_at room.old row x) (back (row_at room.old row) weight x + gain) }
{
    // From the back, so that what is read has not been changed for this pan.
    for block in (weight / BLOCK..blocks).rev() {
        let at = row + BLOCK * block;
        lower(room, at, at - weight, gain);
    }
}

/// Takes in a pan that has to be opened: no choice without it is left in the row.
pub fn force(room: &mut [u32], row: usize, blocks: usize, weight: usize, gain: u32)
    requires room { (16 ≤ row) × (row + 16 * blocks ≤ length room.old) }
    requires some { 1 ≤ weight }
    requires gain { gain ≤ 2 ^ 24 }
    requires capped { Capped room.old }
    ensures same { (j : ℕ) → (j < row) ⊎ (row + 16 * blocks ≤ j) → slice_index room.new j ≡ slice_index room.old j }
    ensures made { (x : ℕ) → x < 16 * blocks → row_at room.new row x ≡ min never (back (row_at room.old row) weight x + gain) }
{
    for x in (0..BLOCK * blocks).rev() {
        room[row + x] = if x < weight {
            NEVER
        } else {
            NEVER.min(room[row + x - weight] + gain)
        };
    }
}
