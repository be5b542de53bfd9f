//! A ring's table in a lent room, and how a bag is read off it: first its weight, then its pans from pan 0 on.
ghost use Rattle.choices.specs.declared.limits.TheConstants.{LIMIT, PANS};
ghost use Rattle.std.specs.Prelude.{◌≡◌, ℕ, ◌+◌, ◌-◌, ◌*◌, ◌^◌, ◌<◌, ◌≤◌, true, cond, length, slice_index};
ghost use Rattle.choices.specs.Choice.{bit};
ghost use Rattle.choices.specs.Numbered.{number_of};
ghost use Rattle.exact.specs.Pans.{only_old};
ghost use Rattle.table.specs.Pans.{free_at, none_old_empty, pairs_of};
ghost use Rattle.table.specs.Rows.{Lightest, Read, Rows, first_opens, row_at, second_opens};

use crate::pans::pairs;
use crate::shape::Shape;
use choices::{PANS, Ring};

// What a pan takes of the weight that is left.
fn taken(opened: bool, weight: usize) -> usize
    ensures { result ≡ cond opened weight 0 }
{
    if opened { weight } else { 0 }
}

// The bit of an opened pan in the number of a choice.
fn mark(opened: bool, pan: usize) -> u32
    requires { pan < 32 }
    ensures { result ≡ bit opened * 2 ^ pan }
{
    u32::from(opened) << pan
}

/// The rows of a ring in a lent room: one for no pan at all, and one for each two pans. No old pan of the ring is empty.
#[derive(Clone, Copy)]
pub struct Table<'a, 'b> {
    /// The ring.
    pub ring: Ring<'a>,
    /// The most that the free pans of a bag may weigh.
    pub span: usize,
    /// How each row lies in the room.
    pub shape: Shape,
    /// The rows.
    pub bytes: &'b [u8],
    ghost old_filled: { none_old_empty ring.rule.age ring.weights.now ring.ages.now ≡ true },
    ghost whole: { span < 64 * shape.blocks },
    ghost enough: { (shape.pad + 64 * shape.blocks) * (pairs_of (length ring.weights.now) + 1) ≤ length bytes.now },
}

impl Table<'_, '_> {
    // The byte of weight 0 in the row of all pans.
    fn top(self) -> usize
        ensures { result ≡ self.entry.shape.pad + (self.entry.shape.pad + 64 * self.entry.shape.blocks) * pairs_of (length self.entry.ring.weights.now) }
    {
        self.shape.pad + self.shape.wide() * pairs(self.ring)
    }

    /// The least weight, from `from` on, that at most `limit` free pans make; `None`: none up to the span.
    pub fn lightest(self, from: usize, limit: u8) -> Option<usize>
        ensures { Lightest self.entry.bytes.now (self.entry.shape.pad + (self.entry.shape.pad + 64 * self.entry.shape.blocks) * pairs_of (length self.entry.ring.weights.now)) from self.entry.span limit result }
    {
        let top = self.top();
        (from..self.span + 1).find(|x| self.bytes[top + *x] <= limit)
    }

    // Which of two free pans are opened for the weight `left`: each where the pans behind then make the rest with fewer.
    // Reads all four bytes first, so the processor has no branch to mispredict.
    fn opens(self, row: usize, left: usize, first: usize, second: usize) -> (bool, bool)
        requires row { self.shape.pad + (self.shape.pad + 64 * self.shape.blocks) ≤ row }
        requires left { row + left < length self.bytes.now }
        requires small { (first ≤ LIMIT) × (second ≤ LIMIT) }
        requires blank { (j : ℕ) → j < self.shape.pad → slice_index self.bytes.now (row - (self.shape.pad + 64 * self.shape.blocks) - self.shape.pad + j) ≡ 255 }
        ensures first { result.0 ≡ first_opens (row_at self.entry.bytes.now row) (row_at self.entry.bytes.now (row - (self.entry.shape.pad + 64 * self.entry.shape.blocks))) first second left }
        ensures second { result.1 ≡ second_opens result.0 (row_at self.entry.bytes.now row) (row_at self.entry.bytes.now (row - (self.entry.shape.pad + 64 * self.entry.shape.blocks))) first second left }
    {
        let most = left + 1;
        let rest = row - self.shape.wide() + left;
        let whole = u32::from(self.bytes[row + left]);
        let alone = u32::from(self.bytes[rest - first.min(most)]);
        let other = u32::from(self.bytes[rest - second.min(most)]);
        let both = u32::from(self.bytes[rest - (first + second).min(most)]);
        let with = alone.min(both + 1);
        let opens = with < whole;
        let also = if opens { both < with } else { other < whole };
        (opens, also)
    }

    /// The choice of the fewest free pans that weigh `weight` together, with the old pans: bit `i` is pan `i`.
    ///
    /// Of choices of as many pans it is the one that opens the first pan that differs. `free` is what `free_of` answers, and
    /// `old_number` the choice of just the old pans. The rows hold a count for `weight`, which is within the span.
    pub fn read(self, free: &[u32; PANS], old_number: u32, weight: usize) -> u32
        requires free { (i : ℕ) → i < PANS → slice_index free.now i ≡ free_at self.ring.rule.age self.ring.weights.now self.ring.ages.now i }
        requires old_number { old_number ≡ number_of (only_old self.ring.rule.age self.ring.ages.now) }
        requires rows { Rows self.ring.rule.age self.ring.weights.now self.ring.ages.now weight (64 * self.shape.blocks - 1) self.shape.pad (self.shape.pad + 64 * self.shape.blocks) 0 self.bytes.now }
        requires within { weight ≤ self.span }
        requires some { row_at self.bytes.now (self.shape.pad + (self.shape.pad + 64 * self.shape.blocks) * pairs_of (length self.ring.weights.now)) weight < 255 }
        ensures { Read self.entry.ring.rule.age self.entry.ring.weights.now self.entry.ring.ages.now weight result }
    {
        let mut row = self.top();
        let mut left = weight;
        let mut pans = old_number;
        for pair in 0..pairs(self.ring) {
            let pan = 2 * pair;
            let first = free[pan] as usize;
            let second = free[pan + 1] as usize;
            let (opens, also) = self.opens(row, left, first, second);
            left -= taken(opens, first) + taken(also, second);
            pans += mark(opens, pan) + mark(also, pan + 1);
            row -= self.shape.wide();
        }
        pans
    }
}
