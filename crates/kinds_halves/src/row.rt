//! The sums of a top and an entry of the front list with the entries of the back list.
ghost use Rattle.kinds_halves.specs.Passing.{passes};
ghost use Rattle.kinds_halves.specs.Walk.{FirstPassing, Reached};
ghost use Rattle.std.specs.Prelude.{◌≡◌, ℕ, ◌+◌, ◌%◌, ◌^◌, ◌<◌, ◌≤◌, length, slice_index};
ghost use Rattle.halves_growth.specs.Entries.{Rises};

use crate::sums::Sums;

/// A top and an entry of the front list, beside which the back list is gone through. All are below 2^62, so that sums fit.
#[derive(Clone, Copy)]
pub struct Row<'a> {
    /// The place of a choice of the pans before the halves.
    pub top: u64,
    /// The place of a choice of the front half.
    pub front: u64,
    /// The sorted places of the back half's choices.
    pub back: &'a [u64],
    /// How many pans the back half has: the last ones of the ring.
    pub free: usize,
    ghost rises: { Rises back.now (length back.now) },
    ghost top_low: { top < 2 ^ 62 },
    ghost front_low: { front < 2 ^ 62 },
    ghost clear: { (top + front) % 2 ^ free ≡ 0 },
    ghost shut: { (q : ℕ) → q < length back.now → slice_index back.now q % 2 ^ 24 < 2 ^ free },
    ghost back_low: { (q : ℕ) → q < length back.now → slice_index back.now q < 2 ^ 62 },
}

impl<'a> Row<'a> {
    fn sum(self, q: usize) -> u64
        requires { q < length self.back.now }
        ensures { result ≡ self.entry.top + (self.entry.front + slice_index self.entry.back.now q) }
    {
        self.top + (self.front + self.back[q])
    }

    /// The first entry of the back list, from `at` on, whose sum is `from` or more; the list's length where there is none.
    pub fn reach(self, at: usize, from: u64) -> usize
        requires { at ≤ length self.back.now }
        ensures { Reached self.entry.top self.entry.front self.entry.back.now at from result }
    {
        let mut q = at;
        while q < self.back.len() && self.sum(q) < from {
            q += 1;
        }
        q
    }

    /// The least sum that passes, of the entries of the back list from `at` on, below `to`; `to` where there is none.
    pub fn first(self, sums: &Sums, at: usize, to: u64) -> u64
        requires { self.free ≤ length sums.now.mixed.ring.weights.now }
        ensures { FirstPassing (passes sums.now.mixed) self.entry.top self.entry.front self.entry.back.now at to result }
    {
        if at < self.back.len()
            && self.sum(at) < to
            && sums.useless(self.top + self.front, self.free)
        {
            return to;
        }
        for q in at..self.back.len() {
            let sum = self.sum(q);
            if sum >= to {
                return to;
            }
            if sums.passes(sum) {
                return sum;
            }
        }
        to
    }
}
