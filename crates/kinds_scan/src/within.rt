//! A criterion over the choices of a ring with a test more: how much of one kind lies in the opened pans.
ghost use Rattle.std.specs.Prelude.{◌≡◌, ℕ, ◌+◌, ◌%◌, ◌^◌, ◌<◌, ◌≤◌, true, false, ◌&&◌, length};
ghost use Rattle.choices.specs.Choice.{weight_of};
ghost use Rattle.choices.specs.Numbered.{choice_of};
ghost use Rattle.kinds_scan.specs.Within.{Outside, in_window};

use kinds::Window;
use search::{Criterion, Tallies};

/// What `inner` allows, if what lies in the opened pans of one kind is within its window.
///
/// `own` is the ring with the weights of this kind alone: the pans of all others are empty in it.
#[derive(Drop)]
pub(crate) struct Within<'a, C: Criterion> {
    pub(crate) inner: &'a C,
    pub(crate) window: Window,
    pub(crate) own: Tallies<'a>,
    ghost same: { C.Criterion.count inner.now ≡ 2 ^ length own.ring.weights.now },
}

impl<'a, C: Criterion> Within<'a, C> {
    // What choice `k` has of the kind.
    fn weight(&self, k: u64) -> u32
        requires { k < C.Criterion.count self.now.inner.now }
        ensures { result ≡ weight_of self.now.own.ring.weights.now (choice_of (length self.now.own.ring.weights.now) k) }
    {
        self.own.tally(k).weight
    }

    // True if no choice of a block is within the window: its head has too much of the kind, or its fullest choice too
    // little.
    fn rules_out(&self, head: u64, free: u32) -> bool
        requires { (head % 2 ^ free ≡ 0) × (head + 2 ^ free ≤ 2 ^ length self.now.own.ring.weights.now) }
        ensures { result ≡ true → Outside self.now.window self.now.own.ring.weights.now head free }
    {
        self.weight(head) > self.window.most
            || self.weight(head + (1u64 << free) - 1) < self.window.least
    }
}

impl<'a, C: Criterion> Criterion for Within<'a, C> {
    ghost count = { λ s. C.Criterion.count s.inner.now };

    ghost allows = { λ s k. C.Criterion.allows s.inner.now k && in_window s.window (weight_of s.own.ring.weights.now (choice_of (length s.own.ring.weights.now) k)) };

    ghost beats = { λ s. C.Criterion.beats s.inner.now };

    ghost ranks = { λ s. C.Criterion.ranks s.inner.now };

    fn count(&self) -> u64 {
        self.inner.count()
    }

    fn allows(&self, k: u64) -> bool {
        if !self.inner.allows(k) {
            return false;
        }
        let weight = self.weight(k);
        (self.window.least <= weight) & (weight <= self.window.most)
    }

    fn beats(&self, a: u64, b: u64) -> bool {
        self.inner.beats(a, b)
    }

    // As far as the inner criterion passes over, or to the end of a block that the window rules out.
    fn after(&self, k: u64, best: Option<u64>) -> u64 {
        let next = self.inner.after(k, best);
        let free = k.trailing_zeros().min(self.own.ring.weights.len() as u32);
        let end = k + (1u64 << free);
        if next < end && self.rules_out(k, free) {
            end
        } else {
            next
        }
    }
}
