//! What can be searched: numbered candidates, some of them allowed, in an order.
ghost use Rattle.std.specs.Prelude.{◌≡◌, ℕ, ◌+◌, ◌<◌, ◌≤◌, Bool};
ghost use Rattle.search.specs.Sought.{Behind, Passes};
ghost use Rattle.std.specs.Cmp.{IsStrictWeakOrder};

/// What a search asks of its candidates, which are the numbers from 0 to `count` - 1.
///
/// `beats` is an order: a candidate that nothing beats is a best one.
pub trait Criterion {
    ghost count: { Self → ℕ };

    ghost allows: { Self → ℕ → Bool };

    ghost beats: { Self → ℕ → ℕ → Bool };

    ghost ranks: { (s : Self) → IsStrictWeakOrder (beats s) };

    /// How many candidates there are.
    fn count(&self) -> u64
        ensures { result ≡ count self.now };

    /// Whether candidate `k`, which is below `count`, is allowed.
    fn allows(&self, k: u64) -> bool
        requires { k < count self.now }
        ensures { result ≡ allows self.now k };

    /// Whether candidate `a` is better than candidate `b`; both are below `count`.
    fn beats(&self, a: u64, b: u64) -> bool
        requires { (a < count self.now) × (b < count self.now) }
        ensures { result ≡ beats self.now a b };

    /// The next candidate after `k` to look at, or `count`: all between are not allowed or no better than `best`.
    ///
    /// `k` is below `count`, and `best` is a candidate up to `k`.
    fn after(&self, k: u64, best: Option<u64>) -> u64
        requires { (k < count self.now) × (Behind (k + 1) best) }
        ensures on { k < result }
        ensures within { result ≤ count self.now }
        ensures passed { (j : ℕ) → k < j → j < result → Passes (allows self.now) (beats self.now) best j };
}
