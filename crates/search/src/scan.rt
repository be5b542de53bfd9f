//! The scan: a loop over the candidates of a criterion that keeps the best found so far.
ghost use Rattle.std.specs.Prelude.{◌≡◌, ℕ, ◌+◌, ◌<◌, ◌≤◌, min};
ghost use Rattle.search.specs.Sought.{Sought};

use crate::criterion::Criterion;

/// How far a search has come. It starts from `Progress::default()`.
///
/// What the fields say is no part of the type: `advance` requires it.
#[derive(Clone, Copy, Default)]
pub struct Progress {
    /// The first candidate that is not settled yet.
    pub next: u64,
    /// The best candidate below `next`, or `None` where none of these is allowed.
    pub best: Option<u64>,
}

// The better of the best so far and candidate `k`.
fn consider<C: Criterion>(criterion: &C, k: u64, best: Option<u64>) -> Option<u64>
    requires { (k < C.Criterion.count criterion.now) × (Sought (C.Criterion.allows criterion.now) (C.Criterion.beats criterion.now) k best) }
    ensures { Sought (C.Criterion.allows criterion.now) (C.Criterion.beats criterion.now) (k + 1) result }
{
    if !criterion.allows(k) {
        return best;
    }
    match best {
        None => Some(k),
        Some(b) => {
            if criterion.beats(k, b) {
                Some(k)
            } else {
                Some(b)
            }
        }
    }
}

// Looks at one candidate and skips those after it that cannot be better.
fn step<C: Criterion>(criterion: &C, at: Progress) -> Progress
    requires { (at.next < C.Criterion.count criterion.now) × (Sought (C.Criterion.allows criterion.now) (C.Criterion.beats criterion.now) at.next at.best) }
    ensures on { at.next < result.next }
    ensures within { result.next ≤ C.Criterion.count criterion.now }
    ensures sought { Sought (C.Criterion.allows criterion.now) (C.Criterion.beats criterion.now) result.next result.best }
{
    let best = consider(criterion, at.next, at.best);
    Progress {
        next: criterion.after(at.next, best),
        best,
    }
}

/// Goes on with a search for `steps` steps, or to its end. Each step settles at least one candidate.
///
/// `from` is `Progress::default()` or what an earlier call with the same criterion answered.
pub fn advance<C: Criterion>(criterion: &C, from: Progress, steps: u64) -> Progress
    requires { (from.next ≤ C.Criterion.count criterion.now) × (Sought (C.Criterion.allows criterion.now) (C.Criterion.beats criterion.now) from.next from.best) }
    ensures far { min (from.next + steps) (C.Criterion.count criterion.now) ≤ result.next }
    ensures within { result.next ≤ C.Criterion.count criterion.now }
    ensures sought { Sought (C.Criterion.allows criterion.now) (C.Criterion.beats criterion.now) result.next result.best }
{
    let count = criterion.count();
    let mut at = from;
    for _ in 0..steps {
        if at.next >= count {
            return at;
        }
        at = step(criterion, at);
    }
    at
}

/// The best of all candidates, or `None` where none is allowed.
pub fn search<C: Criterion>(criterion: &C) -> Option<u64>
    ensures { Sought (C.Criterion.allows criterion.now) (C.Criterion.beats criterion.now) (C.Criterion.count criterion.now) result }
{
    // As many steps as there are candidates are always enough.
    advance(criterion, Progress::default(), criterion.count()).best
}
