//! The best of all choices that fit and have so much of each kind.
ghost use Rattle.std.specs.Prelude.{◌≡◌, ◌+◌, ◌<◌, length};
ghost use Rattle.kinds.specs.Kinds.{mixes, of_kind};
ghost use Rattle.kinds_scan.specs.Within.{LooksAt};
ghost use Rattle.order.specs.Order.{Found};

use crate::own::own_weights;
use crate::within::Within;
use choices::{Ring, number, weight};
use kinds::MixedRing;
use order::Bag;
use search::{Criterion, Tallies, search};

// A criterion that looks at one kind more, by the weights of this kind alone.
fn with_kind<'a, C: Criterion>(
    inner: &'a C,
    mixed: MixedRing<'a>,
    kind: usize,
    own: &'a [u32],
) -> Within<'a, C>
    requires known { kind < length mixed.windows.now }
    requires own { own.now ≡ of_kind kind mixed.kinds.now mixed.ring.weights.now }
    requires before { LooksAt kind mixed (C.Criterion.count inner.now) (C.Criterion.allows inner.now) (C.Criterion.beats inner.now) }
    ensures { LooksAt (kind + 1) mixed.entry (⟦<Within<'a, C> as Criterion>⟧.count result) (⟦<Within<'a, C> as Criterion>⟧.allows result) (⟦<Within<'a, C> as Criterion>⟧.beats result) }
{
    Within {
        inner,
        window: mixed.windows[kind],
        own: Tallies::of(Ring {
            rule: mixed.ring.rule,
            weights: own,
            ages: mixed.ring.ages,
        }),
    }
}

// The best by a criterion that looks at all kinds.
fn best_by<C: Criterion>(criterion: &C, mixed: MixedRing) -> Option<Bag>
    requires { LooksAt (length mixed.windows.now) mixed (C.Criterion.count criterion.now) (C.Criterion.allows criterion.now) (C.Criterion.beats criterion.now) }
    ensures { Found (mixes mixed.entry.ring.rule mixed.entry.windows.now mixed.entry.kinds.now mixed.entry.ring.weights.now mixed.entry.ring.ages.now) mixed.entry.ring.weights.now result }
{
    let k = search(criterion)? as u32;
    Some(Bag {
        pans: number(mixed.ring, k),
        weight: weight(mixed.ring, k),
    })
}

/// The best bag of a ring with so much of each kind, or `None` where no choice of its pans fits and has that.
///
/// Goes through the choices as `search::best` does, and skips as well each block of them that has too much or too little of
/// a kind. Takes no lent room; the time may grow with 2^pans. Bit `i` of the answer's `pans` is pan `i`.
pub fn best(mixed: MixedRing) -> Option<Bag>
    ensures { Found (mixes mixed.entry.ring.rule mixed.entry.windows.now mixed.entry.kinds.now mixed.entry.ring.weights.now mixed.entry.ring.ages.now) mixed.entry.ring.weights.now result }
{
    let pans = mixed.ring.weights.len();
    let many = mixed.windows.len();
    let whole = Tallies::of(mixed.ring);
    let first = own_weights(mixed, 0);
    let one = with_kind(&whole, mixed, 0, &first[..pans]);
    if many == 1 {
        return best_by(&one, mixed);
    }
    let second = own_weights(mixed, 1);
    let two = with_kind(&one, mixed, 1, &second[..pans]);
    if many == 2 {
        return best_by(&two, mixed);
    }
    let third = own_weights(mixed, 2);
    let three = with_kind(&two, mixed, 2, &third[..pans]);
    if many == 3 {
        return best_by(&three, mixed);
    }
    let fourth = own_weights(mixed, 3);
    best_by(&with_kind(&three, mixed, 3, &fourth[..pans]), mixed)
}
