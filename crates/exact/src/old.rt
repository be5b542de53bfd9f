//! The old pans of a ring.
ghost use Rattle.exact.specs.Old.{OldPansOf};

use choices::Ring;

/// What the old pans of a ring add up to. Old is a pan whose age is the rule's age or more: it has to be opened.
#[derive(Clone, Copy)]
pub struct OldPans {
    /// What they weigh together.
    pub weight: u32,
    /// How many they are.
    pub pans: u32,
    /// The choice that opens just them: bit `i` is pan `i`.
    pub number: u32,
    /// Whether none of them is empty.
    pub filled: bool,
}

/// Adds up the old pans of a ring.
pub fn old_pans(ring: Ring) -> OldPans
    ensures { OldPansOf ring.entry.rule.age ring.entry.weights.now ring.entry.ages.now result }
{
    let mut seen = OldPans {
        weight: 0,
        pans: 0,
        number: 0,
        filled: true,
    };
    for (pan, (w, a)) in ring.weights.iter().zip(ring.ages).enumerate() {
        if *a >= ring.rule.age {
            seen = OldPans {
                weight: seen.weight + *w,
                pans: seen.pans + 1,
                number: seen.number + (1 << pan),
                filled: seen.filled & (*w >= 1),
            };
        }
    }
    seen
}
