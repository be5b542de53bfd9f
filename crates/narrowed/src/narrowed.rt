// A ring with pans taken away and pans forced open.
ghost use Rattle.std.specs.Prelude.{◌≡◌, ℕ, ◌≤◌, length, slice_index, take};
ghost use Rattle.choices.specs.Stand.{RuleWithin};
ghost use Rattle.choices.specs.declared.limits.TheConstants.{LIMIT, PANS, WIDEST};

use choices::{PANS, Ring, Rule};

/// A ring from which some pans were taken away, and of which others have to be opened. It owns its numbers, so it can
/// be made and asked in a loop; nothing is allocated.
///
/// Made by [`narrow`](crate::narrow). Its pans are numbered as those of the whole ring: bit `i` of a bag is the same
/// pan.
#[derive(Clone, Copy)]
pub struct Narrowed {
    /// The whole ring's rule, with an age of 1, since the ages are marks.
    pub rule: Rule,
    /// What lies in each pan, in the ring's unit: 0 for those taken away, and behind the last one.
    pub weights: [u32; PANS],
    /// 1 for a pan that has to be opened, because it is old or forced open; else 0.
    pub marks: [u32; PANS],
    /// How many pans the ring has.
    pub pans: usize,
    ghost ruled: { RuleWithin WIDEST rule },
    ghost present: { 1 ≤ pans },
    ghost few: { pans ≤ PANS },
    ghost wide: { length weights ≡ PANS },
    ghost high: { length marks ≡ PANS },
    ghost light: { (i : ℕ) → slice_index weights i ≤ LIMIT },
    ghost young: { (i : ℕ) → slice_index marks i ≤ 1 },
}

impl Narrowed {
    ghost use Rattle.narrowed.specs.Narrows.{AnswersFor};

    /// The narrowed ring, to be asked of any engine. What is found for it is what the whole ring has among the choices that
    /// open no pan that was taken away, and every pan that was forced open; where it has none, there is none.
    pub fn ring<'a>(&'a self) -> Ring<'a>
        ensures rule { result.rule ≡ self.now.rule }
        ensures pans { length result.weights.now ≡ self.now.pans }
        ensures weights { result.weights.now ≡ take self.now.pans self.now.weights }
        ensures marks { result.ages.now ≡ take self.now.pans self.now.marks }
        ensures answers { AnswersFor self.now result.rule result.weights.now result.ages.now }
    {
        Ring {
            rule: self.rule,
            weights: &self.weights[..self.pans],
            ages: &self.marks[..self.pans],
        }
    }
}
