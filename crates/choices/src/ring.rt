//! A ring of pans with the rule for its next bag, as lent for one decision.
ghost use Rattle.choices.specs.Stand.{InOrder, RuleWithin, stand};
ghost use Rattle.choices.specs.declared.limits.TheConstants.{WIDEST};

use crate::rule::Rule;

/// 1 to 24 pans, each with what lies in it (0 is empty) and for how many bags it has waited, and the rule for the next bag.
///
/// A value of this type has passed every check of its numbers, so what works on it refuses nothing. Weights and ages are two
/// lists, since they are lent so. No weight or age is above `LIMIT`; the rule may have been changed, up to `WIDEST`.
#[derive(Clone, Copy)]
pub struct Ring<'a> {
    pub rule: Rule,
    pub weights: &'a [u32],
    pub ages: &'a [u32],
    pub ghost ruled: { RuleWithin WIDEST rule },
    pub ghost ordered: { InOrder (stand weights.now ages.now) },
}
