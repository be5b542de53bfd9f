// The same pans by another rule.
ghost use Rattle.std.specs.Prelude.{◌≡◌};
ghost use Rattle.choices.specs.Stand.{RuleWithin};
ghost use Rattle.choices.specs.declared.limits.TheConstants.{WIDEST};

use choices::{Ring, Rule};

/// The pans of a ring by another rule, as one with a lower target, with more above or for fewer pans. The rule's numbers are
/// within a ring's limits; its target is not 0.
pub fn by_rule<'a>(ring: Ring<'a>, rule: Rule) -> Ring<'a>
    requires { RuleWithin WIDEST rule }
    ensures rule { result.rule ≡ rule }
    ensures weights { result.weights.now ≡ ring.entry.weights.now }
    ensures ages { result.ages.now ≡ ring.entry.ages.now }
{
    Ring {
        rule,
        weights: ring.weights,
        ages: ring.ages,
    }
}
