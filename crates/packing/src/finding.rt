//! The best bag of lent pans, of which nothing is opened.
ghost use Rattle.choices.specs.Ruled.{rule_in};
ghost use Rattle.choices.specs.Stand.{Stand, by_rule, stand};
ghost use Rattle.choices.specs.declared.rule.Rule.{Rule};
ghost use Rattle.answers.specs.Refusals.{or_else};
ghost use Rattle.packing.specs.Entry.{Looked};
ghost use Rattle.packing.specs.Refusals.{first_refusal};
ghost use Rattle.std.specs.Prelude.{◌≡◌};

use crate::refusal::checked;
use answers::Refusal;
use choices::Ring;
use engines::Finder;
use order::Bag;

/// The best bag of the pans by a rule in four numbers, as a finder finds it; nothing is opened.
///
/// Refuses (1 to 3, places from 0) what is out of range, and last what the finder lacks for the ring (5). The finder
/// lacks the same afterwards as before, so it can be asked again and again.
pub fn find<'a, F: Finder>(
    rule: &[u32],
    weights: &'a [u32],
    ages: &'a [u32],
    finder: &mut F,
) -> Result<Option<Bag>, Refusal>
    ensures answer { Looked (or_else (first_refusal 4 rule.now (stand weights.now ages.now)) (F.lacks finder.old (rule_in rule.now) (stand weights.now ages.now))) (by_rule (rule_in rule.now)) (stand weights.now ages.now) result }
    ensures kept { (r : Rule) (s : Stand) → F.lacks finder.new r s ≡ F.lacks finder.old r s }
{
    let rule = checked(rule, 0, weights, ages)?;
    let ring = Ring {
        rule,
        weights,
        ages,
    };
    finder.suffices(ring)?;
    Ok(finder.best(ring))
}
