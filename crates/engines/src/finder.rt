//! What every way to the best bag promises.
ghost use Rattle.answers.specs.Refusals.{passed};
ghost use Rattle.answers.specs.declared.refusal.Refusal.{Refusal as Turned};
ghost use Rattle.choices.specs.Stand.{Stand, by_rule, stand};
ghost use Rattle.choices.specs.declared.rule.Rule.{Rule};
ghost use Rattle.order.specs.Order.{Found};
ghost use Rattle.std.specs.Prelude.{◌≡◌, None, Option};

use answers::Refusal;
use choices::Ring;
use order::Bag;

/// Finds the best bag of a ring, with what it was lent for that. It can be asked again and again.
pub trait Finder {
    /// What a ring is turned away for, where too little was lent for it.
    ghost lacks: { Self → Rule → Stand → Option Turned };

    /// Refusal 5, with how much the ring takes, where less was lent.
    fn suffices(&self, ring: Ring) -> Result<(), Refusal>
        ensures { result ≡ passed (lacks self.now ring.entry.rule (stand ring.entry.weights.now ring.entry.ages.now)) tt };

    /// The best of all choices that fit the ring's rule, or none where no choice fits. What was lent holds nothing of
    /// meaning afterwards, and is as long as before.
    fn best(&mut self, ring: Ring) -> Option<Bag>
        requires { lacks self.old ring.rule (stand ring.weights.now ring.ages.now) ≡ None }
        ensures found { Found (by_rule ring.entry.rule (stand ring.entry.weights.now ring.entry.ages.now)) ring.entry.weights.now result }
        ensures kept { (r : Rule) (s : Stand) → lacks self.new r s ≡ lacks self.old r s };
}
