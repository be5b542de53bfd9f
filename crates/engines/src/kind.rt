//! A kind of bag: which choices are allowed of a stand of pans, and the best of them.
ghost use Rattle.choices.specs.Stand.{InOrder, May, stand};
ghost use Rattle.engines.specs.Kinds.{Lawful};
ghost use Rattle.order.specs.Order.{Found};
ghost use Rattle.std.specs.Prelude.{◌≡◌, ℕ, ◌≤◌, List, [], length};

use order::Bag;

/// A kind of bag, with the rooms `R` in which its best bag is found. It may keep a state, which a bag changes.
pub trait Kind<R> {
    /// Which choices of a stand are allowed.
    ghost allows: { Self → May };

    /// A pan of this age, or older, has to be opened.
    ghost age: { Self → ℕ };

    /// No bag weighs less.
    ghost least: { Self → ℕ };

    /// No bag weighs more.
    ghost top: { Self → ℕ };

    /// The kind after a bag of so much weight.
    ghost after: { Self → (weight : ℕ) → Self };

    /// Its own numbers are in order for a ring of so many pans and for so many bags more.
    ghost ready: { Self → (pans bags : ℕ) → Type 0 };

    /// How long each of the rooms is. A kind that does not say it promises nothing of that.
    ghost size: { R → List ℕ } = { λ r. [] };

    /// The best of all choices that are allowed, or none where none is. What the rooms hold afterwards has no meaning, and
    /// they are as long as before.
    fn best(&self, weights: &[u32], ages: &[u32], rooms: &mut R) -> Option<Bag>
        requires pans { InOrder (stand weights.now ages.now) }
        requires numbers { ready self.now (length weights.now) 1 }
        ensures found { Found (allows self.now (stand weights.now ages.now)) weights.now result }
        ensures rooms { size rooms.new ≡ size rooms.old };

    /// Notes that a bag of so much weight was made of a ring of so many pans.
    fn made(&mut self, pans: usize, weight: u32)
        requires numbers { ready self.old pans 1 }
        requires within { weight ≤ top self.old }
        ensures { self.new ≡ after self.old weight };

    ghost lawful: { Lawful allows age least top after ready };
}
