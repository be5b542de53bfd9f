//! What one look over the pans tells of a choice: four numbers, each of which adds up over the opened pans.
ghost use Rattle.std.specs.Prelude.{◌≡◌, ◌+◌, ◌^◌, ◌<◌, ◌≤◌, length, if◌then◌else◌, ◌==◌};
ghost use Rattle.choices.specs.Choice.{bit};
ghost use Rattle.choices.specs.Numbered.{choice_of};
ghost use Rattle.choices.specs.Tallied.{Adds, Tallied, makes_bag, old_count_of};

use crate::ring::Ring;
use crate::rule::Rule;

/// What the opened pans weigh, how many they are, how many of them are empty, and how many are old.
#[derive(Clone, Copy, Default)]
pub struct Tally {
    pub weight: u32,
    pub pans: u32,
    pub empty: u32,
    pub old: u32,
}

impl Tally {
    /// Two tallies added up: of two choices that open no pan both, the tally of what they open together.
    pub fn and(self, other: Tally) -> Tally
        requires { (self.weight + other.weight < 2 ^ 32) × ((self.pans + other.pans < 2 ^ 32) × ((self.empty + other.empty < 2 ^ 32) × (self.old + other.old < 2 ^ 32))) }
        ensures { Adds self other result }
    {
        Tally {
            weight: self.weight + other.weight,
            pans: self.pans + other.pans,
            empty: self.empty + other.empty,
            old: self.old + other.old,
        }
    }

    // The tally with one pan more, of which is known whether it is old and whether it is opened.
    fn with(self, weight: u32, is_old: bool, opened: bool) -> Tally
        requires { (self.weight + weight < 2 ^ 32) × ((self.pans + 1 < 2 ^ 32) × ((self.empty + 1 < 2 ^ 32) × (self.old + 1 < 2 ^ 32))) }
        ensures weighs { result.weight ≡ self.weight + (if opened then weight else 0) }
        ensures counts { result.pans ≡ self.pans + bit opened }
        ensures empties { result.empty ≡ self.empty + (if opened then bit (weight == 0) else 0) }
        ensures olds { result.old ≡ self.old + (if opened then bit is_old else 0) }
    {
        let added = if opened {
            Tally {
                weight,
                pans: 1,
                empty: (weight == 0) as u32,
                old: is_old as u32,
            }
        } else {
            Tally::default()
        };
        self.and(added)
    }

    /// Whether a choice with this tally makes a bag by a rule, where `old_count` pans are old.
    pub fn fits(self, rule: Rule, old_count: u32) -> bool
        requires { rule.target + rule.above < 2 ^ 32 }
        ensures { result ≡ makes_bag rule old_count self }
    {
        (rule.target <= self.weight)
            & (self.weight <= rule.target + rule.above)
            & (self.pans <= rule.pans)
            & ((self.empty == 0) & (self.old == old_count))
    }
}

/// The tally of a choice, by one look over the pans. Pan 0 is the highest of the ring's bits of `choice`.
pub fn look(ring: Ring, choice: u32) -> Tally
    ensures { Tallied ring.entry.weights.now ring.entry.ages.now ring.entry.rule.age (choice_of (length ring.entry.weights.now) choice) result }
{
    let places = (0..ring.weights.len()).rev();
    let mut seen = Tally::default();
    for ((w, a), place) in ring.weights.iter().zip(ring.ages).zip(places) {
        seen = seen.with(*w, *a >= ring.rule.age, (choice >> place) % 2 == 1);
    }
    seen
}

/// How many pans are old: their age is the rule's age or more.
pub fn old_count(ring: Ring) -> u32
    ensures { result ≡ old_count_of ring.entry.rule.age ring.entry.ages.now }
{
    let all = (1u32 << ring.weights.len()) - 1;
    look(ring, all).old
}
