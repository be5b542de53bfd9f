// Which of two choices of a ring is better.
ghost use Rattle.choices.specs.Numbered.{choice_of};
ghost use Rattle.choices.specs.Tallied.{Tallied};
ghost use Rattle.order.specs.Order.{better as is_better};
ghost use Rattle.std.specs.Prelude.{◌≡◌, ◌+◌, ◌%◌, ◌^◌, length};

use choices::{Ring, Tally, look};

/// A choice and its tally.
#[derive(Clone, Copy)]
pub struct Seen {
    /// The choice in the lowest bits, pan 0 in the highest of them (not as in a [`Bag`](crate::Bag)).
    pub choice: u32,
    /// What `choices::look` tells of the choice.
    pub tally: Tally,
}

// Choices are ordered by weight, then by how many pans they open, then by the first pan that differs: the choice that
// opens it comes first. As pan 0 is the highest bit, that is the choice whose shut pans make the smaller number.
#[derive(Clone, Copy, PartialEq, Eq, PartialOrd, Ord)]
struct Rank {
    weight: u32,
    pans: u32,
    shut: u32,
}

fn rank_of(ring: Ring, seen: Seen) -> Rank
    ensures weighs { result.weight ≡ seen.tally.weight }
    ensures counts { result.pans ≡ seen.tally.pans }
    ensures shuts { result.shut + seen.choice % 2 ^ length ring.entry.weights.now + 1 ≡ 2 ^ length ring.entry.weights.now }
{
    let choices = 1u32 << ring.weights.len();
    Rank {
        weight: seen.tally.weight,
        pans: seen.tally.pans,
        shut: choices - 1 - seen.choice % choices,
    }
}

/// Whether `one` comes before `other`, by their tallies alone.
pub fn ahead(ring: Ring, one: Seen, other: Seen) -> bool
    requires one { Tallied ring.weights.now ring.ages.now ring.rule.age (choice_of (length ring.weights.now) one.choice) one.tally }
    requires other { Tallied ring.weights.now ring.ages.now ring.rule.age (choice_of (length ring.weights.now) other.choice) other.tally }
    ensures { result ≡ is_better ring.entry.weights.now (choice_of (length ring.entry.weights.now) one.choice) (choice_of (length ring.entry.weights.now) other.choice) }
{
    rank_of(ring, one) < rank_of(ring, other)
}

fn look_at(ring: Ring, choice: u32) -> Seen
    ensures chosen { result.choice ≡ choice }
    ensures tallied { Tallied ring.entry.weights.now ring.entry.ages.now ring.entry.rule.age (choice_of (length ring.entry.weights.now) choice) result.tally }
{
    Seen {
        choice,
        tally: look(ring, choice),
    }
}

/// Whether choice `a` of the ring comes before choice `b`: it is lighter, or opens fewer pans of equal ones, or of
/// these opens the first pan that differs. Looks over the pans once for each; `ahead` compares choices that were looked
/// at before.
pub fn better(ring: Ring, a: u32, b: u32) -> bool
    ensures { result ≡ is_better ring.entry.weights.now (choice_of (length ring.entry.weights.now) a) (choice_of (length ring.entry.weights.now) b) }
{
    ahead(ring, look_at(ring, a), look_at(ring, b))
}
