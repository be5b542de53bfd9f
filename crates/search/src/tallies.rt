//! Tallies of parts of a ring's choices, made once, so that the tally of any choice takes three additions.
ghost use Rattle.std.specs.Prelude.{◌≡◌, ℕ, ◌^◌, ◌<◌, ◌≤◌, length, slice_index_or};
ghost use Rattle.choices.specs.Choice.{opened, weight_of};
ghost use Rattle.choices.specs.Numbered.{choice_of};
ghost use Rattle.choices.specs.Tallied.{Tallied, empty_ones, old_ones, old_count_of};
ghost use Rattle.search.specs.Groups.{TalliedBelow, nothing, part as part_at};

use choices::{Ring, Tally, look, old_count};

/// A ring with the tallies of its choices at hand.
///
/// The pans stand in four groups of six, the last pans first, and each group has 64 choices.
#[derive(Clone, Copy)]
pub struct Tallies<'a> {
    /// The ring.
    pub ring: Ring<'a>,
    /// How many of its pans are old.
    pub old_count: u32,
    groups: [Tally; 256],
    ghost old_counted: { old_count ≡ old_count_of ring.rule.age ring.ages.now },
    ghost weighs: { (i : ℕ) → i < 256 → (slice_index_or groups i nothing).weight ≡ weight_of ring.weights.now (choice_of (length ring.weights.now) (part_at i)) },
    ghost counts: { (i : ℕ) → i < 256 → (slice_index_or groups i nothing).pans ≡ opened (choice_of (length ring.weights.now) (part_at i)) },
    ghost empties: { (i : ℕ) → i < 256 → (slice_index_or groups i nothing).empty ≡ weight_of (empty_ones ring.weights.now) (choice_of (length ring.weights.now) (part_at i)) },
    ghost olds: { (i : ℕ) → i < 256 → (slice_index_or groups i nothing).old ≡ weight_of (old_ones ring.rule.age ring.ages.now) (choice_of (length ring.weights.now) (part_at i)) },
}

// The choice whose tally is entry `i` of the groups.
fn part(i: usize) -> u32
    requires { i < 256 }
    ensures { result ≡ part_at i }
{
    ((i % 64) as u32) << (6 * (i / 64))
}

impl<'a> Tallies<'a> {
    /// Makes the tallies of a ring: one look over its pans for each of the 256 entries.
    pub fn of(ring: Ring<'a>) -> Tallies<'a>
        ensures { result.ring ≡ ring.entry }
    {
        let mut groups = [Tally::default(); 256];
        for (i, group) in groups.iter_mut().enumerate() {
            *group = look(ring, part(i));
        }
        Tallies {
            ring,
            old_count: old_count(ring),
            groups,
        }
    }

    /// The tally of a choice: the sum of what it opens in each group.
    ///
    /// `choice` is below 2^24 and has pan 0 in the highest of the ring's bits.
    pub fn tally(&self, choice: u64) -> Tally
        requires { choice < 2 ^ 24 }
        ensures { Tallied self.now.ring.weights.now self.now.ring.ages.now self.now.ring.rule.age (choice_of (length self.now.ring.weights.now) choice) result }
    {
        self.lent()
            .tally(choice % (1u64 << self.ring.weights.len()))
    }

    // The same, lent.
    pub(crate) fn lent(&self) -> Lent<256>
        ensures { result.ring ≡ self.now.ring }
    {
        Lent {
            ring: self.ring,
            old_count: self.old_count,
            groups: &self.groups,
        }
    }
}

/// What `Tallies` is, with the tallies lent, and of no more choices than the ring's own pans have.
///
/// Where there are no more than six pans, `N` may be 64, the entries of one group; else it is 256.
#[derive(Clone, Copy)]
pub(crate) struct Lent<'a, const N: usize> {
    /// The ring.
    pub(crate) ring: Ring<'a>,
    /// How many of its pans are old.
    pub(crate) old_count: u32,
    /// The tallies of its groups' choices.
    pub(crate) groups: &'a [Tally; N],
    ghost old_counted: { old_count ≡ old_count_of ring.rule.age ring.ages.now },
    ghost one: { 64 ≤ N },
    ghost all: { 6 < length ring.weights.now → 256 ≤ N },
    ghost tallied: { TalliedBelow ring (2 ^ length ring.weights.now) groups.now },
}

impl<'a, const N: usize> Lent<'a, N> {
    /// The tally of a choice of the ring's pans: the sum of what it opens in each group.
    pub(crate) fn tally(&self, choice: u64) -> Tally
        requires { choice < 2 ^ length self.now.ring.weights.now }
        ensures { Tallied self.now.ring.weights.now self.now.ring.ages.now self.now.ring.rule.age (choice_of (length self.now.ring.weights.now) choice) result }
    {
        let first = self.groups[(choice % 64) as usize];
        if N < 256 {
            return first;
        }
        let second = self.groups[(choice / 64 % 64 + 64) as usize];
        let third = self.groups[(choice / 4096 % 64 + 128) as usize];
        let fourth = self.groups[(choice / 262_144 + 192) as usize];
        fourth.and(third.and(second.and(first)))
    }
}

/// Makes the tallies of the choices of a ring's pans, by one addition for each: what opens a pan is what leaves it shut, and
/// this pan.
///
/// All entries of `groups` are the default before.
pub(crate) fn fill(ring: Ring, groups: &mut [Tally])
    requires one { 64 ≤ length groups.old }
    requires all { 6 < length ring.weights.now → 256 ≤ length groups.old }
    requires blank { (i : ℕ) → slice_index_or groups.old i nothing ≡ nothing }
    ensures kept { length groups.new ≡ length groups.old }
    ensures tallied { TalliedBelow ring.entry (2 ^ length ring.entry.weights.now) groups.new }
{
    for place in 0..ring.weights.len() {
        let pan = look(ring, 1u32 << place);
        let start = 64 * (place / 6);
        let half = 1usize << (place % 6);
        for x in 0..half {
            groups[start + half + x] = pan.and(groups[start + x]);
        }
    }
}
