//! What each kind has in the opened pans of a choice, from sums made once: any choice takes three additions for each kind.
ghost use Rattle.choices.specs.Choice.{Choice};
ghost use Rattle.choices.specs.Numbered.{choice_of};
ghost use Rattle.kinds.specs.Kinds.{in_windows, weight_of_kind};
ghost use Rattle.kinds_halves.specs.Passing.{Between, Useless, part as part_at, passes};
ghost use Rattle.std.specs.Prelude.{◌≡◌, ℕ, ◌%◌, ◌^◌, ◌<◌, ◌≤◌, true, false, List, [], length, slice_index, slice_index_or};

use halves::pans_in;
use kinds::{KINDS, MixedRing};

/// A ring with what each kind has in parts of its choices.
///
/// The pans stand in four groups of six, the last pans first, and each group has 64 choices.
#[derive(Clone, Copy)]
pub struct Sums<'a> {
    /// The ring, its kinds and their windows.
    pub mixed: MixedRing<'a>,
    groups: [[u32; KINDS]; 256],
    ghost weighs: { (i k : ℕ) → i < 256 → k < 4 → slice_index (slice_index_or groups i []) k ≡ weight_of_kind k mixed.kinds.now mixed.ring.weights.now (choice_of (length mixed.ring.weights.now) (part_at i)) },
}

// What each kind has in the opened pans of a choice, pan 0 in its highest bit. Without a branch on whether a pan is opened.
fn by_kind(mixed: MixedRing, choice: u32) -> [u32; KINDS]
    ensures { (k : ℕ) → k < 4 → slice_index result k ≡ weight_of_kind k mixed.entry.kinds.now mixed.entry.ring.weights.now (choice_of (length mixed.entry.ring.weights.now) choice) }
{
    let count = mixed.ring.weights.len();
    let mut sums = [0; KINDS];
    for pan in 0..count {
        let opened = (choice >> (count - 1 - pan)) % 2;
        sums[mixed.kinds[pan] as usize] += mixed.ring.weights[pan] * opened;
    }
    sums
}

// The choice whose sums are entry `i` of the groups.
fn part(i: usize) -> u32
    requires { i < 256 }
    ensures { result ≡ part_at i }
{
    ((i % 64) as u32) << (6 * (i / 64))
}

impl<'a> Sums<'a> {
    /// Makes the sums of a ring: one look over its pans for each of the 256 entries.
    pub fn of(mixed: MixedRing<'a>) -> Sums<'a>
        ensures { result.mixed ≡ mixed.entry }
    {
        let mut groups = [[0; KINDS]; 256];
        for (i, group) in groups.iter_mut().enumerate() {
            *group = by_kind(mixed, part(i));
        }
        Sums { mixed, groups }
    }

    // What a kind has in the opened pans of a choice.
    fn sum(&self, choice: u64, kind: usize) -> u32
        requires choice { choice < 2 ^ 24 }
        requires kind { kind < 4 }
        ensures { result ≡ weight_of_kind kind self.now.mixed.kinds.now self.now.mixed.ring.weights.now (choice_of (length self.now.mixed.ring.weights.now) choice) }
    {
        let first = self.groups[(choice % 64) as usize][kind];
        let second = self.groups[(choice / 64 % 64 + 64) as usize][kind];
        let third = self.groups[(choice / 4096 % 64 + 128) as usize][kind];
        let fourth = self.groups[(choice / 262_144 + 192) as usize][kind];
        fourth + (third + (second + first))
    }

    // Whether each kind has as much in the opened pans of a choice as its window says.
    fn keeps(&self, choice: u64) -> bool
        requires { choice < 2 ^ 24 }
        ensures { result ≡ in_windows 0 self.now.mixed.windows.now self.now.mixed.kinds.now self.now.mixed.ring.weights.now (choice_of (length self.now.mixed.ring.weights.now) choice) }
    {
        for (kind, window) in self.mixed.windows.iter().enumerate() {
            let sum = self.sum(choice, kind);
            if sum < window.least || sum > window.most {
                return false;
            }
        }
        true
    }

    // True if no choice between the barest and the fullest keeps the windows: one kind has too much in the barest already, or
    // too little even in the fullest.
    fn misses(&self, barest: u64, fullest: u64) -> bool
        requires barest { barest < 2 ^ 24 }
        requires fullest { fullest < 2 ^ 24 }
        ensures { result ≡ true → (cs : Choice) → Between self.now.mixed.kinds.now self.now.mixed.ring.weights.now barest fullest cs → in_windows 0 self.now.mixed.windows.now self.now.mixed.kinds.now self.now.mixed.ring.weights.now cs ≡ false }
    {
        for (kind, window) in self.mixed.windows.iter().enumerate() {
            if self.sum(fullest, kind) < window.least || self.sum(barest, kind) > window.most {
                return true;
            }
        }
        false
    }

    /// True if no choice of all pans passes that goes on from the choice of all but the last `free` pans that has this place.
    /// What is useless may be skipped; false says nothing.
    pub fn useless(&self, place: u64, free: usize) -> bool
        requires within { free ≤ length self.now.mixed.ring.weights.now }
        requires clear { place % 2 ^ free ≡ 0 }
        ensures { result ≡ true → Useless (passes self.now.mixed) place free }
    {
        let choices = 1u64 << self.mixed.ring.weights.len();
        let fullest = choices - 1 - place % choices;
        let last = (1u64 << free) - 1;
        self.misses(fullest - last, fullest)
    }

    /// Whether the choice that has this place opens few enough pans and keeps the windows.
    pub fn passes(&self, place: u64) -> bool
        ensures { result ≡ passes self.now.mixed place }
    {
        let choices = 1u64 << self.mixed.ring.weights.len();
        pans_in(place) <= u64::from(self.mixed.ring.rule.pans)
            && self.keeps(choices - 1 - place % choices)
    }
}
