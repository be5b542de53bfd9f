//! The search of a ring: its candidates are the choices of its pans, and those that fit its rule are allowed.
ghost use Rattle.std.specs.Prelude.{◌≡◌, ℕ, ◌+◌, ◌%◌, ◌^◌, ◌<◌, ◌≤◌, true, length};
ghost use Rattle.choices.specs.Choice.{fits as fits_rule};
ghost use Rattle.choices.specs.Numbered.{choice_of};
ghost use Rattle.choices.specs.Tallied.{Tallied, old_count_of};
ghost use Rattle.search.specs.Block.{Useless};
ghost use Rattle.search.specs.Numbers.{SoughtOf};
ghost use Rattle.order.proofs.Orders.{ranks_better};
ghost use Rattle.order.specs.Order.{Found, better as is_better};

use crate::criterion::Criterion;
use crate::scan::search;
use crate::tallies::{Lent, Tallies, fill};
use choices::{Ring, Tally, look, number, weight};
use order::{Bag, Seen, ahead};

/// Candidate `k` is the choice in the bits of `k`, with pan 0 in the highest of the ring's bits.
impl<'a, const N: usize> Criterion for Lent<'a, N> {
    ghost count = { λ s. 2 ^ length s.ring.weights.now };

    ghost allows = { λ s k. fits_rule s.ring.rule s.ring.weights.now s.ring.ages.now (choice_of (length s.ring.weights.now) k) };

    ghost beats = { λ s a b. is_better s.ring.weights.now (choice_of (length s.ring.weights.now) a) (choice_of (length s.ring.weights.now) b) };

    ghost ranks = { λ s. ranks_better s.ring.weights.now (length s.ring.weights.now) };

    fn count(&self) -> u64 {
        1u64 << self.ring.weights.len()
    }

    fn allows(&self, k: u64) -> bool {
        self.tally(k).fits(self.ring.rule, self.old_count)
    }

    fn beats(&self, a: u64, b: u64) -> bool {
        ahead(self.ring, seen_of(self, a), seen_of(self, b))
    }

    // A number with z zeros at its end heads a block of 2^z choices: each opens its pans and some of the last z.
    fn after(&self, k: u64, best: Option<u64>) -> u64 {
        let free = k.trailing_zeros().min(self.ring.weights.len() as u32);
        let most = match best {
            None => self.ring.rule.target + self.ring.rule.above,
            Some(b) => self.tally(b).weight,
        };
        if useless(self, k, free, most) {
            k + (1u64 << free)
        } else {
            k + 1
        }
    }
}

impl<'a> Criterion for Tallies<'a> {
    ghost count = { λ s. 2 ^ length s.ring.weights.now };

    ghost allows = { λ s k. fits_rule s.ring.rule s.ring.weights.now s.ring.ages.now (choice_of (length s.ring.weights.now) k) };

    ghost beats = { λ s a b. is_better s.ring.weights.now (choice_of (length s.ring.weights.now) a) (choice_of (length s.ring.weights.now) b) };

    ghost ranks = { λ s. ranks_better s.ring.weights.now (length s.ring.weights.now) };

    fn count(&self) -> u64 {
        self.lent().count()
    }

    fn allows(&self, k: u64) -> bool {
        self.lent().allows(k)
    }

    fn beats(&self, a: u64, b: u64) -> bool {
        self.lent().beats(a, b)
    }

    fn after(&self, k: u64, best: Option<u64>) -> u64 {
        self.lent().after(k, best)
    }
}

// What the order compares of candidate `k`.
fn seen_of<const N: usize>(tallies: &Lent<N>, k: u64) -> Seen
    requires { k < 2 ^ length tallies.now.ring.weights.now }
    ensures chosen { result.choice ≡ k }
    ensures tallied { Tallied tallies.now.ring.weights.now tallies.now.ring.ages.now tallies.now.ring.rule.age (choice_of (length tallies.now.ring.weights.now) k) result.tally }
{
    Seen {
        choice: k as u32,
        tally: tallies.tally(k),
    }
}

// True if the rest of the block can be skipped: its head is already too heavy or at the pan limit or opens an empty pan,
// or its fullest choice is too light or leaves an old pan shut.
fn useless<const N: usize>(tallies: &Lent<N>, head: u64, free: u32, most: u32) -> bool
    requires { (head % 2 ^ free ≡ 0) × (head + 2 ^ free ≤ 2 ^ length tallies.now.ring.weights.now) }
    ensures { result ≡ true → Useless tallies.now.ring.rule tallies.now.ring.weights.now tallies.now.ring.ages.now head free most }
{
    let rule = tallies.ring.rule;
    let least = tallies.tally(head);
    if least.weight >= most || least.pans >= rule.pans || least.empty > 0 {
        return true;
    }
    let whole = tallies.tally(head + (1u64 << free) - 1);
    whole.weight < rule.target || whole.old < tallies.old_count
}

// The number of the best choice, by the tallies of one group of six pans, or of all four.
fn number_by<const N: usize>(ring: Ring, old_count: u32) -> Option<u64>
    requires old { old_count ≡ old_count_of ring.rule.age ring.ages.now }
    requires one { 64 ≤ N }
    requires most { N ≤ 256 }
    requires all { 6 < length ring.weights.now → 256 ≤ N }
    ensures { SoughtOf ring.entry result }
{
    let mut groups = [Tally::default(); N];
    fill(ring, &mut groups);
    search(&Lent {
        ring,
        old_count,
        groups: &groups,
    })
}

// The number of the best choice.
fn best_number(ring: Ring, old_count: u32) -> Option<u64>
    requires { old_count ≡ old_count_of ring.rule.age ring.ages.now }
    ensures { SoughtOf ring.entry result }
{
    if ring.weights.len() <= 6 {
        number_by::<64>(ring, old_count)
    } else {
        number_by::<256>(ring, old_count)
    }
}

/// The best bag of a ring, or `None` where no choice of its pans fits its rule.
///
/// Goes through the choices in the order of their numbers, pan 0 in the highest bit, and skips each block of them that
/// cannot hold a better one (branch and bound, Land and Doig 1960). Takes no lent room; the time may grow with 2^pans.
/// Bit `i` of the answer's `pans` is pan `i`.
pub fn best(ring: Ring) -> Option<Bag>
    ensures { Found (fits_rule ring.entry.rule ring.entry.weights.now ring.entry.ages.now) ring.entry.weights.now result }
{
    let all = look(ring, (1u32 << ring.weights.len()) - 1);
    if all.weight < ring.rule.target {
        return None;
    }
    let k = best_number(ring, all.old)? as u32;
    Some(Bag {
        pans: number(ring, k),
        weight: weight(ring, k),
    })
}
