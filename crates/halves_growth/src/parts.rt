//! A part of the pans: the places of all its choices, sorted.
ghost use Rattle.choices.specs.declared.limits.TheConstants.{LIMIT, PANS};
ghost use Rattle.std.specs.Prelude.{◌≡◌, ℕ, ◌+◌, ◌-◌, ◌*◌, ◌^◌, ◌<◌, ◌≤◌, length};
ghost use Rattle.halves_growth.specs.Part.{Part};

use crate::more::grow;
use crate::pan::Pan;
use halves_places::Pans;

/// What a place gains where a pan of this weight is opened instead of shut, with `behind` pans behind it.
///
/// `weight` is at most 1,000,000 and `behind` at most 23.
pub fn gain(weight: u32, behind: usize) -> u64
    requires light { weight ≤ LIMIT }
    requires few { behind < PANS }
    ensures { result + 2 ^ behind ≡ weight * 2 ^ 29 + 2 ^ 24 }
{
    (u64::from(weight) << 29) + (1 << 24) - (1 << behind)
}

/// What `count` pans add to a place while all of them stay shut, with `behind` pans behind them; at most 24 in all.
pub fn all_shut(count: usize, behind: usize) -> u64
    requires { behind + count ≤ PANS }
    ensures { result ≡ 2 ^ (behind + count) - 2 ^ behind }
{
    (1 << (behind + count)) - (1 << behind)
}

/// Fills `es` with the places of all choices by the ways of `pans`, sorted, and answers how many there are.
///
/// `behind` pans stand behind them, at most 24 in all. What is not below `to` may be left out. `es` may hold anything, with
/// at least 2^n places for n pans; what it holds behind the entries is unspecified afterwards.
pub fn part(pans: Pans, behind: usize, to: u64, es: &mut [u64]) -> usize
    requires few { behind + length pans.weights.now ≤ PANS }
    requires room { 2 ^ length pans.weights.now ≤ length es.old }
    ensures { Part behind 0 to pans.entry.weights.now pans.entry.ways.now es.new result }
{
    let count = pans.weights.len();
    es[0] = all_shut(count, behind);
    let mut n = 1;
    // Counted down, since a pan's number also says how many stand behind it.
    for k in (0..count).rev() {
        let pan = Pan::of(pans, k, behind + (count - 1 - k));
        n = grow(es, n, pan, to);
    }
    n
}
