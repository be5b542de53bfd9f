//! The checks of a rule with kinds, in the order of the list of refusals.
ghost use Rattle.std.specs.Prelude.{◌≡◌, ◌+◌, ◌-◌, ◌^◌, ◌<◌, ◌≤◌, length, OnOk};
ghost use Rattle.answers.specs.Refusals.{passed};
ghost use Rattle.choices.specs.Ruled.{rule_in};
ghost use Rattle.choices.specs.Stand.{stand};
ghost use Rattle.mixing.specs.Refusals.{Mixable, kinds_refusal, many, mix_refusal, wanted};
ghost use Rattle.packing.specs.Refusals.{first_above};

use answers::Refusal;
use choices::Rule;
use kinds::KINDS;
use packing::checked;

/// The number of the refusal that is for kinds.
pub const KINDS_REFUSED: u64 = 6;

// How many numbers a rule has to have behind the four, where so many numbers are there: two for each kind, of which there is
// one at least.
pub(crate) fn behind(numbers: usize) -> usize
    requires { numbers < 2 ^ 61 }
    ensures value { 4 + result ≡ wanted numbers }
    ensures small { result < 2 ^ 62 }
{
    (numbers + numbers % 2).max(6) - 4
}

fn refused(place: u64) -> Refusal
    ensures { result ≡ Refusal.Further KINDS_REFUSED place }
{
    Refusal::Further {
        number: KINDS_REFUSED,
        place,
    }
}

// The first pan of a kind that a rule of so many kinds doesn't have.
fn first_unknown(kinds: &[u32], many: usize) -> Option<u64>
    requires { 1 ≤ many }
    ensures { result ≡ first_above (many - 1) 0 kinds.now }
{
    let place = kinds.iter().position(|kind| *kind as usize >= many)?;
    Some(place as u64)
}

/// What is wrong with the kinds of so many pans, by a rule of so many kinds: more than four kinds (6, at how many), not a
/// kind for each pan (6, at how many kinds there are), or else a kind that the rule doesn't have (6, at its first pan).
pub(crate) fn check_kinds(kinds: &[u32], many: usize, pans: usize) -> Result<(), Refusal>
    requires { 1 ≤ many }
    ensures { result ≡ passed (kinds_refusal many pans kinds.now) tt }
{
    if many > KINDS {
        return Err(refused(many as u64));
    }
    if kinds.len() != pans {
        return Err(refused(kinds.len() as u64));
    }
    match first_unknown(kinds, many) {
        Some(place) => Err(refused(place)),
        None => Ok(()),
    }
}

/// The rule for the whole bag, where everything is in order, or the first refusal that applies (1 to 3, then 6, places from
/// 0).
///
/// A rule in numbers is target, above, pans, age, and behind them the least and the most of kind 0, of kind 1, and so on.
pub(crate) fn checked_mix(
    rule: &[u32],
    weights: &[u32],
    ages: &[u32],
    kinds: &[u32],
) -> Result<Rule, Refusal>
    ensures value { result ≡ passed (mix_refusal rule.now (stand weights.now ages.now) kinds.now) (rule_in rule.now) }
    ensures taken { OnOk result (Mixable rule.now (stand weights.now ages.now) kinds.now) }
{
    let whole = checked(rule, behind(rule.len()), weights, ages)?;
    check_kinds(kinds, (rule.len() - 4) / 2, weights.len())?;
    Ok(whole)
}
