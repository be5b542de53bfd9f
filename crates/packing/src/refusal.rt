//! The checks of a rule and of lent pans, in the order of the list of refusals.
ghost use Rattle.choices.specs.declared.limits.TheConstants.{PANS};
ghost use Rattle.std.specs.Prelude.{◌≡◌, ℕ, ◌+◌, ◌^◌, ◌<◌, ◌≤◌, ◌++◌, length, slice_index, OnOk};
ghost use Rattle.answers.specs.Refusals.{passed};
ghost use Rattle.choices.specs.Ruled.{rule_in};
ghost use Rattle.choices.specs.Stand.{stand};
ghost use Rattle.packing.specs.Refusals.{Accepted, first_above, first_refusal, numbers_refusal, pans_refusal, rule_refusal};

use answers::Refusal;
use choices::{LIMIT, PANS, Rule};

// The largest of some numbers, 0 where there are none.
fn largest(numbers: &[u32]) -> u32
    ensures most { (i : ℕ) → slice_index numbers.now i ≤ result }
    ensures among { (i : ℕ) × (slice_index numbers.now i ≡ result) }
{
    let mut most = 0;
    for x in numbers {
        most = most.max(*x);
    }
    most
}

// The place of the first number above `LIMIT`, counted from `from` on. The largest number decides whether there is one,
// since it is found for several numbers at once.
fn first_of_part(numbers: &[u32], from: u64) -> Option<u64>
    requires { from + length numbers.now < 2 ^ 64 }
    ensures { result ≡ first_above LIMIT from numbers.now }
{
    if largest(numbers) <= LIMIT {
        return None;
    }
    let place = numbers.iter().position(|x| *x > LIMIT)?;
    Some(from + place as u64)
}

// So many numbers are gone over before it is asked whether one of them is above the limit.
const PART: usize = 1024;

/// The place of the first number above `LIMIT`, counted from `from` on; none where there is no such number.
///
/// Hardly a thousand numbers are read behind the one that is found.
pub fn first_above(numbers: &[u32], from: u64) -> Option<u64>
    requires { from + length numbers.now < 2 ^ 64 }
    ensures { result ≡ first_above LIMIT from numbers.now }
{
    let mut rest = numbers;
    let mut at = from;
    while !rest.is_empty() {
        let (part, more) = rest.split_at(rest.len().min(PART));
        if let Some(place) = first_of_part(part, at) {
            return Some(place);
        }
        at += part.len() as u64;
        rest = more;
    }
    None
}

// A rule in four numbers and `more` behind them: there are so many, none is too large, and the target is not 0.
fn rule_of(numbers: &[u32], more: usize) -> Result<Rule, Refusal>
    requires { more < 2 ^ 62 }
    ensures { result ≡ passed (rule_refusal (4 + more) numbers.now) (rule_in numbers.now) }
{
    let long = 4 + more;
    if numbers.len() != long {
        return Err(Refusal::Rule(numbers.len().min(long) as u64));
    }
    if let Some(place) = first_above(numbers, 0) {
        return Err(Refusal::Rule(place));
    }
    if numbers[0] == 0 {
        return Err(Refusal::Rule(0));
    }
    Ok(Rule::from([numbers[0], numbers[1], numbers[2], numbers[3]]))
}

// How many pans and ages there are.
fn check_pans(pans: usize, ages: usize) -> Result<(), Refusal>
    ensures { result ≡ passed (pans_refusal pans ages) tt }
{
    if pans == 0 || pans > PANS {
        return Err(Refusal::Pans(pans as u64));
    }
    if ages != pans {
        return Err(Refusal::Pans(ages as u64));
    }
    Ok(())
}

// The weights and the ages themselves.
fn check_numbers(weights: &[u32], ages: &[u32]) -> Result<(), Refusal>
    requires { (length weights.now ≤ PANS) × (length ages.now ≤ PANS) }
    ensures { result ≡ passed (numbers_refusal (weights.now ++ ages.now)) tt }
{
    if let Some(place) = first_above(weights, 0) {
        return Err(Refusal::Number(place));
    }
    match first_above(ages, weights.len() as u64) {
        Some(place) => Err(Refusal::Number(place)),
        None => Ok(()),
    }
}

/// The rule that is asked for, where everything is in order, or the first refusal that applies (1 to 3, places from 0).
///
/// A rule in numbers is target, above, pans, age, and `more` numbers behind them, which a kind of bag has for itself.
pub fn checked(rule: &[u32], more: usize, weights: &[u32], ages: &[u32]) -> Result<Rule, Refusal>
    requires { more < 2 ^ 62 }
    ensures value { result ≡ passed (first_refusal (4 + more) rule.now (stand weights.now ages.now)) (rule_in rule.now) }
    ensures taken { OnOk result (Accepted (4 + more) rule.now (stand weights.now ages.now)) }
{
    let rule = rule_of(rule, more)?;
    check_pans(weights.len(), ages.len())?;
    check_numbers(weights, ages)?;
    Ok(rule)
}
