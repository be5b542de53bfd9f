//! Seasons: bag after bag by a rule, with handfuls of a list falling into the empty pans after each.
ghost use Rattle.std.specs.Prelude.{◌≡◌, ℕ, ◌+◌, ◌*◌, ◌^◌, ◌<◌, ◌≤◌, OnOk, length, slice_index};
ghost use Rattle.answers.specs.Refusals.{passed};
ghost use Rattle.choices.specs.Ruled.{rule_in};
ghost use Rattle.choices.specs.Stand.{stand};
ghost use Rattle.choices.specs.declared.limits.TheConstants.{LIMIT};
ghost use Rattle.packing.specs.Refusals.{Accepted};
ghost use Rattle.seasons.specs.Season.{Seasoned, Untouched, season_refusal};

use crate::limits::LONGEST;
use crate::run::{Run, play};
use answers::{Played, Refusal};
use choices::Rule;
use engines::Rooms;
use packing::{checked, first_above};

/// What is told of a season in which no bag weighs less than the target: what its bags weigh above so many targets is
/// given away.
pub fn told(target: u32, run: Run) -> Played
    requires { run.bags * target ≤ run.weight }
    ensures bags { result.bags ≡ run.bags }
    ensures weight { result.weight ≡ run.weight }
    ensures given { result.given_away + run.bags * target ≡ run.weight }
    ensures ended { result.ended_early ≡ run.ended_early }
{
    Played {
        bags: run.bags,
        weight: run.weight,
        given_away: run.weight - u64::from(run.bags) * u64::from(target),
        ended_early: run.ended_early,
    }
}

/// The rule of a season, in four numbers and `more` behind them, where everything is in order, or the first refusal
/// that applies: what a bag would be turned away for (1 to 3), a handful above `LIMIT` (3, at twice the pans and its
/// place in the list), more than `LONGEST` bags (4).
pub fn season_checked(
    rule: &[u32],
    more: usize,
    weights: &[u32],
    ages: &[u32],
    handfuls: &[u32],
    bags: u32,
) -> Result<Rule, Refusal>
    requires { more < 2 ^ 62 }
    ensures value { result ≡ passed (season_refusal (4 + more) rule.now (stand weights.now ages.now) handfuls.now bags) (rule_in rule.now) }
    ensures taken { OnOk result (Accepted (4 + more) rule.now (stand weights.now ages.now)) }
    ensures small { OnOk result ((i : ℕ) → slice_index handfuls.now i ≤ LIMIT) }
    ensures few { OnOk result (bags ≤ LONGEST) }
{
    let rule = checked(rule, more, weights, ages)?;
    if let Some(place) = first_above(handfuls, 2 * weights.len() as u64) {
        return Err(Refusal::Number(place));
    }
    if bags > LONGEST {
        return Err(Refusal::Line);
    }
    Ok(rule)
}

/// Plays a season of so many bags by `rule` (target, above, pans, age) in the lent rooms: each bag is the best of its
/// stand, exactly as `bag` makes it, and then the list's handfuls fall in turn into the empty pans, until the bags are
/// made or no choice fits.
///
/// Weights and handfuls are in the scale's unit. What `season_checked` refuses changes nothing; once begun no bag is
/// turned away. No room is asked for: where the fast engines have too little, the scan runs. The rooms are as long
/// afterwards as before, whatever is answered.
pub fn season(
    rule: &[u32],
    weights: &mut [u32],
    ages: &mut [u32],
    handfuls: &[u32],
    bags: u32,
    rooms: &mut Rooms,
) -> Result<Played, Refusal>
    ensures answer { Seasoned (season_refusal 4 rule.now (stand weights.old ages.old) handfuls.now bags) (rule_in rule.now) handfuls.now bags (stand weights.old ages.old) result (stand weights.new ages.new) }
    ensures never { OnOk result (Untouched rule.now handfuls.now (stand weights.old ages.old)) }
    ensures entries { length rooms.new.entries.now ≡ length rooms.old.entries.now }
    ensures bytes { length rooms.new.bytes.now ≡ length rooms.old.bytes.now }
{
    let rule = season_checked(rule, 0, weights, ages, handfuls, bags)?;
    let mut kind = rule;
    let run = play(&mut kind, weights, ages, handfuls, bags, rooms);
    Ok(told(rule.target, run))
}
