//! A season of bags with so much of each kind.
ghost use Rattle.choices.specs.Stand.{stand};
ghost use Rattle.mixing.specs.Season.{MixSeasoned, MixUntouched, mix_season_refusal};
ghost use Rattle.std.specs.Prelude.{◌≡◌, OnOk, length};

use crate::kind::mix_of;
use crate::refusal::{behind, check_kinds};
use crate::rooms::MixRooms;
use answers::{Played, Refusal};
use seasons::{play, season_checked, told};

/// Plays a season of so many bags by a rule with kinds, in the lent rooms: each bag is the best of its stand, exactly as
/// `mix` makes it, and then the list's handfuls fall in turn into the empty pans, until the bags are made or no choice is
/// allowed. A pan keeps its kind.
///
/// Weights and handfuls are in the scale's unit. Refuses what `seasons::season_checked` refuses (1 to 4), and then wrong
/// kinds (6) as `mix` does; and then changes nothing. Once begun no bag is turned away. The rooms are as long afterwards as
/// before.
pub fn mix_season(
    rule: &[u32],
    weights: &mut [u32],
    ages: &mut [u32],
    kinds: &[u32],
    handfuls: &[u32],
    bags: u32,
    rooms: &mut MixRooms,
) -> Result<Played, Refusal>
    ensures answer { MixSeasoned (mix_season_refusal rule.now (stand weights.old ages.old) kinds.now handfuls.now bags) rule.now kinds.now handfuls.now bags (stand weights.old ages.old) result (stand weights.new ages.new) }
    ensures never { OnOk result (MixUntouched rule.now kinds.now handfuls.now (stand weights.old ages.old)) }
    ensures keys { length rooms.new.keys.now ≡ length rooms.old.keys.now }
    ensures entries { length rooms.new.entries.now ≡ length rooms.old.entries.now }
{
    let whole = season_checked(rule, behind(rule.len()), weights, ages, handfuls, bags)?;
    check_kinds(kinds, (rule.len() - 4) / 2, weights.len())?;
    let mut kind = mix_of(whole, rule, kinds);
    let run = play(&mut kind, weights, ages, handfuls, bags, rooms);
    Ok(told(whole.target, run))
}
