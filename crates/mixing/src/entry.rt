//! The entry: a bag with so much of each kind is made of the lent pans, or it is said that none can be, or why nothing is
//! taken.
ghost use Rattle.choices.specs.Ruled.{rule_in};
ghost use Rattle.choices.specs.Stand.{stand};
ghost use Rattle.mixing.specs.Entry.{AsWithoutKinds, MixPromises};
ghost use Rattle.mixing.specs.Refusals.{mix_refusal};
ghost use Rattle.mixing.specs.Windows.{mixed_by, windows_in};
ghost use Rattle.packing.specs.Entry.{Answered};
ghost use Rattle.std.specs.Prelude.{◌≡◌, length};

use crate::kind::mix_of;
use crate::refusal::checked_mix;
use crate::rooms::MixRooms;
use answers::Refusal;
use order::Bag;
use packing::pack;

/// Makes the best bag of the pans that fits `rule` and has so much of each kind: its pans are then empty and of age 0, all
/// others a bag older.
///
/// A rule in numbers is target, above, pans, age, and behind them the least and the most of kind 0, of kind 1, and so on,
/// for one to four kinds; `kinds` has the kind of each pan, from 0 on. Weights are in the scale's unit, ages count bags,
/// none above 1,000,000. Bit `i` of the answer's `pans` is pan `i`. Answers `None`, and changes nothing, where no choice at
/// all is allowed. Refuses what is out of range (1 to 3, places from 0), and then (6) more than four kinds at how many, not
/// a kind for each pan at how many kinds there are, and a kind that the rule doesn't have at its first pan; and then changes
/// nothing. No room is asked for, and the rooms are as long afterwards as before.
pub fn mix(
    rule: &[u32],
    weights: &mut [u32],
    ages: &mut [u32],
    kinds: &[u32],
    rooms: &mut MixRooms,
) -> Result<Option<Bag>, Refusal>
    ensures answer { Answered (mix_refusal rule.now (stand weights.old ages.old) kinds.now) (mixed_by (rule_in rule.now) (windows_in rule.now) kinds.now) (stand weights.old ages.old) result (stand weights.new ages.new) }
    ensures promises { MixPromises (rule_in rule.now) (windows_in rule.now) kinds.now (stand weights.old ages.old) result (stand weights.new ages.new) }
    ensures one_kind { AsWithoutKinds rule.now kinds.now (stand weights.old ages.old) result (stand weights.new ages.new) }
    ensures keys { length rooms.new.keys.now ≡ length rooms.old.keys.now }
    ensures entries { length rooms.new.entries.now ≡ length rooms.old.entries.now }
{
    let whole = checked_mix(rule, weights, ages, kinds)?;
    let mut kind = mix_of(whole, rule, kinds);
    Ok(pack(&mut kind, weights, ages, rooms))
}
