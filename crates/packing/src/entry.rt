//! The entries: a bag is made of the lent pans, or it is said that none can be, or why nothing is taken.
ghost use Rattle.choices.specs.Ruled.{rule_in};
ghost use Rattle.choices.specs.Stand.{by_rule, stand};
ghost use Rattle.packing.specs.Entry.{Answered, Promises};
ghost use Rattle.packing.specs.Refusals.{first_refusal, room_refusal};
ghost use Rattle.std.specs.Prelude.{◌≡◌, length};

use crate::one_bag::pack;
use crate::refusal::checked;
use answers::Refusal;
use engines::Rooms;
use order::Bag;

/// Makes the best bag of the pans by `rule` (target, above, pans, age): its pans are then empty and of age 0, all
/// others a bag older.
///
/// Weights are in the scale's unit, ages count bags, none above 1,000,000. Bit `i` of the answer's `pans` is pan `i`.
/// Answers `None`, and changes nothing, where no choice at all fits. Refuses (1 to 3, places from 0) what is out of
/// range, and changes nothing. It takes no room: the scan runs.
pub fn bag(rule: &[u32], weights: &mut [u32], ages: &mut [u32]) -> Result<Option<Bag>, Refusal>
    ensures answer { Answered (first_refusal 4 rule.now (stand weights.old ages.old)) (by_rule (rule_in rule.now)) (stand weights.old ages.old) result (stand weights.new ages.new) }
    ensures promises { Promises (rule_in rule.now) (stand weights.old ages.old) result (stand weights.new ages.new) }
{
    let mut rule = checked(rule, 0, weights, ages)?;
    let mut none = Rooms {
        entries: &mut [],
        bytes: &mut [],
    };
    Ok(pack(&mut rule, weights, ages, &mut none))
}

/// The same over lent rooms, as fast as these allow. It asks for room: refuses (5, how many entries the ring takes)
/// where the entries are fewer than the two halves take. Bytes for the table by weight may be however many there are.
/// The rooms are as long afterwards as before, whatever is answered.
pub fn bag_in(
    rule: &[u32],
    weights: &mut [u32],
    ages: &mut [u32],
    rooms: &mut Rooms,
) -> Result<Option<Bag>, Refusal>
    ensures answer { Answered (room_refusal rule.now (stand weights.old ages.old) (length rooms.old.entries.now)) (by_rule (rule_in rule.now)) (stand weights.old ages.old) result (stand weights.new ages.new) }
    ensures promises { Promises (rule_in rule.now) (stand weights.old ages.old) result (stand weights.new ages.new) }
    ensures entries { length rooms.new.entries.now ≡ length rooms.old.entries.now }
    ensures bytes { length rooms.new.bytes.now ≡ length rooms.old.bytes.now }
{
    let mut rule = checked(rule, 0, weights, ages)?;
    rooms.unless_halves(weights.len())?;
    Ok(pack(&mut rule, weights, ages, rooms))
}
