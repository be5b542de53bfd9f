//! A bag of any kind, made of pans that are in order.
ghost use Rattle.std.specs.Prelude.{◌≡◌, ℕ, ◌≤◌, length, slice_index};
ghost use Rattle.choices.specs.Choice.{aged, emptied};
ghost use Rattle.choices.specs.Numbered.{choice_from};
ghost use Rattle.choices.specs.Stand.{InOrder, stand};
ghost use Rattle.choices.specs.declared.limits.TheConstants.{LIMIT};
ghost use Rattle.packing.specs.Entry.{Keeps, Packs};
ghost use Rattle.packing.specs.Kinds.{after_bag};

use crate::marks::mark;
use engines::Kind;
use order::Bag;

// Opens the pans of a bag's number: they are then empty and of age 0, all others a bag older.
fn open_pans(weights: &mut [u32], ages: &mut [u32], pans: u32)
    requires { (i : ℕ) → slice_index ages.old i ≤ LIMIT }
    ensures empties { weights.new ≡ emptied weights.old (choice_from (length weights.old) pans) }
    ensures ages { ages.new ≡ aged ages.old (choice_from (length ages.old) pans) }
{
    mark(weights, pans, 0);
    mark(ages, pans, 1);
}

/// Makes the best bag of a kind, or none where no choice whatever is allowed: then nothing changes, the kind neither.
/// The lent rooms are as long afterwards as before.
///
/// What an entry checked is asked for: pans in order, and the kind ready for one bag of so many pans. Weights and ages
/// are lent to be written, which a `Ring` rules out.
pub fn pack<R, K: Kind<R>>(
    kind: &mut K,
    weights: &mut [u32],
    ages: &mut [u32],
    rooms: &mut R,
) -> Option<Bag>
    requires pans { InOrder (stand weights.old ages.old) }
    requires numbers { K.ready kind.old (length weights.old) 1 }
    ensures bag { Packs (K.allows kind.old) (stand weights.old ages.old) result (stand weights.new ages.new) }
    ensures keeps { Keeps (K.age kind.old) (stand weights.old ages.old) result (stand weights.new ages.new) }
    ensures kind { kind.new ≡ after_bag K.after kind.old result }
    ensures rooms { K.size rooms.new ≡ K.size rooms.old }
{
    let bag = kind.best(weights, ages, rooms)?;
    kind.made(weights.len(), bag.weight);
    open_pans(weights, ages, bag.pans);
    Some(bag)
}
