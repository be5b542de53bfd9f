//! The best bag by each engine, as one number: its pans times 2^32 and its weight, 0 for none, or a refusal's number.
//!
//! No bag has such a number below 2^32, since a bag opens a pan. C has no enums that hold values, so all of it is one
//! number.
ghost use Rattle.std.specs.Prelude.{◌≡◌, length};
ghost use Rattle.answers.specs.Refusals.{or_else};
ghost use Rattle.c_interface.specs.InNumbers.{Told as Says, bag_number, table_refusal};
ghost use Rattle.choices.specs.Ruled.{rule_in};
ghost use Rattle.choices.specs.Stand.{stand};
ghost use Rattle.packing.specs.Refusals.{first_refusal, room_refusal};

use engines::{Finder, Halves, Scan, Table};
use order::Bag;
use packing::find;

// A bag as one number.
fn number(found: Option<Bag>) -> u64
    ensures { result ≡ bag_number found }
{
    match found {
        None => 0,
        Some(bag) => u64::from(bag.pans) * 4_294_967_296 + u64::from(bag.weight),
    }
}

// What a finder answers, as one number.
fn tell<'a, F: Finder>(rule: &[u32], weights: &'a [u32], ages: &'a [u32], finder: &mut F) -> u64
    ensures { Says (or_else (first_refusal 4 rule.now (stand weights.now ages.now)) (F.lacks finder.old (rule_in rule.now) (stand weights.now ages.now))) (rule_in rule.now) (stand weights.now ages.now) result }
{
    match find(rule, weights, ages, finder) {
        Ok(bag) => number(bag),
        Err(refusal) => refusal.number(),
    }
}

/// The best bag of the pans by a rule in four numbers, by the scan, which takes no room; nothing is opened.
///
/// A bag is its pans (bit `i` is pan `i`) times 2^32, and its weight; 0 where no choice fits; 1 to 3 where the first
/// refusal that applies has that number.
#[unsafe(no_mangle)]
pub extern "C" fn weigh_by_scan<'a>(rule: &[u32], weights: &'a [u32], ages: &'a [u32]) -> u64
    ensures { Says (first_refusal 4 rule.now (stand weights.now ages.now)) (rule_in rule.now) (stand weights.now ages.now) result }
{
    tell(rule, weights, ages, &mut Scan)
}

/// The same by the two halves, in lent entries; 5 where they are too few for the ring: it asks for room.
#[unsafe(no_mangle)]
pub extern "C" fn weigh_by_halves<'a>(
    rule: &[u32],
    weights: &'a [u32],
    ages: &'a [u32],
    entries: &mut [u64],
) -> u64
    ensures { Says (room_refusal rule.now (stand weights.now ages.now) (length entries.old)) (rule_in rule.now) (stand weights.now ages.now) result }
{
    tell(rule, weights, ages, &mut Halves { entries })
}

/// The same by the table, in lent bytes; 5 where they are too few for the ring: it asks for room.
#[unsafe(no_mangle)]
pub extern "C" fn weigh_by_table<'a>(
    rule: &[u32],
    weights: &'a [u32],
    ages: &'a [u32],
    bytes: &mut [u8],
) -> u64
    ensures { Says (table_refusal rule.now (stand weights.now ages.now) (length bytes.old)) (rule_in rule.now) (stand weights.now ages.now) result }
{
    tell(rule, weights, ages, &mut Table { bytes })
}
