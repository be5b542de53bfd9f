// Rings whose pans have kinds, through the entry for kinds, beside all choices tried in the plainest way.
ghost use Rattle.std.specs.Prelude.{◌≡◌, ◌≤◌};
ghost use Rattle.trials.specs.Counted.{one_more};
ghost use Rattle.trials.specs.Same.{NoRoomLacked, SameWithoutABag};

use crate::asked::by_entry;
use crate::case::Case;
use crate::outcome::{Answer, Outcome};
use crate::plain::{Candidate, all_tried, fitting, leaves};
use crate::rings::{Dice, random_case};
use crate::scores::Score;
use choices::{LIMIT, PANS};
use kinds::Window;
use mixing::{KINDS_REFUSED, MixRooms, mix};
use packing::Refusal;

// A ring with its rule in four numbers, the windows of its kinds, of which the first `many` count, and the kind of each pan.
#[derive(Clone, Copy)]
pub struct MixedCase {
    pub ring: Case,
    pub windows: [Window; 4],
    pub many: usize,
    pub kinds: [u32; PANS],
    ghost few: { many ≤ 4 },
}

impl MixedCase {
    // The rule in numbers: the four, and two for each of four kinds.
    fn numbers(&self) -> [u32; 12] {
        let [target, above, pans, age] = self.ring.rule;
        let [a, b, c, d] = self.windows;
        [
            target, above, pans, age, a.least, a.most, b.least, b.most, c.least, c.most, d.least,
            d.most,
        ]
    }
}

// What lies in the opened pans of a kind.
fn weight_of_kind(case: &MixedCase, opened: u32, kind: u32) -> u32 {
    let mut weight = 0u32;
    let mut left = opened;
    for (w, other) in case.ring.weights().iter().zip(&case.kinds) {
        if left % 2 == 1 && *other == kind {
            weight = weight.saturating_add(*w);
        }
        left /= 2;
    }
    weight
}

// Whether a choice has so much of each kind.
fn has_of_each(case: &MixedCase, opened: u32) -> bool {
    let mut kind = 0u32;
    for window in &case.windows[..case.many] {
        let weight = weight_of_kind(case, opened, kind);
        if weight < window.least || weight > window.most {
            return false;
        }
        kind = kind.saturating_add(1);
    }
    true
}

fn best(case: &MixedCase) -> Option<Candidate> {
    (0..1u32 << case.ring.pans)
        .filter(|opened| has_of_each(case, *opened))
        .filter_map(|opened| fitting(&case.ring, opened))
        .min()
}

// Which refusal applies: these cases have one to four kinds, 1 to 12 pans, and an age and a kind for each.
fn check(case: &MixedCase) -> Result<(), Refusal>
    ensures { NoRoomLacked result }
{
    let numbers = case.numbers();
    let rule = &numbers[..4 + 2 * case.many];
    if let Some(place) = rule.iter().position(|number| *number > LIMIT) {
        return Err(Refusal::Rule(place as u64));
    }
    if numbers[0] == 0 {
        return Err(Refusal::Rule(0));
    }
    let mut grams = case.ring.weights().iter().chain(case.ring.ages());
    if let Some(place) = grams.position(|number| *number > LIMIT) {
        return Err(Refusal::Number(place as u64));
    }
    let many = case.many;
    let kinds = &case.kinds[..case.ring.pans];
    match kinds.iter().position(|kind| *kind as usize >= many) {
        Some(place) => Err(Refusal::Further {
            number: KINDS_REFUSED,
            place: place as u64,
        }),
        None => Ok(()),
    }
}

fn answer(case: &MixedCase) -> Answer
    ensures { NoRoomLacked result }
{
    check(case)?;
    Ok(best(case).map(|found| found.bag()))
}

// What is answered, and what the pans hold afterwards.
fn all_mixed(case: &MixedCase) -> Outcome
    ensures { SameWithoutABag case.now.ring result }
{
    leaves(&case.ring, answer(case))
}

// How much of a kind is asked for: nothing, some or all of its share at least, and little or much more than that at most.
fn random_window(dice: &mut Dice, share: u32) -> Window {
    let least = dice.pick(&[0, 0, 0, 1, share / 2, share]);
    let more = dice.pick(&[share / 4, share, share.saturating_mul(2), LIMIT, LIMIT]);
    let most = if dice.once_in(30) {
        least / 2
    } else {
        least.saturating_add(more)
    };
    Window {
        least: least.min(LIMIT),
        most: most.min(LIMIT),
    }
}

// A ring of up to 12 pans of one to four kinds, all of it at random; now and then a pan has a kind that the rule doesn't
// have.
pub fn random_mixed(dice: &mut Dice) -> MixedCase {
    let ring = random_case(dice, 1, 12);
    let many = (dice.below(4) as usize + 1).min(4);
    let share = ring.rule[0].min(LIMIT) / 4 + 1;
    let mut windows = [Window { least: 0, most: 0 }; 4];
    for window in windows.iter_mut() {
        *window = random_window(dice, share);
    }
    let mut kinds = [0; PANS];
    let some = if dice.once_in(40) { 5 } else { many as u32 };
    for kind in kinds.iter_mut().take(ring.pans) {
        *kind = dice.below(some);
    }
    MixedCase {
        ring,
        windows,
        many,
        kinds,
    }
}

// All rings; those in which another bag is best than without kinds; and those in which none is allowed though one is
// without.
#[derive(Clone, Copy, Default)]
pub struct Mixed {
    pub all: Score,
    pub another: Score,
    pub none: Score,
}

// The entry for kinds, beside all choices tried.
pub fn try_mixed(scores: &mut Mixed, case: &MixedCase, rooms: &mut MixRooms)
    ensures { scores.new.all.tried ≡ one_more scores.old.all.tried }
{
    let numbers = case.numbers();
    let rule = &numbers[..4 + 2 * case.many];
    let kinds = &case.kinds[..case.ring.pans];
    let answered = by_entry(&case.ring, |weights, ages| {
        mix(rule, weights, ages, kinds, rooms)
    });
    let expected = all_mixed(case);
    let agreed = answered == expected;
    scores.all.note(agreed);
    match (all_tried(&case.ring).answer, expected.answer) {
        (Ok(Some(bag)), Ok(Some(mixed))) if bag != mixed => scores.another.note(agreed),
        (Ok(Some(_)), Ok(None)) => scores.none.note(agreed),
        _ => {}
    }
}
