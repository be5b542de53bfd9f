// What a bag is, in the plainest way: every choice is tried, pan i is bit i, and nothing is left out.
ghost use Rattle.trials.specs.Same.{NoRoomLacked, SameWithoutABag};

use crate::case::Case;
use crate::outcome::{Answer, Outcome};
use choices::LIMIT;
use order::Bag;
use packing::Refusal;
use std::cmp::Reverse;

// A choice that fits: the lighter one comes first; of equal ones that with fewer pans; of these that which opens the first
// pan in which they differ, which is the larger one read from pan 0 on.
#[derive(Clone, Copy, PartialEq, Eq, PartialOrd, Ord)]
pub struct Candidate {
    weight: u32,
    count: u32,
    from_pan_0: Reverse<u32>,
    opened: u32,
}

impl Candidate {
    pub fn bag(self) -> Bag {
        Bag {
            pans: self.opened,
            weight: self.weight,
        }
    }
}

// The choice that opens the pans in the bits of a number, where it fits.
pub fn fitting(case: &Case, opened: u32) -> Option<Candidate> {
    let [target, above, most, old] = case.rule;
    let mut weight = 0u32;
    let mut left = opened;
    for (w, age) in case.weights().iter().zip(case.ages()) {
        if left % 2 == 1 {
            if *w == 0 {
                return None;
            }
            weight = weight.saturating_add(*w);
        } else if *age >= old {
            return None;
        }
        left /= 2;
    }
    let count = opened.count_ones();
    if weight < target || weight > target.saturating_add(above) || count > most {
        return None;
    }
    Some(Candidate {
        weight,
        count,
        from_pan_0: Reverse(opened.reverse_bits()),
        opened,
    })
}

fn best(case: &Case) -> Option<Candidate> {
    (0..1u32 << case.pans)
        .filter_map(|opened| fitting(case, opened))
        .min()
}

// Which refusal applies: these cases have four numbers in a rule, 1 to 12 pans and an age for each.
fn check(case: &Case) -> Result<(), Refusal>
    ensures { NoRoomLacked result }
{
    if let Some(place) = case.rule.iter().position(|number| *number > LIMIT) {
        return Err(Refusal::Rule(place as u64));
    }
    if case.rule[0] == 0 {
        return Err(Refusal::Rule(0));
    }
    let mut numbers = case.weights().iter().chain(case.ages());
    match numbers.position(|number| *number > LIMIT) {
        Some(place) => Err(Refusal::Number(place as u64)),
        None => Ok(()),
    }
}

// What an answer leaves in the pans.
pub fn leaves(case: &Case, answer: Answer) -> Outcome
    requires { NoRoomLacked answer }
    ensures { SameWithoutABag case.now result }
{
    let mut weights = case.weights;
    let mut ages = case.ages;
    if let Ok(Some(bag)) = answer {
        let mut left = bag.pans;
        for (w, age) in weights.iter_mut().zip(ages.iter_mut()).take(case.pans) {
            if left % 2 == 1 {
                *w = 0;
                *age = 0;
            } else {
                *age = age.saturating_add(1);
            }
            left /= 2;
        }
    }
    Outcome {
        answer,
        weights,
        ages,
    }
}

// What is answered, and what the pans hold afterwards.
pub fn all_tried(case: &Case) -> Outcome
    ensures { SameWithoutABag case.now result }
{
    leaves(case, answer(case))
}

fn answer(case: &Case) -> Answer
    ensures { NoRoomLacked result }
{
    check(case)?;
    Ok(best(case).map(|found| found.bag()))
}
