// Random cases: of ties, of the trade's weights and of heavy ones, with empty and old pans, and now and then a wrong number.
ghost use Rattle.choices.specs.declared.limits.TheConstants.{PANS};
ghost use Rattle.std.specs.Prelude.{◌≡◌, ◌≤◌};

use crate::case::Case;
use choices::{LIMIT, PANS};

// Numbers that look random and are the same in every run.
#[derive(Drop)]
pub struct Dice {
    state: u64,
}

impl Dice {
    pub fn new(seed: u64) -> Dice
        ensures { result.state ≡ seed }
    {
        Dice { state: seed }
    }

    // The next number below n; 0 where n is 0.
    pub fn below(&mut self, n: u32) -> u32 {
        self.state = self
            .state
            .wrapping_mul(6_364_136_223_846_793_005)
            .wrapping_add(1_442_695_040_888_963_407);
        let drawn = (self.state >> 33) as u32;
        drawn.checked_rem(n).unwrap_or(0)
    }

    // One of a few, where there is one.
    pub fn pick(&mut self, few: &[u32]) -> u32 {
        let place = self.below(few.len().min(1000) as u32) as usize;
        few.get(place).copied().unwrap_or(0)
    }

    // Whether a thing that happens once in n times happens now.
    pub fn once_in(&mut self, n: u32) -> bool {
        self.below(n) == 0
    }
}

// Handfuls of so many units at most.
#[derive(Clone, Copy)]
struct Scale {
    unit: u32,
    most: u32,
}

impl Scale {
    fn random(dice: &mut Dice) -> Scale {
        match dice.below(6) {
            0 => Scale { unit: 1, most: 3 },
            1 => Scale { unit: 5, most: 9 },
            2 => Scale { unit: 50, most: 1 },
            3 => Scale { unit: 1, most: 60 },
            4 => Scale { unit: 1, most: 700 },
            _ => Scale {
                unit: 1,
                most: LIMIT,
            },
        }
    }

    fn heaviest(self) -> u32 {
        self.unit.saturating_mul(self.most)
    }

    fn weight(self, dice: &mut Dice) -> u32 {
        if dice.once_in(10) {
            return 0;
        }
        dice.below(self.most)
            .saturating_add(1)
            .saturating_mul(self.unit)
    }
}

fn rule(dice: &mut Dice, scale: Scale) -> [u32; 4] {
    let heaviest = scale.heaviest();
    let target = dice.below(heaviest.saturating_mul(4)).saturating_add(1);
    let above = dice.pick(&[0, 1, heaviest / 4, heaviest, heaviest.saturating_mul(2)]);
    let pans = dice.pick(&[1, 2, 3, 4, 4, 5, 6, 12, LIMIT]);
    let age = dice.pick(&[0, 4, 5, 6, 6, 7, 7, 9, LIMIT]);
    [target.min(LIMIT), above.min(LIMIT), pans, age]
}

// Makes one number wrong, of the rule or of some pan.
fn spoil(dice: &mut Dice, case: &mut Case)
    ensures { case.new.pans ≡ case.old.pans }
{
    let wrong = dice.below(LIMIT).saturating_add(1_000_001);
    let pan = dice.below(12).min(11) as usize;
    match dice.below(7) {
        0 => case.rule[0] = 0,
        1 => case.rule[0] = wrong,
        2 => case.rule[1] = wrong,
        3 => case.rule[2] = wrong,
        4 => case.rule[3] = wrong,
        5 => case.weights[pan] = wrong,
        _ => case.ages[pan] = wrong,
    }
}

// So many pans at least, and fewer than `more` beside these.
fn some_pans(dice: &mut Dice, least: u32, more: u32) -> usize
    ensures some { 1 ≤ result }
    ensures few { result ≤ PANS }
{
    (least.saturating_add(dice.below(more)) as usize).clamp(1, PANS)
}

// A ring of so many pans at least and fewer than `more` beside these, all of it at random.
pub fn random_case(dice: &mut Dice, least: u32, more: u32) -> Case
    ensures { 1 ≤ result.pans }
{
    let scale = Scale::random(dice);
    let pans = some_pans(dice, least, more);
    let mut weights = [0; PANS];
    let mut ages = [0; PANS];
    for (w, age) in weights.iter_mut().zip(ages.iter_mut()).take(pans) {
        *w = scale.weight(dice);
        *age = dice.below(7);
    }
    let rule = rule(dice, scale);
    let mut case = Case {
        rule,
        weights,
        ages,
        pans,
    };
    if dice.once_in(20) {
        spoil(dice, &mut case);
    }
    case
}

// How many pans may be opened of a large ring, so few that the scan is quick.
fn few_pans(dice: &mut Dice, pans: usize) -> u32 {
    if pans <= 16 {
        dice.pick(&[3, 4, 6, 16])
    } else {
        dice.pick(&[2, 3, 4, 4, 4, 5])
    }
}

// A ring of 13 to 24 pans, few of them old, with a bag in most cases.
pub fn large_case(dice: &mut Dice) -> Case
    ensures { 1 ≤ result.pans }
{
    let scale = Scale::random(dice);
    let pans = some_pans(dice, 13, 12);
    let mut weights = [0; PANS];
    let mut ages = [0; PANS];
    for (w, age) in weights.iter_mut().zip(ages.iter_mut()).take(pans) {
        *w = scale.weight(dice);
        *age = dice.below(30);
    }
    let heaviest = scale.heaviest();
    let most = few_pans(dice, pans);
    let target = dice.below(heaviest.saturating_mul(most.min(4)).min(LIMIT));
    let above = dice.pick(&[0, 1, heaviest / 50, heaviest / 4]);
    let age = dice.pick(&[27, 28, 29, 30]);
    Case {
        rule: [target.saturating_add(1), above, most, age],
        weights,
        ages,
        pans,
    }
}

// Handfuls of a season, as heavy as what lies in the pans.
pub fn some_handfuls(dice: &mut Dice, case: &Case) -> [u32; 7] {
    let mut handfuls = [0; 7];
    for grams in handfuls.iter_mut() {
        *grams = dice.pick(case.weights());
    }
    handfuls
}
