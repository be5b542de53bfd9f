// Seasons of a kind of bag with a state, beside bag after bag in the plainest way.
use crate::case::Case;
use crate::makes_up::MakesUp;
use crate::outcome::Outcome;
use crate::plain::all_tried;
use choices::{LIMIT, PANS};
use engines::Rooms;
use packing::Refusal;
use seasons::{Run, play, season_checked};

// What a season comes to, and what it leaves in the pans.
#[derive(Clone, Copy, PartialEq, Eq)]
struct Season {
    run: Run,
    weights: [u32; PANS],
    ages: [u32; PANS],
}

// So many bags of the kind that makes up, from a target that is not lowered.
fn played(
    rule: &[u32],
    weights: &mut [u32],
    ages: &mut [u32],
    handfuls: &[u32],
    bags: u32,
    rooms: &mut Rooms,
) -> Result<Run, Refusal> {
    let rule = season_checked(rule, 0, weights, ages, handfuls, bags)?;
    let mut kind = MakesUp {
        rule,
        low: rule.target,
    };
    Ok(play(&mut kind, weights, ages, handfuls, bags, rooms))
}

fn by_kind(case: &Case, handfuls: &[u32], bags: u32, rooms: &mut Rooms) -> Option<Season> {
    let mut weights = case.weights;
    let mut ages = case.ages;
    let run = played(
        &case.rule,
        &mut weights[..case.pans],
        &mut ages[..case.pans],
        handfuls,
        bags,
        rooms,
    )
    .ok()?;
    Some(Season { run, weights, ages })
}

// Where a season stands: the pans, what the next bag weighs at least, which handful falls next, and the bags so far.
#[derive(Clone, Copy)]
struct Course {
    now: Case,
    low: u32,
    next: usize,
    bags: u32,
    weight: u64,
}

impl Course {
    // Makes the next bag, with all choices tried, and lets handfuls fall; says whether there was one.
    fn goes_on(&mut self, case: &Case, handfuls: &[u32]) -> bool {
        let [target, above, pans, age] = case.rule;
        let low = target.min(self.low);
        let top = target.saturating_add(above);
        let rule = [low, top.saturating_sub(low), pans, age];
        self.now.rule = rule;
        let Outcome {
            answer,
            weights,
            ages,
        } = all_tried(&self.now);
        let Ok(Some(bag)) = answer else {
            return false;
        };
        self.now.weights = weights;
        self.now.ages = ages;
        self.low = target.saturating_mul(2).saturating_sub(bag.weight).max(1);
        self.bags = self.bags.saturating_add(1);
        self.weight = self.weight.saturating_add(u64::from(bag.weight));
        self.fall(handfuls);
        true
    }

    // The next handfuls of the list fall into the empty pans.
    fn fall(&mut self, handfuls: &[u32]) {
        for w in self.now.weights.iter_mut().take(self.now.pans) {
            if *w == 0 {
                *w = handfuls.get(self.next).copied().unwrap_or(0);
                self.next = self.next.wrapping_add(1);
                if self.next >= handfuls.len() {
                    self.next = 0;
                }
            }
        }
    }
}

fn plainly(case: &Case, handfuls: &[u32], bags: u32) -> Season {
    let mut course = Course {
        now: *case,
        low: case.rule[0],
        next: 0,
        bags: 0,
        weight: 0,
    };
    let ended_early = (0..bags).any(|_| !course.goes_on(case, handfuls));
    Season {
        run: Run {
            bags: course.bags,
            weight: course.weight,
            ended_early,
        },
        weights: course.now.weights,
        ages: course.now.ages,
    }
}

// Whether a season of the kind that makes up comes to the same both ways. Nothing where it is turned away, or where a
// lowered rule has more above than the plain way takes.
pub fn season_agrees(case: &Case, handfuls: &[u32], bags: u32, rooms: &mut Rooms) -> Option<bool> {
    let [target, above, _, _] = case.rule;
    if target.saturating_add(above) > LIMIT {
        return None;
    }
    let season = by_kind(case, handfuls, bags, rooms)?;
    Some(season == plainly(case, handfuls, bags))
}
