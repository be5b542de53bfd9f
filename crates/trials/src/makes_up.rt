// A kind of bag with a state, as a test of what kinds of bag promise: a bag may weigh less than the target by what the last
// one weighed above it.
ghost use Rattle.engines.specs.Sizes.{rooms_size};
ghost use Rattle.trials.specs.MakesUp.{age_of, allowed_by, least_of, made_up, makes_up_lawful, makes_up_ready, top_of};
ghost use Rattle.std.specs.Prelude.{◌≡◌};

use choices::{Ring, Rule};
use engines::{Finder, Kind, Rooms};
use order::Bag;

#[derive(Clone, Copy)]
pub struct MakesUp {
    pub rule: Rule,
    // What the next bag has to weigh at least, where that is below the target.
    pub low: u32,
}

impl<'a> Kind<Rooms<'a>> for MakesUp {
    ghost allows = { allowed_by };

    ghost age = { age_of };

    ghost least = { least_of };

    ghost top = { top_of };

    ghost after = { made_up };

    ghost ready = { makes_up_ready };

    ghost size = { rooms_size };

    ghost lawful = { makes_up_lawful };

    fn best(&self, weights: &[u32], ages: &[u32], rooms: &mut Rooms<'a>) -> Option<Bag> {
        let target = self.rule.target.min(self.low);
        let rule = Rule {
            target,
            above: self.rule.target + self.rule.above - target,
            pans: self.rule.pans,
            age: self.rule.age,
        };
        rooms.best(Ring {
            rule,
            weights,
            ages,
        })
    }

    fn made(&mut self, _pans: usize, weight: u32)
        requires { makes_up_ready self.old _pans 1 }
        ensures { self.new ≡ made_up self.old weight }
    {
        let twice = 2 * self.rule.target;
        self.low = twice.saturating_sub(weight).max(1);
    }
}
