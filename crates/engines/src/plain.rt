//! The plain kind of bag: what fits a rule.
ghost use Rattle.choices.specs.Stand.{by_rule};
ghost use Rattle.std.specs.Prelude.{◌≡◌};
ghost use Rattle.engines.specs.Plain.{age_of, least_of, rule_ready, same_rule, top_of};
ghost use Rattle.engines.specs.PlainLaw.{rule_lawful};
ghost use Rattle.engines.specs.Sizes.{rooms_size};

use crate::finder::Finder;
use crate::kind::Kind;
use crate::rooms::Rooms;
use choices::{Ring, Rule};
use order::Bag;

impl<'a> Kind<Rooms<'a>> for Rule {
    ghost allows = { by_rule };

    ghost age = { age_of };

    ghost least = { least_of };

    ghost top = { top_of };

    ghost after = { same_rule };

    ghost ready = { rule_ready };

    ghost size = { rooms_size };

    ghost lawful = { rule_lawful };

    fn best(&self, weights: &[u32], ages: &[u32], rooms: &mut Rooms<'a>) -> Option<Bag> {
        rooms.best(Ring {
            rule: *self,
            weights,
            ages,
        })
    }

    fn made(&mut self, _pans: usize, _weight: u32)
        ensures { self.new ≡ same_rule self.old _weight }
    {}
}
