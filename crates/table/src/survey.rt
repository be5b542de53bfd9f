//! What one look over a ring tells of its old and its free pans.
ghost use Rattle.std.specs.Prelude.{◌≡◌, ◌+◌, ◌-◌, ◌/◌, ◌^◌, ◌<◌, min, max, cond, ◌&&◌, ◌||◌, nat_le};

use choices::Rule;

/// What the old and the free pans of a ring add up to.
#[derive(Clone, Copy)]
pub struct Survey {
    /// What the old pans weigh together.
    pub old_weight: u32,
    /// How many pans are old.
    pub old_count: u32,
    /// What the free pans, which are all others, weigh together.
    pub free: u32,
    /// What the heaviest free pan weighs, or 0 where there is none.
    pub heaviest: u32,
    /// Whether no old pan is empty.
    pub old_filled: bool,
}

impl Survey {
    /// The survey of no pans. It is no `Default`: no old pan is empty.
    pub const NOTHING: Survey = Survey {
        old_weight: 0,
        old_count: 0,
        free: 0,
        heaviest: 0,
        old_filled: true,
    };

    /// The survey with one more pan, which is old unless it is `young`.
    pub fn with(self, weight: u32, young: bool) -> Survey
        requires { (self.old_weight + weight < 2 ^ 32) × ((self.free + weight < 2 ^ 32) × (self.old_count + 1 < 2 ^ 32)) }
        ensures old_weight { result.old_weight ≡ self.old_weight + cond young 0 weight }
        ensures old_count { result.old_count ≡ self.old_count + cond young 0 1 }
        ensures free { result.free ≡ self.free + cond young weight 0 }
        ensures heavy { result.heaviest ≡ max (cond young weight 0) self.heaviest }
        ensures old_filled { result.old_filled ≡ (self.old_filled && (young || nat_le 1 weight)) }
    {
        // No branch, so that a loop over pans is compiled to work on several at once.
        let free = if young { weight } else { 0 };
        Survey {
            old_weight: self.old_weight + (weight - free),
            old_count: self.old_count + u32::from(!young),
            free: self.free + free,
            heaviest: free.max(self.heaviest),
            old_filled: self.old_filled & (young | (weight >= 1)),
        }
    }

    /// Whether the old pans leave a bag possible: none is empty, and they are neither too many nor too heavy for `rule`.
    pub fn leaves_a_bag(self, rule: Rule) -> bool
        requires { rule.target + rule.above < 2 ^ 32 }
        ensures { result ≡ (self.old_filled && (nat_le self.old_count rule.pans && nat_le self.old_weight (rule.target + rule.above))) }
    {
        self.old_filled
            && self.old_count <= rule.pans
            && self.old_weight <= rule.target + rule.above
    }

    /// Whether four free pans may be heavy enough to reach the target together with the old pans.
    ///
    /// Only the time that `best` takes depends on it.
    pub fn few_may_do(self, rule: Rule) -> bool
        ensures { result ≡ nat_le ((rule.target - self.old_weight) / 4) self.heaviest }
    {
        rule.target.saturating_sub(self.old_weight) / 4 <= self.heaviest
    }

    /// The most that the free pans of a bag by `rule` may weigh.
    pub fn span(self, rule: Rule) -> usize
        requires { rule.target + rule.above < 2 ^ 32 }
        ensures { result ≡ min (rule.target + rule.above - self.old_weight) self.free }
    {
        (rule.target + rule.above)
            .saturating_sub(self.old_weight)
            .min(self.free) as usize
    }
}
