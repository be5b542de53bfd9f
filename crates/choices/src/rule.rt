//! A rule: what a bag has to be.

/// A bag weighs at least `target` and at most `above` more, in the scale's unit, and opens at most `pans` pans, among
/// them every old one: every pan whose age, in bags, is `age` or more.
#[derive(Clone, Copy, Debug, PartialEq, Eq)]
pub struct Rule {
    pub target: u32,
    pub above: u32,
    pub pans: u32,
    pub age: u32,
}

impl From<[u32; 4]> for Rule {
    ghost use Rattle.std.specs.Prelude.{◌≡◌};
    ghost use Rattle.choices.specs.Ruled.{rule_in};

    ghost from_gives = { λ numbers rule. rule ≡ rule_in numbers };

    fn from(numbers: [u32; 4]) -> Rule {
        let [target, above, pans, age] = numbers;
        Rule {
            target,
            above,
            pans,
            age,
        }
    }
}
