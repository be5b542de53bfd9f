// Bags that were worked out by hand.
ghost use Rattle.std.specs.Prelude.{◌≡◌};

use crate::case::Case;
use crate::outcome::Answer;
use choices::PANS;
use order::Bag;

#[derive(Clone, Copy)]
pub struct Worked {
    rule: [u32; 4],
    // For how many bags pan 1 has waited; all others are fresh.
    waited: u32,
    pub answer: Answer,
}

pub const WORKED: [Worked; 4] = [
    // Pans 2, 3, 6 and 7.
    Worked {
        rule: [100, 10, 4, 9],
        waited: 0,
        answer: Ok(Some(Bag {
            pans: 204,
            weight: 100,
        })),
    },
    // Pans 3, 4 and 6, since three may be opened.
    Worked {
        rule: [100, 10, 3, 9],
        waited: 0,
        answer: Ok(Some(Bag {
            pans: 88,
            weight: 102,
        })),
    },
    // Pans 0, 1, 3 and 7, since pan 1 is old.
    Worked {
        rule: [100, 10, 4, 3],
        waited: 3,
        answer: Ok(Some(Bag {
            pans: 139,
            weight: 101,
        })),
    },
    // No two pans weigh just so much.
    Worked {
        rule: [100, 0, 2, 9],
        waited: 0,
        answer: Ok(None),
    },
];

impl Worked {
    pub fn case(self) -> Case
        ensures { result.pans ≡ 8 }
    {
        let rule = self.rule;
        let mut ages = [0; PANS];
        ages[1] = self.waited;
        Case {
            rule,
            weights: [
                23, 31, 18, 27, 40, 12, 35, 20, 0, 0, 0, 0, 0, 0, 0, 0, 0, 0, 0, 0, 0, 0, 0, 0,
            ],
            ages,
            pans: 8,
        }
    }
}
