// A case to try: a rule in numbers, and a ring of pans.
ghost use Rattle.choices.specs.declared.limits.TheConstants.{PANS};
ghost use Rattle.std.specs.Prelude.{◌≤◌};

use choices::PANS;

// Arrays with a number beside them, so that a case is copied and none asks for memory.
#[derive(Clone, Copy)]
pub struct Case {
    pub rule: [u32; 4],
    pub weights: [u32; PANS],
    pub ages: [u32; PANS],
    pub pans: usize,
    ghost few: { pans ≤ PANS },
}

impl Case {
    ghost use Rattle.std.specs.Prelude.{◌≡◌, length};

    pub fn weights(&self) -> &[u32]
        ensures { length result.now ≡ self.now.pans }
    {
        &self.weights[..self.pans]
    }

    pub fn ages(&self) -> &[u32]
        ensures { length result.now ≡ self.now.pans }
    {
        &self.ages[..self.pans]
    }
}
