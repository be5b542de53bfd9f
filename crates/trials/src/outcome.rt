// What comes of a case.
use choices::PANS;
use order::Bag;
use packing::Refusal;

// The best bag, that no choice fits, or why nothing was taken.
pub type Answer = Result<Option<Bag>, Refusal>;

// Arrays as in a case, of which only the first pans are there.
#[derive(Clone, Copy, PartialEq, Eq)]
pub struct Outcome {
    pub answer: Answer,
    pub weights: [u32; PANS],
    pub ages: [u32; PANS],
}
