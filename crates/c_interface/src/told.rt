//! What a season's call answers, in numbers: C has no enums that hold values.

/// The first refusal's number, or 0; and how many bags were made, what they weigh together and what of that was given away.
#[repr(C)]
#[derive(Clone, Copy)]
pub struct Told {
    pub refusal: u64,
    pub bags: u64,
    pub weight: u64,
    pub given_away: u64,
}
