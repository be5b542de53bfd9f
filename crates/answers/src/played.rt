//! What a season came to.

/// How many bags were made, what they weigh together, what of that was given away (all that is above so many targets), and
/// whether the season ended early, at a bag for which no choice is allowed.
#[derive(Clone, Copy, Debug, PartialEq, Eq)]
pub struct Played {
    pub bags: u32,
    pub weight: u64,
    pub given_away: u64,
    pub ended_early: bool,
}
