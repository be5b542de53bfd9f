// Rings with pans taken away or forced open, other rules for a ring, and what these do to what fits.
#![tactic(auto)]

mod laws;
mod making;
mod narrowed;
mod ruled;

pub use laws::{
    emptied_stay_shut, looser_finds, looser_still_fits, marks_stand_for_ages, narrowed_answers,
    old_stay_open,
};
pub use making::narrow;
pub use narrowed::Narrowed;
pub use ruled::by_rule;
