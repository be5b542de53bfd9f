//! What is answered beside a bag: why nothing was taken, and what a season came to.
#![tactic(auto)]

mod played;
mod refusal;

pub use played::Played;
pub use refusal::Refusal;
