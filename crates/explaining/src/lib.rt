// What was wrong with a line that was turned away, and what to write, in words.
#![tactic(auto)]

mod flaws;
mod reasons;
mod telling;
mod words;

pub use flaws::Flaw;
pub use reasons::Reason;
pub use telling::reason_of;
