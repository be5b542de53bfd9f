// The order of choices, the best of all that are allowed, and the laws that hold of it.
#![tactic(auto)]

mod bag;
mod compare;
mod laws;

pub use bag::Bag;
pub use compare::{Seen, ahead, better};
pub use laws::{best_is_one, best_of_more, better_is_an_order, found_carries_over};
