//! The packing line's entries: what is turned away, and a bag made of the lent pans.
#![tactic(auto)]

mod entry;
mod finding;
mod laws;
mod marks;
mod one_bag;
mod refusal;

pub use answers::Refusal;
pub use entry::{bag, bag_in};
pub use finding::find;
pub use laws::{entries_agree, refusals_are_exact};
pub use one_bag::pack;
pub use refusal::{checked, first_above};
