//! Sweeps over two sorted lists of places: the least sum of a top and an entry of each list, from a bound on.
//!
//! A sweep goes up one list and down the other, so each entry is passed once: the two lists of Horowitz and Sahni (1974). A
//! top is the place of a choice of the one or two pans before both lists' pans.
#![tactic(auto)]

mod band;
mod counted;
mod four;
mod lane;
mod lists;
mod tops;

pub use lists::Lists;
pub use tops::least;
