//! A run over its input: each line is heard at the desk, and what is answered is written out.
#![tactic(auto)]

mod lines;
mod serving;
mod writing;

pub use serving::{Ended, Manner, serve};
