// What a command line asks of the program, over the kit's parser of command lines.
#![tactic(auto)]

mod command;
mod reading;

pub use reading::{Asked, Run, asked_by};
