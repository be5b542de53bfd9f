// The lines of text that the program reads: a word and its numbers.
#![tactic(auto)]

mod commands;
mod faults;
mod numbers;
mod reading;
mod scanning;
mod words;

pub use commands::{Command, Numbers};
pub use faults::Fault;
pub use numbers::put_number;
pub use reading::{read, reread};
pub use words::{Count, ROWS, Word};
