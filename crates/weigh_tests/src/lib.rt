// Tests of the command line, of the reasons told and of streams that fail: a crate of their own, since one with tests is
// proved twice.
#![tactic(auto)]

#[cfg(test)]
mod reasons;
#[cfg(test)]
mod streams;
#[cfg(test)]
mod words;
