//! Tests of the instructions on values, of jumps, of calls of functions and of the entry method, by
//! stories that `run` shows.
#![tactic(auto)]

#[cfg(test)]
mod calls;
#[cfg(test)]
mod entries;
#[cfg(test)]
mod instructions;
#[cfg(test)]
mod jumps;
