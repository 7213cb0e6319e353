//! Tests of the instructions on objects, by stories that `run` shows: properties that are searched,
//! evaluated and set, and objects that are made.
#![tactic(auto)]

#[cfg(test)]
mod creation;
#[cfg(test)]
mod handlers;
#[cfg(test)]
mod objects;
