//! Tests of calls by stories that `run` shows: what each code that calls comes to, how many arguments and
//! frames and values there may be, constructors, the function that says values, and handlers.
#![tactic(auto)]

#[cfg(test)]
mod calling;
#[cfg(test)]
mod cast;
#[cfg(test)]
mod catching;
#[cfg(test)]
mod constructing;
#[cfg(test)]
mod rooms;
#[cfg(test)]
mod saying;
