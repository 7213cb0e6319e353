//! Tests of how many of an object's cells have a place in a `t3_store`, however many stood there once.
#![tactic(auto)]

#[cfg(test)]
mod bounds;
#[cfg(test)]
mod cells;
