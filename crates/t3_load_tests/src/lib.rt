//! Tests of `t3_load`: which rule an image breaks first, the program of one that breaks none, and
//! stores that begin with its objects.
#![tactic(auto)]

#[cfg(test)]
mod images;
#[cfg(test)]
mod loads;
#[cfg(test)]
mod objects;
#[cfg(test)]
mod programs;
#[cfg(test)]
mod rules;
#[cfg(test)]
mod stores;
#[cfg(test)]
mod tables;
