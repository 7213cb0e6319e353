//! Tests of the methods of metaclasses, by stories that `run` shows.
#![tactic(auto)]

#[cfg(test)]
mod containers;
#[cfg(test)]
mod instances;
#[cfg(test)]
mod roots;
#[cfg(test)]
mod story;
#[cfg(test)]
mod texts;
#[cfg(test)]
mod undoing;
