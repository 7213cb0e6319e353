//! The methods of the kinds of objects, tried on worked cases by their public calls alone. What is wanted
//! is worked out from the rules of the machine.
#![tactic(auto)]

#[cfg(test)]
mod clones;
#[cfg(test)]
mod counts;
#[cfg(test)]
mod fixture;
#[cfg(test)]
mod full_stores;
#[cfg(test)]
mod lists;
#[cfg(test)]
mod root;
#[cfg(test)]
mod tables;
#[cfg(test)]
mod texts;
#[cfg(test)]
mod vectors;
