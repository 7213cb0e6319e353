//! The operations on values, tried on worked cases by their public calls alone. What is wanted is worked
//! out from the rules of the machine.
#![tactic(auto)]

#[cfg(test)]
mod arithmetic;
#[cfg(test)]
mod builtins;
#[cfg(test)]
mod creating;
#[cfg(test)]
mod equality;
#[cfg(test)]
mod fixture;
#[cfg(test)]
mod full_stores;
#[cfg(test)]
mod growth;
#[cfg(test)]
mod indexing;
#[cfg(test)]
mod keys;
#[cfg(test)]
mod long_sums;
#[cfg(test)]
mod made_strings;
#[cfg(test)]
mod memory;
#[cfg(test)]
mod ordering;
#[cfg(test)]
mod random_pairs;
#[cfg(test)]
mod sums;
#[cfg(test)]
mod turns;
