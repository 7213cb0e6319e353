//! Tests of `t3_snapshot`, by its public calls: worked bytes, every change of them and of a state with an object of each
//! kind, and states that break one condition each.
#![tactic(auto)]

#[cfg(test)]
mod broken_fields;
#[cfg(test)]
mod broken_states;
#[cfg(test)]
mod changes;
#[cfg(test)]
mod each_change;
#[cfg(test)]
mod encoded;
#[cfg(test)]
mod fixture;
#[cfg(test)]
mod limits;
#[cfg(test)]
mod references;
#[cfg(test)]
mod whole_state;
#[cfg(test)]
mod worked;
