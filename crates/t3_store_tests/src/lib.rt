//! Tests of `t3_store`: worked cases, and random runs beside a plain, slow store that copies all of
//! its objects at each savepoint.
#![tactic(auto)]

#[cfg(test)]
mod broken;
#[cfg(test)]
mod counts;
#[cfg(test)]
mod fixture;
#[cfg(test)]
mod persistents;
#[cfg(test)]
mod random_runs;
#[cfg(test)]
mod replacing;
#[cfg(test)]
mod restoring;
#[cfg(test)]
mod rooms;
#[cfg(test)]
mod saved_states;
#[cfg(test)]
mod stores;
#[cfg(test)]
mod units;
#[cfg(test)]
mod whole_copies;
