//! Tests of `t3_frames`: frames beside lists, and the most values that they hold.
#![tactic(auto)]

#[cfg(test)]
mod calls;
#[cfg(test)]
mod frames;
