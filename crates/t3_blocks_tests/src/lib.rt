//! Tests of `t3_holder` and `t3_blocks`: what holders mean, what names, flags and payloads give,
//! and that blocks are written as they were read.
#![tactic(auto)]

#[cfg(test)]
mod holders;
#[cfg(test)]
mod payloads;
