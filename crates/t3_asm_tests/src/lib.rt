//! Tests of `t3_asm`: sources with their images or their first bad lines.
#![tactic(auto)]

#[cfg(test)]
mod limits;
#[cfg(test)]
mod sources;
