//! Tests of `t3_pools`: what stands at which address, and which rule an image's pools break first.
#![tactic(auto)]

#[cfg(test)]
mod addresses;
#[cfg(test)]
mod constants;
#[cfg(test)]
mod parts;
