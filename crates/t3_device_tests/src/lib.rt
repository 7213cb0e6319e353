//! Tests of the outside and of what stands next to it: the devices of `t3_io`, the lines of input
//! of `t3_lines`, and the page of `t3_console`.
#![tactic(auto)]

#[cfg(test)]
mod devices;
#[cfg(test)]
mod lines;
#[cfg(test)]
mod page;
