//! Tests of `t3_methods` and `t3_except`: instructions, method headers and handlers in small pages of code, and
//! which of several methods catches.
#![tactic(auto)]

#[cfg(test)]
mod code;
#[cfg(test)]
mod covering;
#[cfg(test)]
mod rows;
