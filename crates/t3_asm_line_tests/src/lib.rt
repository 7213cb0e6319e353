//! Tests of `t3_asm_line`: what lines of source say, and how a listing spells lines.
#![tactic(auto)]

#[cfg(test)]
mod kinds_of_lines;
#[cfg(test)]
mod lines;
#[cfg(test)]
mod listing;
#[cfg(test)]
mod telling;
