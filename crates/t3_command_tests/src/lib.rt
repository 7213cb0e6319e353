//! Tests of the commands but `run`: words, and what `check`, `show`, `rewrite`,
//! `list` and `asm` show and put, over devices in memory.
#![tactic(auto)]

#[cfg(test)]
mod assemble;
#[cfg(test)]
mod check;
#[cfg(test)]
mod devices;
#[cfg(test)]
mod failing;
#[cfg(test)]
mod rewrite;
#[cfg(test)]
mod show;
#[cfg(test)]
mod words;
