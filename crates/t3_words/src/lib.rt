//! Which command of `t3` the words of the command line are: a verb, names of files in their order, and then
//! options in any order, each at most once.
//!
//! ```text
//! Command::parse(&["check", "a.t3"]);                  // Some(Command::Check { image: "a.t3" }), from Strings
//! Command::parse(&["rewrite", "a.t3", "b.t3", "--mask=7"]);
//! Command::parse(&["run", "a.t3", "--width=60"]);      // the other options at their defaults
//! Command::parse(&["drill", "20"]);                    // Some(Command::Drill { number: 20 })
//! Command::parse(&["check", "a.t3", "b.t3"]);          // None: a name too many
//! ```
//!
//! What words are which command is a table with a row a verb, and the bounds of a run's options are one with a
//! row an option. A command that is parsed is well formed: files may have its names, and its numbers are
//! within their bounds.
#![tactic(auto)]

mod command;
mod names;
mod number;
mod options;
#[cfg(test)]
mod tests;
mod verbs;

pub use command::{Command, RunOptions};
