//! How a command is carried out.

pub(crate) mod carry;
mod run;
mod show;
mod write;
