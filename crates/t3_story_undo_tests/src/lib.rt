//! Tests of savepoints and undo, by stories that `run` shows.
#![tactic(auto)]

#[cfg(test)]
mod cave;
#[cfg(test)]
mod drawing;
#[cfg(test)]
mod drawn;
#[cfg(test)]
mod limits;
#[cfg(test)]
mod plain;
#[cfg(test)]
mod story;
#[cfg(test)]
mod undoing;
