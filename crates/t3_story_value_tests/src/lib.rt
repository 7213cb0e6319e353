//! Tests of the instructions on texts, lists, vectors and tables, by stories that `run` shows.
#![tactic(auto)]

#[cfg(test)]
mod conversions;
#[cfg(test)]
mod creation;
#[cfg(test)]
mod elements;
#[cfg(test)]
mod entries;
#[cfg(test)]
mod equality;
#[cfg(test)]
mod forms;
#[cfg(test)]
mod functions;
#[cfg(test)]
mod lists;
#[cfg(test)]
mod order;
#[cfg(test)]
mod others;
#[cfg(test)]
mod pushing;
#[cfg(test)]
mod saying;
#[cfg(test)]
mod setting;
#[cfg(test)]
mod story;
#[cfg(test)]
mod switches;
#[cfg(test)]
mod texts;
#[cfg(test)]
mod vector_setting;
#[cfg(test)]
mod vectors;
