//! Stores to begin with, and objects without anything, for the crates of tests.
//!
//! ```text
//! let mut store = empty_store(alloc, limits)?;
//! let number = create_tads(alloc, &mut store, false)?;
//! ```
#![tactic(auto)]

mod objects;
mod stores;

pub use objects::{create_tads, tads};
pub use stores::empty_store;
