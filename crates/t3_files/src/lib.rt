//! Reads the files of a depot, from their start to their end or to a limit.
//!
//! ```text
//! depot.keep(b"s.sav", b"abc")?;
//! read_file(alloc, b"s.sav", &mut depot)?;     // Some(b"abc"), and None where there is no such file
//! ```
//!
//! [`read_piece`] reads one piece, for who hands the pieces on and keeps none.
#![tactic(auto)]

mod reading;

pub use reading::{PIECE, READ_LIMIT, read_file, read_piece, zeroed};
