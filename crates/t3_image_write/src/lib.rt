//! Writes an image as the bytes that spell it, and puts its pages under another mask.
//!
//! ```
//! let mut image = reader.finish()?;
//! remask(&mut image, 0);
//! let plain = write_image(alloc, &image)?;
//! ```
//!
//! Where an image is only to be written anew, a [`Rewriter`] takes its blocks as they are read, and none is
//! kept:
//!
//! ```
//! let mut reader = Reader::with_sink(alloc, Rewriter::<Brand>::new(alloc, None)?);
//! reader.feed(&bytes)?;
//! assert_eq!(rewritten_text(alloc, reader.into_parts()?)?, bytes);
//! ```
#![tactic(auto)]

mod append;
mod laws;
mod masking;
mod rewriter;
mod size;
mod write;

pub use laws::written_reads;
pub use masking::remask;
pub use rewriter::{Masking, Rewriter, rewritten_text};
pub use size::text_size;
pub use write::write_image;
