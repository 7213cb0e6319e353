//! Reads an image from a stream that comes in pieces of any lengths.
//!
//! An [`ImageReader`] is fed until it is done or refuses. The image, and the rule that is broken with its
//! place, depend on the stream alone, and not on how it was cut.
//!
//! ```
//! let mut reader = ImageReader::new(alloc);
//! assert_eq!(reader.feed(&bytes[..70])?, Fed::More);
//! assert_eq!(reader.feed(&bytes[70..])?, Fed::Done { used: 22 });
//! let image = reader.finish()?;
//! assert_eq!(image.blocks.0.len(), 1);
//! ```
//!
//! An [`ImageChecker`] reads by the same rules and keeps no block, for whoever only asks whether the bytes
//! are an image. What becomes of the blocks is said by a [`BlockSink`], and all else by the one [`Reader`].
#![tactic(auto)]

mod header;
mod image;
mod laws;
mod reader;
mod refusal;
mod sink;
mod taker;
mod tally;

pub use header::{HEAD_SIZE, HEADER_SIZE, SIGNATURE, VERSION};
pub use image::{Head, Image, Placed, PlacedBlock};
pub use laws::{one_reading, pieces_joined};
pub use reader::{Fed, ImageChecker, ImageParts, ImageReader, Reader, Totals};
pub use refusal::{ReadRefusal, ReadWhy};
pub use sink::{BlockSink, Discard};
