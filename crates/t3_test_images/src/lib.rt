//! Small images, put together of blocks as bytes, for the crates of tests.
//!
//! ```text
//! let blocks = [pool_definition(alloc, 1, 1, 64)?, page(alloc, 1, 0, b"\x51")?];
//! let image = image(alloc, &blocks)?;
//! ```
#![tactic(auto)]

mod images;
mod pools;
mod tables;

pub use images::{block, image, image_bytes};
pub use pools::{page, pool_definition};
pub use tables::{function_sets, metaclasses, metaclasses_with, object_block, symbols};
