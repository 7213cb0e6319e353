//! What every other crate of `t3` shares: numbers as little-endian bytes, data holders, lists of
//! bytes, want of memory, and the rule of file names.
//!
//! A holder is read from its five bytes, and then asked what it means:
//!
//! ```
//! let raw = read_raw(&[7, 0xFE, 0xFF, 0xFF, 0xFF]);
//! assert_eq!(holder_of(raw), Some(Holder::Int(-2)));
//! assert_eq!(raw_bytes(raw_of(Holder::Int(-2))), [7, 0xFE, 0xFF, 0xFF, 0xFF]);
//! ```
#![tactic(auto)]

mod bytes;
mod holder;
mod no_memory;
mod number;

pub use bytes::Bytes;
pub use holder::{Holder, Raw, holder_of, holder_text, raw_bytes, raw_of, read_raw};
pub use no_memory::NoMemory;
pub use number::{number_text, u16_at, u16_bytes, u32_at, u32_bytes};
