//! The blocks of an image: what each kind holds, and which payload bytes spell it.
//!
//! [`parse_block`] takes a payload apart that lies in a caller's buffer. A reader that has found the kind of
//! a name, and seen that its flags don't refuse it, calls [`spelled_block`], or [`take_block`] with a payload
//! that it hands in, so that what is kept as bytes isn't copied. [`append_block`] writes a block's
//! payload, whose size [`Block::payload_size`] tells beforehand.
//!
//! The names of function sets, read from a payload and written again:
//!
//! ```
//! let block = parse_block(alloc, *b"FNSD", 1, b"\x01\x00\x02ab")?;
//! let mut out = Vec::new(alloc);
//! append_block(&block, &mut out)?;
//! assert_eq!(out.as_slice(), b"\x01\x00\x02ab");
//! ```
#![tactic(auto)]

mod append;
mod block;
mod functions;
mod heads;
mod items;
mod kind;
mod layout;
mod metas;
mod objects;
mod page_bytes;
mod parse;
mod parts;
mod refusal;
mod size;
mod split;
mod symbols;

pub use append::append_block;
pub use block::{Block, block_spelling};
pub use items::{Meta, Metas, Names, PropEntries, PropEntry, Static, Statics, Symbol, Symbols};
pub use kind::{BlockKind, END_NAME};
pub use page_bytes::PageBytes;
pub use parse::{IMAGE_LIMIT, parse_block, spelled_block, take_block};
pub use refusal::{BlockRefusal, PayloadRefusal};
