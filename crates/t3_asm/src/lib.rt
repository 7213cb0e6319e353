//! The assembler: a source is read into an image, and an image is listed as a source.
//!
//! A source goes to its image in three stages, each over all of it. Its lines become items, each with
//! its place, or the first line that breaks a rule of form is refused (`form`, `draft`, `item`). Then
//! the first item that breaks a rule of values is refused (`checks`, `values`). Else the items say the
//! blocks, with counts and sizes those of the items inside (`blocks`, `lists`, `content`).
//!
//! ```
//! let image = assemble(alloc, b"image\nblock \"FNSD\" 1\nfunction-set \"t3vm/010006\"\nend 0\n")?;
//! let source = list(alloc, &image)?;
//! ```
#![tactic(auto)]

mod arguments;
mod blocks;
mod checks;
mod content;
mod draft;
mod entry;
mod form;
mod item;
mod labels;
mod laws;
mod level;
mod lines;
mod listing;
mod lists;
mod place;
mod pools;
mod refusal;
mod sizes;
mod source;
mod stage;
mod values;

pub use laws::{list_assembles, listed_lines_read, listing_formed, listing_satisfies, one_source};
pub use listing::list;
pub use refusal::{AsmRefusal, AsmWhy};
pub use source::assemble;
