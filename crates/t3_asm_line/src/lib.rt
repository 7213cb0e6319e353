//! One line of assembler source, read and spelled.
//!
//! A line is words, and the first of them says what the others are: it is a keyword of the table of
//! lines, or the name of an instruction. What a line says is its keyword and its arguments; else it
//! breaks the rule on words, on values or on ranges, the first of these.
//!
//! ```
//! let line = parse_line(alloc, b"pool 1 0x10 256 ; code")?.expect(&rt, "it has words");
//! assert_eq!(line.keyword, Keyword::Pool);
//! assert_eq!(parse_line(alloc, b"pool 1 0x10 x").err(), Some(LineRefusal::Number));
//! ```
//!
//! A listing spells each line in one way, and is read back as it was:
//!
//! ```text
//! let mut out = Vec::new(alloc);
//! let numbers = [Listed::Number(1), Listed::Number(16), Listed::Number(256)];
//! append_line(alloc, Keyword::Pool, &numbers, &mut out)?;    // pool 1 16 256
//! ```
#![tactic(auto)]

mod argument;
mod field;
mod hexadecimal;
mod instruction;
mod keyword;
mod labels;
mod laws;
mod line;
mod lines;
mod listing;
mod numbers;
mod quoted;
mod refusal;
mod value;
mod words;

pub use argument::{Argument, Arguments};
pub use field::{Field, Layout, Reference};
pub use keyword::Keyword;
pub use laws::lines_read;
pub use line::{ParsedLine, parse_line};
pub use lines::{lines_few, split_line};
pub use listing::{Listed, append_line};
pub use refusal::LineRefusal;
