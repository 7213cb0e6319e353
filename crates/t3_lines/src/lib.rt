//! The lines of a console's input, taken only when one is wanted.
//!
//! A line ends before a newline, and one carriage return right before it is dropped. Bytes after the last
//! newline are a line too. A line that isn't UTF-8 is given with `?` in place of each byte from 0x80 up. At
//! most 16,777,216 bytes are taken in all.
//!
//! ```text
//! let mut console = SureConsole::new(alloc, b"look\r\ntake l")?;
//! let mut lines = LineReader::new(alloc);
//! lines.next_line(&mut console)?;    // Line(b"look")
//! lines.next_line(&mut console)?;    // Line(b"take l")
//! lines.next_line(&mut console)?;    // EndOfInput
//! ```
#![tactic(auto)]

mod line;
mod reader;
mod taking;

pub use line::WantedLine;
pub use reader::{LineReader, one_input};
