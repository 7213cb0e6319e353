//! The page: text that is said in pieces, laid out on lines of a width.
//!
//! ```text
//! let mut page = Page::new(alloc, 10);
//! page.say(b"the quick bro", &mut out)?;    // out: "the quick"
//! page.say(b"wn fox", &mut out)?;           // out: "the quick\nbrown"
//! page.close(&mut out)?;                    // out: "the quick\nbrown fox\n"
//! ```
#![tactic(auto)]

mod laws;
mod page;
mod words;

pub use laws::one_rendering;
pub use page::Page;
