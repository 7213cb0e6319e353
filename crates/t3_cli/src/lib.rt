//! What the program `t3` does: checks, shows, lists, runs, rewrites and assembles images of the T3 virtual
//! machine.
//!
//! All of it is [`t3_main`], which the program calls over the files of the present folder and the standard
//! streams. Over devices in memory it does the same:
//!
//! ```
//! let mut depot = SureDepot::new(alloc);
//! let mut console = SureConsole::new(alloc, b"")?;
//! let status = t3_main(alloc, &["check", "x.t3"], &mut depot, &mut console);      // as Strings
//! assert_eq!(status, Status::Absent);
//! assert_eq!(console.shown(), b"absent x.t3\n");
//! ```
#![tactic(auto)]

mod commands;
mod console;
mod images;
mod lines;
mod status;
mod story;
mod top;

pub use status::Status;
pub use top::{one_outcome, t3_main};
