//! Carries out a program over files and a console: shows what it says on lines of a width, gives it lines of input
//! and files when it wants them, puts its saved states, and shows how the run stopped.
//!
//! ```text
//! let end = run(alloc, program, 100_000_000, 79, &mut depot, &mut console)?;
//! end.stop;                                                         // Stop::Ends(End::Returned)
//! console.shown();                                                  // b"Cave\n>"
//! ```
//!
//! What a run does is defined apart from the code, as a list of acts: a text is shown, a file is put, or a line
//! of input is wanted. No input is taken unless a line is wanted, and all that comes before is shown first.
#![tactic(auto)]

mod end_lines;
mod play;
mod refusal;
mod screen;
mod showing;
mod stop;
mod turn;

pub use play::run;
pub use refusal::RunRefusal;
pub use showing::show;
pub use stop::{RunEnd, Stop};
