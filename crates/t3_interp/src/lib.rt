//! The machine that runs the code of a program.
//!
//! ```text
//! let program = load(alloc, &image, fingerprint, limits)?;
//! let mut machine = Machine::start(alloc, program)?;
//! while machine.wants() == Want::Go {
//!     let (next, event) = machine.step(Input::Go)?;
//!     machine = next;
//!     if let Event::Said(text) = event { .. }
//! }
//! ```
//!
//! [`Machine::go`] makes many steps in one call. What a step is is defined in `specs/`, apart from the code;
//! what a single instruction does, in `t3_frame_instructions` and `t3_object_instructions`. An instruction
//! that wants a line of input waits until it is given one.
#![tactic(auto)]

mod act;
mod answer;
mod decode_cache;
mod event;
mod header;
mod laws;
mod machine;
#[cfg(test)]
mod machine_tests;
mod quick;
mod running;
mod saving;
mod settle;
mod step;
mod superinstruction;

pub use event::{End, Event, Input, Want};
pub use laws::{one_cover, saved_states_are_taken, steps_stay_good, undo_takes_back};
pub use machine::Machine;
pub use t3_frame_instructions::CodeWhy;
pub use t3_kinds::search_order;
