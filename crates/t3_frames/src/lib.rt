//! The frames of a run: the methods that are carried out, each with its arguments, locals and operands.
//!
//! ```text
//! let mut frames = Frames::new(alloc)?;
//! frames.begin(method, 2, None, 0);     // a function without arguments, with two locals
//! frames.push(Holder::Int(1));
//! if frames.has_room(0, 3) {
//!     frames.enter(Call::function(callee, 1), 3, 0);
//!     frames.argument(0);               // Some(Holder::Int(1))
//!     frames.leave();
//! }
//! frames.pop();                         // None: a call takes its arguments
//! ```
//!
//! Contracts see the frames, the newest first, each with lists of values. All values lie on one stack,
//! whose room is taken at the start, so that no change wants memory.
#![tactic(auto)]

mod call;
mod frames;
mod mark;
mod stack;

pub use call::Call;
pub use frames::{FRAME_LIMIT, Frames, VALUE_LIMIT};
