//! What one instruction does to the method that it stands in: pushing, computing, comparing, jumping,
//! calling, and the variables of a method. Objects are only compared, added and made here, by the operations on values.
//!
//! ```text
//! let effect = math(alloc, &pools, &mut core, MathCode::Add)?;   // Quiet::Next
//! core.frames.top();                                             // the sum
//! ```
//!
//! An instruction changes a [`Core`] and answers an effect, which says how the run goes on. What it does is
//! defined as an action on what it sees, and [`Core`] keeps the frames of its callers out of its sight.
//!
//! What integers want is inlined into the loop of a run, and what may want memory stands apart from it. What that
//! answers is taken out and made anew, `Ok(others(..)?)`: handed on as it is, it would lie in memory, and with it
//! each effect in the loop.
#![tactic(auto)]

mod calling;
mod computing;
mod context;
mod effect;
mod jumping;
mod moving;
mod pushing;
mod relation;
mod variables;

pub use calling::ask_for_call;
pub use computing::{give, math, put, truth_value};
pub use context::Core;
pub use effect::{CodeWhy, Quiet};
pub use jumping::{jump, target_from};
pub use moving::stack;
pub use pushing::{push, push_value, pushed_value};
pub use relation::{Relation, TURN_LIMIT, related_numbers};
pub use variables::{
    add_number, add_popped, set_local, subtract_popped, take_argument, take_local,
};
