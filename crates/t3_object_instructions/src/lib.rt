//! What one instruction does to objects: evaluating and setting properties, elements and entries, inheriting,
//! calling, creating, saying, throwing, built-in functions, and the methods of metaclasses.
//!
//! ```text
//! let effect = call(alloc, &program, &mut core, CallCode::Getprop(4))?;   // Quiet::Next
//! core.register;                                                         // the property's value
//! ```
//!
//! Each is defined as an action on what an instruction sees, as are those of `t3_frame_instructions`.
#![tactic(auto)]

mod builtin;
mod calling;
mod create;
mod effect;
mod evaluate;
mod exceptions;
mod file_name;
mod inherit;
mod item;
mod listed;
mod making;
mod methods;
mod saved_states;
mod savepoints;
mod saying;
mod search;
mod set;
mod symbols;
mod values;
mod variables;

pub use calling::call;
pub use effect::MakeEffect;
pub use exceptions::{classes_of, exception};
pub use making::make;
pub use variables::local;
