//! What the machine computes of values: arithmetic of integers, which values are true, whether two are
//! equal and in which order they are, sums, built-in functions, keys, elements by their index, and what new
//! objects are made of; and the faults that an operation can end in.
//!
//! ```
//! assert_eq!(arith(ArithOp::Mod, -7, 2), Ok(-1));
//! assert_eq!(arith(ArithOp::Div, 1, 0), Err(Fault::DivideByZero));
//! assert_eq!(Fault::DivideByZero.number(), 4);
//! assert!(!truth(Holder::Int(0)));
//! let mut turns = 65_536;
//! assert_eq!(equal(alloc, Holder::Text(0), string, &store, &pools, &mut turns), Ok(true));
//! assert_eq!(order(Holder::Int(1), Holder::Nil, &store, &pools), Err(Fault::Kind));
//! ```
#![tactic(auto)]

mod adding;
mod arithmetic;
mod builtins;
mod containers;
mod copying;
mod creating;
mod elements;
mod equality;
mod fault;
mod indexing;
mod keys;
mod ordering;
mod outcome;
mod saying;
mod truth_value;
mod values;

pub use adding::sum;
pub use arithmetic::{ArithOp, arith};
pub use builtins::{PureBuiltin, pure_at, pure_builtin};
pub use copying::{append_list, append_vector, text_bytes};
pub use creating::{new_list, new_string, new_table, new_vector};
pub use elements::set_element;
pub use equality::{EqualRefusal, equal};
pub use fault::Fault;
pub use indexing::{index, list_with_element, vector_index};
pub use keys::key;
pub use ordering::{kind_fault, order};
pub use outcome::{OpRefusal, count, fitting_list, fitting_text};
pub use saying::said_text;
pub use truth_value::truth;
pub use values::{
    ListItems, ListRef, TextBytes, TextOrListRef, TextRef, same_holder, text_or_list,
};
