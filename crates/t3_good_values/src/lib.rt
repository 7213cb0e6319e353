//! What holds of all values of a run, for any property of holders: what is kept where objects are made and
//! changed, where operations and methods answer, where an undo puts objects back, and where a state takes their
//! place.
//!
//! A run's values are a program's constants and static objects, and what is made of them. So a property that
//! nil, true, integers and references to objects have, and what a program holds, is had by all values of a run.
//! That no reference and no property has the number 0 is one such property, and a state can be saved for it.
//!
//! There is no code here: [`stores_stay_good`], [`operations_give_good_values`] and
//! [`methods_give_good_values`] are laws about what the definitions say.
#![tactic(auto)]

mod laws;

pub use laws::{methods_give_good_values, operations_give_good_values, stores_stay_good};
