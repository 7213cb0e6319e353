//! The methods of the kinds of objects, by their indices: what the machine calls where a property is found
//! in no object, and the image lists it as a method.
//!
//! ```text
//! method_at(Methods::List, 3)      // Some(Method::List(ListMethod::Sublist))
//! let args = [Holder::Int(2), Holder::Int(1)];
//! let found = listed_method(alloc, Methods::List, 3, list, &args, &mut store, &pools, &mut turns)?;
//! store.items(number)              // the second element alone, where `found` is `Holder::Obj(number)`
//! ```
//!
//! A method comes to a fault, or to creations and writes that are made one after the other, and then to an
//! answer. One function carries these out, up to the first for which the store has no room. Where a
//! method of texts speaks of characters, [`character_law`] says that they are those of UTF-8.
#![tactic(auto)]

mod deed;
mod law;
mod listed;
mod lists;
mod methods;
mod part;
mod root;
mod search;
mod tables;
mod tads;
mod texts;
mod vectors;

pub use law::{character_law, search_order};
pub use listed::listed_method;
pub use methods::{
    ListMethod, Method, Methods, RootMethod, TableMethod, TadsMethod, TextMethod, VectorMethod,
    is_listed, method_at,
};
pub use search::{Found, find_property, first_with, order};
