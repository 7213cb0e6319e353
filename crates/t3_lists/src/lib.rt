//! Strings, lists and vectors, as kinds of objects whose changes can be put back.
//!
//! A [`Text`] and a [`List`] never change, and have no cells. A [`Vector`] has its elements as cells, from
//! number 1 on, and each takes the place that the next greater one stands on:
//!
//! ```text
//! let mut vector = Vector::new(alloc);
//! vector.make_place(Cell::Elem(1))?;                          // the one step that takes memory
//! vector.put(&Cell::Elem(1), Content::Held(Holder::Int(5)));  // Content::Absent stood there
//! vector.length();                                            // 1
//! ```
//!
//! Where old contents are put back one after another, elements may be missing below others in between. Where
//! none is, [`item_law`] says what each change does to the items.
#![tactic(auto)]

mod elements;
mod holders;
mod law;
mod list;
mod text;
mod vector;

pub use holders::Holders;
pub use law::item_law;
pub use list::List;
pub use text::Text;
pub use vector::Vector;
