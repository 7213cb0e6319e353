//! Tads-objects: superclasses, whether the object is a class, and properties; and the order of an object
//! and its superclasses, in which a property is looked for.
//!
//! ```text
//! let mut object = TadsObject::new(alloc);
//! object.make_place(Cell::Prop(9))?;                          // takes memory, so that `put` takes none
//! object.put(&Cell::Prop(9), Content::Held(Holder::Int(1)));  // Content::Absent stood there
//! object.props(alloc)?;                                       // a list of the properties, by rising number
//! ```
//!
//! [`linear_order`] takes any view of objects that answers their superclasses ([`Supers`]), as long as no
//! walk over superclasses comes back; [`first_cyclic`] tells where one does. [`order_along_chain`] is the
//! law by which a search along single superclasses needs no list.
#![tactic(auto)]

mod cycles;
mod entries;
mod object;
mod order;
mod props;

pub use cycles::first_cyclic;
pub use object::TadsObject;
pub use order::{Supers, linear_order, one_order, order_along_chain, preorder_list};
pub use props::{PropValue, Props};
