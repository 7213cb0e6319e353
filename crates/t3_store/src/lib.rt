//! Objects by their numbers: those that an image brings, and the store in which a run keeps them.
//!
//! An object is a tads-object, a string, a list, a vector or a table. A [`Persistent`] holds the objects of an image. A [`Store`] holds those of a run, in two halves: the
//! persistent ones, which a savepoint keeps, and the transient ones, which it doesn't:
//!
//! ```text
//! let none = Persistent::new(alloc);
//! let mut store = Store::start(alloc, limits, image, none, 71)?;
//! let object = store.create(NewObject::Tads { supers, class, props }, false)?; // number 71
//! store.savepoint();                                                // takes no memory
//! store.write(object, Cell::Prop(5), Some(Holder::Int(1)))?;        // a further property is a unit
//! store.overwrite(object, Cell::Prop(5), Holder::Int(2));           // one that is there takes no memory
//! store.replace_prop(object, 6, Holder::Int(2));                    // false: there is no property 6
//! store.undo();                                                     // true: property 5 is absent again
//! store.undo();                                                     // false: no savepoint is held
//! ```
//!
//! Contracts see finite maps from numbers to values, and each held savepoint as a whole copy of one. A store
//! has a limit for its objects and one for its units, which are what the objects count by their contents: a
//! call that would go past one answers `Full`, and changes nothing.
//!
//! A vector has no gap: an element is set up to one behind the last, and only the last is taken away. A table's
//! entries stand in the order in which they were added, also after an undo.
//!
//! Superclasses stay whole: those of a persistent object are persistent, and no walk over superclasses comes
//! back, whatever is made, changed and undone. [`Store::kind`] says so where a search needs it.
//!
//! A store lends its persistent objects, which takes no memory, or gives a copy of them, and takes a state in
//! their place:
//!
//! ```text
//! let object = store.persistent_objects().at(7);
//! let state = store.persistent_copy(alloc)?;
//! let next = store.next();
//! store.admits(&state);       // Fits, or Clash with a transient object's number, or Full
//! store.replace(state, next); // where it fits: all savepoints are given up, and transient objects stay
//! ```
//!
//! [`cell_law`] says of the definitions that a cell that was set stands so, and that all else is as before, and
//! [`invariant_law`] that what holds of each value goes on to hold.
#![tactic(auto)]

mod admit;
mod broken;
mod entries;
mod kind;
mod law;
mod limits;
mod new_object;
mod noting;
mod object;
mod object_at;
mod object_map;
mod objects_ref;
mod persistent;
mod store;
mod table_cells;
mod tidying;
mod unit_rows;
mod writing;

pub use admit::Admit;
pub use broken::Broken;
pub use kind::Kind;
pub use law::{ValueInvariant, cell_law, invariant_law};
pub use limits::{StoreLimits, StoreRefusal};
pub use new_object::NewObject;
pub use object_at::ObjectAt;
pub use objects_ref::ObjectsRef;
pub use persistent::Persistent;
pub use store::Store;
