//! What can be set of an object, what stands there, and how changes are put back.
//!
//! A [`Cell`] is what can be set, and a [`Content`] what stands there. A [`Metaclass`] is a kind of object:
//! [`Metaclass::put`] takes no memory and hands out what stood in the cell, so that it can be put back.
//! [`Slots`] do this once for all kinds that keep their cells in a hashed map. A [`Journal`] keeps, for each
//! savepoint, what stood in each cell that was changed since, in memory that is taken at its start:
//!
//! ```text
//! let mut journal = Journal::start(alloc, 2, 128)?;           // two records, 128 savepoints
//! journal.mark(2);                                            // a savepoint: the next object is number 2
//! journal.note(1, Cell::Prop(1), Content::Held(Holder::Nil)); // property 1 of object 1 was nil
//! journal.note(1, Cell::Prop(1), Content::Held(Holder::True));// has a record already: nothing
//! journal.records();                                          // 1
//! ```
//!
//! [`undo_law`] says that this is as good as a whole copy of all objects at each savepoint. Where the places of
//! cells carry stamps, [`Journal::note_fresh`] takes the place of `note` and needs no search: [`stamp_law`] says
//! that a stamp tells whether the newest savepoint has a record of the cell.
#![tactic(auto)]

mod cell;
mod content;
mod journal;
mod kept;
mod key;
mod key_order;
mod law;
mod mark;
mod metaclass;
mod newest;
mod numbers;
mod optional_holder;
mod place;
mod rings;
mod slots;
mod stamped_value;

pub use cell::Cell;
pub use content::Content;
pub use journal::Journal;
pub use kept::Kept;
pub use key::Key;
pub use law::{stamp_law, undo_law};
pub use metaclass::Metaclass;
pub use numbers::Numbers;
pub use place::Place;
pub use slots::Slots;
pub use stamped_value::StampedValue;
