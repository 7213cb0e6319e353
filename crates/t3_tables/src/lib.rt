//! Tables, as kinds of objects whose changes can be put back.
//!
//! A [`Table`] has entries under keys, and a default. Its cells have no order; an entry's tick says when it
//! was added, and [`Table::entries`] gives the entries by their ticks:
//!
//! ```text
//! let mut table = Table::new(alloc);
//! let cell = Cell::Key(Key::Int(7));
//! table.make_place(cell.copy(alloc)?)?;                                     // the one step that takes memory
//! table.put(&cell, Content::Slot(table.next_tick(), Holder::True));         // Content::Absent stood there
//! table.entries(alloc)?;                                                    // 7 with true
//! ```
//!
//! A key that is taken away and set again gets a new tick, and so comes last. Where its old content is put
//! back, the tick is the old one, and the entry stands where it stood. [`entry_order`] says so.
#![tactic(auto)]

mod cells;
mod law;
mod ordered;
mod pair;
mod table;

pub use law::entry_order;
pub use pair::{Entries, Pair};
pub use table::Table;
