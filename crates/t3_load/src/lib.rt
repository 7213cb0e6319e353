//! Makes a program of an image: its pools, its tables of metaclasses, function sets and symbols, and its objects.
//!
//! An image that breaks a rule is refused by the first that it breaks, in the order of [`LoadRefusal`]. Several
//! blocks of metaclasses, of function sets or of symbols are taken as one list, in the order of the image:
//!
//! ```text
//! let program = load(alloc, &image, fingerprint, limits)?;    // Err(LoadRefusal::Metaclass(1)): the second
//!                                                             // metaclass of the image isn't known
//! program.symbols.raw(b"mainWindow");                         // the first symbol of that name
//! Store::start(alloc, limits, program.first, program.passing, program.next)?
//! ```
#![tactic(auto)]

mod basis;
mod entry;
mod halves;
mod kinds;
mod laws;
mod listing;
mod names;
mod objects;
mod program;
mod refusal;
mod rows;
mod sets;
mod standing;
mod statics;
mod supers;
mod symbols;

pub use kinds::{KindEntry, Kinds, MetaKind, PropNumbers};
pub use laws::one_answer;
pub use program::{Program, load};
pub use refusal::LoadRefusal;
pub use sets::{SetKind, Sets};
pub use symbols::SymbolTable;
