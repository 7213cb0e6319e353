//! Saved states: the bytes of persistent objects and the next number, for one image.
//!
//! ```text
//! let bytes = encode(alloc, &state, &fingerprint, next)?;           // without what refers to what isn't there
//! let (state, next) = decode(alloc, &bytes, &fingerprint)?;         // that state, or why the bytes are none
//! ```
//!
//! A state's bytes are defined from the state to the bytes, and [`decode`] answers `Ok` exactly where bytes
//! spell a state for the image. Else it answers the first rule that they break ([`SnapshotRefusal`]), and how
//! many objects stand before the place where they break ([`SnapshotRefusal::Malformed`]).
//!
//! A [`StateBuilder`] makes a state of objects that come one after the other and may refer to later ones, as
//! [`decode`] does. [`state_text`] has the laws of the bytes, and [`savable_objects`] says which objects a
//! machine may keep so that they can always be saved: [`good_objects_can_be_saved`] says it of their holders, and
//! [`state_objects_are_good`] what is known of the objects of a state.
//!
//! docs/SAVED_STATE.md has the layout.
#![tactic(auto)]

mod adding;
mod append;
mod body;
mod builder;
mod decoding;
mod encoding;
mod envelope;
mod fields;
mod items;
mod laws;
mod named;
mod object;
mod read_error;
mod refusal;
mod saved_object;

pub use builder::StateBuilder;
pub use decoding::decode;
pub use encoding::{encode, encode_objects};
pub use laws::{
    HolderProperty, good_objects_can_be_saved, savable_objects, state_objects_are_good, state_text,
};
pub use refusal::SnapshotRefusal;
pub use saved_object::SavedObject;
