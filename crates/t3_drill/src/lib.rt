//! The image of a drill: so many actions on 64 objects, drawn from seeds, and then the sum of what is
//! left.
//!
//! The objects are numbered from 1, and the property 1 of each begins as the integer 0. An action sets
//! one of them to a number, makes a savepoint, or undoes. What a drill says at its end tells whether a
//! machine does all that right, and how long it takes tells its speed.
//!
//! ```
//! let image = drill_image(alloc, 1)?;
//! assert_eq!(drill_actions(1), 1_000);
//! ```
#![tactic(auto)]

mod actions;
mod code;
mod front;
mod image;
mod laws;
mod pages;
#[cfg(test)]
mod tests;

pub use actions::drill_actions;
pub use image::drill_image;
pub use laws::valid_drills;
