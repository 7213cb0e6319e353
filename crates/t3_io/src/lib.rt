//! The outside of `t3`: files in a folder and a console, as traits, and what implements them.
//!
//! [`Depot`] and [`Console`] say what a device tells of itself and what each call does to it. The sure
//! devices, [`SureDepot`] and [`SureConsole`], keep all in memory and never fault. [`MemoryDepot`] and
//! [`MemoryConsole`] keep all in memory too, and fault at the calls that they are told to fail at, for
//! tests of what comes after a failure. [`FolderDepot`] and [`StdConsole`] are the real folder and the real
//! streams: they tell no content, so what a program promises of its devices rests, for them, on the premise
//! that the system gives and takes the true bytes.
//!
//! ```
//! let mut depot = MemoryDepot::new(alloc, &[1])?;      // its second call is to fail
//! depot.put(b"a", b"bytes")?;
//! let mut buf = [0; 3];
//! assert_eq!(depot.read_at(b"a", 2, &mut buf), Err(DeviceRefusal::Fault));
//! assert_eq!(depot.read_at(b"a", 2, &mut buf)?, Got::Count(3));
//! assert_eq!(&buf, b"tes");
//! ```
#![tactic(auto)]

mod console;
mod contents;
mod depot;
mod folder;
mod memory;
mod refusal;
mod schedule;
mod streams;
mod sure;

pub use console::Console;
pub use depot::{Depot, Got};
pub use folder::FolderDepot;
pub use memory::{MemoryConsole, MemoryDepot};
pub use refusal::DeviceRefusal;
pub use streams::StdConsole;
pub use sure::{SureConsole, SureDepot};
