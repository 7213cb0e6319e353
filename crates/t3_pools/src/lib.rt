//! The pools of an image: the code and the constants, by their addresses.
//!
//! ```text
//! let pools = Pools::build(alloc, &image)?;
//! assert_eq!(pools.byte(1, 0), Some(84));
//! assert_eq!(pools.run(1, 1), [242, 255].as_slice());
//! assert_eq!(pools.byte(1, 3), None);
//! // Of constants: the address of a text's first byte and its length.
//! assert_eq!(pools.text_at(0), Some((2, 5)));
//! ```
//!
//! The test `the_example_of_the_first_page` of `t3_pools_tests` runs this on an image of one page of
//! code and one of constants.
#![tactic(auto)]

mod constants;
mod definitions;
mod laws;
mod page_size;
mod paged;
mod pages;
mod pools;
mod refusal;
mod sheets;

pub use laws::{constant_holder, constant_list, constant_text};
pub use pools::Pools;
pub use refusal::PoolRefusal;
