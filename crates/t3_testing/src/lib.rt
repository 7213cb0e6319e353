//! Images and sources of stories as bytes, and calls of the program with one over devices in
//! memory, for the crates of tests over `t3_cli`.
#![tactic(auto)]

mod builder;

pub use builder::{
    END, ENTRY, FUNCTIONS, METHOD, POOL, Row, SAYS_42, code_image, code_page, first_unlike,
    first_unlike_beside, image, lines, outcome, owned, played, shown_beside, story, written,
};
