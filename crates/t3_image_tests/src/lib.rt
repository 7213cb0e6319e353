//! Tests of `t3_image_read` and `t3_image_write`: images that are read in pieces, refused, and
//! written again.
#![tactic(auto)]

#[cfg(test)]
mod reading;
#[cfg(test)]
mod writing;
