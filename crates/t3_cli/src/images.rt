//! Images that are read, assembled or made, shown, and written.

pub(crate) mod image_lines;
pub(crate) mod made;
pub(crate) mod no_image;
pub(crate) mod put;
pub(crate) mod read;
pub(crate) mod rewrite;
pub(crate) mod sink;
pub(crate) mod source;
