ghost use Rattle.std.specs.Prelude.{◌≡◌};
ghost use Rattle.t3_undo.specs.Slots.{unstamped};

use crate::content::Content;

/// A cell's place: what stands there, and a stamp.
#[derive(Debug, Drop)]
pub struct Place {
    /// A number that tells which savepoints have a record of the cell.
    pub stamp: u64,
    pub content: Content,
}

impl Place {
    /// A place with stamp 0.
    pub fn unstamped(content: Content) -> Place
        ensures { result ≡ unstamped content }
    {
        Place { stamp: 0, content }
    }
}
