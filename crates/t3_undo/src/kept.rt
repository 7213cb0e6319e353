use crate::cell::Cell;
use crate::content::Content;

/// What stood in a cell of an object before the cell was changed first since a savepoint.
#[derive(Debug, Drop)]
pub struct Kept {
    /// The object's number.
    pub number: u32,
    pub cell: Cell,
    pub old: Content,
    /// The stamp that the cell's place had before the change.
    pub stamp: u64,
}
