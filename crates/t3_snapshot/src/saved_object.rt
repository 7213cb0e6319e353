use t3_holder::Holder;
use t3_store::NewObject;
use t3_tables::Pair;

/// An object of a saved state.
#[derive(Debug, Drop)]
pub enum SavedObject {
    /// What is made at once.
    Made(NewObject),
    /// A table with its entries, the oldest first, and its default.
    Table { pairs: Vec<Pair>, default: Holder },
}
