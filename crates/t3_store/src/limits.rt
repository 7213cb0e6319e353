ghost use Rattle.std.specs.Prelude.{◌≡◌};
ghost use Rattle.t3_store.specs.Limits.{Wanting};

use t3_holder::NoMemory;
use thiserror::Error;

/// How much a store has room for, persistent and transient objects together, and its journal.
#[derive(Clone, Copy, Debug, PartialEq, Eq)]
pub struct StoreLimits {
    pub objects: u32,
    /// What objects count by their contents: a property, a superclass or an element is one, and so are each
    /// eight bytes of a string. An entry of a table is one besides the bytes of a text that is its key.
    pub units: u32,
    pub records: u32,
    pub savepoints: u32,
}

/// Why nothing was made or set.
#[derive(Clone, Copy, Debug, PartialEq, Eq, Error)]
pub enum StoreRefusal {
    /// There would be more objects or more units than the limits say, or no number is left.
    #[error("the store is full")]
    Full,
    #[error("out of memory")]
    NoMemory,
}

impl From<NoMemory> for StoreRefusal {
    ghost from_gives = { λ _ e. e ≡ Wanting };

    fn from(_error: NoMemory) -> StoreRefusal {
        StoreRefusal::NoMemory
    }
}
