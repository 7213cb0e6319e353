//! Why reading stops.
ghost use Rattle.std.specs.Prelude.{◌≡◌};
ghost use Rattle.t3_snapshot.specs.declared.read_error.ReadError.TheVariants.{NoMemory as Wanting};

use std::alloc::{AllocError, AllocFailed};
use t3_holder::NoMemory;

/// Why nothing was read.
#[derive(Clone, Copy, Debug, PartialEq, Eq)]
pub enum ReadError {
    /// The bytes don't begin with what is to be read.
    Misspelled,
    /// An allocation was refused.
    NoMemory,
}

impl From<AllocError> for ReadError {
    ghost from_gives = { λ _ e. e ≡ Wanting };

    fn from(_error: AllocError) -> ReadError {
        ReadError::NoMemory
    }
}

impl<T: Drop> From<AllocFailed<T>> for ReadError {
    ghost from_gives = { λ _ e. e ≡ Wanting };

    fn from(_error: AllocFailed<T>) -> ReadError {
        ReadError::NoMemory
    }
}

impl From<NoMemory> for ReadError {
    ghost from_gives = { λ _ e. e ≡ Wanting };

    fn from(_error: NoMemory) -> ReadError {
        ReadError::NoMemory
    }
}
