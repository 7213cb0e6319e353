ghost use Rattle.std.specs.Prelude.{◌≡◌};
ghost use Rattle.t3_asm_line.specs.declared.refusal.LineRefusal.TheVariants.{NoMemory as Wanting};

use std::alloc::{AllocError, AllocFailed};
use t3_holder::NoMemory;
use thiserror::Error;

/// Why a line says nothing that an assembler can take.
#[derive(Clone, Copy, Debug, PartialEq, Eq, Hash, Error)]
pub enum LineRefusal {
    /// Its first word is unknown, or it has a word too few or too many.
    #[error("a word is unknown, missing or surplus")]
    Word,
    /// A word is no number, HEX, quoted text or label where one is due.
    #[error("a word isn't what is due in its place")]
    Number,
    /// A number is one that its field doesn't hold, or a text has another size than its field.
    #[error("a number or a length is out of range")]
    Range,
    /// An allocation was refused.
    #[error("out of memory")]
    NoMemory,
}

impl From<AllocError> for LineRefusal {
    ghost from_gives = { λ _ e. e ≡ Wanting };

    fn from(_error: AllocError) -> LineRefusal {
        LineRefusal::NoMemory
    }
}

impl<T: Drop> From<AllocFailed<T>> for LineRefusal {
    ghost from_gives = { λ _ e. e ≡ Wanting };

    fn from(_error: AllocFailed<T>) -> LineRefusal {
        LineRefusal::NoMemory
    }
}

impl From<NoMemory> for LineRefusal {
    ghost from_gives = { λ _ e. e ≡ Wanting };

    fn from(_error: NoMemory) -> LineRefusal {
        LineRefusal::NoMemory
    }
}
