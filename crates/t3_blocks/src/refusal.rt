ghost use Rattle.std.specs.Prelude.{◌≡◌};
ghost use Rattle.t3_blocks.specs.Parsing.{refusal_of};
ghost use Rattle.t3_blocks.specs.declared.refusal.PayloadRefusal.TheVariants.{NoMemory as Wanting};

use std::alloc::{AllocError, AllocFailed};
use t3_holder::NoMemory;
use thiserror::Error;

/// Why a payload gives no block.
#[derive(Clone, Copy, Debug, PartialEq, Eq, Hash, Error)]
pub enum PayloadRefusal {
    /// The payload spells no block of its kind. So many of its items spell before one that doesn't, or
    /// before bytes that are left; 0 where the head is short, and for a kind without items.
    #[error("a block's payload is malformed after {items} items")]
    Malformed { items: u32 },
    /// An allocation was refused.
    #[error("out of memory")]
    NoMemory,
}

/// Why a name, flags and a payload give no block.
#[derive(Clone, Copy, Debug, PartialEq, Eq, Hash, Error)]
pub enum BlockRefusal {
    /// The name means nothing here, and the block is marked mandatory.
    #[error("an unknown block is mandatory")]
    UnknownMandatory,
    /// The payload spells no block of its kind. So many of its items spell before one that doesn't, or
    /// before bytes that are left; 0 where the head is short, and for a kind without items.
    #[error("a block's payload is malformed after {items} items")]
    Malformed { items: u32 },
    /// An allocation was refused.
    #[error("out of memory")]
    NoMemory,
}

impl From<AllocError> for PayloadRefusal {
    ghost from_gives = { λ _ e. e ≡ Wanting };

    fn from(_error: AllocError) -> PayloadRefusal {
        PayloadRefusal::NoMemory
    }
}

impl<T: Drop> From<AllocFailed<T>> for PayloadRefusal {
    ghost from_gives = { λ _ e. e ≡ Wanting };

    fn from(_error: AllocFailed<T>) -> PayloadRefusal {
        PayloadRefusal::NoMemory
    }
}

impl From<NoMemory> for PayloadRefusal {
    ghost from_gives = { λ _ e. e ≡ Wanting };

    fn from(_error: NoMemory) -> PayloadRefusal {
        PayloadRefusal::NoMemory
    }
}

impl From<PayloadRefusal> for BlockRefusal {
    ghost from_gives = { λ refusal e. e ≡ refusal_of refusal };

    fn from(refusal: PayloadRefusal) -> BlockRefusal {
        match refusal {
            PayloadRefusal::Malformed { items } => BlockRefusal::Malformed { items },
            PayloadRefusal::NoMemory => BlockRefusal::NoMemory,
        }
    }
}
