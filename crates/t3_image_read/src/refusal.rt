ghost use Rattle.std.specs.Prelude.{◌≡◌};
ghost use Rattle.t3_image_read.specs.Numbers.{number_of};
ghost use Rattle.t3_image_read.specs.declared.refusal.ReadRefusal.TheVariants.{NoMemory as Wanting};

use std::alloc::{AllocError, AllocFailed};
use t3_holder::NoMemory;
use thiserror::Error;

/// The rule that a stream breaks.
#[derive(Clone, Copy, Debug, PartialEq, Eq, Hash, Error)]
pub enum ReadWhy {
    /// One of the first 11 bytes isn't that of the signature.
    #[error("the signature is another")]
    Signature,
    /// The two bytes of the version don't say 1.
    #[error("the version isn't 1")]
    Version,
    /// A block ends past the greatest image.
    #[error("the block ends past the greatest image")]
    TooLong,
    /// A block is one more than an image may have.
    #[error("the block is one too many")]
    TooMany,
    /// A block is mandatory, and its name means nothing here.
    #[error("the block is mandatory and unknown")]
    UnknownMandatory,
    /// The payload is whole, and no block has it under its name. So many of its items spell before one
    /// that doesn't, or before bytes that are left; 0 where the head is short, and for a block without
    /// items.
    #[error("the block's payload is malformed after {items} items")]
    Malformed { items: u32 },
    /// The end has a payload.
    #[error("the end has a payload")]
    EofSize,
    /// The stream ends before the header, or a block, is whole.
    #[error("the stream ends too early")]
    Truncated,
}

impl ReadWhy {
    /// The number of the rule.
    pub fn number(self) -> u8
        ensures { result ≡ number_of self }
    {
        match self {
            ReadWhy::Signature => 1,
            ReadWhy::Version => 2,
            ReadWhy::TooLong => 3,
            ReadWhy::TooMany => 4,
            ReadWhy::UnknownMandatory => 5,
            ReadWhy::Malformed { .. } => 6,
            ReadWhy::EofSize => 7,
            ReadWhy::Truncated => 8,
        }
    }
}

/// Why a reader gives no image.
#[derive(Clone, Copy, Debug, PartialEq, Eq, Hash, Error)]
pub enum ReadRefusal {
    /// A rule is broken by what stands after so many bytes.
    #[error("an image is refused at {place}: {why}")]
    At { place: u32, why: ReadWhy },
    /// An allocation was refused.
    #[error("out of memory")]
    NoMemory,
}

impl From<NoMemory> for ReadRefusal {
    ghost from_gives = { λ _ e. e ≡ Wanting };

    fn from(_error: NoMemory) -> ReadRefusal {
        ReadRefusal::NoMemory
    }
}

impl From<AllocError> for ReadRefusal {
    ghost from_gives = { λ _ e. e ≡ Wanting };

    fn from(_error: AllocError) -> ReadRefusal {
        ReadRefusal::NoMemory
    }
}

impl<T: Drop> From<AllocFailed<T>> for ReadRefusal {
    ghost from_gives = { λ _ e. e ≡ Wanting };

    fn from(_error: AllocFailed<T>) -> ReadRefusal {
        ReadRefusal::NoMemory
    }
}
