//! Why a source makes no image.
ghost use Rattle.std.specs.Prelude.{◌≡◌};
ghost use Rattle.t3_asm.specs.declared.refusal.AsmWhy.TheVariants.{NoMemory as Wanting};
ghost use Rattle.t3_asm.specs.Refusals.{line_why};

use std::alloc::{AllocError, AllocFailed};
use t3_asm_line::LineRefusal;
use t3_holder::NoMemory;
use thiserror::Error;

/// The rule that a source breaks: one of form, which are tried on all lines first and in the order in
/// which they stand here up to `Order`, or one of values, which are `LabelMissing`, `Jump`, `Range` and
/// `TooLong`.
#[derive(Clone, Copy, Debug, PartialEq, Eq, Hash, Error)]
pub enum AsmWhy {
    /// A first word is unknown, or a word is missing or surplus.
    #[error("a word is unknown, missing or surplus")]
    Word,
    /// A word is no number, HEX, quoted text or label where one is due.
    #[error("a word isn't what is due in its place")]
    Number,
    /// A number, a length, a count or a size is one that its field doesn't hold.
    #[error("a number, a length, a count or a size is out of range")]
    Range,
    /// The label was put by an earlier line.
    #[error("a label is put twice")]
    LabelTwice,
    /// The line may not stand where it stands, or the source has no `end`.
    #[error("a line may not stand there")]
    Order,
    /// A label that is named is put by no line.
    #[error("a label is missing")]
    LabelMissing,
    /// The distance of a jump isn't from -32,768 to 32,767.
    #[error("a jump is too far")]
    Jump,
    /// The image would have more than 268,435,456 bytes, or more than 65,536 blocks with the end.
    #[error("the image is too long")]
    TooLong,
    /// An allocation was refused.
    #[error("out of memory")]
    NoMemory,
}

/// The line at which a source is refused, and why.
#[derive(Clone, Copy, Debug, PartialEq, Eq, Hash, Error)]
#[error("line {line}: {why}")]
pub struct AsmRefusal {
    /// The number of the line, counted from 1; 0 for want of memory.
    pub line: u32,
    pub why: AsmWhy,
}

impl From<LineRefusal> for AsmWhy {
    ghost from_gives = { λ refusal why. why ≡ line_why refusal };

    fn from(refusal: LineRefusal) -> AsmWhy {
        match refusal {
            LineRefusal::Word => AsmWhy::Word,
            LineRefusal::Number => AsmWhy::Number,
            LineRefusal::Range => AsmWhy::Range,
            LineRefusal::NoMemory => AsmWhy::NoMemory,
        }
    }
}

impl From<AllocError> for AsmWhy {
    ghost from_gives = { λ _ e. e ≡ Wanting };

    fn from(_error: AllocError) -> AsmWhy {
        AsmWhy::NoMemory
    }
}

impl<T: Drop> From<AllocFailed<T>> for AsmWhy {
    ghost from_gives = { λ _ e. e ≡ Wanting };

    fn from(_error: AllocFailed<T>) -> AsmWhy {
        AsmWhy::NoMemory
    }
}

impl From<NoMemory> for AsmWhy {
    ghost from_gives = { λ _ e. e ≡ Wanting };

    fn from(_error: NoMemory) -> AsmWhy {
        AsmWhy::NoMemory
    }
}
