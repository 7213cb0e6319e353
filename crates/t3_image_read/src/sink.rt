//! What becomes of the blocks of an image that is read.
ghost use Rattle.std.specs.Prelude.{◌≡◌, [], ◌∷◌, ◌++◌, IfOk};

use crate::image::{Placed, PlacedBlock};
use t3_holder::NoMemory;

/// What a reader hands the blocks of an image to, one after the other in their order, each as soon as it
/// is whole.
pub trait BlockSink: Sized + Drop {
    ghost use Rattle.std.specs.Prelude.{List};
    ghost use Rattle.t3_image_read.specs.declared.image.PlacedBlock.{PlacedBlock};
    ghost use Rattle.t3_image_read.specs.Validity.{IsGood};

    /// Whether this is what a sink is that has taken these blocks.
    ghost has_taken: { Self → List PlacedBlock → Type 0 };

    /// Takes the next block. `NoMemory` where memory is wanting for it; after that nothing is known of the
    /// sink.
    fn take(&mut self, placed: PlacedBlock) -> Result<(), NoMemory>
        requires { IsGood placed }
        ensures { (blocks : List PlacedBlock) → has_taken self.old blocks
            → IfOk result (λ _. has_taken self.new (blocks ++ placed ∷ [])) };
}

/// Each block is kept.
impl BlockSink for Placed {
    ghost has_taken = { λ p blocks. p ≡ blocks };

    fn take(&mut self, placed: PlacedBlock) -> Result<(), NoMemory> {
        self.0.push(placed)?;
        Ok(())
    }
}

/// Lets each block go.
#[derive(Debug, Drop)]
pub struct Discard;

impl BlockSink for Discard {
    ghost has_taken = { λ _ _. Unit {0} };

    fn take(&mut self, _placed: PlacedBlock) -> Result<(), NoMemory> {
        Ok(())
    }
}
