//! What is done with the bytes of an image while it is read.
use sha2::{Digest, Sha256};

/// Takes the bytes of an image, piece by piece.
pub(crate) trait PieceSink {
    ghost use Rattle.std.specs.Prelude.{List, ℕ, ◌++◌};

    /// Whether this is what a sink is that has taken these bytes.
    ghost has_taken: { Self → List ℕ → Type 0 };

    /// Takes the next bytes.
    fn take(&mut self, piece: &[u8])
        ensures { (taken : List ℕ) → has_taken self.old taken
            → has_taken self.new (taken ++ piece.now) };
}

/// The bytes are digested.
impl PieceSink for Sha256 {
    ghost use Rattle.sha2.specs.Hashers.{Holds256};

    ghost has_taken = { Holds256 };

    fn take(&mut self, piece: &[u8]) {
        self.update(piece);
    }
}

/// Nothing is done with the bytes.
#[derive(Debug, Drop)]
pub(crate) struct NoDigest;

impl PieceSink for NoDigest {
    ghost has_taken = { λ _ _. Unit {0} };

    fn take(&mut self, _piece: &[u8]) {}
}
