//! The bytes of a page, which an image and its pools have together.
ghost use Rattle.std.specs.Prelude.{◌≡◌, IfOk};

use std::alloc::{AllocError, Global};
use std::marker::Model;
use std::rc::Rc;
use t3_holder::Bytes;

/// The bytes of a page, without the mask. All that share them have them at one place in memory.
/// Contracts see the bytes.
#[derive(Debug, Drop)]
pub struct PageBytes(Rc<Bytes>);

impl Model for PageBytes {
    ghost use Rattle.std.specs.Prelude.{List, ℕ};

    ghost Value = { List ℕ };

    ghost view = { λ b. b.0.value };
}

impl PageBytes {
    /// These bytes, which aren't copied. `AllocError` comes for want of memory for the count of
    /// those that share them.
    pub fn new(alloc: Global, bytes: Bytes) -> Result<PageBytes, AllocError>
        ensures { IfOk result (λ shared. shared ≡ bytes) }
    {
        match Rc::new(alloc, bytes) {
            Ok(shared) => Ok(PageBytes(shared)),
            Err(_) => Err(AllocError),
        }
    }

    /// The same bytes for one more that has them. They aren't copied, and no memory is taken.
    /// `AllocError` comes when the count of those that share them can't get larger.
    pub fn share(&self) -> Result<PageBytes, AllocError>
        ensures { IfOk result (λ shared. shared ≡ self.now) }
    {
        Ok(PageBytes(self.0.clone()?))
    }

    /// The bytes.
    #[inline(always)]
    pub fn as_slice(&self) -> &[u8]
        ensures { result.now ≡ self.now }
    {
        &self.0.as_ref().0
    }
}
