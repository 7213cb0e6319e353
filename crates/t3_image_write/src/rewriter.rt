//! Writes an image anew while it is read, so that its blocks needn't be kept for it.
ghost use Rattle.std.specs.Prelude.{◌≡◌, ◌≤◌, [], ◌++◌, length, drop, IfOk};
ghost use Rattle.t3_image_read.specs.ImageText.{ImageValue, text};
ghost use Rattle.t3_image_read.specs.Reader.{AreParts};
ghost use Rattle.t3_image_read.specs.Validity.{IsGood};
ghost use Rattle.t3_image_write.specs.Masks.{remask_placed_of, masked_placed as masked_placed_of, masked_image};
ghost use Rattle.t3_image_write.specs.Rewriting.{HasRewritten};

use crate::append::{append_end, append_head, append_placed};
use crate::masking::remask_block;
use std::alloc::Global;
use std::marker::{Brand, Model, PhantomData};
use t3_holder::NoMemory;
use t3_image_read::{BlockSink, HEAD_SIZE, ImageParts, PlacedBlock};

/// Under which mask pages are written: one for all, or where there is none each under its own.
///
/// It is for contracts alone. A function that is generic over it takes the mask beside it; whoever calls that
/// function at `Brand` picks the member `mask` in its `Invariants.antt`, from the call's argument.
pub trait Masking {
    ghost use Rattle.std.specs.Prelude.{Option, ℕ};

    ghost mask: { Option ℕ };
}

impl Masking for Brand {
    ghost use Rattle.std.specs.Prelude.{None};

    ghost mask = { None };
}

/// A sink that writes the blocks of an image anew, under the mask of `M`. Contracts see what it has written.
#[derive(Drop)]
pub struct Rewriter<M: Masking> {
    mask: Option<u8>,
    /// Room for the header, and behind it what is written of the blocks.
    out: Vec<u8>,
    of: PhantomData<M>,
}

impl<M: Masking> Model for Rewriter<M> {
    ghost use Rattle.std.specs.Prelude.{◌≡◌, ◌≤◌, ℕ, List, length, drop};

    ghost Value = { List ℕ };

    ghost view = { λ r. drop 69 r.out.items };

    ghost invariant = { λ r. (69 ≤ length r.out.items) × (r.mask ≡ M.mask) };
}

impl<M: Masking> Rewriter<M> {
    /// A sink that has taken no block. The mask is that of `M`: `None` leaves each page under its own.
    ///
    /// `NoMemory` where memory is wanting for the header's room.
    pub fn new(alloc: Global, mask: Option<u8>) -> Result<Rewriter<M>, NoMemory>
        requires { mask ≡ M.mask }
        ensures { IfOk result (λ rewriter. rewriter ≡ []) }
    {
        Ok(Rewriter {
            mask,
            out: Vec::from_slice(alloc, &[0; HEAD_SIZE])?,
            of: PhantomData,
        })
    }

    /// What was written, behind the header's room.
    fn into_out(self) -> Vec<u8>
        ensures room { 69 ≤ length result.items }
        ensures written { drop 69 result.items ≡ self }
    {
        self.out
    }
}

impl<M: Masking> BlockSink for Rewriter<M> {
    ghost has_taken = { λ written blocks. HasRewritten M.mask written blocks };

    fn take(&mut self, placed: PlacedBlock) -> Result<(), NoMemory> {
        let placed = masked_placed(placed, self.mask);
        append_placed(&placed, &mut self.out)
    }
}

/// The bytes of the image whose parts these are, with its pages under the mask of `M`.
///
/// `NoMemory` where memory is wanting for the header or the end.
pub fn rewritten_text<M: Masking>(
    alloc: Global,
    parts: ImageParts<Rewriter<M>>,
) -> Result<Vec<u8>, NoMemory>
    requires { (image : ImageValue) × AreParts (HasRewritten M.mask) image parts }
    ensures { (image : ImageValue) → AreParts (HasRewritten M.mask) image parts
        → IfOk result (λ bytes. bytes.items ≡ text (masked_image M.mask image)) }
{
    let mut head = Vec::with_capacity(alloc, HEAD_SIZE)?;
    append_head(parts.head, &mut head)?;
    let mut out = parts.sink.into_out();
    set_first(&mut out, &head);
    append_end(parts.eof_flags, &mut out)?;
    Ok(out)
}

/// Sets the first bytes, as many as there are of these.
fn set_first(out: &mut [u8], first: &[u8])
    requires { length first.now ≤ length out.old }
    ensures { out.new ≡ first.now ++ drop (length first.now) out.old }
{
    out[..first.len()].copy_from_slice(first);
}

/// The block with its page under the mask, where one is given.
fn masked_placed(placed: PlacedBlock, mask: Option<u8>) -> PlacedBlock
    requires { IsGood placed }
    ensures is { result ≡ masked_placed_of mask placed }
    ensures good { IsGood result }
{
    match mask {
        Some(mask) => remask_placed(placed, mask),
        None => placed,
    }
}

/// The block with its page under the mask.
fn remask_placed(mut placed: PlacedBlock, mask: u8) -> PlacedBlock
    requires { IsGood placed }
    ensures is { result ≡ remask_placed_of mask placed }
    ensures good { IsGood result }
{
    remask_block(&mut placed.block, mask);
    placed
}
