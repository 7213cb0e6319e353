//! The listing of an image.
ghost use Rattle.std.specs.Prelude.{◌≡◌, ◌-◌, ◌^◌, ◌<◌, length, IfOk};
ghost use Rattle.t3_asm_line.specs.Lines.{lines_of};
ghost use Rattle.t3_holder.specs.NumberText.{AreBytes};
ghost use Rattle.t3_blocks.specs.Spelling.{name_of};
ghost use Rattle.t3_image_read.specs.Validity.{IsValid};
ghost use Rattle.t3_asm.specs.HasBytes.{BlockHasBytes, HasBytes};
ghost use Rattle.t3_asm.specs.Inner.Listed.{Lists};
ghost use Rattle.t3_asm.specs.Listing.{listing, lines_in};
ghost use Rattle.t3_asm.specs.Source.{Satisfies};

use crate::laws::listing_satisfies;
use crate::lines::{Lines, append, append_all, append_bytes, append_head, text};
use std::alloc::Global;
use t3_asm_line::{Keyword, Listed};
use t3_blocks::Block;
use t3_holder::NoMemory;
use t3_image_read::{Image, PlacedBlock};

/// The listing of an image: a source of one spelling, line by line in the image's order. It says exactly
/// that image, and has no more lines than `assemble` takes.
pub fn list(alloc: Global, image: &Image) -> Result<Vec<u8>, NoMemory>
    ensures listing { IfOk result (λ source. source.items ≡ listing image.now) }
    ensures satisfied { IfOk result (λ source. Satisfies source.items image.now) }
    ensures few_lines { IfOk result (λ source. length (lines_of source.items) < 2 ^ 32 - 1) }
{
    listing_satisfies();
    spell(alloc, image)
}

/// The lines of an image, whose names and texts are bytes.
#[tactic(auto, unfolding(crate::specs::Listing::listing, crate::specs::Listing::listed_lines))]
fn spell(alloc: Global, image: &Image) -> Result<Vec<u8>, NoMemory>
    ensures listing { IfOk result (λ source. source.items ≡ listing image.now) }
    ensures valid { IfOk result (λ _. IsValid image.now) }
    ensures bytes { IfOk result (λ _. HasBytes image.now) }
{
    let mut out = Vec::new(alloc);
    append_head(alloc, &image.head, &mut out)?;
    append_all(alloc, 0, &image.blocks.0, &mut out)?;
    let flags = Listed::Number(u32::from(image.eof_flags));
    append(alloc, Keyword::End, &[flags], &mut out)?;
    Ok(out)
}

impl Lines for PlacedBlock {
    ghost use Rattle.t3_asm.specs.HasBytes.{PlacedHasBytes};
    ghost use Rattle.t3_asm.specs.Listing.{block_lines};

    ghost lines = { λ _. block_lines };

    ghost has_bytes = { PlacedHasBytes };

    fn append(&self, alloc: Global, _size: u16, out: &mut Vec<u8>) -> Result<(), NoMemory> {
        let name = self.block.name();
        let arguments = [text(&name), Listed::Number(u32::from(self.flags))];
        append(alloc, Keyword::Block, &arguments, out)?;
        append_block(alloc, &self.block, out)
    }
}

/// Appends the lines of what a block has.
fn append_block(alloc: Global, block: &Block, out: &mut Vec<u8>) -> Result<(), NoMemory>
    ensures lines { Lists out.old.items out.new.items (lines_in block.now) result }
    ensures bytes { IfOk result (λ _. AreBytes (name_of block.now) → BlockHasBytes block.now) }
{
    match block {
        Block::Entry {
            code,
            method_size,
            exception_size,
            debug,
            tail,
        } => append(
            alloc,
            Keyword::Entry,
            &[
                Listed::Number(*code),
                Listed::Number(u32::from(*method_size)),
                Listed::Number(u32::from(*exception_size)),
                Listed::Number(u32::from(debug[0])),
                Listed::Number(u32::from(debug[1])),
                Listed::Number(u32::from(debug[2])),
                Listed::Number(u32::from(debug[3])),
                text(&tail.0),
            ],
            out,
        ),
        Block::Objects {
            metaclass,
            flags,
            objects,
        } => {
            let arguments = [
                Listed::Number(u32::from(*metaclass)),
                Listed::Number(u32::from(*flags)),
            ];
            append(alloc, Keyword::Objects, &arguments, out)?;
            append_all(alloc, 0, &objects.0, out)
        }
        Block::PoolDef { pool, count, size } => {
            let arguments = [
                Listed::Number(u32::from(*pool)),
                Listed::Number(*count),
                Listed::Number(*size),
            ];
            append(alloc, Keyword::Pool, &arguments, out)
        }
        Block::Page {
            pool,
            index,
            mask,
            bytes,
        } => {
            let arguments = [
                Listed::Number(u32::from(*pool)),
                Listed::Number(*index),
                Listed::Number(u32::from(*mask)),
            ];
            append(alloc, Keyword::Page, &arguments, out)?;
            append_bytes(alloc, bytes.as_slice(), out)
        }
        Block::Metas { metas } => append_all(alloc, 0, &metas.0, out),
        Block::Functions { names } => append_all(alloc, 0, &names.0, out),
        Block::Symbols { symbols } => append_all(alloc, 0, &symbols.0, out),
        Block::Opaque { bytes, .. } => append_bytes(alloc, &bytes.0, out),
    }
}
