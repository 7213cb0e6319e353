ghost use Rattle.std.specs.Prelude.{◌≡◌, ◌++◌, IfOk};
ghost use Rattle.std.specs.List.{flat_map, AllByRecursion};
ghost use Rattle.t3_blocks.specs.Inner.Appending.{Appends};
ghost use Rattle.t3_image_read.specs.ImageText.{block_text, text};
ghost use Rattle.t3_image_read.specs.Validity.{IsGood};

use crate::append::{append_end, append_head, append_placed};
use crate::size::text_size;
use std::alloc::Global;
use t3_holder::NoMemory;
use t3_image_read::{Image, Placed};

/// The bytes of an image, of which there are at most 268,435,456. An image that was read and not changed
/// gives the bytes that the reader used.
///
/// `NoMemory` where memory is wanting for them.
pub fn write_image(alloc: Global, image: &Image) -> Result<Vec<u8>, NoMemory>
    ensures { IfOk result (λ bytes. bytes.items ≡ text image.now) }
{
    let mut out = Vec::with_capacity(alloc, text_size(image))?;
    append_head(image.head, &mut out)?;
    append_blocks(&image.blocks, &mut out)?;
    append_end(image.eof_flags, &mut out)?;
    Ok(out)
}

/// Appends blocks one after the other.
fn append_blocks(blocks: &Placed, out: &mut Vec<u8>) -> Result<(), NoMemory>
    requires { AllByRecursion IsGood blocks.now }
    ensures { Appends out.old.items out.new.items (flat_map block_text blocks.now) result }
{
    for placed in &blocks.0 {
        append_placed(placed, out)?;
    }
    Ok(())
}
