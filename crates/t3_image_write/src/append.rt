//! The parts of an image, appended to bytes.
ghost use Rattle.t3_blocks.specs.Inner.Appending.{Appends};
ghost use Rattle.t3_image_read.specs.ImageText.{head_text, header_text, block_text, end_header};
ghost use Rattle.t3_image_read.specs.Validity.{IsGood};

use t3_blocks::{END_NAME, append_block};
use t3_holder::{NoMemory, u16_bytes, u32_bytes};
use t3_image_read::{Head, PlacedBlock, SIGNATURE, VERSION};

/// Appends the 69 bytes of the header.
pub(crate) fn append_head(head: Head, out: &mut Vec<u8>) -> Result<(), NoMemory>
    ensures { Appends out.old.items out.new.items (head_text head) result }
{
    append_bytes(&SIGNATURE, out)?;
    append_bytes(&u16_bytes(VERSION), out)?;
    append_bytes(&head.reserved, out)?;
    append_bytes(&head.stamp, out)
}

/// Appends a block: its header, and its payload.
pub(crate) fn append_placed(placed: &PlacedBlock, out: &mut Vec<u8>) -> Result<(), NoMemory>
    requires { IsGood placed.now }
    ensures { Appends out.old.items out.new.items (block_text placed.now) result }
{
    let size = placed.block.payload_size();
    append_header(placed.block.name(), size, placed.flags, out)?;
    append_block(&placed.block, out)
}

/// Appends the block that ends an image.
pub(crate) fn append_end(flags: u16, out: &mut Vec<u8>) -> Result<(), NoMemory>
    ensures { Appends out.old.items out.new.items (header_text (end_header flags)) result }
{
    append_header(END_NAME, 0, flags, out)
}

/// Appends the 10 bytes before a payload.
fn append_header(name: [u8; 4], size: u32, flags: u16, out: &mut Vec<u8>) -> Result<(), NoMemory>
    ensures { Appends out.old.items out.new.items
        (header_text (record { name = name; size = size; flags = flags })) result }
{
    append_bytes(&name, out)?;
    append_bytes(&u32_bytes(size), out)?;
    append_bytes(&u16_bytes(flags), out)
}

fn append_bytes(bytes: &[u8], out: &mut Vec<u8>) -> Result<(), NoMemory>
    ensures { Appends out.old.items out.new.items bytes.now result }
{
    out.extend_from_slice(bytes)?;
    Ok(())
}
