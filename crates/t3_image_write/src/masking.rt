ghost use Rattle.std.specs.Prelude.{◌≡◌, map};
ghost use Rattle.t3_image_write.specs.Masks.{remask_block_of, remask_placed_of, remask_of};

use t3_blocks::Block;
use t3_image_read::{Image, Placed};

/// Puts every page of an image under a mask. Nothing else changes, the bytes of the pages neither, which
/// are those of the pool. It takes no memory.
pub fn remask(image: &mut Image, mask: u8)
    ensures { image.new ≡ remask_of mask image.old }
{
    remask_blocks(&mut image.blocks, mask);
}

fn remask_blocks(blocks: &mut Placed, mask: u8)
    ensures { blocks.new ≡ map (remask_placed_of mask) blocks.old }
{
    for placed in blocks.0.iter_mut() {
        remask_block(&mut placed.block, mask);
    }
}

pub(crate) fn remask_block(block: &mut Block, mask: u8)
    ensures { block.new ≡ remask_block_of mask block.old }
{
    if let Block::Page { mask: own, .. } = block {
        *own = mask;
    }
}
