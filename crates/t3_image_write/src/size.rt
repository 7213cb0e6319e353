//! How many bytes an image has, before they are made.
ghost use Rattle.std.specs.Prelude.{◌≡◌, ◌^◌, ◌<◌, length};
ghost use Rattle.std.specs.List.{flat_map, AllByRecursion};
ghost use Rattle.t3_image_read.specs.ImageText.{block_text, text};
ghost use Rattle.t3_image_read.specs.Validity.{IsGood};

use t3_image_read::{HEAD_SIZE, HEADER_SIZE, Image, Placed};

/// How many bytes the text of an image has: at most 268,435,456.
pub fn text_size(image: &Image) -> usize
    ensures { result ≡ length (text image.now) }
{
    HEAD_SIZE + blocks_size(&image.blocks) + HEADER_SIZE
}

fn blocks_size(blocks: &Placed) -> usize
    requires good { AllByRecursion IsGood blocks.now }
    requires few { length (flat_map block_text blocks.now) < 2 ^ 32 }
    ensures { result ≡ length (flat_map block_text blocks.now) }
{
    let mut size = 0;
    for placed in &blocks.0 {
        size += placed.size();
    }
    size
}
