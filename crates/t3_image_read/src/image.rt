use crate::header::HEADER_SIZE;
use std::marker::Model;
use t3_blocks::Block;

/// What stands in an image's header besides its signature and version. Both are kept as they are.
#[derive(Clone, Copy, Debug, PartialEq, Eq, Hash)]
pub struct Head {
    /// 32 reserved bytes.
    pub reserved: [u8; 32],
    /// The time at which the image was made, 24 bytes.
    pub stamp: [u8; 24],
}

/// A block with its flags. Bit 0x0001 says that a reader may not skip it; the others are kept.
#[derive(Debug, Drop)]
pub struct PlacedBlock {
    pub flags: u16,
    pub block: Block,
}

impl PlacedBlock {
    ghost use Rattle.std.specs.Prelude.{◌≡◌, length};
    ghost use Rattle.t3_image_read.specs.ImageText.{block_text};
    ghost use Rattle.t3_image_read.specs.Validity.{IsGood};

    /// How many bytes the block has in an image, its header among them.
    pub fn size(&self) -> usize
        requires { IsGood self.now }
        ensures { result ≡ length (block_text self.now) }
    {
        HEADER_SIZE + self.block.payload_size() as usize
    }
}

/// The blocks of an image in order, without the one that ends it. Contracts see the list.
#[derive(Debug, Drop)]
pub struct Placed(pub Vec<PlacedBlock>);

impl Model for Placed {
    ghost use Rattle.std.specs.Prelude.{List};
    ghost use Rattle.t3_image_read.specs.declared.image.PlacedBlock.{PlacedBlock};

    ghost Value = { List PlacedBlock };

    ghost view = { λ p. p.0.items };
}

/// An image, which is always valid: each block is spelled by some payload, none that is mandatory has
/// a name without meaning, there are at most 65,535 besides the end, and the text of all has at most
/// 268,435,456 bytes.
#[derive(Debug, Drop)]
pub struct Image {
    pub head: Head,
    pub blocks: Placed,
    /// The flags of the block `EOF `.
    pub eof_flags: u16,
}

impl Model for Image {
    ghost use Rattle.t3_image_read.specs.ImageText.{ImageValue};
    ghost use Rattle.t3_image_read.specs.Validity.{IsValid};

    ghost Value = { ImageValue };

    ghost view = { λ i. record { head = i.head; blocks = i.blocks; eof_flags = i.eof_flags } };

    ghost invariant = { λ i. IsValid (record { head = i.head; blocks = i.blocks; eof_flags = i.eof_flags }) };
}
