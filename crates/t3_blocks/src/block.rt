ghost use Rattle.std.specs.Prelude.{◌≡◌, ◌≢◌, ℕ, ◌⊎◌, List, length};
ghost use Rattle.t3_holder.specs.NumberText.{AreBytes};
ghost use Rattle.t3_blocks.specs.BlockName.{end_name};
ghost use Rattle.t3_blocks.specs.Spelling.{Spells};
ghost use Rattle.t3_blocks.specs.Malformed.{IsMalformed};
ghost use Rattle.t3_blocks.specs.declared.block.Block.{Block as AnyBlock};

use crate::items::{Metas, Names, Statics, Symbols};
use crate::page_bytes::PageBytes;
use t3_holder::Bytes;

/// What a block says, apart from its flags. The layouts are those of the chapter on the image format.
#[derive(Debug, Drop)]
pub enum Block {
    /// `ENTP`: where the story begins, and the sizes of headers in its code.
    Entry {
        /// The code address of the first method.
        code: u32,
        /// How many bytes a method's header has.
        method_size: u16,
        /// How many bytes an entry of an exception table has.
        exception_size: u16,
        /// The sizes and the version of debug records.
        debug: [u16; 4],
        /// What follows is kept.
        tail: Bytes,
    },
    /// `OBJS`: objects of one metaclass.
    Objects {
        /// The index of the metaclass.
        metaclass: u16,
        /// Bit 0x0001 says that the sizes of the objects have four bytes and not two, bit 0x0002 that
        /// the objects are transient; the others are kept.
        flags: u16,
        objects: Statics,
    },
    /// `CPDF`: how many pages a pool has, and how many bytes a page has at most.
    PoolDef {
        pool: u16,
        count: u32,
        size: u32,
    },
    /// `CPPG`: a page of a pool. In the image each byte is exclusive-ored with the mask; here the bytes
    /// are those of the pool.
    Page {
        pool: u16,
        index: u32,
        mask: u8,
        bytes: PageBytes,
    },
    /// `MCLD`: the metaclasses, in the order of their indices.
    Metas {
        metas: Metas,
    },
    /// `FNSD`: the names of the sets of built-in functions, in the order of their indices.
    Functions {
        names: Names,
    },
    /// `SYMD`: names for data holders.
    Symbols {
        symbols: Symbols,
    },
    /// A block that is kept as bytes and passed on unread. Where a payload spells it, its name is that of
    /// no kind above, and isn't `EOF `.
    Opaque {
        name: [u8; 4],
        bytes: Bytes,
    },
}

impl Block {
    ghost use Rattle.std.specs.Prelude.{◌≡◌};
    ghost use Rattle.t3_blocks.specs.Spelling.{name_of};

    /// The name under which the block stands in an image.
    pub fn name(&self) -> [u8; 4]
        ensures { result ≡ name_of self.now }
    {
        match self {
            Block::Entry { .. } => *b"ENTP",
            Block::Objects { .. } => *b"OBJS",
            Block::PoolDef { .. } => *b"CPDF",
            Block::Page { .. } => *b"CPPG",
            Block::Metas { .. } => *b"MCLD",
            Block::Functions { .. } => *b"FNSD",
            Block::Symbols { .. } => *b"SYMD",
            Block::Opaque { name, .. } => *name,
        }
    }
}

/// A block has at most one name and one payload, and these spell no other block. Bytes under a name
/// spell a block, or are malformed after exactly so many items.
pub fn block_spelling()
    ensures one_payload { (block : AnyBlock) (m n p q : List ℕ) → Spells block m p
        → Spells block n q → (m ≡ n) × (p ≡ q) }
    ensures one_block { (a b : AnyBlock) (name payload : List ℕ) → Spells a name payload
        → Spells b name payload → a ≡ b }
    ensures some { (name payload : List ℕ) → length name ≡ 4 → name ≢ end_name → AreBytes payload
        → ((block : AnyBlock) × Spells block name payload)
        ⊎ ((items : ℕ) × IsMalformed name payload items) }
    ensures not_both { (block : AnyBlock) (name payload : List ℕ) (items : ℕ)
        → Spells block name payload → ¬ IsMalformed name payload items }
    ensures one_count { (name payload : List ℕ) (m n : ℕ) → IsMalformed name payload m
        → IsMalformed name payload n → m ≡ n }
{}
