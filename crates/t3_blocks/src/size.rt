//! How many bytes payloads have, without making them.
use crate::block::Block;
use crate::functions::NameLayout;
use crate::heads::{ENTRY_HEAD, PAGE_HEAD, POOL_DEF_SIZE};
use crate::layout::items_size;
use crate::metas::MetaLayout;
use crate::objects::{OBJECTS_HEAD, StaticLayout};
use crate::symbols::SymbolLayout;

/// How many bytes the count of a list has.
const COUNT_SIZE: usize = 2;

impl Block {
    ghost use Rattle.std.specs.Prelude.{◌≡◌, ◌^◌, ◌<◌, length};
    ghost use Rattle.t3_blocks.specs.Spelling.{IsSpellable, payload_of};

    /// How many bytes the payload has, of a block that some payload spells. It fits the field of four
    /// bytes in which it stands.
    #[tactic(auto, unfolding(crate::specs::Spelling::payload_of), using(crate::proofs::Sizes::length_entry, crate::proofs::Sizes::length_pool_def, crate::proofs::Sizes::length_page, crate::proofs::Sizes::length_functions, crate::proofs::Sizes::length_metas, crate::proofs::Sizes::length_objects, crate::proofs::Sizes::length_symbols))]
    pub fn payload_size(&self) -> u32
        requires spellable { IsSpellable self.now }
        requires fits { length (payload_of self.now) < 2 ^ 32 }
        ensures { result ≡ length (payload_of self.now) }
    {
        match self {
            Block::Entry { tail, .. } => (ENTRY_HEAD + tail.0.len()) as u32,
            Block::Objects { flags, objects, .. } => {
                (OBJECTS_HEAD + items_size(&StaticLayout { flags: *flags }, &objects.0)) as u32
            }
            Block::PoolDef { .. } => POOL_DEF_SIZE as u32,
            Block::Page { bytes, .. } => (PAGE_HEAD + bytes.as_slice().len()) as u32,
            Block::Metas { metas } => (COUNT_SIZE + items_size(&MetaLayout, &metas.0)) as u32,
            Block::Functions { names } => (COUNT_SIZE + items_size(&NameLayout, &names.0)) as u32,
            Block::Symbols { symbols } => {
                (COUNT_SIZE + items_size(&SymbolLayout, &symbols.0)) as u32
            }
            Block::Opaque { bytes, .. } => bytes.0.len() as u32,
        }
    }
}
