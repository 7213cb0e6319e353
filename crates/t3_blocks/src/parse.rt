ghost use Rattle.std.specs.Prelude.{◌≡◌, ◌≢◌, ℕ, ◌≤◌, ◌⊎◌, ◌↔◌, false, length, IsTrue, IfOk, IsErrOf};
ghost use Rattle.t3_blocks.specs.BlockName.{HasKind, end_name, is_unknown_mandatory as is_refused};
ghost use Rattle.t3_blocks.specs.Spelling.{Spells, image_limit};
ghost use Rattle.t3_blocks.specs.Malformed.{IsMalformed};
ghost use Rattle.t3_blocks.specs.Parsing.{Gives, GivesEach, answer_of};
ghost use Rattle.t3_blocks.specs.declared.block.Block.{Block as AnyBlock};

use crate::block::Block;
use crate::functions::functions;
use crate::heads::{entry, page, pool_def};
use crate::kind::BlockKind;
use crate::metas::metas;
use crate::objects::objects;
use crate::refusal::{BlockRefusal, PayloadRefusal};
use crate::symbols::symbols;
use std::alloc::Global;
use t3_holder::Bytes;

/// The most bytes that an image has, and so a payload.
pub const IMAGE_LIMIT: u32 = 268_435_456;

/// The block that a payload spells under a name.
///
/// `UnknownMandatory` exactly where the name means nothing here and the flags have bit 0x0001. Else, want
/// of memory aside, the block where one has this payload under this name, and `Malformed` exactly where
/// none has. What is kept of the payload is copied.
pub fn parse_block(
    alloc: Global,
    name: [u8; 4],
    flags: u16,
    payload: &[u8],
) -> Result<Block, BlockRefusal>
    requires name { name ≢ end_name }
    requires size { length payload.now ≤ image_limit }
    ensures block { IfOk result (λ block. Spells block name payload.now) }
    ensures unknown { IsErrOf result BlockRefusal.UnknownMandatory ↔ IsTrue
        (is_refused name flags) }
    ensures malformed { (items : ℕ) → result ≡ Err (BlockRefusal.Malformed items)
        → IsMalformed name payload.now items }

    // The other direction of the block and of that refusal.
    ensures gives { (block : AnyBlock) → Spells block name payload.now
        → is_refused name flags ≡ false
        → (result ≡ Ok block) ⊎ (result ≡ Err BlockRefusal.NoMemory) }
    ensures refuses { (items : ℕ) → IsMalformed name payload.now items
        → (result ≡ Err (BlockRefusal.Malformed items)) ⊎ (result ≡ Err BlockRefusal.NoMemory) }
{
    let kind = BlockKind::of(name);
    if kind.is_unknown_mandatory(flags) {
        return Err(BlockRefusal::UnknownMandatory);
    }
    as_block_answer(payload_block(alloc, kind, name, payload))
}

/// The same answer of a call that looks at the flags too.
fn as_block_answer(answer: Result<Block, PayloadRefusal>) -> Result<Block, BlockRefusal>
    ensures { result ≡ answer_of answer }
{
    match answer {
        Ok(block) => Ok(block),
        Err(refusal) => Err(BlockRefusal::from(refusal)),
    }
}

/// The block that a payload spells under a name of this kind, which isn't refused by its flags. What is
/// kept of the payload is copied.
pub fn spelled_block(
    alloc: Global,
    kind: BlockKind,
    name: [u8; 4],
    payload: &[u8],
) -> Result<Block, PayloadRefusal>
    requires name { name ≢ end_name }
    requires kind { HasKind name kind }
    requires size { length payload.now ≤ image_limit }
    ensures gives { Gives name payload.now result }
    ensures gives_each { GivesEach name payload.now result }
{
    payload_block(alloc, kind, name, payload)
}

fn payload_block(
    alloc: Global,
    kind: BlockKind,
    name: [u8; 4],
    payload: &[u8],
) -> Result<Block, PayloadRefusal>
    requires name { name ≢ end_name }
    requires kind { HasKind name kind }
    ensures { Gives name payload.now result }
{
    match kind {
        BlockKind::Entry => entry(alloc, payload),
        BlockKind::Objects => objects(alloc, payload),
        BlockKind::PoolDef => pool_def(payload),
        BlockKind::Page => page(alloc, payload),
        BlockKind::Metas => metas(alloc, payload),
        BlockKind::Functions => functions(alloc, payload),
        BlockKind::Symbols => symbols(alloc, payload),
        BlockKind::Kept | BlockKind::End | BlockKind::Unknown => {
            let bytes = Bytes(Vec::from_slice(alloc, payload)?);
            Ok(Block::Opaque { name, bytes })
        }
    }
}

/// The same of a payload that is handed in, which isn't copied where the block is kept as bytes.
pub fn take_block(
    alloc: Global,
    kind: BlockKind,
    name: [u8; 4],
    payload: Bytes,
) -> Result<Block, PayloadRefusal>
    requires name { name ≢ end_name }
    requires kind { HasKind name kind }
    requires size { length payload ≤ image_limit }
    ensures gives { Gives name payload result }
    ensures gives_each { GivesEach name payload result }
{
    match kind {
        BlockKind::Kept | BlockKind::Unknown => Ok(Block::Opaque {
            name,
            bytes: payload,
        }),
        _ => payload_block(alloc, kind, name, &payload.0),
    }
}
