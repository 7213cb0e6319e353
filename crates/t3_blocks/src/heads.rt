//! The kinds of blocks that have a head alone.
ghost use Rattle.std.specs.Prelude.{◌≡◌, codes, IfOk};
ghost use Rattle.t3_blocks.specs.Parsing.{Gives};
ghost use Rattle.t3_blocks.specs.Spelling.{masked_bytes};

use crate::block::Block;
use crate::page_bytes::PageBytes;
use crate::refusal::PayloadRefusal;
use std::alloc::{AllocError, Global};
use t3_holder::{Bytes, u16_at, u32_at};

/// How many bytes an entry point has before its tail.
pub(crate) const ENTRY_HEAD: usize = 16;

/// How many bytes the definition of a pool has.
pub(crate) const POOL_DEF_SIZE: usize = 10;

/// How many bytes come before a page's own, the last of them its mask.
pub(crate) const PAGE_HEAD: usize = 7;

/// What a payload is refused by that has no items.
const NO_HEAD: PayloadRefusal = PayloadRefusal::Malformed { items: 0 };

/// A payload of `ENTP`: its head, and what follows it.
pub(crate) fn entry(alloc: Global, payload: &[u8]) -> Result<Block, PayloadRefusal>
    ensures { Gives (codes "ENTP") payload.now result }
{
    if payload.len() < ENTRY_HEAD {
        return Err(NO_HEAD);
    }
    Ok(Block::Entry {
        code: u32_at(payload, 0),
        method_size: u16_at(payload, 4),
        exception_size: u16_at(payload, 6),
        debug: [
            u16_at(payload, 8),
            u16_at(payload, 10),
            u16_at(payload, 12),
            u16_at(payload, 14),
        ],
        tail: Bytes(Vec::from_slice(alloc, &payload[ENTRY_HEAD..])?),
    })
}

/// A payload of `CPDF`: its head.
pub(crate) fn pool_def(payload: &[u8]) -> Result<Block, PayloadRefusal>
    ensures { Gives (codes "CPDF") payload.now result }
{
    if payload.len() != POOL_DEF_SIZE {
        return Err(NO_HEAD);
    }
    Ok(Block::PoolDef {
        pool: u16_at(payload, 0),
        count: u32_at(payload, 2),
        size: u32_at(payload, 6),
    })
}

/// A payload of `CPPG`: its head, and then the page's bytes under the mask.
pub(crate) fn page(alloc: Global, payload: &[u8]) -> Result<Block, PayloadRefusal>
    ensures { Gives (codes "CPPG") payload.now result }
{
    if payload.len() < PAGE_HEAD {
        return Err(NO_HEAD);
    }
    let mask = payload[PAGE_HEAD - 1];
    let page = unmasked(alloc, &payload[PAGE_HEAD..], mask)?;
    Ok(Block::Page {
        pool: u16_at(payload, 0),
        index: u32_at(payload, 2),
        mask,
        bytes: PageBytes::new(alloc, page)?,
    })
}

/// The bytes of a page, which lie under a mask.
fn unmasked(alloc: Global, bytes: &[u8], mask: u8) -> Result<Bytes, AllocError>
    ensures { IfOk result (λ page. page ≡ masked_bytes mask bytes.now) }
{
    Ok(Bytes(bytes.iter().map(|byte| *byte ^ mask).collect(alloc)?))
}
