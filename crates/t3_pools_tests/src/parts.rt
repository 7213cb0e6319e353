//! The parts of pools as data, and what is built of them.
use std::alloc::{AllocError, Global};
use std::test::Fail;
use t3_pools::{PoolRefusal, Pools};
use t3_test_images::{image, page, pool_definition};

/// A block of the pool of a number.
#[derive(Clone, Copy)]
pub(crate) enum Part {
    /// The page of an index, with these bytes.
    Page(u8, u32, &'static [u8]),
    /// So many pages, of this size.
    Definition(u8, u32, u32),
}

impl Part {
    fn block(self, alloc: Global) -> Result<Vec<u8>, AllocError> {
        match self {
            Part::Page(pool, index, bytes) => page(alloc, pool, index, bytes),
            Part::Definition(pool, count, size) => pool_definition(alloc, pool, count, size),
        }
    }
}

pub(crate) fn blocks(alloc: Global, parts: &[Part]) -> Result<Vec<Vec<u8>>, AllocError> {
    let mut blocks = Vec::new(alloc);
    for part in parts {
        blocks.push(part.block(alloc)?)?;
    }
    Ok(blocks)
}

/// What is built of an image of these blocks.
pub(crate) fn build(alloc: Global, blocks: &[Vec<u8>]) -> Result<Result<Pools, PoolRefusal>, Fail> {
    Ok(Pools::build(alloc, &image(alloc, blocks)?))
}

/// Why an image of these parts has no pools, if it has none.
pub(crate) fn refused(alloc: Global, parts: &[Part]) -> Result<Option<PoolRefusal>, Fail> {
    Ok(build(alloc, &blocks(alloc, parts)?)?.err())
}
