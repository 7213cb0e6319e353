//! The pages of a drill's code.
ghost use Rattle.std.specs.Prelude.{◌≡◌, ◌^◌, ◌<◌, ◌*◌, ◌++◌, length, IfOk};
ghost use Rattle.t3_drill.specs.Drill.{page as page_of, page_count as page_count_of, page_size, pages};

use crate::front::mandatory;
use std::alloc::Global;
use t3_blocks::{Block, PageBytes};
use t3_holder::{Bytes, NoMemory};
use t3_image_read::PlacedBlock;

/// How many bytes a page has at most.
pub(crate) const PAGE_SIZE: usize = 4_096;

/// The number of the pool of code.
pub(crate) const CODE_POOL: u16 = 1;

/// How many pages some code takes.
pub(crate) fn page_count(code: &[u8]) -> u32
    requires { length code.now < 2 ^ 32 }
    ensures { result ≡ page_count_of code.now }
{
    code.len().div_ceil(PAGE_SIZE) as u32
}

/// Appends the pages of some code.
pub(crate) fn append_pages(
    alloc: Global,
    code: &[u8],
    blocks: &mut Vec<PlacedBlock>,
) -> Result<(), NoMemory>
    requires { length code.now < 2 ^ 32 }
    ensures { IfOk result (λ _. blocks.new.items ≡ blocks.old.items ++ pages code.now) }
{
    for index in 0..page_count(code) {
        blocks.push(page(alloc, code, index)?)?;
    }
    Ok(())
}

/// The page of a number.
fn page(alloc: Global, code: &[u8], index: u32) -> Result<PlacedBlock, NoMemory>
    requires { index * page_size < length code.now }
    ensures { IfOk result (λ page. page ≡ page_of code.now index) }
{
    let start = index as usize * PAGE_SIZE;
    let end = code.len().min(start + PAGE_SIZE);
    let bytes = Bytes(Vec::from_slice(alloc, &code[start..end])?);
    Ok(mandatory(Block::Page {
        pool: CODE_POOL,
        index,
        mask: 0,
        bytes: PageBytes::new(alloc, bytes)?,
    }))
}
