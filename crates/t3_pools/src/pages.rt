//! The pages of both pools in their order, or the first rule on pages that one of them breaks.
ghost use Rattle.std.specs.Prelude.{IfOk};
ghost use Rattle.t3_pools.specs.Pool.{said_of};
ghost use Rattle.t3_pools.specs.Inner.Gathering.{LaysOut, FindsPages, IsEarlier, Joins, Gathers};

use crate::definitions::{CODE, CONSTANTS, Layout, layouts};
use crate::refusal::{PageRule, PoolRefusal};
use crate::sheets::{has_far, has_long, in_order, sheets_of, sorted};
use std::alloc::{AllocError, Global};
use t3_blocks::PageBytes;
use t3_image_read::PlacedBlock;

/// The pages of a pool by their indices, none of them longer than the page size.
#[derive(Debug, Drop)]
pub(crate) struct PoolPages<'b> {
    pub(crate) size: u32,
    pub(crate) pages: Vec<&'b PageBytes>,
}

/// The pages of the code and of the constants, or the first rule that the blocks break.
pub(crate) fn gathered(
    alloc: Global,
    blocks: &[PlacedBlock],
) -> Result<(PoolPages<'_>, PoolPages<'_>), PoolRefusal>
    ensures { Gathers blocks.now result }
{
    let (code, constants) = layouts(blocks)?;
    let code = pages_of(alloc, blocks, CODE, code)?;
    let constants = pages_of(alloc, blocks, CONSTANTS, constants)?;
    Ok(both(code, constants)?)
}

/// Those of both pools, or the earlier of the rules that they break.
fn both<'b>(
    code: Result<PoolPages<'b>, PageRule>,
    constants: Result<PoolPages<'b>, PageRule>,
) -> Result<(PoolPages<'b>, PoolPages<'b>), PageRule>
    ensures { Joins code.entry constants.entry result }
{
    match (code, constants) {
        (Ok(code), Ok(constants)) => Ok((code, constants)),
        (Err(rule), Ok(_)) | (Ok(_), Err(rule)) => Err(rule),
        (Err(rule), Err(other)) => Err(earlier(rule, other)),
    }
}

fn earlier(rule: PageRule, other: PageRule) -> PageRule
    ensures { IsEarlier rule other result }
{
    if (other as u8) < rule as u8 {
        other
    } else {
        rule
    }
}

/// The pages of the pool of a number, or the first rule on pages that it breaks.
fn pages_of<'b>(
    alloc: Global,
    blocks: &'b [PlacedBlock],
    number: u16,
    layout: Layout,
) -> Result<Result<PoolPages<'b>, PageRule>, AllocError>
    requires { LaysOut (said_of number blocks.now) layout }
    ensures { IfOk result (λ found. FindsPages (said_of number blocks.now) found) }
{
    let sheets = sheets_of(alloc, blocks, number)?;
    if has_far(&sheets, layout.count) {
        return Ok(Err(PageRule::Index));
    }
    let sorted = match sorted(alloc, &sheets)? {
        Some(sorted) => sorted,
        None => return Ok(Err(PageRule::Twice)),
    };
    let pages = match in_order(alloc, &sorted, layout.count)? {
        Some(pages) => pages,
        None => return Ok(Err(PageRule::Missing)),
    };
    if has_long(&sheets, layout.size) {
        return Ok(Err(PageRule::Long));
    }
    Ok(Ok(PoolPages {
        size: layout.size,
        pages,
    }))
}
