//! The pages of one pool, from the blocks of an image into the order of their indices.
//!
//! Work and memory grow with the pages that are there, never with the page count or the page size that
//! a definition says.
ghost use Rattle.std.specs.Prelude.{◌≡◌, ◌<◌, nat_le, nat_lt, length, map, IfOk};
ghost use Rattle.std.specs.List.{list_any};
ghost use Rattle.std.specs.Option.{option_map};
ghost use Rattle.t3_pools.specs.Pool.{said_of};
ghost use Rattle.t3_pools.specs.Inner.Gathering.{paged, Sorts, Orders};

use std::alloc::{AllocError, AllocFailed, Global};
use std::collections::BTreeMap;
use t3_blocks::{Block, PageBytes};
use t3_image_read::PlacedBlock;

/// A page as a block says it.
#[derive(Clone, Copy, Debug)]
pub(crate) struct Sheet<'b> {
    pub(crate) index: u32,
    pub(crate) bytes: &'b PageBytes,
}

/// The bytes of pages by their indices.
pub(crate) type Sorted<'b> = BTreeMap<u32, &'b PageBytes>;

/// The pages of the pool of a number, as they come.
pub(crate) fn sheets_of(
    alloc: Global,
    blocks: &[PlacedBlock],
    number: u16,
) -> Result<Vec<Sheet<'_>>, AllocError>
    ensures { IfOk result (λ sheets. map (paged number) sheets.items ≡ (said_of number blocks.now).pages) }
{
    let mut sheets = Vec::new(alloc);
    for placed in blocks {
        if let Block::Page {
            pool,
            index,
            bytes,
            ..
        } = &placed.block
        {
            if *pool == number {
                sheets.push(Sheet {
                    index: *index,
                    bytes,
                })?;
            }
        }
    }
    Ok(sheets)
}

/// Whether a page has an index that isn't below the page count.
pub(crate) fn has_far(sheets: &[Sheet<'_>], count: u32) -> bool
    ensures { result ≡ list_any (λ sheet. nat_le count sheet.index) sheets.now }
{
    sheets.iter().any(|sheet| sheet.index >= count)
}

/// Whether a page has more bytes than the page size.
pub(crate) fn has_long(sheets: &[Sheet<'_>], size: u32) -> bool
    ensures { result ≡ list_any (λ sheet. nat_lt size (length sheet.bytes.now)) sheets.now }
{
    sheets
        .iter()
        .any(|sheet| sheet.bytes.as_slice().len() > size as usize)
}

/// The pages by their indices, or none where two have one index.
pub(crate) fn sorted<'b>(
    alloc: Global,
    sheets: &[Sheet<'b>],
) -> Result<Option<Sorted<'b>>, AllocFailed<(u32, &'b PageBytes)>>
    ensures { IfOk result (λ found. Sorts sheets.now found) }
{
    let mut pages = BTreeMap::new(alloc);
    for sheet in sheets {
        if pages.insert(sheet.index, sheet.bytes)?.is_some() {
            return Ok(None);
        }
    }
    Ok(Some(pages))
}

/// The pages of the indices below the page count in their order, or none where one is missing. It is at
/// an end at the first that is missing.
pub(crate) fn in_order<'b>(
    alloc: Global,
    pages: &Sorted<'b>,
    count: u32,
) -> Result<Option<Vec<&'b PageBytes>>, AllocError>
    ensures { IfOk result (λ found. Orders count pages.now (option_map (λ v. v.items) found)) }
{
    let mut ordered = Vec::new(alloc);
    for index in 0..count {
        match pages.get(&index) {
            Some(page) => ordered.push(*page)?,
            None => return Ok(None),
        }
    }
    Ok(Some(ordered))
}
