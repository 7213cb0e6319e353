//! A pool as it is kept: its pages by their indices, whose bytes it shares with the image.
ghost use Rattle.std.specs.Prelude.{◌≡◌, ◌+◌, ◌<◌, ◌*◌, ◌^◌, nat_lt, false, length, map, drop, IfOk, IfSome};
ghost use Rattle.std.specs.FinMap.{get};
ghost use Rattle.std.specs.List.{AllByRecursion, list_any};
ghost use Rattle.t3_holder.specs.NumberText.{AreBytes};
ghost use Rattle.t3_pools.specs.Inner.Keeping.{run_in, kept_pool, Runs};

use crate::page_size::PageSize;
use std::alloc::{AllocError, Global};
use std::marker::Model;
use t3_blocks::PageBytes;

/// A pool. Contracts see the map from addresses to bytes, and the page size.
#[derive(Debug, Drop)]
pub(crate) struct PagedPool {
    size: PageSize,
    pages: Vec<PageBytes>,
}

impl Model for PagedPool {
    ghost use Rattle.t3_pools.specs.Pool.{PagedPoolValue, coded_paged_pool};
    ghost use Rattle.t3_pools.specs.Inner.Keeping.{kept_pool, IsKept};

    ghost Value = { PagedPoolValue };

    ghost coded = { coded_paged_pool };

    ghost view = { λ p. kept_pool p.size.size p.pages.items };

    ghost invariant = { λ p. IsKept p.size.size p.pages.items };
}

impl PagedPool {
    /// The pool of these pages, whose bytes it shares.
    pub(crate) fn new(
        alloc: Global,
        size: u32,
        pages: &[&PageBytes],
    ) -> Result<PagedPool, AllocError>
        requires fits { list_any (λ page. nat_lt size (length page.now)) pages.now ≡ false }
        requires narrow { length pages.now * size < 2 ^ 31 }
        ensures { IfOk result (λ pool. pool ≡ kept_pool size (map (λ page. page.now) pages.now)) }
    {
        Ok(PagedPool {
            size: PageSize::new(size),
            pages: shared(alloc, pages)?,
        })
    }

    /// The bytes from an address to the end of its page. It is empty exactly where no byte stands there.
    #[inline(always)]
    pub(crate) fn run(&self, address: u32) -> &[u8]
        ensures { Runs self.now.page_size self.now.bytes address result.now }
    {
        run_at(self.size, &self.pages, address)
    }

    /// The byte at an address, where one stands there.
    pub(crate) fn byte(&self, address: u32) -> Option<u8>
        ensures byte { result ≡ get self.now.bytes address }
        ensures bounded { IfSome result (λ _. address + 1 < 2 ^ 31) }
    {
        self.run(address).first().copied()
    }
}

fn shared(alloc: Global, pages: &[&PageBytes]) -> Result<Vec<PageBytes>, AllocError>
    ensures same { IfOk result (λ shared. shared.items ≡ map (λ page. page.now) pages.now) }
    ensures bytes { IfOk result (λ shared. AllByRecursion AreBytes shared.items) }
{
    let mut shared = Vec::with_capacity(alloc, pages.len())?;
    for page in pages {
        are_bytes(page.as_slice());
        shared.push(page.share()?)?;
    }
    Ok(shared)
}

/// The items of a slice of bytes are below 256, by their type. It only says so.
fn are_bytes(bytes: &[u8])
    ensures { AreBytes bytes.now }
{}

/// The bytes from an address to the end of its page.
#[inline(always)]
fn run_at(size: PageSize, pages: &[PageBytes], address: u32) -> &[u8]
    ensures { result.now ≡ run_in size.size pages.now address }
{
    let Some((index, place)) = size.index_and_place(address) else {
        return &[];
    };
    match pages.get(index as usize) {
        Some(page) => from_place(page.as_slice(), place as usize),
        None => &[],
    }
}

#[inline(always)]
fn from_place(page: &[u8], place: usize) -> &[u8]
    ensures { result.now ≡ drop place page.now }
{
    if place < page.len() {
        &page[place..]
    } else {
        &[]
    }
}
