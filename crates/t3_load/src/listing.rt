//! Lists that an image spreads over blocks.
ghost use Rattle.std.specs.Prelude.{◌≡◌, ◌+◌, ◌<◌, ◌^◌, length, vec_len};
ghost use Rattle.std.specs.List.{flat_map};
ghost use Rattle.t3_load.specs.Names.{IsTable};
ghost use Rattle.t3_load.specs.Inner.Listing.{Appends};

use crate::refusal::NameRefusal;
use std::alloc::Global;
use t3_blocks::Block;
use t3_holder::NoMemory;
use t3_image_read::PlacedBlock;

/// Which items a block lists, and what each of them means.
pub(crate) trait Listing {
    ghost use Rattle.std.specs.Prelude.{◌≡◌, List, Option, IfOk};
    ghost use Rattle.t3_blocks.specs.declared.block.Block.{Block as AnyBlock};

    type Item;

    type Entry: Drop;

    /// The items of a block: none in a block of another kind.
    ghost items: { Self → AnyBlock → List Self.Item };

    /// What an item means.
    ghost meaning: { Self → Self.Item → Option Self.Entry };

    /// The items of a block: none in a block of another kind.
    fn items<'a>(&self, block: &'a Block) -> &'a [Self::Item]
        ensures { result.now ≡ items self.now block.now };

    /// What an item means.
    fn entry(&self, alloc: Global, item: &Self::Item) -> Result<Option<Self::Entry>, NoMemory>
        ensures { IfOk result (λ entry. entry ≡ meaning self.now item.now) };
}

/// What the items of all blocks mean, in order.
pub(crate) fn entries<L: Listing>(
    alloc: Global,
    listing: &L,
    blocks: &[PlacedBlock],
) -> Result<Vec<L::Entry>, NameRefusal>
    requires { length (flat_map (λ placed. L.items listing.now placed.block) blocks.now) < 2 ^ 32 }
    ensures { IsTable (λ table. table.items) (L.meaning listing.now)
        (flat_map (λ placed. L.items listing.now placed.block) blocks.now)
        result }
{
    let mut entries = Vec::new(alloc);
    for placed in blocks {
        append(alloc, listing, listing.items(&placed.block), &mut entries)?;
    }
    Ok(entries)
}

/// Appends what some items mean.
fn append<L: Listing>(
    alloc: Global,
    listing: &L,
    items: &[L::Item],
    entries: &mut Vec<L::Entry>,
) -> Result<(), NameRefusal>
    requires { vec_len entries.old + length items.now < 2 ^ 32 }
    ensures { Appends (L.meaning listing.now) items.now entries.old.items entries.new.items result }
{
    for item in items {
        let Some(entry) = listing.entry(alloc, item)? else {
            return Err(NameRefusal::Unknown(entries.len() as u32));
        };
        entries.push(entry)?;
    }
    Ok(())
}
