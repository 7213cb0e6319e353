//! Counted lists: so many items, one after the other.
ghost use Rattle.std.specs.Prelude.{◌≡◌, ◌≢◌, ◌<◌, ◌^◌, ◌++◌, [], length, MatchResult};
ghost use Rattle.std.specs.List.{flat_map, AllByRecursion};
ghost use Rattle.t3_blocks.specs.Malformed.{BreaksCounted, BreaksList};
ghost use Rattle.t3_blocks.specs.Inner.Appending.{Appends};
ghost use Rattle.t3_blocks.specs.Inner.Lists.{HasTaken, IsList, IsCounted, Breaks, FailsAt};

use crate::refusal::PayloadRefusal;
use crate::split::split_u16;
use std::alloc::Global;
use t3_holder::NoMemory;

/// How the items of a list stand in bytes.
pub(crate) trait Layout {
    ghost use Rattle.std.specs.Prelude.{◌≡◌, ◌<◌, ◌^◌, ℕ, List, length, IfOk};
    ghost use Rattle.t3_blocks.specs.Inner.Appending.{Appends};
    ghost use Rattle.t3_blocks.specs.Inner.Lists.{TakesItem};

    type Item: Drop;

    /// The bytes of an item.
    ghost text: { Self → Self.Item → List ℕ };

    /// Whether an item has such bytes: its parts fit their fields.
    ghost fits: { Self → Self.Item → Type 0 };

    /// The item that begins some bytes, and what follows it; `None` where none does.
    fn take<'a>(
        &self,
        alloc: Global,
        bytes: &'a [u8],
    ) -> Result<Option<(Self::Item, &'a [u8])>, NoMemory>
        ensures { IfOk result (TakesItem (text self.now) (fits self.now) bytes.now) };

    /// Appends an item's bytes.
    fn append(&self, item: &Self::Item, out: &mut Vec<u8>) -> Result<(), NoMemory>
        requires { fits self.now item.now }
        ensures { Appends out.old.items out.new.items (text self.now item.now) result };

    /// How many bytes an item has.
    fn size(&self, item: &Self::Item) -> usize
        requires fit { fits self.now item.now }
        requires few { length (text self.now item.now) < 2 ^ 32 }
        ensures { result ≡ length (text self.now item.now) };
}

/// So many items that begin some bytes, and what follows them. Room for them is made at once, but for no
/// more of them than there are bytes.
pub(crate) fn take_items<'a, L: Layout>(
    alloc: Global,
    layout: &L,
    due: u16,
    bytes: &'a [u8],
) -> Result<(Vec<L::Item>, &'a [u8]), PayloadRefusal>
    ensures { MatchResult result
        (λ taken.
        HasTaken (L.text layout.now) (L.fits layout.now) due bytes.now taken.0.items taken.1.now
        × (length taken.0.items ≡ due))
        (FailsAt (L.text layout.now) (L.fits layout.now) due bytes.now) }
{
    let due = usize::from(due);
    let mut rest = bytes;
    let mut items = Vec::with_capacity(alloc, due.min(bytes.len()))?;
    while items.len() < due {
        match layout.take(alloc, rest)? {
            Some((item, trailing)) => {
                items.push(item)?;
                rest = trailing;
            }
            None => return Err(PayloadRefusal::Malformed {
                items: items.len() as u32,
            }),
        }
    }
    Ok((items, rest))
}

/// A list of just so many items.
pub(crate) fn take_list<L: Layout>(
    alloc: Global,
    layout: &L,
    due: u16,
    bytes: &[u8],
) -> Result<Vec<L::Item>, PayloadRefusal>
    ensures { MatchResult result
        (λ items. IsList (L.text layout.now) (L.fits layout.now) due bytes.now items.items)
        (Breaks (BreaksList (L.text layout.now) (L.fits layout.now) due bytes.now)) }
{
    let (items, trailing) = take_items(alloc, layout, due, bytes)?;
    if !trailing.is_empty() {
        return Err(PayloadRefusal::Malformed {
            items: u32::from(due),
        });
    }
    Ok(items)
}

/// A count, and a list of so many items.
pub(crate) fn take_counted<L: Layout>(
    alloc: Global,
    layout: &L,
    payload: &[u8],
) -> Result<Vec<L::Item>, PayloadRefusal>
    ensures { MatchResult result
        (λ items. IsCounted (L.text layout.now) (L.fits layout.now) payload.now items.items)
        (Breaks (BreaksCounted (L.text layout.now) (L.fits layout.now) payload.now)) }
{
    match split_u16(payload) {
        Some((due, list)) => take_list(alloc, layout, due, list),
        None => Err(PayloadRefusal::Malformed { items: 0 }),
    }
}

/// Appends items one after the other.
pub(crate) fn append_items<L: Layout>(
    layout: &L,
    items: &[L::Item],
    out: &mut Vec<u8>,
) -> Result<(), NoMemory>
    requires { AllByRecursion (L.fits layout.now) items.now }
    ensures { Appends out.old.items out.new.items (flat_map (L.text layout.now) items.now) result }
{
    for item in items {
        layout.append(item, out)?;
    }
    Ok(())
}

/// How many bytes items have.
pub(crate) fn items_size<L: Layout>(layout: &L, items: &[L::Item]) -> usize
    requires fit { AllByRecursion (L.fits layout.now) items.now }
    requires few { length (flat_map (L.text layout.now) items.now) < 2 ^ 32 }
    ensures { result ≡ length (flat_map (L.text layout.now) items.now) }
{
    let mut size = 0;
    for item in items {
        size += layout.size(item);
    }
    size
}
