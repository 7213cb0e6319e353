//! So many items, one after the other.
ghost use Rattle.std.specs.Prelude.{◌≡◌, ◌<◌, ◌^◌, Some, None, IfOk, map};
ghost use Rattle.t3_snapshot.specs.Inner.Reading.{Gives, items_at, counted_at, holder_at, entry_at, are_distinct};

use crate::fields::{take_entry, take_holder, take_prop, take_u16, take_u32};
use crate::read_error::ReadError;
use std::alloc::Global;
use t3_holder::Holder;
use t3_tables::Pair;
use t3_tadsobj::PropValue;

/// How an item is read.
pub(crate) trait Item {
    ghost use Rattle.std.specs.Prelude.{◌≡◌, ℕ, List, Option};
    ghost use Rattle.t3_snapshot.specs.Inner.Reading.{Gives};

    type Value: Drop;

    ghost read: { List ℕ → Option (Self.Value × List ℕ) };

    /// An item, and the bytes after it.
    fn take(alloc: Global, bytes: &[u8]) -> Result<(Self::Value, &[u8]), ReadError>
        ensures { Gives (λ x. (x.0, x.1.now)) result (read bytes.now) };
}

/// So many items, and the bytes after them.
pub(crate) fn take_items<I: Item>(
    alloc: Global,
    count: u32,
    bytes: &[u8],
) -> Result<(Vec<I::Value>, &[u8]), ReadError>
    ensures { Gives (λ x. (x.0.items, x.1.now)) result (items_at I.read count bytes.now) }
{
    let mut items = Vec::new(alloc);
    let mut rest = bytes;
    for _ in 0..count {
        let (item, after) = I::take(alloc, rest)?;
        items.push(item)?;
        rest = after;
    }
    Ok((items, rest))
}

/// A count in two bytes, and so many items.
#[tactic(auto, unfolding(crate::specs::Inner::Reading::counted_at))]
pub(crate) fn take_counted_u16<I: Item>(
    alloc: Global,
    bytes: &[u8],
) -> Result<(Vec<I::Value>, &[u8]), ReadError>
    ensures { Gives (λ x. (x.0.items, x.1.now)) result (counted_at I.read 2 bytes.now) }
{
    let (count, rest) = take_u16(bytes)?;
    let (items, rest) = take_items::<I>(alloc, u32::from(count), rest)?;
    Ok((items, rest))
}

/// A count in four bytes, and so many items.
#[tactic(auto, unfolding(crate::specs::Inner::Reading::counted_at))]
pub(crate) fn take_counted_u32<I: Item>(
    alloc: Global,
    bytes: &[u8],
) -> Result<(Vec<I::Value>, &[u8]), ReadError>
    ensures { Gives (λ x. (x.0.items, x.1.now)) result (counted_at I.read 4 bytes.now) }
{
    let (count, rest) = take_u32(bytes)?;
    let (items, rest) = take_items::<I>(alloc, count, rest)?;
    Ok((items, rest))
}

/// A holder.
pub(crate) struct HolderItem;

impl Item for HolderItem {
    ghost use Rattle.t3_snapshot.specs.Inner.Reading.{holder_at};

    type Value = Holder;

    ghost read = { holder_at };

    fn take(alloc: Global, bytes: &[u8]) -> Result<(Holder, &[u8]), ReadError> {
        let _ = alloc;
        take_holder(bytes)
    }
}

/// An entry of a table.
pub(crate) struct EntryItem;

impl Item for EntryItem {
    ghost use Rattle.t3_snapshot.specs.Inner.Reading.{entry_at};

    type Value = Pair;

    ghost read = { entry_at };

    fn take(alloc: Global, bytes: &[u8]) -> Result<(Pair, &[u8]), ReadError> {
        take_entry(alloc, bytes)
    }
}

/// The number of a superclass.
pub(crate) struct SuperItem;

impl Item for SuperItem {
    ghost use Rattle.t3_snapshot.specs.Inner.Reading.{number_at};

    type Value = u32;

    ghost read = { number_at 4 };

    fn take(alloc: Global, bytes: &[u8]) -> Result<(u32, &[u8]), ReadError> {
        let _ = alloc;
        take_u32(bytes)
    }
}

/// A property.
pub(crate) struct PropItem;

impl Item for PropItem {
    ghost use Rattle.t3_snapshot.specs.Inner.Reading.{prop_at};

    type Value = PropValue;

    ghost read = { prop_at };

    fn take(alloc: Global, bytes: &[u8]) -> Result<(PropValue, &[u8]), ReadError> {
        let _ = alloc;
        take_prop(bytes)
    }
}
