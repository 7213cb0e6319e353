//! Copies of what stands in texts, lists and vectors.
ghost use Rattle.std.specs.Prelude.{◌≡◌, ◌++◌, IfOk, OnOk, option_map};
ghost use Rattle.t3_ops.specs.References.{list_of, text_of, bytes_of, elements_of, IsTextBytes, IsListItems, Appends};
ghost use Rattle.t3_ops.specs.Elements.{vector_items, IsVectorOf};

use crate::containers::element;
use crate::values::{ListItems, ListRef, TextBytes, TextRef};
use std::alloc::{AllocError, Global};
use t3_holder::Holder;
use t3_pools::Pools;
use t3_store::ObjectAt;

/// The bytes of a text. `None` exactly where it is a constant that can't be read.
pub fn text_bytes(
    alloc: Global,
    text: TextRef<'_>,
    pools: &Pools,
) -> Result<Option<Vec<u8>>, AllocError>
    ensures { IfOk result (λ bytes. option_map (λ v. v.items) bytes
        ≡ text_of pools.now.constants text.entry) }
{
    let Some(place) = text.read(pools) else {
        return Ok(None);
    };
    let mut bytes = Vec::new(alloc);
    append_text(place, pools, &mut bytes)?;
    Ok(Some(bytes))
}

/// Appends the bytes of a text.
pub(crate) fn append_text(
    text: TextBytes<'_>,
    pools: &Pools,
    bytes: &mut Vec<u8>,
) -> Result<(), AllocError>
    requires { IsTextBytes pools.now.constants text }
    ensures { OnOk result (bytes.new.items
        ≡ bytes.old.items ++ bytes_of pools.now.constants text.entry) }
{
    let mut at = 0;
    'pieces: loop {
        let piece = text.piece(pools, at);
        if piece.is_empty() {
            return Ok(());
        }
        bytes.extend_from_slice(piece)?;
        at += piece.len();
    }
}

/// Appends the elements of a list. Answers whether it could be read.
pub fn append_list(
    list: ListRef<'_>,
    pools: &Pools,
    items: &mut Vec<Holder>,
) -> Result<bool, AllocError>
    ensures { IfOk result (λ read. Appends items.old.items (list_of pools.now.constants list.entry)
        read items.new.items) }
{
    match list.read(pools) {
        Some(place) => {
            append_elements(place, pools, items)?;
            Ok(true)
        }
        None => Ok(false),
    }
}

/// Appends the elements of a list that was read.
fn append_elements(
    list: ListItems<'_>,
    pools: &Pools,
    items: &mut Vec<Holder>,
) -> Result<(), AllocError>
    requires { IsListItems pools.now.constants list }
    ensures { OnOk result (items.new.items
        ≡ items.old.items ++ elements_of pools.now.constants list.entry) }
{
    if let ListItems::Live(live) = list {
        items.extend_from_slice(live)?;
        return Ok(());
    }
    let mut next = 0;
    while let Some(item) = list.element(pools, next) {
        items.push(item)?;
        next += 1;
    }
    Ok(())
}

/// Appends the elements of a vector of so many.
pub fn append_vector(
    vector: &ObjectAt<'_>,
    length: u32,
    items: &mut Vec<Holder>,
) -> Result<(), AllocError>
    requires { IsVectorOf vector.now length }
    ensures { OnOk result (items.new.items ≡ items.old.items ++ vector_items vector.now) }
{
    for index in 0..length {
        let Some(item) = element(vector, index) else {
            return Ok(());
        };
        items.push(item)?;
    }
    Ok(())
}
