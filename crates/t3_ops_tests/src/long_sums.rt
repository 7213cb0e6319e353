//! Sums at the greatest lengths, and in a store that has no room for them.
use crate::fixture::{BAD_TEXT, EMPTY_TEXT, LIST, TEXT, add_list, add_text, empty_store, pools};
use std::alloc::Global;
use std::test::Fail;
use t3_holder::Holder;
use t3_ops::{Fault, OpRefusal, sum};
use t3_pools::Pools;
use t3_store::Store;

const NIL: Holder = Holder::Nil;

const ONE: Holder = Holder::Int(1);

const TWO: Holder = Holder::Int(2);

const THREE: Holder = Holder::Int(3);

/// How a sum ended: how long the new string or list is, or why there is none.
fn length_of_sum(
    alloc: Global,
    left: Holder,
    right: Holder,
    store: &mut Store,
    pools: &Pools,
) -> Result<usize, OpRefusal> {
    match sum(alloc, left, right, store, pools)? {
        Holder::Obj(number) => match store.text(number) {
            Some(bytes) => Ok(bytes.len()),
            None => Ok(store.items(number).map_or(0, |items| items.len())),
        },
        _ => Ok(0),
    }
}

/// The string of 65,534 bytes of [`store_of_long`].
const LONG_BYTES: Holder = Holder::Obj(1);

/// Its list of 65,533 elements.
const LONG_ITEMS: Holder = Holder::Obj(2);

/// The list of 65,534 elements that a row of [`LONG_ROWS`] makes.
const FULL_ITEMS: Holder = Holder::Obj(6);

const TEXT_LONG: Result<usize, OpRefusal> = Err(OpRefusal::Fault(Fault::TextLong));

const LIST_LONG: Result<usize, OpRefusal> = Err(OpRefusal::Fault(Fault::ListLong));

/// Two values, and the length of their sum.
type LongRow = (Holder, Holder, Result<usize, OpRefusal>);

/// 65,534 bytes and one more, and two more; 65,533 elements and two more, and more.
const LONG_ROWS: [LongRow; 10] = [
    (LONG_BYTES, ONE, Ok(65_535)),
    (LONG_BYTES, TEXT, TEXT_LONG),
    (TEXT, LONG_BYTES, TEXT_LONG),
    (LONG_BYTES, LONG_BYTES, TEXT_LONG),
    (LONG_ITEMS, LIST, Ok(65_535)),
    (LIST, LONG_ITEMS, Ok(65_535)),
    (LONG_ITEMS, NIL, Ok(65_534)),
    (LONG_ITEMS, LONG_ITEMS, LIST_LONG),
    (FULL_ITEMS, ONE, Ok(65_535)),
    (FULL_ITEMS, LIST, LIST_LONG),
];

/// Adds the string.
fn add_long_text(alloc: Global, store: &mut Store) -> Result<Holder, Fail> {
    let bytes = b"x".repeat(alloc, 65_534)?;
    add_text(alloc, store, &bytes)
}

/// Adds the list.
fn add_long_list(alloc: Global, store: &mut Store) -> Result<Holder, Fail> {
    let items = [ONE].repeat(alloc, 65_533)?;
    add_list(alloc, store, &items)
}

/// A store with a string and a list that have nearly no room.
fn store_of_long(alloc: Global) -> Result<Store, Fail> {
    let mut store = empty_store(alloc, 1_000, 4_000_000)?;
    let _text = add_long_text(alloc, &mut store)?;
    let _list = add_long_list(alloc, &mut store)?;
    Ok(store)
}

/// The first row whose sum has another length, one after the other in one store.
fn first_unlike_long(alloc: Global, rows: &[LongRow]) -> Result<Option<LongRow>, Fail> {
    let pools = pools(alloc)?;
    let mut store = store_of_long(alloc)?;
    for row in rows {
        let (left, right, want) = *row;
        if length_of_sum(alloc, left, right, &mut store, &pools) != want {
            return Ok(Some(*row));
        }
    }
    Ok(None)
}

#[test]
fn sums_have_65535_bytes_or_elements(rt: HostRuntime) -> Result<(), Fail> {
    assert_eq!(rt; first_unlike_long(rt.alloc(), &LONG_ROWS)?, None);
    Ok(())
}

/// Two values, and their sum.
type SumRow = (Holder, Holder, Result<Holder, OpRefusal>);

const FULL: Result<Holder, OpRefusal> = Err(OpRefusal::Full);

/// In a store with room for two objects, but for one unit alone: `abab` counts one, a list of three elements
/// three.
const FULL_ROWS: [SumRow; 7] = [
    (LIST, NIL, FULL),
    (TEXT, TEXT, Ok(Holder::Obj(1))),
    // Room for a second one without a unit, and then for none.
    (TEXT, TEXT, FULL),
    (EMPTY_TEXT, NIL, Ok(Holder::Obj(2))),
    (EMPTY_TEXT, NIL, FULL),
    // A sum of integers makes nothing, and a fault comes before it.
    (ONE, TWO, Ok(THREE)),
    (TEXT, BAD_TEXT, Err(OpRefusal::Fault(Fault::BadConstant))),
];

/// The first row that has another sum, one after the other in one store.
fn first_unlike_sum(
    alloc: Global,
    store: &mut Store,
    pools: &Pools,
    rows: &[SumRow],
) -> Option<SumRow> {
    for row in rows {
        let (left, right, want) = *row;
        if sum(alloc, left, right, store, pools) != want {
            return Some(*row);
        }
    }
    None
}

/// The first row that isn't so in that store, and the number of the object that is made next.
fn sums_made(alloc: Global, rows: &[SumRow]) -> Result<(Option<SumRow>, u32), Fail> {
    let pools = pools(alloc)?;
    let mut store = empty_store(alloc, 2, 1)?;
    let unlike = first_unlike_sum(alloc, &mut store, &pools, rows);
    Ok((unlike, store.next()))
}

#[test]
fn a_full_store_takes_no_sum(rt: HostRuntime) -> Result<(), Fail> {
    assert_eq!(rt; sums_made(rt.alloc(), &FULL_ROWS)?, (None, 3));
    Ok(())
}
