//! What new strings, lists, vectors and tables are made of.
ghost use Rattle.std.specs.Prelude.{IfOk};
ghost use Rattle.t3_ops.specs.Making.{CanBeCreated};

use crate::fixture::{
    BAD_LIST, BAD_TEXT, EMPTY_LIST, EMPTY_TEXT, LIST, LIVE_LIST, LIVE_TEXT, LONG_LIST, LONG_TEXT,
    STALE, TABLE, TADS, TEXT, VECTOR, pools, store,
};
use std::alloc::Global;
use std::test::Fail;
use t3_holder::Holder;
use t3_ops::{Fault, new_list, new_string, new_table, new_vector};
use t3_pools::Pools;
use t3_store::{Kind, NewObject, Store, StoreRefusal};
use t3_undo::{Cell, Key};

/// Makes the object, if there is one to be made.
pub(crate) fn create(
    store: &mut Store,
    made: Result<NewObject, Fault>,
    transient: bool,
) -> Result<Result<u32, Fault>, StoreRefusal>
    requires { IfOk made CanBeCreated }
{
    match made {
        Ok(what) => {
            let number = store.create(what, transient)?;
            Ok(Ok(number))
        }
        Err(fault) => Ok(Err(fault)),
    }
}

/// Arguments, and the bytes of the string of them.
type StringRow = (&'static [Holder], Result<&'static [u8], Fault>);

const STRING_ROWS: [StringRow; 14] = [
    (&[], Err(Fault::ArgCount)),
    (&[TEXT], Ok(b"ab")),
    (&[LIVE_TEXT], Ok(b"cd")),
    (&[EMPTY_TEXT], Ok(b"")),
    (&[BAD_TEXT], Err(Fault::BadConstant)),
    (&[LONG_TEXT], Err(Fault::BadConstant)),
    (&[Holder::Int(7)], Err(Fault::Kind)),
    (&[Holder::Nil], Err(Fault::Kind)),
    (&[LIST], Err(Fault::Kind)),
    (&[TADS], Err(Fault::Kind)),
    (&[STALE], Err(Fault::Stale)),
    (&[TEXT, TEXT], Err(Fault::ArgCount)),
    (&[STALE, STALE], Err(Fault::ArgCount)),
    (&[TEXT, TEXT, TEXT], Err(Fault::ArgCount)),
];

/// Whether a string of these bytes is made, or there is this fault.
fn is_string(
    store: &mut Store,
    made: Result<NewObject, Fault>,
    want: Result<&[u8], Fault>,
) -> Result<bool, StoreRefusal>
    requires { IfOk made CanBeCreated }
{
    match create(store, made, false)? {
        Ok(number) => {
            Ok(matches!((store.text(number), want), (Some(bytes), Ok(want)) if bytes == want))
        }
        Err(fault) => Ok(matches!(want, Err(want) if want == fault)),
    }
}

/// Whether a string of these bytes is made of arguments, or there is this fault.
fn is_string_of(
    alloc: Global,
    args: &[Holder],
    want: Result<&[u8], Fault>,
    store: &mut Store,
    pools: &Pools,
) -> Result<bool, Fail> {
    let made = new_string(alloc, args, store, pools)?;
    Ok(is_string(store, made, want)?)
}

/// The arguments of the first row of which something else is made, all in one store.
fn first_unlike_string(
    alloc: Global,
    rows: &[StringRow],
) -> Result<Option<&'static [Holder]>, Fail> {
    let pools = pools(alloc)?;
    let mut store = store(alloc)?;
    for (args, want) in rows {
        if !is_string_of(alloc, args, *want, &mut store, &pools)? {
            return Ok(Some(*args));
        }
    }
    Ok(None)
}

#[test]
fn new_strings(rt: HostRuntime) -> Result<(), Fail> {
    assert_eq!(rt; first_unlike_string(rt.alloc(), &STRING_ROWS)?, None);
    Ok(())
}

const LIST_ROWS: [&[Holder]; 3] = [&[], &[STALE], &[Holder::Int(1), BAD_TEXT, Holder::Nil]];

/// Whether a list of these elements is made.
fn is_list(
    store: &mut Store,
    made: Result<NewObject, Fault>,
    want: &[Holder],
) -> Result<bool, StoreRefusal>
    requires { IfOk made CanBeCreated }
{
    match create(store, made, false)? {
        Ok(number) => Ok(matches!(store.items(number), Some(items) if items == want)),
        Err(_) => Ok(false),
    }
}

/// Whether a list of arguments is made of them.
fn is_list_of(alloc: Global, args: &[Holder], store: &mut Store) -> Result<bool, Fail> {
    let made = new_list(alloc, args)?;
    Ok(is_list(store, made, args)?)
}

/// The first arguments of which no list of just them is made, all in one store.
fn first_unlike_list(
    alloc: Global,
    rows: &[&'static [Holder]],
) -> Result<Option<&'static [Holder]>, Fail> {
    let mut store = store(alloc)?;
    for args in rows {
        if !is_list_of(alloc, args, &mut store)? {
            return Ok(Some(*args));
        }
    }
    Ok(None)
}

/// Why there is no list of so many nils.
fn fault_of_nils(alloc: Global, count: usize) -> Result<Option<Fault>, Fail> {
    let nils = [Holder::Nil].repeat(alloc, count)?;
    match new_list(alloc, &nils)? {
        Ok(_) => Ok(None),
        Err(fault) => Ok(Some(fault)),
    }
}

#[test]
fn new_lists(rt: HostRuntime) -> Result<(), Fail> {
    assert_eq!(rt; first_unlike_list(rt.alloc(), &LIST_ROWS)?, None);
    Ok(())
}

#[test]
fn lists_have_65535_elements_at_most(rt: HostRuntime) -> Result<(), Fail> {
    assert_eq!(rt; fault_of_nils(rt.alloc(), 65_535)?, None);
    assert_eq!(rt; fault_of_nils(rt.alloc(), 65_536)?, Some(Fault::ListLong));
    Ok(())
}

const ONE: Holder = Holder::Int(1);

/// Arguments, and why there is no table of them.
type TableRow = (&'static [Holder], Option<Fault>);

const TABLE_ROWS: [TableRow; 9] = [
    (&[], None),
    (&[ONE], Some(Fault::ArgCount)),
    (&[STALE], Some(Fault::ArgCount)),
    (&[ONE, ONE], None),
    (&[Holder::Int(-1), Holder::Int(i32::MAX)], None),
    (&[ONE, Holder::Nil], Some(Fault::Kind)),
    (&[Holder::Nil, ONE], Some(Fault::Kind)),
    (&[STALE, ONE], Some(Fault::Kind)),
    (&[ONE, ONE, ONE], Some(Fault::ArgCount)),
];

/// Whether an object is a table without an entry whose default is nil.
fn is_empty_table(store: &Store, number: u32) -> bool {
    store.kind(number) == Some(Kind::Table)
        && store.get(number, &Cell::Default) == Some(Holder::Nil)
        && store.get(number, &Cell::Key(Key::Int(1))).is_none()
}

/// Whether an empty table is made of a row's arguments, or its fault comes.
fn is_table_of(store: &mut Store, row: TableRow) -> Result<bool, StoreRefusal> {
    let (args, want) = row;
    match create(store, new_table(args), false)? {
        Ok(number) => Ok(want.is_none() && is_empty_table(store, number)),
        Err(fault) => Ok(want == Some(fault)),
    }
}

/// The first row that isn't so, all in one store.
fn first_unlike_table(alloc: Global, rows: &[TableRow]) -> Result<Option<TableRow>, Fail> {
    let mut store = store(alloc)?;
    for row in rows {
        if !is_table_of(&mut store, *row)? {
            return Ok(Some(*row));
        }
    }
    Ok(None)
}

#[test]
fn new_tables(rt: HostRuntime) -> Result<(), Fail> {
    assert_eq!(rt; first_unlike_table(rt.alloc(), &TABLE_ROWS)?, None);
    Ok(())
}

const NIL: Holder = Holder::Nil;

const TEN: Holder = Holder::Int(10);

const LESS: Holder = Holder::Int(-1);

const MANY: Holder = Holder::Int(65_536);

/// Arguments, and the elements of the vector of them.
type VectorRow = (&'static [Holder], Result<&'static [Holder], Fault>);

const VECTOR_ROWS: [VectorRow; 38] = [
    (&[], Err(Fault::ArgCount)),
    (&[TEN, TEN, TEN], Err(Fault::ArgCount)),
    (&[STALE, STALE, STALE], Err(Fault::ArgCount)),
    // A size, which isn't used.
    (&[Holder::Int(0)], Ok(&[])),
    (&[TEN], Ok(&[])),
    (&[Holder::Int(65_535)], Ok(&[])),
    (&[MANY], Err(Fault::IndexRange)),
    (&[LESS], Err(Fault::IndexRange)),
    (&[NIL], Err(Fault::Kind)),
    (&[TEXT], Err(Fault::Kind)),
    (&[LIST], Err(Fault::Kind)),
    (&[STALE], Err(Fault::Kind)),
    // So many nils.
    (&[TEN, Holder::Int(0)], Ok(&[])),
    (&[TEN, Holder::Int(1)], Ok(&[NIL])),
    (&[Holder::Int(0), Holder::Int(3)], Ok(&[NIL, NIL, NIL])),
    (&[TEN, LESS], Err(Fault::IndexRange)),
    (&[TEN, MANY], Err(Fault::IndexRange)),
    (&[MANY, TEN], Err(Fault::IndexRange)),
    // The elements of a list or a vector.
    (&[TEN, LIST], Ok(&[Holder::Int(1), NIL])),
    (&[TEN, EMPTY_LIST], Ok(&[])),
    (&[TEN, LIVE_LIST], Ok(&[Holder::Int(3)])),
    (&[TEN, VECTOR], Ok(&[Holder::Int(4), Holder::Int(5)])),
    (&[LESS, LIST], Err(Fault::IndexRange)),
    // What is gone, then kinds of both, then numbers of both, then a constant.
    (&[TEN, STALE], Err(Fault::Stale)),
    (&[NIL, STALE], Err(Fault::Stale)),
    (&[LESS, STALE], Err(Fault::Stale)),
    (&[TEN, TABLE], Err(Fault::Kind)),
    (&[TEN, TADS], Err(Fault::Kind)),
    (&[TEN, TEXT], Err(Fault::Kind)),
    (&[TEN, LIVE_TEXT], Err(Fault::Kind)),
    (&[TEN, NIL], Err(Fault::Kind)),
    (&[LESS, TABLE], Err(Fault::Kind)),
    (&[NIL, LESS], Err(Fault::Kind)),
    (&[STALE, LESS], Err(Fault::Kind)),
    (&[NIL, BAD_LIST], Err(Fault::Kind)),
    (&[LESS, BAD_LIST], Err(Fault::IndexRange)),
    (&[TEN, BAD_LIST], Err(Fault::BadConstant)),
    (&[TEN, LONG_LIST], Err(Fault::BadConstant)),
];

/// Whether a vector has just these elements.
fn has_elements(store: &Store, number: u32, items: &[Holder]) -> bool {
    if store.length(number) != u32::try_from(items.len()).ok() {
        return false;
    }
    let mut at = 0u32;
    for item in items {
        at = at.wrapping_add(1);
        if store.get(number, &Cell::Elem(at)) != Some(*item) {
            return false;
        }
    }
    true
}

/// Whether a vector of these elements is made, or there is this fault.
fn is_vector(
    store: &mut Store,
    made: Result<NewObject, Fault>,
    want: Result<&[Holder], Fault>,
) -> Result<bool, StoreRefusal>
    requires { IfOk made CanBeCreated }
{
    match create(store, made, false)? {
        Ok(number) => Ok(matches!(want, Ok(items) if has_elements(store, number, items))),
        Err(fault) => Ok(matches!(want, Err(want) if want == fault)),
    }
}

/// Whether a vector of these elements is made of arguments, or there is this fault.
fn is_vector_of(
    alloc: Global,
    args: &[Holder],
    want: Result<&[Holder], Fault>,
    store: &mut Store,
    pools: &Pools,
) -> Result<bool, Fail> {
    let made = new_vector(alloc, args, store, pools)?;
    Ok(is_vector(store, made, want)?)
}

/// The arguments of the first row of which something else is made, all in one store.
fn first_unlike_vector(
    alloc: Global,
    rows: &[VectorRow],
) -> Result<Option<&'static [Holder]>, Fail> {
    let pools = pools(alloc)?;
    let mut store = store(alloc)?;
    for (args, want) in rows {
        if !is_vector_of(alloc, args, *want, &mut store, &pools)? {
            return Ok(Some(*args));
        }
    }
    Ok(None)
}

#[test]
fn new_vectors(rt: HostRuntime) -> Result<(), Fail> {
    let unlike = first_unlike_vector(rt.alloc(), &VECTOR_ROWS)?;
    assert!(rt; unlike.is_none());
    Ok(())
}

/// The number of a vector that is made of these arguments.
fn add_made_vector(
    alloc: Global,
    args: &[Holder],
    transient: bool,
    store: &mut Store,
    pools: &Pools,
) -> Result<u32, Fail> {
    let made = new_vector(alloc, args, store, pools)?;
    Ok(create(store, made, transient)??)
}

/// The lengths of a vector and of one that is made of it, and the last element of the first.
type LongVectors = (Option<u32>, Option<u32>, Option<Holder>);

/// Makes a transient vector of 65,535 nils, and one of it.
fn add_long_vectors(alloc: Global, store: &mut Store, pools: &Pools) -> Result<LongVectors, Fail> {
    let long = add_made_vector(alloc, &[TEN, Holder::Int(65_535)], true, store, pools)?;
    let copy = add_made_vector(alloc, &[TEN, Holder::Obj(long)], false, store, pools)?;
    let last = store.get(long, &Cell::Elem(65_535));
    Ok((store.length(long), store.length(copy), last))
}

/// The same in a store of their own.
fn long_vectors(alloc: Global) -> Result<LongVectors, Fail> {
    let pools = pools(alloc)?;
    let mut store = store(alloc)?;
    add_long_vectors(alloc, &mut store, &pools)
}

#[test]
fn vectors_of_65535_elements(rt: HostRuntime) -> Result<(), Fail> {
    let long = long_vectors(rt.alloc())?;
    assert_eq!(rt; long, (Some(65_535), Some(65_535), Some(NIL)));
    Ok(())
}
