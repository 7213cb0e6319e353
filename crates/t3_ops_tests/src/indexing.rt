//! Elements and entries by their index, and lists with an element set.
use crate::fixture::{
    BAD as WANT_BAD, BAD_LIST, BAD_TEXT, EMPTY_LIST, GONE, KIND as WANT_KIND, LIST, LIVE_LIST,
    LIVE_TEXT, LONG_LIST, STALE, TABLE, TADS, TEXT, VECTOR, Want, add_list, add_text, empty_store,
    is_wanted, pools, store,
};
use std::alloc::Global;
use std::process::Abort;
use std::test::Fail;
use t3_holder::Holder;
use t3_ops::{Fault, OpRefusal, index, list_with_element, vector_index};
use t3_pools::Pools;
use t3_store::Store;

const ONE: Holder = Holder::Int(1);

/// A container, an index, and the element or entry there.
type Row = (Holder, Holder, Result<Holder, Fault>);

const RANGE: Result<Holder, Fault> = Err(Fault::IndexRange);

const KIND: Result<Holder, Fault> = Err(Fault::Kind);

const BAD: Result<Holder, Fault> = Err(Fault::BadConstant);

const ROWS: [Row; 34] = [
    // The elements 1 and nil, and what is before and behind them.
    (LIST, Holder::Int(0), RANGE),
    (LIST, Holder::Int(1), Ok(Holder::Int(1))),
    (LIST, Holder::Int(2), Ok(Holder::Nil)),
    (LIST, Holder::Int(3), RANGE),
    (LIST, Holder::Int(-1), RANGE),
    (LIST, Holder::Int(i32::MIN), RANGE),
    (LIST, Holder::Int(i32::MAX), RANGE),
    (EMPTY_LIST, Holder::Int(1), RANGE),
    (LIVE_LIST, Holder::Int(0), RANGE),
    (LIVE_LIST, Holder::Int(1), Ok(Holder::Int(3))),
    (LIVE_LIST, Holder::Int(2), RANGE),
    (LIVE_LIST, Holder::Int(-1), RANGE),
    (VECTOR, Holder::Int(0), RANGE),
    (VECTOR, Holder::Int(1), Ok(Holder::Int(4))),
    (VECTOR, Holder::Int(2), Ok(Holder::Int(5))),
    (VECTOR, Holder::Int(3), RANGE),
    (VECTOR, Holder::Int(-1), RANGE),
    (VECTOR, Holder::Int(i32::MIN), RANGE),
    // The kind of the index is told before a constant is read, and that before its range.
    (LIST, Holder::Nil, KIND),
    (LIST, STALE, KIND),
    (VECTOR, STALE, KIND),
    (BAD_LIST, Holder::Nil, KIND),
    (BAD_LIST, STALE, KIND),
    (BAD_LIST, Holder::Int(0), BAD),
    (BAD_LIST, Holder::Int(1), BAD),
    (LONG_LIST, Holder::Int(1), BAD),
    // By a key: there, absent, and what is no key.
    (TABLE, TEXT, Ok(Holder::True)),
    (TABLE, Holder::Int(7), Ok(Holder::Int(8))),
    (TABLE, LIVE_TEXT, Ok(Holder::Nil)),
    (TABLE, Holder::Int(8), Ok(Holder::Nil)),
    (TABLE, TADS, Ok(Holder::Nil)),
    (TABLE, LIST, Err(Fault::KeyKind)),
    (TABLE, STALE, Err(Fault::Stale)),
    (TABLE, BAD_TEXT, BAD),
];

/// The first row of whose container and index something else comes.
fn first_unlike(
    alloc: Global,
    store: &Store,
    pools: &Pools,
    rows: &[Row],
) -> Result<Option<Row>, Fail> {
    for row in rows {
        let (container, at, want) = *row;
        if index(alloc, container, at, store, pools)? != want {
            return Ok(Some(*row));
        }
    }
    Ok(None)
}

/// The same of the fixture's containers.
fn first_unlike_element(alloc: Global, rows: &[Row]) -> Result<Option<Row>, Fail> {
    let pools = pools(alloc)?;
    let store = store(alloc)?;
    first_unlike(alloc, &store, &pools, rows)
}

#[test]
fn an_element_by_its_index(rt: HostRuntime) -> Result<(), Fail> {
    assert_eq!(rt; first_unlike_element(rt.alloc(), &ROWS)?, None);
    Ok(())
}

/// A value that is no container, and what is told of it.
type OtherRow = (Holder, Result<Holder, Fault>);

const OTHER_ROWS: [OtherRow; 13] = [
    (Holder::Nil, KIND),
    (Holder::True, KIND),
    (Holder::Int(7), KIND),
    (Holder::Enum(7), KIND),
    (Holder::Prop(7), KIND),
    (Holder::Shown(0), KIND),
    (Holder::Code(7), KIND),
    (Holder::Func(7), KIND),
    (TEXT, KIND),
    (BAD_TEXT, KIND),
    (LIVE_TEXT, KIND),
    (TADS, KIND),
    (STALE, Err(Fault::Stale)),
];

/// The first row of whose value something else is told with this index.
fn first_unlike_at(
    alloc: Global,
    at: Holder,
    store: &Store,
    pools: &Pools,
    rows: &[OtherRow],
) -> Result<Option<OtherRow>, Fail> {
    for row in rows {
        let (value, want) = *row;
        if index(alloc, value, at, store, pools)? != want {
            return Ok(Some(*row));
        }
    }
    Ok(None)
}

/// The first of these indices with which something else is told of a row, and the row.
fn first_unlike_other(
    alloc: Global,
    indices: &[Holder],
    rows: &[OtherRow],
) -> Result<Option<(Holder, OtherRow)>, Fail> {
    let pools = pools(alloc)?;
    let store = store(alloc)?;
    for at in indices {
        if let Some(row) = first_unlike_at(alloc, *at, &store, &pools, rows)? {
            return Ok(Some((*at, row)));
        }
    }
    Ok(None)
}

/// An index, one that is gone, and one that can't be read.
const INDICES: [Holder; 3] = [ONE, STALE, BAD_TEXT];

#[test]
fn what_is_no_container_is_told_first(rt: HostRuntime) -> Result<(), Fail> {
    let unlike = first_unlike_other(rt.alloc(), &INDICES, &OTHER_ROWS)?;
    assert_eq!(rt; unlike, None);
    Ok(())
}

/// What is found in the fixture's table by a new text of these bytes.
fn entry_of(
    alloc: Global,
    bytes: &[u8],
    store: &mut Store,
    pools: &Pools,
) -> Result<Result<Holder, Fault>, Fail> {
    let text = add_text(alloc, store, bytes)?;
    Ok(index(alloc, TABLE, text, store, pools)?)
}

#[test]
fn an_equal_text_finds_the_entry(rt: HostRuntime) -> Result<(), Fail> {
    let alloc = rt.alloc();
    let pools = pools(alloc)?;
    let mut store = store(alloc)?;
    let found = entry_of(alloc, b"ab", &mut store, &pools)?;
    assert_eq!(rt; found, Ok(Holder::True));
    Ok(())
}

const WANT_RANGE: Want = Want::Fault(Fault::IndexRange);

/// A value, an index, and what is wanted with the stale reference set there.
type SetRow = (Holder, Holder, Want);

const SET_ROWS: [SetRow; 21] = [
    (LIST, Holder::Int(0), WANT_RANGE),
    (LIST, ONE, Want::List(&[STALE, Holder::Nil])),
    (LIST, Holder::Int(2), Want::List(&[ONE, STALE])),
    (LIST, Holder::Int(3), WANT_RANGE),
    (LIST, Holder::Int(-1), WANT_RANGE),
    (EMPTY_LIST, ONE, WANT_RANGE),
    (LIVE_LIST, ONE, Want::List(&[STALE])),
    (LIVE_LIST, Holder::Int(2), WANT_RANGE),
    (LIST, Holder::True, WANT_KIND),
    (LIST, STALE, WANT_KIND),
    (BAD_LIST, Holder::Nil, WANT_KIND),
    (BAD_LIST, Holder::Int(0), WANT_BAD),
    (LONG_LIST, ONE, WANT_BAD),
    (VECTOR, ONE, WANT_KIND),
    (TABLE, ONE, WANT_KIND),
    (TADS, ONE, WANT_KIND),
    (TEXT, ONE, WANT_KIND),
    (BAD_TEXT, ONE, WANT_KIND),
    (Holder::Nil, ONE, WANT_KIND),
    (STALE, ONE, GONE),
    (STALE, Holder::Nil, GONE),
];

/// Whether a row is as wanted, in a store of its own.
fn is_set(alloc: Global, row: SetRow, pools: &Pools) -> Result<bool, Fail> {
    let (list, at, want) = row;
    let mut store = store(alloc)?;
    let answer = list_with_element(alloc, list, at, STALE, &mut store, pools);
    Ok(is_wanted(want, answer, &store))
}

/// The value and the index of the first row that isn't as wanted.
fn first_unlike_set(alloc: Global, rows: &[SetRow]) -> Result<Option<(Holder, Holder)>, Fail> {
    let pools = pools(alloc)?;
    for row in rows {
        if !is_set(alloc, *row, &pools)? {
            return Ok(Some((row.0, row.1)));
        }
    }
    Ok(None)
}

#[test]
fn a_list_with_an_element_set(rt: HostRuntime) -> Result<(), Fail> {
    assert_eq!(rt; first_unlike_set(rt.alloc(), &SET_ROWS)?, None);
    Ok(())
}

/// Adds a list of 65,535 nils.
fn add_long_list(alloc: Global, store: &mut Store) -> Result<Holder, Fail> {
    let items = [Holder::Nil].repeat(alloc, 65_535)?;
    add_list(alloc, store, &items)
}

/// A store with room for two lists of 65,535 elements, and one of nils.
fn store_of_long_list(alloc: Global) -> Result<Store, Fail> {
    let mut store = empty_store(alloc, 3, 131_070)?;
    let _list = add_long_list(alloc, &mut store)?;
    Ok(store)
}

/// What is told where the last element of that list is set to its number.
fn set_last(alloc: Global, store: &mut Store, pools: &Pools) -> Result<Holder, OpRefusal> {
    let last = Holder::Int(65_535);
    list_with_element(alloc, Holder::Obj(1), last, last, store, pools)
}

/// The last elements of that list and of the next one.
const LAST_ROWS: [Row; 2] = [
    (Holder::Obj(2), Holder::Int(65_535), Ok(Holder::Int(65_535))),
    (Holder::Obj(1), Holder::Int(65_535), Ok(Holder::Nil)),
];

/// The last element is set, and the lists are as these rows say; then the store has no unit left.
fn check_last(
    rt: &impl Abort,
    alloc: Global,
    store: &mut Store,
    pools: &Pools,
    rows: &[Row],
) -> Result<(), Fail> {
    assert_eq!(rt; set_last(alloc, store, pools), Ok(Holder::Obj(2)));
    assert_eq!(rt; first_unlike(alloc, store, pools, rows)?, None);
    assert_eq!(rt; set_last(alloc, store, pools), Err(OpRefusal::Full));
    Ok(())
}

/// The same of the long list in a store of its own.
fn check_long_list(rt: &impl Abort, alloc: Global, rows: &[Row]) -> Result<(), Fail> {
    let pools = pools(alloc)?;
    let mut store = store_of_long_list(alloc)?;
    check_last(rt, alloc, &mut store, &pools, rows)
}

#[test]
fn a_list_of_65535_elements_has_one_set(rt: HostRuntime) -> Result<(), Fail> {
    check_long_list(&rt, rt.alloc(), &LAST_ROWS)
}

/// An index, and the number of the element of a vector there.
type NumberRow = (Holder, Result<u32, Fault>);

const NUMBER_ROWS: [NumberRow; 8] = [
    (Holder::Int(i32::MIN), Err(Fault::IndexRange)),
    (Holder::Int(-1), Err(Fault::IndexRange)),
    (Holder::Int(0), Err(Fault::IndexRange)),
    (Holder::Int(1), Ok(1)),
    (Holder::Int(65_535), Ok(65_535)),
    (Holder::Int(65_536), Err(Fault::IndexRange)),
    (Holder::Nil, Err(Fault::Kind)),
    (STALE, Err(Fault::Kind)),
];

/// The first row of whose index another number comes.
fn first_unlike_number(rows: &[NumberRow]) -> Option<NumberRow> {
    for row in rows {
        let (at, want) = *row;
        if vector_index(at) != want {
            return Some(*row);
        }
    }
    None
}

#[test]
fn the_number_of_an_element_of_a_vector(rt: HostRuntime) {
    assert_eq!(rt; first_unlike_number(&NUMBER_ROWS), None);
}
