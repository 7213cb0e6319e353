//! The order of two values.
use crate::fixture::{STALE, TABLE, TADS, add_list, add_text, paged, store};
use std::alloc::Global;
use std::cmp::Ordering;
use std::test::Fail;
use t3_holder::Holder;
use t3_ops::{Fault, kind_fault, order, same_holder};
use t3_pools::Pools;
use t3_store::Store;

/// `b`, `ab`, `abc`, a byte past 7F, nothing, and what isn't UTF-8.
const LAID_OUT: &[u8] = b"\
    \x01\x00b\
    \x02\x00ab\
    \x03\x00abc\
    \x02\x00\xC3\xA9\
    \x00\x00\
    \x01\x00\xFF";

const B: Holder = Holder::Text(0);

const AB: Holder = Holder::Text(3);

const ABC: Holder = Holder::Text(7);

const ACCENT: Holder = Holder::Text(12);

const EMPTY: Holder = Holder::Text(16);

const UNREAD: Holder = Holder::Text(18);

const LESS: Result<Ordering, Fault> = Ok(Ordering::Less);

const EQUAL: Result<Ordering, Fault> = Ok(Ordering::Equal);

const GREATER: Result<Ordering, Fault> = Ok(Ordering::Greater);

const KIND: Result<Ordering, Fault> = Err(Fault::Kind);

const GONE: Result<Ordering, Fault> = Err(Fault::Stale);

const BAD: Result<Ordering, Fault> = Err(Fault::BadConstant);

/// The string `abd` of [`store_of_two`].
const LIVE: Holder = Holder::Obj(6);

/// Its list of nil.
const LIVE_LIST: Holder = Holder::Obj(7);

/// The fixture's store with a string and a list more.
fn store_of_two(alloc: Global) -> Result<Store, Fail> {
    let mut store = store(alloc)?;
    let _text = add_text(alloc, &mut store, b"abd")?;
    let _list = add_list(alloc, &mut store, &[Holder::Nil])?;
    Ok(store)
}

/// Two values, and what is told of them.
type Row = (Holder, Holder, Result<Ordering, Fault>);

const ROWS: [Row; 31] = [
    (Holder::Int(1), Holder::Int(2), LESS),
    (Holder::Int(-1), Holder::Int(-1), EQUAL),
    (Holder::Int(i32::MAX), Holder::Int(i32::MIN), GREATER),
    (AB, ABC, LESS),
    (ABC, AB, GREATER),
    (B, ABC, GREATER),
    (ABC, ABC, EQUAL),
    (ABC, LIVE, LESS),
    (LIVE, ABC, GREATER),
    (LIVE, LIVE, EQUAL),
    // Bytes have no sign.
    (ACCENT, B, GREATER),
    (EMPTY, AB, LESS),
    (EMPTY, EMPTY, EQUAL),
    (UNREAD, AB, BAD),
    (AB, UNREAD, BAD),
    (UNREAD, UNREAD, BAD),
    // No constant is read where the kinds don't fit.
    (UNREAD, Holder::Int(1), KIND),
    (Holder::Nil, Holder::Nil, KIND),
    (Holder::Int(1), AB, KIND),
    (AB, Holder::Int(1), KIND),
    (Holder::Enum(1), Holder::Enum(2), KIND),
    (LIVE_LIST, LIVE_LIST, KIND),
    (AB, LIVE_LIST, KIND),
    (TADS, TABLE, KIND),
    (Holder::Shown(0), AB, KIND),
    // A stale reference comes first, on either side.
    (STALE, STALE, GONE),
    (STALE, AB, GONE),
    (AB, STALE, GONE),
    (UNREAD, STALE, GONE),
    (Holder::Int(1), STALE, GONE),
    (STALE, LIVE_LIST, GONE),
];

/// The first row of whose values something else is told.
fn first_unlike(store: &Store, pools: &Pools, rows: &[Row]) -> Option<Row> {
    for row in rows {
        let (left, right, want) = *row;
        if order(left, right, store, pools) != want {
            return Some(*row);
        }
    }
    None
}

/// The constants on pages of so many bytes.
fn laid_out(alloc: Global, size: u32) -> Result<Pools, Fail> {
    paged(alloc, size, LAID_OUT)
}

/// The same with the constants on such pages.
fn first_unlike_on(
    alloc: Global,
    size: u32,
    store: &Store,
    rows: &[Row],
) -> Result<Option<Row>, Fail> {
    let pools = laid_out(alloc, size)?;
    Ok(first_unlike(store, &pools, rows))
}

/// The same on pages of each size.
fn first_unlike_on_pages(
    alloc: Global,
    sizes: &[u32],
    rows: &[Row],
) -> Result<Option<(u32, Row)>, Fail> {
    let store = store_of_two(alloc)?;
    for size in sizes {
        if let Some(row) = first_unlike_on(alloc, *size, &store, rows)? {
            return Ok(Some((*size, row)));
        }
    }
    Ok(None)
}

const PAGE_SIZES: [u32; 4] = [1, 2, 5, 0x7FFF_FFFF];

#[test]
fn integers_and_texts_are_in_order(rt: HostRuntime) -> Result<(), Fail> {
    let unlike = first_unlike_on_pages(rt.alloc(), &PAGE_SIZES, &ROWS)?;
    assert_eq!(rt; unlike, None);
    Ok(())
}

/// Values, and the fault that is told of them.
type FaultRow = (&'static [Holder], Fault);

const FAULT_ROWS: [FaultRow; 4] = [
    (&[], Fault::Kind),
    (&[Holder::Nil, TADS], Fault::Kind),
    (&[STALE], Fault::Stale),
    (&[Holder::Nil, TADS, STALE], Fault::Stale),
];

/// The first row of whose values another fault is told.
fn first_unlike_fault(alloc: Global, rows: &[FaultRow]) -> Result<Option<FaultRow>, Fail> {
    let store = store(alloc)?;
    for row in rows {
        let (values, want) = *row;
        if kind_fault(&store, values) != want {
            return Ok(Some(*row));
        }
    }
    Ok(None)
}

/// Two values, and whether they are the same holder. Two texts of the same bytes are two holders, and so are
/// two types of the same bits.
type SameRow = (Holder, Holder, bool);

const SAME_ROWS: [SameRow; 4] = [
    (AB, AB, true),
    (AB, ABC, false),
    (AB, Holder::Shown(3), false),
    (Holder::Nil, Holder::Int(0), false),
];

/// The first row of whose values the opposite is told.
fn first_unlike_same(rows: &[SameRow]) -> Option<SameRow> {
    for row in rows {
        let (left, right, want) = *row;
        if same_holder(left, right) != want {
            return Some(*row);
        }
    }
    None
}

#[test]
fn a_stale_reference_is_told_before_a_kind(rt: HostRuntime) -> Result<(), Fail> {
    assert_eq!(rt; first_unlike_fault(rt.alloc(), &FAULT_ROWS)?, None);
    assert_eq!(rt; first_unlike_same(&SAME_ROWS), None);
    Ok(())
}
