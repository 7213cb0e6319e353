//! Whether two values are equal: each kind beside each, and lists in lists.
use crate::fixture::{STALE, TABLE, TADS, VECTOR, add_list, add_text, empty_store, paged, store};
use std::alloc::Global;
use std::test::Fail;
use t3_holder::Holder;
use t3_ops::{EqualRefusal, Fault, equal};
use t3_pools::Pools;
use t3_store::Store;

/// Constants one after the other. The names below say what stands where.
const LAID_OUT: &[u8] = b"\
    \x05\x00hallo\
    \x05\x00hallo\
    \x04\x00hall\
    \x02\x00\xC3\xA9\
    \x00\x00\
    \x01\x00\xFF\
    \x02\x00\x07\x01\x00\x00\x00\x07\x02\x00\x00\x00\
    \x02\x00\x07\x01\x00\x00\x00\x07\x02\x00\x00\x00\
    \x03\x00\x07\x01\x00\x00\x00\x07\x02\x00\x00\x00\x07\x03\x00\x00\x00\
    \x01\x00\x0A\x29\x00\x00\x00\
    \x01\x00\x0A\x46\x00\x00\x00\
    \x01\x00\x0A\x1D\x00\x00\x00\
    \x01\x00\x0A\x54\x00\x00\x00\
    \x02\x00\x07\x01\x00\x00\x00\x0A\x62\x00\x00\x00\
    \x02\x00\x0A\x6E\x00\x00\x00\x07\x01\x00\x00\x00\
    \x02\x00\x07\x01\x00\x00\x00\x0A\x7A\x00\x00\x00\
    \x01\x00\x08\x1A\x00\x00\x00\
    \x09\x00ab";

const HALLO: Holder = Holder::Text(0);

const HALLO_AGAIN: Holder = Holder::Text(7);

const HALL: Holder = Holder::Text(14);

/// One character of two bytes past 7F.
const ACCENT: Holder = Holder::Text(20);

const EMPTY: Holder = Holder::Text(24);

const EMPTY_LIST: Holder = Holder::List(24);

/// No UTF-8, and a list whose element means nothing.
const UNREAD: Holder = Holder::Text(26);

const UNREAD_LIST: Holder = Holder::List(26);

/// Its bytes end after the constants.
const CUT: Holder = Holder::Text(141);

/// 1, 2
pub(crate) const PAIR: Holder = Holder::List(29);

pub(crate) const PAIR_AGAIN: Holder = Holder::List(41);

/// 1, 2, 3
pub(crate) const THREE: Holder = Holder::List(53);

/// A list of the second pair, and a list of that.
const IN_LIST: Holder = Holder::List(70);

const IN_TWO_LISTS: Holder = Holder::List(77);

/// A list of a list of the first pair.
const IN_TWO_LISTS_AGAIN: Holder = Holder::List(91);

/// 1 and the list itself
const ITSELF_LAST: Holder = Holder::List(98);

/// The list itself and 1
const ITSELF_FIRST: Holder = Holder::List(110);

/// 1 and the list itself, elsewhere
const ITSELF_LAST_AGAIN: Holder = Holder::List(122);

/// A list of the constant that is no UTF-8
const OF_UNREAD: Holder = Holder::List(134);

const BAD: Result<bool, Fault> = Err(Fault::BadConstant);

pub(crate) const LONG: Result<bool, Fault> = Err(Fault::CompareLong);

/// The strings and lists of [`store_of_lists`]: `hallo`, and again, and one character past 7F.
const LIVE: Holder = Holder::Obj(6);

const LIVE_AGAIN: Holder = Holder::Obj(7);

const LIVE_ACCENT: Holder = Holder::Obj(8);

/// 1, 2
const LIVE_LIST: Holder = Holder::Obj(9);

/// The live text, in a list whose other element is the stale reference.
const MIXED: Holder = Holder::Obj(10);

/// The same with the constant text.
const MIXED_AGAIN: Holder = Holder::Obj(11);

const LIVE_OF_UNREAD: Holder = Holder::Obj(12);

/// The elements of the fixture's vector.
const NUMBERS: Holder = Holder::Obj(13);

/// What is told of two values with some turns, and the turns that are left where it is.
pub(crate) fn told(
    alloc: Global,
    left: Holder,
    right: Holder,
    store: &Store,
    pools: &Pools,
    turns: u32,
) -> Result<(Result<bool, Fault>, u32), Fail> {
    let mut left_turns = turns;
    match equal(alloc, left, right, store, pools, &mut left_turns) {
        Ok(is) => Ok((Ok(is), left_turns)),
        Err(EqualRefusal::Fault(fault)) => Ok((Err(fault), 0)),
        Err(EqualRefusal::NoMemory) => Err(Fail::from("memory")),
    }
}

/// Two values, what is told of them, and the turns that it takes.
pub(crate) type Row = (Holder, Holder, Result<bool, Fault>, u32);

/// Whether of a row's values is told what it says with so many turns, and takes as many of them.
pub(crate) fn is_told(
    alloc: Global,
    turns: u32,
    row: Row,
    store: &Store,
    pools: &Pools,
) -> Result<bool, Fail> {
    let (left, right, want, takes) = row;
    let rest = if want.is_ok() {
        turns.wrapping_sub(takes)
    } else {
        0
    };
    Ok(told(alloc, left, right, store, pools, turns)? == (want, rest))
}

/// The first row that isn't so.
fn first_unlike(
    alloc: Global,
    turns: u32,
    store: &Store,
    pools: &Pools,
    rows: &[Row],
) -> Result<Option<Row>, Fail> {
    for row in rows {
        if !is_told(alloc, turns, *row, store, pools)? {
            return Ok(Some(*row));
        }
    }
    Ok(None)
}

/// The constants on pages of so many bytes.
pub(crate) fn laid_out(alloc: Global, size: u32) -> Result<Pools, Fail> {
    paged(alloc, size, LAID_OUT)
}

/// The first row that isn't so without objects, and with the constants on such pages.
fn first_unlike_on(
    alloc: Global,
    size: u32,
    turns: u32,
    rows: &[Row],
) -> Result<Option<Row>, Fail> {
    let pools = laid_out(alloc, size)?;
    let store = empty_store(alloc, 1, 1)?;
    first_unlike(alloc, turns, &store, &pools, rows)
}

/// The same on pages of several sizes.
fn first_unlike_on_pages(
    alloc: Global,
    turns: u32,
    rows: &[Row],
) -> Result<Option<(u32, Row)>, Fail> {
    for size in &PAGE_SIZES {
        if let Some(row) = first_unlike_on(alloc, *size, turns, rows)? {
            return Ok(Some((*size, row)));
        }
    }
    Ok(None)
}

const PAGE_SIZES: [u32; 5] = [1, 4, 7, 61, 0x7FFF_FFFF];

const CONSTANT_ROWS: [Row; 34] = [
    (HALLO, HALLO, Ok(true), 1),
    (HALLO, HALLO_AGAIN, Ok(true), 1),
    (HALLO, HALL, Ok(false), 1),
    (HALL, HALLO, Ok(false), 1),
    (ACCENT, ACCENT, Ok(true), 1),
    (ACCENT, HALL, Ok(false), 1),
    (EMPTY, EMPTY, Ok(true), 1),
    (EMPTY, HALLO, Ok(false), 1),
    // A constant that can't be read is read where the other is a text too, itself as well.
    (UNREAD, UNREAD, BAD, 0),
    (UNREAD, HALLO, BAD, 0),
    (HALLO, UNREAD, BAD, 0),
    (HALLO, CUT, BAD, 0),
    (CUT, UNREAD, BAD, 0),
    // And isn't beside a list, or what is neither.
    (UNREAD, PAIR, Ok(false), 1),
    (UNREAD_LIST, HALLO, Ok(false), 1),
    (UNREAD, UNREAD_LIST, Ok(false), 1),
    (UNREAD, Holder::Nil, Ok(false), 1),
    (UNREAD, STALE, Ok(false), 1),
    (HALLO, Holder::Shown(0), Ok(false), 1),
    (UNREAD_LIST, UNREAD_LIST, BAD, 0),
    (PAIR, UNREAD_LIST, BAD, 0),
    (UNREAD_LIST, PAIR, BAD, 0),
    (PAIR, PAIR_AGAIN, Ok(true), 3),
    // Of two lengths, whatever stands in them.
    (PAIR, THREE, Ok(false), 1),
    (THREE, PAIR, Ok(false), 1),
    (EMPTY_LIST, EMPTY_LIST, Ok(true), 1),
    (EMPTY_LIST, PAIR, Ok(false), 1),
    (EMPTY, EMPTY_LIST, Ok(false), 1),
    // The lists, the lists in them, the pairs, and then their elements.
    (IN_TWO_LISTS, IN_TWO_LISTS_AGAIN, Ok(true), 5),
    (IN_TWO_LISTS, IN_LIST, Ok(false), 2),
    (OF_UNREAD, OF_UNREAD, BAD, 0),
    // A list in itself has no last pair.
    (ITSELF_LAST, ITSELF_LAST, LONG, 0),
    (ITSELF_FIRST, ITSELF_FIRST, LONG, 0),
    (ITSELF_LAST, ITSELF_FIRST, Ok(false), 2),
];

const ENDLESS_ROWS: [Row; 1] = [(ITSELF_LAST, ITSELF_LAST_AGAIN, LONG, 0)];

#[test]
fn constants_are_looked_into(rt: HostRuntime) -> Result<(), Fail> {
    let alloc = rt.alloc();
    assert_eq!(rt; first_unlike_on_pages(alloc, 10, &CONSTANT_ROWS)?, None);
    assert_eq!(rt; first_unlike_on_pages(alloc, 65_536, &ENDLESS_ROWS)?, None);
    Ok(())
}

/// Adds the three strings.
fn add_texts(alloc: Global, store: &mut Store) -> Result<(), Fail> {
    for bytes in &[b"hallo".as_slice(), b"hallo", b"\xC3\xA9"] {
        let _text = add_text(alloc, store, bytes)?;
    }
    Ok(())
}

/// Adds the five lists.
fn add_lists(alloc: Global, store: &mut Store) -> Result<(), Fail> {
    let _list = add_list(alloc, store, &[Holder::Int(1), Holder::Int(2)])?;
    let _mixed = add_list(alloc, store, &[LIVE, STALE])?;
    let _mixed_again = add_list(alloc, store, &[HALLO, STALE])?;
    let _of_unread = add_list(alloc, store, &[UNREAD])?;
    let _numbers = add_list(alloc, store, &[Holder::Int(4), Holder::Int(5)])?;
    Ok(())
}

/// The fixture's store with three strings and five lists more.
fn store_of_lists(alloc: Global) -> Result<Store, Fail> {
    let mut store = store(alloc)?;
    add_texts(alloc, &mut store)?;
    add_lists(alloc, &mut store)?;
    Ok(store)
}

const OBJECT_ROWS: [Row; 28] = [
    (LIVE, LIVE, Ok(true), 1),
    (LIVE, LIVE_AGAIN, Ok(true), 1),
    (LIVE, HALLO, Ok(true), 1),
    (HALLO, LIVE, Ok(true), 1),
    (LIVE, HALL, Ok(false), 1),
    (LIVE_ACCENT, ACCENT, Ok(true), 1),
    (LIVE, UNREAD, BAD, 0),
    (UNREAD, LIVE, BAD, 0),
    (LIVE_LIST, PAIR, Ok(true), 3),
    (PAIR, LIVE_LIST, Ok(true), 3),
    (LIVE_LIST, THREE, Ok(false), 1),
    (LIVE_LIST, UNREAD_LIST, BAD, 0),
    (MIXED, MIXED_AGAIN, Ok(true), 3),
    (LIVE_OF_UNREAD, MIXED, Ok(false), 1),
    (LIVE_OF_UNREAD, OF_UNREAD, BAD, 0),
    // What is no text and no list is the same holder, or another.
    (STALE, STALE, Ok(true), 1),
    (STALE, Holder::Obj(98), Ok(false), 1),
    (STALE, LIVE, Ok(false), 1),
    (TADS, TADS, Ok(true), 1),
    (TADS, TABLE, Ok(false), 1),
    (TABLE, TABLE, Ok(true), 1),
    (VECTOR, VECTOR, Ok(true), 1),
    (VECTOR, NUMBERS, Ok(false), 1),
    (NUMBERS, NUMBERS, Ok(true), 3),
    (LIVE, LIVE_LIST, Ok(false), 1),
    (Holder::Nil, Holder::Nil, Ok(true), 1),
    (Holder::Int(1), Holder::Enum(1), Ok(false), 1),
    (Holder::Int(-1), Holder::Int(-1), Ok(true), 1),
];

/// The first row that isn't so with ten turns in that store.
fn first_unlike_object(alloc: Global, rows: &[Row]) -> Result<Option<Row>, Fail> {
    let pools = laid_out(alloc, 16)?;
    let store = store_of_lists(alloc)?;
    first_unlike(alloc, 10, &store, &pools, rows)
}

#[test]
fn objects_are_looked_into_where_they_are_texts_or_lists(rt: HostRuntime) -> Result<(), Fail> {
    assert_eq!(rt; first_unlike_object(rt.alloc(), &OBJECT_ROWS)?, None);
    Ok(())
}
