//! The strings that built-in functions make: of characters and of copies, at their ends and where the
//! store is full.
use crate::builtins::{Call, DATA_TYPE, MAKE_STRING, MAX, Row, TO_STRING, call, first_unlike};
use crate::fixture::{
    BAD, BAD_TEXT, EMPTY_TEXT, GONE, KIND, LIVE_TEXT, STALE, TEXT, Want, empty_store, pools,
};
use std::alloc::Global;
use std::test::Fail;
use t3_holder::Holder;
use t3_ops::{Fault, OpRefusal};
use t3_pools::Pools;
use t3_store::Store;

const RANGE: Want = Want::Fault(Fault::IndexRange);

const TOO_LONG: Want = Want::Fault(Fault::TextLong);

const CHARACTER_ROWS: [Row; 12] = [
    ((MAKE_STRING, &[Holder::Int(-1)]), RANGE),
    ((MAKE_STRING, &[Holder::Int(0)]), Want::Text(b"\x00")),
    ((MAKE_STRING, &[Holder::Int(0x7F)]), Want::Text(b"\x7F")),
    ((MAKE_STRING, &[Holder::Int(0x80)]), Want::Text(b"\xC2\x80")),
    (
        (MAKE_STRING, &[Holder::Int(0xD7FF)]),
        Want::Text(b"\xED\x9F\xBF"),
    ),
    ((MAKE_STRING, &[Holder::Int(0xD800)]), RANGE),
    ((MAKE_STRING, &[Holder::Int(0xDFFF)]), RANGE),
    (
        (MAKE_STRING, &[Holder::Int(0xE000)]),
        Want::Text(b"\xEE\x80\x80"),
    ),
    (
        (MAKE_STRING, &[Holder::Int(0x10_FFFF)]),
        Want::Text(b"\xF4\x8F\xBF\xBF"),
    ),
    ((MAKE_STRING, &[Holder::Int(0x11_0000)]), RANGE),
    ((MAKE_STRING, &[Holder::Int(i32::MAX)]), RANGE),
    ((MAKE_STRING, &[Holder::Int(i32::MIN)]), RANGE),
];

#[test]
fn strings_of_characters(rt: HostRuntime) -> Result<(), Fail> {
    assert_eq!(rt; first_unlike(rt.alloc(), &CHARACTER_ROWS)?, None);
    Ok(())
}

const LETTER: Holder = Holder::Int(0x41);

const SURROGATE: Holder = Holder::Int(0xD800);

const MANY: Holder = Holder::Int(65_536);

const LESS: Holder = Holder::Int(-1);

const COPY_ROWS: [Row; 26] = [
    ((MAKE_STRING, &[LETTER, Holder::Int(0)]), Want::Text(b"")),
    ((MAKE_STRING, &[LETTER, Holder::Int(1)]), Want::Text(b"A")),
    ((MAKE_STRING, &[LETTER, Holder::Int(3)]), Want::Text(b"AAA")),
    ((MAKE_STRING, &[LETTER, LESS]), RANGE),
    ((MAKE_STRING, &[LETTER, MANY]), RANGE),
    ((MAKE_STRING, &[TEXT, Holder::Int(0)]), Want::Text(b"")),
    ((MAKE_STRING, &[TEXT, Holder::Int(2)]), Want::Text(b"abab")),
    (
        (MAKE_STRING, &[LIVE_TEXT, Holder::Int(2)]),
        Want::Text(b"cdcd"),
    ),
    (
        (MAKE_STRING, &[EMPTY_TEXT, Holder::Int(65_535)]),
        Want::Text(b""),
    ),
    ((MAKE_STRING, &[TEXT, LESS]), RANGE),
    ((MAKE_STRING, &[TEXT, MANY]), RANGE),
    // 65,536 bytes.
    ((MAKE_STRING, &[TEXT, Holder::Int(32_768)]), TOO_LONG),
    (
        (MAKE_STRING, &[Holder::Int(0x10_FFFF), Holder::Int(16_384)]),
        TOO_LONG,
    ),
    // What is no text and no integer, then a count that is none, then numbers, then a constant.
    ((MAKE_STRING, &[STALE, Holder::Nil]), GONE),
    ((MAKE_STRING, &[Holder::Nil, Holder::Nil]), KIND),
    ((MAKE_STRING, &[Holder::Nil, LESS]), KIND),
    ((MAKE_STRING, &[LETTER, Holder::Nil]), KIND),
    ((MAKE_STRING, &[LETTER, STALE]), KIND),
    ((MAKE_STRING, &[TEXT, STALE]), KIND),
    ((MAKE_STRING, &[SURROGATE, Holder::Nil]), KIND),
    ((MAKE_STRING, &[SURROGATE, LESS]), RANGE),
    ((MAKE_STRING, &[BAD_TEXT, Holder::Nil]), KIND),
    ((MAKE_STRING, &[BAD_TEXT, LESS]), RANGE),
    ((MAKE_STRING, &[BAD_TEXT, MANY]), RANGE),
    ((MAKE_STRING, &[BAD_TEXT, Holder::Int(0)]), BAD),
    ((MAKE_STRING, &[BAD_TEXT, Holder::Int(32_768)]), BAD),
];

#[test]
fn strings_of_copies(rt: HostRuntime) -> Result<(), Fail> {
    assert_eq!(rt; first_unlike(rt.alloc(), &COPY_ROWS)?, None);
    Ok(())
}

/// A text or a character, how many copies are made of it, and their bytes.
type LongRow = (Holder, i32, usize);

const LONG_ROWS: [LongRow; 3] = [
    (LETTER, 65_535, 65_535),
    (TEXT, 32_767, 65_534),
    (Holder::Int(0x10_FFFF), 16_383, 65_532),
];

/// How many bytes the string has that a call makes.
fn length_made(
    alloc: Global,
    args: &[Holder],
    store: &mut Store,
    pools: &Pools,
) -> Result<(Holder, usize), Fail> {
    let made = call(alloc, MAKE_STRING, args, store, pools)??;
    let Holder::Obj(number) = made else {
        return Err(Fail::from("an object"));
    };
    Ok((made, store.text(number).map_or(0, |bytes| bytes.len())))
}

/// Whether a row's string has its bytes, and can be made a string again.
fn is_made_long(
    alloc: Global,
    row: LongRow,
    store: &mut Store,
    pools: &Pools,
) -> Result<bool, Fail> {
    let (value, count, size) = row;
    let (made, length) = length_made(alloc, &[value, Holder::Int(count)], store, pools)?;
    let again = call(alloc, TO_STRING, &[made], store, pools)?;
    Ok(length == size && again.is_ok())
}

/// The first row that isn't so, all in one store.
fn first_unlike_long(alloc: Global, rows: &[LongRow]) -> Result<Option<LongRow>, Fail> {
    let pools = pools(alloc)?;
    let mut store = empty_store(alloc, 10, 100_000)?;
    for row in rows {
        if !is_made_long(alloc, *row, &mut store, &pools)? {
            return Ok(Some(*row));
        }
    }
    Ok(None)
}

#[test]
fn strings_have_65535_bytes(rt: HostRuntime) -> Result<(), Fail> {
    assert_eq!(rt; first_unlike_long(rt.alloc(), &LONG_ROWS)?, None);
    Ok(())
}

const SEVEN: Holder = Holder::Int(7);

const FULL: Result<Holder, OpRefusal> = Err(OpRefusal::Full);

/// A call, and its answer where the store has no room.
type FullRow = (Call, Result<Holder, OpRefusal>);

const FULL_ROWS: [FullRow; 8] = [
    ((TO_STRING, &[SEVEN]), FULL),
    ((TO_STRING, &[EMPTY_TEXT]), FULL),
    ((MAKE_STRING, &[SEVEN]), FULL),
    ((MAKE_STRING, &[SEVEN, Holder::Int(0)]), FULL),
    // A value is made without room, and a fault comes before the room.
    ((DATA_TYPE, &[SEVEN]), Ok(SEVEN)),
    ((MAX, &[SEVEN, SEVEN]), Ok(SEVEN)),
    (
        (TO_STRING, &[BAD_TEXT]),
        Err(OpRefusal::Fault(Fault::BadConstant)),
    ),
    (
        (MAKE_STRING, &[TEXT, Holder::Int(32_768)]),
        Err(OpRefusal::Fault(Fault::TextLong)),
    ),
];

/// Whether a call answers what its row says, and makes no object.
fn makes_nothing(
    alloc: Global,
    row: FullRow,
    store: &mut Store,
    pools: &Pools,
) -> Result<bool, Fail> {
    let (of, want) = row;
    let answer = call(alloc, of.0, of.1, store, pools)?;
    Ok(answer == want && store.next() == 1)
}

/// The first call that isn't so, in a store without room.
fn first_unlike_full(alloc: Global, rows: &[FullRow]) -> Result<Option<Call>, Fail> {
    let pools = pools(alloc)?;
    let mut store = empty_store(alloc, 0, 0)?;
    for row in rows {
        if !makes_nothing(alloc, *row, &mut store, &pools)? {
            return Ok(Some(row.0));
        }
    }
    Ok(None)
}

#[test]
fn a_full_store_takes_no_string(rt: HostRuntime) -> Result<(), Fail> {
    assert_eq!(rt; first_unlike_full(rt.alloc(), &FULL_ROWS)?, None);
    Ok(())
}
