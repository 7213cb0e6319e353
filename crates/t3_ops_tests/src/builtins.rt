//! The built-in functions that make one object at most: by how many arguments they get, by their
//! kinds, and at their ends.
use crate::fixture::{
    BAD, BAD_LIST, BAD_TEXT, EMPTY_TEXT, GONE, KIND, LIST, LIVE_LIST, LIVE_TEXT, STALE, TABLE,
    TADS, TEXT, VALUES, VECTOR, Want, WantRow, add_text, is_wanted, pools, store, want_with,
};
use std::alloc::Global;
use std::test::Fail;
use t3_holder::Holder;
use t3_ops::{Fault, OpRefusal, pure_at, pure_builtin};
use t3_pools::Pools;
use t3_store::Store;

pub(crate) const DATA_TYPE: u8 = 0;

pub(crate) const TO_STRING: u8 = 6;

const TO_INTEGER: u8 = 7;

pub(crate) const MAX: u8 = 18;

pub(crate) const MIN: u8 = 19;

pub(crate) const MAKE_STRING: u8 = 20;

const COUNT: Want = Want::Fault(Fault::ArgCount);

const SEVEN: Want = Want::Value(Holder::Int(7));

/// Calls a function that is one of the six.
pub(crate) fn call(
    alloc: Global,
    index: u8,
    args: &[Holder],
    store: &mut Store,
    pools: &Pools,
) -> Result<Result<Holder, OpRefusal>, Fail> {
    let Some(_) = pure_at(index) else {
        return Err(Fail::from("a function"));
    };
    Ok(pure_builtin(alloc, index, args, store, pools))
}

/// A function and its arguments.
pub(crate) type Call = (u8, &'static [Holder]);

/// A call, and what is wanted of it.
pub(crate) type Row = (Call, Want);

/// Whether a call answers and makes what is wanted, in a store of its own.
fn is_like(
    alloc: Global,
    index: u8,
    args: &[Holder],
    want: Want,
    pools: &Pools,
) -> Result<bool, Fail> {
    let mut store = store(alloc)?;
    let answer = call(alloc, index, args, &mut store, pools)?;
    Ok(is_wanted(want, answer, &store))
}

/// The first call that isn't as wanted.
pub(crate) fn first_unlike(alloc: Global, rows: &[Row]) -> Result<Option<Call>, Fail> {
    let pools = pools(alloc)?;
    for (call, want) in rows {
        if !is_like(alloc, call.0, call.1, *want, &pools)? {
            return Ok(Some(*call));
        }
    }
    Ok(None)
}

/// The first index that has a function, or none, although it is none of the six, or one.
fn first_misplaced() -> Option<u8> {
    for index in 0..=255 {
        let is_one = matches!(index, 0 | 6 | 7 | 18 | 19 | 20);
        if pure_at(index).is_some() != is_one {
            return Some(index);
        }
    }
    None
}

#[test]
fn the_six_have_their_indices(rt: HostRuntime) {
    assert_eq!(rt; first_misplaced(), None);
}

const ONE_SEVEN: &[Holder] = &[Holder::Int(7)];

const TWO_SEVENS: &[Holder] = &[Holder::Int(7), Holder::Int(7)];

const THREE_SEVENS: &[Holder] = &[Holder::Int(7), Holder::Int(7), Holder::Int(7)];

const THREE_STALE: &[Holder] = &[STALE, STALE, STALE];

const COUNT_ROWS: [Row; 28] = [
    ((DATA_TYPE, &[]), COUNT),
    ((DATA_TYPE, ONE_SEVEN), SEVEN),
    ((DATA_TYPE, TWO_SEVENS), COUNT),
    ((DATA_TYPE, THREE_SEVENS), COUNT),
    ((TO_STRING, &[]), COUNT),
    ((TO_STRING, ONE_SEVEN), Want::Text(b"7")),
    ((TO_STRING, TWO_SEVENS), COUNT),
    ((TO_STRING, THREE_SEVENS), COUNT),
    ((TO_INTEGER, &[]), COUNT),
    ((TO_INTEGER, ONE_SEVEN), SEVEN),
    ((TO_INTEGER, TWO_SEVENS), COUNT),
    ((TO_INTEGER, THREE_SEVENS), COUNT),
    ((MAX, &[]), COUNT),
    ((MAX, ONE_SEVEN), SEVEN),
    ((MAX, TWO_SEVENS), SEVEN),
    ((MAX, THREE_SEVENS), SEVEN),
    ((MIN, &[]), COUNT),
    ((MIN, ONE_SEVEN), SEVEN),
    ((MIN, TWO_SEVENS), SEVEN),
    ((MIN, THREE_SEVENS), SEVEN),
    ((MAKE_STRING, &[]), COUNT),
    ((MAKE_STRING, ONE_SEVEN), Want::Text(b"\x07")),
    (
        (MAKE_STRING, TWO_SEVENS),
        Want::Text(b"\x07\x07\x07\x07\x07\x07\x07"),
    ),
    ((MAKE_STRING, THREE_SEVENS), COUNT),
    // Their count is told before they are looked at.
    ((DATA_TYPE, THREE_STALE), COUNT),
    ((TO_STRING, THREE_STALE), COUNT),
    ((TO_INTEGER, THREE_STALE), COUNT),
    ((MAKE_STRING, THREE_STALE), COUNT),
];

#[test]
fn arguments_are_counted(rt: HostRuntime) -> Result<(), Fail> {
    assert_eq!(rt; first_unlike(rt.alloc(), &COUNT_ROWS)?, None);
    Ok(())
}

/// The first of the fixture's values with which alone a function doesn't answer what is wanted.
fn first_unlike_value(
    alloc: Global,
    index: u8,
    pools: &Pools,
    rows: &[WantRow],
) -> Result<Option<Holder>, Fail> {
    for value in &VALUES {
        let want = want_with(*value, rows, KIND);
        if !is_like(alloc, index, &[*value], want, pools)? {
            return Ok(Some(*value));
        }
    }
    Ok(None)
}

/// The types of the fixture's values.
const TYPES: [WantRow; 18] = [
    (Holder::Nil, Want::Value(Holder::Int(1))),
    (Holder::True, Want::Value(Holder::Int(2))),
    (Holder::Int(7), Want::Value(Holder::Int(7))),
    (Holder::Enum(7), Want::Value(Holder::Int(15))),
    (Holder::Prop(7), Want::Value(Holder::Int(6))),
    (Holder::Shown(0), Want::Value(Holder::Int(9))),
    (Holder::Code(7), Want::Value(Holder::Int(11))),
    (Holder::Func(7), Want::Value(Holder::Int(12))),
    (TEXT, Want::Value(Holder::Int(8))),
    (BAD_TEXT, Want::Value(Holder::Int(8))),
    (LIVE_TEXT, Want::Value(Holder::Int(5))),
    (LIST, Want::Value(Holder::Int(10))),
    (BAD_LIST, Want::Value(Holder::Int(10))),
    (LIVE_LIST, Want::Value(Holder::Int(5))),
    (VECTOR, Want::Value(Holder::Int(5))),
    (TABLE, Want::Value(Holder::Int(5))),
    (TADS, Want::Value(Holder::Int(5))),
    (STALE, Want::Value(Holder::Int(5))),
];

/// What has a string.
const STRINGS: [WantRow; 7] = [
    (Holder::Nil, Want::Text(b"nil")),
    (Holder::True, Want::Text(b"true")),
    (Holder::Int(7), Want::Text(b"7")),
    (TEXT, Want::Text(b"ab")),
    (BAD_TEXT, BAD),
    (LIVE_TEXT, Want::Text(b"cd")),
    (STALE, GONE),
];

/// What has an integer.
const INTEGERS: [WantRow; 7] = [
    (Holder::Nil, Want::Value(Holder::Int(0))),
    (Holder::True, Want::Value(Holder::Int(1))),
    (Holder::Int(7), SEVEN),
    (TEXT, Want::Value(Holder::Int(0))),
    (BAD_TEXT, BAD),
    (LIVE_TEXT, Want::Value(Holder::Int(0))),
    (STALE, GONE),
];

/// What is the greatest and the least alone. One text alone isn't read.
const BEST: [WantRow; 5] = [
    (Holder::Int(7), SEVEN),
    (TEXT, Want::Value(TEXT)),
    (BAD_TEXT, Want::Value(BAD_TEXT)),
    (LIVE_TEXT, Want::Value(LIVE_TEXT)),
    (STALE, GONE),
];

/// What can be copied.
const COPIES: [WantRow; 5] = [
    (Holder::Int(7), Want::Text(b"\x07")),
    (TEXT, Want::Text(b"ab")),
    (BAD_TEXT, BAD),
    (LIVE_TEXT, Want::Text(b"cd")),
    (STALE, GONE),
];

/// A function, and what is wanted of it with one of the fixture's values; with all others a fault.
type FunctionRow = (u8, &'static [WantRow]);

const FUNCTION_ROWS: [FunctionRow; 6] = [
    (DATA_TYPE, &TYPES),
    (TO_STRING, &STRINGS),
    (TO_INTEGER, &INTEGERS),
    (MAX, &BEST),
    (MIN, &BEST),
    (MAKE_STRING, &COPIES),
];

/// The first function, and the first of the fixture's values, whose answer isn't what is wanted.
fn first_unlike_function(
    alloc: Global,
    rows: &[FunctionRow],
) -> Result<Option<(u8, Holder)>, Fail> {
    let pools = pools(alloc)?;
    for (index, wants) in rows {
        if let Some(value) = first_unlike_value(alloc, *index, &pools, wants)? {
            return Ok(Some((*index, value)));
        }
    }
    Ok(None)
}

#[test]
fn a_value_of_each_kind(rt: HostRuntime) -> Result<(), Fail> {
    assert_eq!(rt; first_unlike_function(rt.alloc(), &FUNCTION_ROWS)?, None);
    Ok(())
}

const OVERFLOW: Result<Holder, OpRefusal> = Err(OpRefusal::Fault(Fault::Overflow));

/// The bytes of a text, and its integer.
type IntegerRow = (&'static [u8], Result<Holder, OpRefusal>);

const INTEGER_ROWS: [IntegerRow; 24] = [
    (b"", Ok(Holder::Int(0))),
    (b"   ", Ok(Holder::Int(0))),
    (b"-", Ok(Holder::Int(0))),
    (b"-0", Ok(Holder::Int(0))),
    (b"  -12", Ok(Holder::Int(-12))),
    (b"12abc", Ok(Holder::Int(12))),
    (b"-12abc", Ok(Holder::Int(-12))),
    (b"1 2", Ok(Holder::Int(1))),
    (b"9:", Ok(Holder::Int(9))),
    (b"/9", Ok(Holder::Int(0))),
    (b"- 1", Ok(Holder::Int(0))),
    (b"--1", Ok(Holder::Int(0))),
    (b"+1", Ok(Holder::Int(0))),
    (b"\t1", Ok(Holder::Int(0))),
    (b"007", Ok(Holder::Int(7))),
    (b"0000000000000000000000001", Ok(Holder::Int(1))),
    (b"2147483647", Ok(Holder::Int(2_147_483_647))),
    (b"2147483648", OVERFLOW),
    (b"-2147483648", Ok(Holder::Int(-2_147_483_648))),
    (b"-2147483649", OVERFLOW),
    (b"4294967297", OVERFLOW),
    (b"18446744073709551617", OVERFLOW),
    (b"99999999999999999999999x", OVERFLOW),
    (b"-99999999999999999999999", OVERFLOW),
];

/// Whether the integer of a new text is that of its row.
fn has_integer(
    alloc: Global,
    row: IntegerRow,
    store: &mut Store,
    pools: &Pools,
) -> Result<bool, Fail> {
    let (bytes, want) = row;
    let text = add_text(alloc, store, bytes)?;
    Ok(call(alloc, TO_INTEGER, &[text], store, pools)? == want)
}

/// The first row of whose text another integer comes, all in one store.
fn first_unlike_integer(alloc: Global, rows: &[IntegerRow]) -> Result<Option<IntegerRow>, Fail> {
    let pools = pools(alloc)?;
    let mut store = store(alloc)?;
    for row in rows {
        if !has_integer(alloc, *row, &mut store, &pools)? {
            return Ok(Some(*row));
        }
    }
    Ok(None)
}

#[test]
fn the_integer_of_a_text(rt: HostRuntime) -> Result<(), Fail> {
    assert_eq!(rt; first_unlike_integer(rt.alloc(), &INTEGER_ROWS)?, None);
    Ok(())
}

/// The string `ab` that is added to the fixture's store.
const SAME: Holder = Holder::Obj(6);

const ONE: Holder = Holder::Int(1);

const TWO: Holder = Holder::Int(2);

const LEAST: Holder = Holder::Int(i32::MIN);

const KIND_FAULT: Result<Holder, OpRefusal> = Err(OpRefusal::Fault(Fault::Kind));

const GONE_FAULT: Result<Holder, OpRefusal> = Err(OpRefusal::Fault(Fault::Stale));

const BAD_FAULT: Result<Holder, OpRefusal> = Err(OpRefusal::Fault(Fault::BadConstant));

/// Three values, the greatest of them, and the least.
type BestRow = (
    &'static [Holder],
    Result<Holder, OpRefusal>,
    Result<Holder, OpRefusal>,
);

const BEST_ROWS: [BestRow; 18] = [
    (&[ONE, TWO, ONE], Ok(TWO), Ok(ONE)),
    (&[TWO, ONE, LEAST], Ok(TWO), Ok(LEAST)),
    (&[LEAST, LEAST, ONE], Ok(ONE), Ok(LEAST)),
    (
        &[TEXT, LIVE_TEXT, EMPTY_TEXT],
        Ok(LIVE_TEXT),
        Ok(EMPTY_TEXT),
    ),
    // The first of equals.
    (&[TEXT, SAME, SAME], Ok(TEXT), Ok(TEXT)),
    (&[SAME, TEXT, SAME], Ok(SAME), Ok(SAME)),
    (&[EMPTY_TEXT, SAME, TEXT], Ok(SAME), Ok(EMPTY_TEXT)),
    (&[LIVE_TEXT, SAME, TEXT], Ok(LIVE_TEXT), Ok(SAME)),
    // All are looked at before two are compared, and read as they are.
    (&[ONE, TEXT, ONE], KIND_FAULT, KIND_FAULT),
    (&[TEXT, TEXT, ONE], KIND_FAULT, KIND_FAULT),
    (&[TEXT, ONE, STALE], GONE_FAULT, GONE_FAULT),
    (&[STALE, ONE, ONE], GONE_FAULT, GONE_FAULT),
    (&[BAD_TEXT, BAD_TEXT, ONE], KIND_FAULT, KIND_FAULT),
    (&[BAD_TEXT, STALE, ONE], GONE_FAULT, GONE_FAULT),
    (&[TEXT, BAD_TEXT, TEXT], BAD_FAULT, BAD_FAULT),
    (&[BAD_TEXT, TEXT, TEXT], BAD_FAULT, BAD_FAULT),
    (&[TEXT, TEXT, BAD_TEXT], BAD_FAULT, BAD_FAULT),
    (
        &[Holder::Nil, Holder::Nil, Holder::Nil],
        KIND_FAULT,
        KIND_FAULT,
    ),
];

/// Whether the greatest and the least of a row's values are told.
fn has_best(alloc: Global, row: BestRow, store: &mut Store, pools: &Pools) -> Result<bool, Fail> {
    let (args, max, min) = row;
    let greatest = call(alloc, MAX, args, store, pools)?;
    let least = call(alloc, MIN, args, store, pools)?;
    Ok(greatest == max && least == min)
}

/// The first row of whose values another one is told, in a store that has that string too.
fn first_unlike_best(alloc: Global, rows: &[BestRow]) -> Result<Option<BestRow>, Fail> {
    let pools = pools(alloc)?;
    let mut store = store(alloc)?;
    let _same = add_text(alloc, &mut store, b"ab")?;
    for row in rows {
        if !has_best(alloc, *row, &mut store, &pools)? {
            return Ok(Some(*row));
        }
    }
    Ok(None)
}

#[test]
fn the_greatest_and_the_least(rt: HostRuntime) -> Result<(), Fail> {
    assert_eq!(rt; first_unlike_best(rt.alloc(), &BEST_ROWS)?, None);
    Ok(())
}
