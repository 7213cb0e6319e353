//! Sums of each pair of kinds.
use crate::fixture::{
    BAD, BAD_LIST, BAD_TEXT, EMPTY_LIST, EMPTY_TEXT, GONE, KIND, LIST, LIVE_LIST, LIVE_TEXT,
    LONG_LIST, LONG_TEXT, STALE, TABLE, TADS, TEXT, VALUES, VECTOR, Want, WantRow, is_wanted,
    paged, pools, store, want_with,
};
use std::alloc::Global;
use std::test::Fail;
use t3_holder::Holder;
use t3_ops::{Fault, sum};
use t3_pools::Pools;

const NIL: Holder = Holder::Nil;

const ONE: Holder = Holder::Int(1);

const TWO: Holder = Holder::Int(2);

const THREE: Holder = Holder::Int(3);

/// Whether a sum in a store of its own is as wanted.
fn is_like(
    alloc: Global,
    left: Holder,
    right: Holder,
    want: Want,
    pools: &Pools,
) -> Result<bool, Fail> {
    let mut store = store(alloc)?;
    let answer = sum(alloc, left, right, &mut store, pools);
    Ok(is_wanted(want, answer, &store))
}

/// The first of the fixture's values whose sum with this one isn't what is wanted.
fn wrong_sum(
    alloc: Global,
    pools: &Pools,
    left: Holder,
    rows: &[WantRow],
    others: Want,
) -> Result<Option<Holder>, Fail> {
    for right in &VALUES {
        let want = want_with(*right, rows, others);
        if !is_like(alloc, left, *right, want, pools)? {
            return Ok(Some(*right));
        }
    }
    Ok(None)
}

/// A value, what is wanted of its sums by the right value, and what of all other sums.
type LeftRow = (Holder, &'static [WantRow], Want);

/// The first row, and the first of the fixture's values, whose sum isn't what is wanted.
fn wrong_sum_of(alloc: Global, rows: &[LeftRow]) -> Result<Option<(Holder, Holder)>, Fail> {
    let pools = pools(alloc)?;
    for (left, wants, others) in rows {
        if let Some(right) = wrong_sum(alloc, &pools, *left, wants, *others)? {
            return Ok(Some((*left, right)));
        }
    }
    Ok(None)
}

/// What can be added to the constant string.
const TO_TEXT: [WantRow; 7] = [
    (Holder::Nil, Want::Text(b"ab")),
    (Holder::True, Want::Text(b"abtrue")),
    (Holder::Int(7), Want::Text(b"ab7")),
    (TEXT, Want::Text(b"abab")),
    (BAD_TEXT, BAD),
    (LIVE_TEXT, Want::Text(b"abcd")),
    (STALE, GONE),
];

/// What can be added to the live one.
const TO_LIVE_TEXT: [WantRow; 7] = [
    (Holder::Nil, Want::Text(b"cd")),
    (Holder::True, Want::Text(b"cdtrue")),
    (Holder::Int(7), Want::Text(b"cd7")),
    (TEXT, Want::Text(b"cdab")),
    (BAD_TEXT, BAD),
    (LIVE_TEXT, Want::Text(b"cdcd")),
    (STALE, GONE),
];

/// What could be added to a string, where that can't be read.
const TO_BAD_TEXT: [WantRow; 7] = [
    (Holder::Nil, BAD),
    (Holder::True, BAD),
    (Holder::Int(7), BAD),
    (TEXT, BAD),
    (BAD_TEXT, BAD),
    (LIVE_TEXT, BAD),
    (STALE, GONE),
];

const TEXT_ROWS: [LeftRow; 4] = [
    (TEXT, &TO_TEXT, KIND),
    (LIVE_TEXT, &TO_LIVE_TEXT, KIND),
    (BAD_TEXT, &TO_BAD_TEXT, KIND),
    (LONG_TEXT, &TO_BAD_TEXT, KIND),
];

#[test]
fn a_value_is_added_to_a_text(rt: HostRuntime) -> Result<(), Fail> {
    assert_eq!(rt; wrong_sum_of(rt.alloc(), &TEXT_ROWS)?, None);
    Ok(())
}

/// The constant list and each value.
const TO_LIST: [WantRow; 18] = [
    (Holder::Nil, Want::List(&[ONE, NIL, NIL])),
    (Holder::True, Want::List(&[ONE, NIL, Holder::True])),
    (Holder::Int(7), Want::List(&[ONE, NIL, Holder::Int(7)])),
    (Holder::Enum(7), Want::List(&[ONE, NIL, Holder::Enum(7)])),
    (Holder::Prop(7), Want::List(&[ONE, NIL, Holder::Prop(7)])),
    (Holder::Shown(0), Want::List(&[ONE, NIL, Holder::Shown(0)])),
    (Holder::Code(7), Want::List(&[ONE, NIL, Holder::Code(7)])),
    (Holder::Func(7), Want::List(&[ONE, NIL, Holder::Func(7)])),
    (TEXT, Want::List(&[ONE, NIL, TEXT])),
    (BAD_TEXT, Want::List(&[ONE, NIL, BAD_TEXT])),
    (LIVE_TEXT, Want::List(&[ONE, NIL, LIVE_TEXT])),
    (LIST, Want::List(&[ONE, NIL, ONE, NIL])),
    (BAD_LIST, BAD),
    (LIVE_LIST, Want::List(&[ONE, NIL, THREE])),
    (
        VECTOR,
        Want::List(&[ONE, NIL, Holder::Int(4), Holder::Int(5)]),
    ),
    (TABLE, Want::List(&[ONE, NIL, TABLE])),
    (TADS, Want::List(&[ONE, NIL, TADS])),
    (STALE, Want::List(&[ONE, NIL, STALE])),
];

/// The live list and each value.
const TO_LIVE_LIST: [WantRow; 18] = [
    (Holder::Nil, Want::List(&[THREE, NIL])),
    (Holder::True, Want::List(&[THREE, Holder::True])),
    (Holder::Int(7), Want::List(&[THREE, Holder::Int(7)])),
    (Holder::Enum(7), Want::List(&[THREE, Holder::Enum(7)])),
    (Holder::Prop(7), Want::List(&[THREE, Holder::Prop(7)])),
    (Holder::Shown(0), Want::List(&[THREE, Holder::Shown(0)])),
    (Holder::Code(7), Want::List(&[THREE, Holder::Code(7)])),
    (Holder::Func(7), Want::List(&[THREE, Holder::Func(7)])),
    (TEXT, Want::List(&[THREE, TEXT])),
    (BAD_TEXT, Want::List(&[THREE, BAD_TEXT])),
    (LIVE_TEXT, Want::List(&[THREE, LIVE_TEXT])),
    (LIST, Want::List(&[THREE, ONE, NIL])),
    (BAD_LIST, BAD),
    (LIVE_LIST, Want::List(&[THREE, THREE])),
    (VECTOR, Want::List(&[THREE, Holder::Int(4), Holder::Int(5)])),
    (TABLE, Want::List(&[THREE, TABLE])),
    (TADS, Want::List(&[THREE, TADS])),
    (STALE, Want::List(&[THREE, STALE])),
];

const LIST_ROWS: [LeftRow; 4] = [
    (LIST, &TO_LIST, KIND),
    (LIVE_LIST, &TO_LIVE_LIST, KIND),
    (BAD_LIST, &[], BAD),
    (LONG_LIST, &[], BAD),
];

#[test]
fn a_value_is_added_to_a_list(rt: HostRuntime) -> Result<(), Fail> {
    assert_eq!(rt; wrong_sum_of(rt.alloc(), &LIST_ROWS)?, None);
    Ok(())
}

/// What can be added to the integer 7.
const TO_INTEGER: [WantRow; 1] = [(Holder::Int(7), Want::Value(Holder::Int(14)))];

const OTHER_ROWS: [LeftRow; 12] = [
    (Holder::Int(7), &TO_INTEGER, KIND),
    (Holder::Nil, &[], KIND),
    (Holder::True, &[], KIND),
    (Holder::Enum(7), &[], KIND),
    (Holder::Prop(7), &[], KIND),
    (Holder::Shown(0), &[], KIND),
    (Holder::Code(7), &[], KIND),
    (Holder::Func(7), &[], KIND),
    (VECTOR, &[], KIND),
    (TABLE, &[], KIND),
    (TADS, &[], KIND),
    (STALE, &[], GONE),
];

#[test]
fn a_value_is_added_to_any_other(rt: HostRuntime) -> Result<(), Fail> {
    assert_eq!(rt; wrong_sum_of(rt.alloc(), &OTHER_ROWS)?, None);
    Ok(())
}

/// Two values, and what is wanted of their sum.
type Row = ((Holder, Holder), Want);

const MOST: Holder = Holder::Int(i32::MAX);

const LEAST: Holder = Holder::Int(i32::MIN);

const END_ROWS: [Row; 12] = [
    ((MOST, Holder::Int(0)), Want::Value(MOST)),
    ((MOST, ONE), Want::Fault(Fault::Overflow)),
    ((LEAST, Holder::Int(-1)), Want::Fault(Fault::Overflow)),
    ((EMPTY_TEXT, NIL), Want::Text(b"")),
    ((EMPTY_TEXT, EMPTY_TEXT), Want::Text(b"")),
    ((EMPTY_TEXT, Holder::Int(0)), Want::Text(b"0")),
    ((EMPTY_TEXT, LEAST), Want::Text(b"-2147483648")),
    ((EMPTY_TEXT, MOST), Want::Text(b"2147483647")),
    ((TEXT, LONG_TEXT), BAD),
    ((EMPTY_LIST, EMPTY_LIST), Want::List(&[])),
    ((EMPTY_LIST, NIL), Want::List(&[NIL])),
    ((LIST, LONG_LIST), BAD),
];

/// The first two values whose sum isn't what is wanted.
fn first_unlike(
    alloc: Global,
    pools: &Pools,
    rows: &[Row],
) -> Result<Option<(Holder, Holder)>, Fail> {
    for (pair, want) in rows {
        if !is_like(alloc, pair.0, pair.1, *want, pools)? {
            return Ok(Some(*pair));
        }
    }
    Ok(None)
}

/// The same with the fixture's constants.
fn first_unlike_end(alloc: Global, rows: &[Row]) -> Result<Option<(Holder, Holder)>, Fail> {
    let pools = pools(alloc)?;
    first_unlike(alloc, &pools, rows)
}

#[test]
fn sums_at_their_ends(rt: HostRuntime) -> Result<(), Fail> {
    assert_eq!(rt; first_unlike_end(rt.alloc(), &END_ROWS)?, None);
    Ok(())
}

/// The text `abcde` at 1, over pages of three bytes, and a list of 1 and 2 at 8.
const PAGED: &[u8] = b"\x00\x05\x00abcde\x02\x00\x07\x01\x00\x00\x00\x07\x02\x00\x00\x00";

const PAGED_TEXT: Holder = Holder::Text(1);

const PAGED_LIST: Holder = Holder::List(8);

const PAGED_ROWS: [Row; 4] = [
    ((PAGED_TEXT, PAGED_TEXT), Want::Text(b"abcdeabcde")),
    ((LIVE_TEXT, PAGED_TEXT), Want::Text(b"cdabcde")),
    ((PAGED_LIST, PAGED_LIST), Want::List(&[ONE, TWO, ONE, TWO])),
    ((LIVE_LIST, PAGED_LIST), Want::List(&[THREE, ONE, TWO])),
];

/// The first two values whose sum isn't what is wanted with those constants.
fn first_unlike_paged(alloc: Global, rows: &[Row]) -> Result<Option<(Holder, Holder)>, Fail> {
    let pools = paged(alloc, 3, PAGED)?;
    first_unlike(alloc, &pools, rows)
}

#[test]
fn constants_stand_across_pages(rt: HostRuntime) -> Result<(), Fail> {
    assert_eq!(rt; first_unlike_paged(rt.alloc(), &PAGED_ROWS)?, None);
    Ok(())
}
