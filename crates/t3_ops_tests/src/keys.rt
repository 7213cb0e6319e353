//! The key of a value of each kind.
use crate::fixture::{
    BAD_LIST, BAD_TEXT, LIST, LIVE_LIST, LIVE_TEXT, LONG_TEXT, STALE, TABLE, TADS, TEXT, VECTOR,
    pools, store,
};
use std::alloc::Global;
use std::test::Fail;
use t3_holder::{Bytes, Holder};
use t3_ops::{Fault, key};
use t3_pools::Pools;
use t3_store::Store;
use t3_undo::Key;

/// A value, and its key.
type Row = (Holder, Result<Key, Fault>);

const ROWS: [Row; 17] = [
    (Holder::Nil, Ok(Key::Nil)),
    (Holder::True, Ok(Key::True)),
    (Holder::Int(-7), Ok(Key::Int(-7))),
    (Holder::Enum(7), Ok(Key::Enum(7))),
    (Holder::Prop(7), Ok(Key::Prop(7))),
    (Holder::Func(7), Ok(Key::Func(7))),
    (Holder::Shown(0), Err(Fault::KeyKind)),
    (Holder::Code(7), Err(Fault::KeyKind)),
    (LIST, Err(Fault::KeyKind)),
    (BAD_LIST, Err(Fault::KeyKind)),
    (LIVE_LIST, Err(Fault::KeyKind)),
    (TADS, Ok(Key::Obj(1))),
    (VECTOR, Ok(Key::Obj(4))),
    (TABLE, Ok(Key::Obj(5))),
    (STALE, Err(Fault::Stale)),
    (BAD_TEXT, Err(Fault::BadConstant)),
    (LONG_TEXT, Err(Fault::BadConstant)),
];

/// Whether a value has this key, or this fault in its place.
fn has_key(
    alloc: Global,
    value: Holder,
    want: &Result<Key, Fault>,
    store: &Store,
    pools: &Pools,
) -> Result<bool, Fail> {
    let found = key(alloc, value, store, pools)?;
    Ok(found == *want)
}

/// The first value that has another key.
fn first_unlike(alloc: Global, rows: &[Row]) -> Result<Option<Holder>, Fail> {
    let pools = pools(alloc)?;
    let store = store(alloc)?;
    for (value, want) in rows {
        if !has_key(alloc, *value, want, &store, &pools)? {
            return Ok(Some(*value));
        }
    }
    Ok(None)
}

#[test]
fn a_key_of_each_kind(rt: HostRuntime) -> Result<(), Fail> {
    // The rows are let go of before there is a way out.
    let unlike = first_unlike(rt.alloc(), &ROWS);
    assert_eq!(rt; unlike?, None);
    Ok(())
}

/// A text, and the bytes that its key has.
type TextRow = (Holder, &'static [u8]);

const TEXT_ROWS: [TextRow; 2] = [(TEXT, b"ab"), (LIVE_TEXT, b"cd")];

/// Whether the key of a value is the text of these bytes.
fn has_text_key(
    alloc: Global,
    value: Holder,
    store: &Store,
    pools: &Pools,
    bytes: &[u8],
) -> Result<bool, Fail> {
    let want = Ok(Key::Text(Bytes(Vec::from_slice(alloc, bytes)?)));
    has_key(alloc, value, &want, store, pools)
}

/// The first text that has another key.
fn first_unlike_text(alloc: Global, rows: &[TextRow]) -> Result<Option<Holder>, Fail> {
    let pools = pools(alloc)?;
    let store = store(alloc)?;
    for (value, bytes) in rows {
        if !has_text_key(alloc, *value, &store, &pools, bytes)? {
            return Ok(Some(*value));
        }
    }
    Ok(None)
}

#[test]
fn a_key_of_a_text(rt: HostRuntime) -> Result<(), Fail> {
    assert_eq!(rt; first_unlike_text(rt.alloc(), &TEXT_ROWS)?, None);
    Ok(())
}
