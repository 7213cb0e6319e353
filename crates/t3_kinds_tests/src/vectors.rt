//! The methods of vectors.
use crate::fixture::{
    At, BAD_LIST, GONE, GONE_CLASS, KIND, LIST, LIVE_LIST, NO, RANGE, Row, TEXT, VECTOR, Want,
    add_vector, call, empty_store, first_unlike, has_elements, pools,
};
use std::alloc::Global;
use std::process::Abort;
use std::test::Fail;
use t3_holder::Holder;
use t3_kinds::Methods;
use t3_ops::{Fault, OpRefusal};
use t3_pools::Pools;
use t3_store::Store;

const TO_LIST: At = (Methods::Vector, 0);

const LENGTH: At = (Methods::Vector, 1);

const INDEX_OF: At = (Methods::Vector, 10);

pub(crate) const SET_LENGTH: At = (Methods::Vector, 20);

const REMOVE: At = (Methods::Vector, 22);

const APPEND: At = (Methods::Vector, 24);

const FOUR: Holder = Holder::Int(4);

const SIX: Holder = Holder::Int(6);

const LOOK_ROWS: [Row; 10] = [
    (TO_LIST, VECTOR, &[], Want::List(&[FOUR, LIST, SIX])),
    (TO_LIST, LIVE_LIST, &[], KIND),
    (TO_LIST, GONE_CLASS, &[], GONE),
    (LENGTH, VECTOR, &[], Want::Value(Holder::Int(3))),
    (LENGTH, TEXT, &[], KIND),
    (INDEX_OF, VECTOR, &[FOUR], Want::Value(Holder::Int(1))),
    (INDEX_OF, VECTOR, &[LIVE_LIST], Want::Value(Holder::Int(2))),
    (INDEX_OF, VECTOR, &[SIX], Want::Value(Holder::Int(3))),
    (INDEX_OF, VECTOR, &[Holder::Nil], NO),
    (
        INDEX_OF,
        VECTOR,
        &[BAD_LIST],
        Want::Fault(Fault::BadConstant),
    ),
];

#[test]
fn looks(rt: HostRuntime) -> Result<(), Fail> {
    assert_eq!(rt; first_unlike(rt.alloc(), &LOOK_ROWS)?, None);
    Ok(())
}

const LENGTH_ROWS: [Row; 9] = [
    (
        SET_LENGTH,
        VECTOR,
        &[Holder::Int(5)],
        Want::Vector(&[FOUR, LIST, SIX, Holder::Nil, Holder::Nil]),
    ),
    (
        SET_LENGTH,
        VECTOR,
        &[Holder::Int(3)],
        Want::Vector(&[FOUR, LIST, SIX]),
    ),
    (
        SET_LENGTH,
        VECTOR,
        &[Holder::Int(2)],
        Want::Vector(&[FOUR, LIST]),
    ),
    (SET_LENGTH, VECTOR, &[Holder::Int(0)], Want::Vector(&[])),
    (SET_LENGTH, VECTOR, &[Holder::Int(65_536)], RANGE),
    (SET_LENGTH, VECTOR, &[Holder::Int(-1)], RANGE),
    (SET_LENGTH, VECTOR, &[Holder::Nil], KIND),
    (SET_LENGTH, VECTOR, &[GONE_CLASS], KIND),
    (SET_LENGTH, LIST, &[FOUR], KIND),
];

#[test]
fn set_lengths(rt: HostRuntime) -> Result<(), Fail> {
    assert_eq!(rt; first_unlike(rt.alloc(), &LENGTH_ROWS)?, None);
    Ok(())
}

const REMOVE_ROWS: [Row; 8] = [
    (
        REMOVE,
        VECTOR,
        &[Holder::Int(1)],
        Want::Vector(&[LIST, SIX]),
    ),
    (
        REMOVE,
        VECTOR,
        &[Holder::Int(2)],
        Want::Vector(&[FOUR, SIX]),
    ),
    (
        REMOVE,
        VECTOR,
        &[Holder::Int(3)],
        Want::Vector(&[FOUR, LIST]),
    ),
    (REMOVE, VECTOR, &[Holder::Int(4)], RANGE),
    (REMOVE, VECTOR, &[Holder::Int(0)], RANGE),
    (REMOVE, VECTOR, &[Holder::Int(i32::MIN)], RANGE),
    (REMOVE, VECTOR, &[Holder::True], KIND),
    (REMOVE, GONE_CLASS, &[Holder::Int(1)], GONE),
];

#[test]
fn removals(rt: HostRuntime) -> Result<(), Fail> {
    assert_eq!(rt; first_unlike(rt.alloc(), &REMOVE_ROWS)?, None);
    Ok(())
}

const APPEND_ROWS: [Row; 3] = [
    (
        APPEND,
        VECTOR,
        &[VECTOR],
        Want::Vector(&[FOUR, LIST, SIX, VECTOR]),
    ),
    (
        APPEND,
        VECTOR,
        &[GONE_CLASS],
        Want::Vector(&[FOUR, LIST, SIX, GONE_CLASS]),
    ),
    (APPEND, TEXT, &[FOUR], KIND),
];

#[test]
fn longer_vectors(rt: HostRuntime) -> Result<(), Fail> {
    assert_eq!(rt; first_unlike(rt.alloc(), &APPEND_ROWS)?, None);
    Ok(())
}

/// Sets the length of a vector, and answers whether it has it then.
fn has_length(
    alloc: Global,
    vector: Holder,
    wanted: i32,
    store: &mut Store,
    pools: &Pools,
) -> Result<bool, Fail> {
    let answer = call(
        alloc,
        SET_LENGTH,
        vector,
        &[Holder::Int(wanted)],
        store,
        pools,
    )?;
    let length = call(alloc, LENGTH, vector, &[], store, pools)?;
    Ok(answer == Ok(vector) && length == Ok(Holder::Int(wanted)))
}

#[test]
fn a_vector_of_65535(rt: HostRuntime) -> Result<(), Fail> {
    let alloc = rt.alloc();
    let pools = pools(alloc)?;
    let mut store = empty_store(alloc, 10, 100_000)?;
    let vector = add_vector(alloc, &mut store, &[FOUR])?;
    check_long(&rt, alloc, vector, &mut store, &pools)
}

/// A vector becomes as long as can be, and short again.
fn check_long(
    rt: &impl Abort,
    alloc: Global,
    vector: Holder,
    store: &mut Store,
    pools: &Pools,
) -> Result<(), Fail> {
    assert!(rt; has_length(alloc, vector, 65_535, store, pools)?);
    let longer = call(alloc, APPEND, vector, &[FOUR], store, pools)?;
    assert_eq!(rt; longer, Err(OpRefusal::Fault(Fault::ListLong)));
    assert!(rt; has_length(alloc, vector, 1, store, pools)?);
    assert!(rt; has_elements(store, vector, &[FOUR]));
    Ok(())
}
