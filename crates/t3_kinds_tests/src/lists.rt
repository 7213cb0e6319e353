//! The methods of lists.
use crate::fixture::{
    At, BAD, BAD_LIST, EMPTY_LIST, GONE, GONE_CLASS, KIND, LIST, LIVE_LIST, NEST, NO, RANGE, Row,
    TEXT, VECTOR, Want, call_with, first_unlike, pools, store,
};
use std::alloc::Global;
use std::test::Fail;
use t3_holder::Holder;
use t3_kinds::Methods;
use t3_ops::{Fault, OpRefusal};

const LENGTH: At = (Methods::List, 2);

const SUBLIST: At = (Methods::List, 3);

const INDEX_OF: At = (Methods::List, 5);

const APPEND: At = (Methods::List, 18);

const ONE: Holder = Holder::Int(1);

const MANY: Holder = Holder::Int(i32::MAX);

const LENGTH_ROWS: [Row; 6] = [
    (LENGTH, LIST, &[], Want::Value(Holder::Int(3))),
    (LENGTH, LIVE_LIST, &[], Want::Value(Holder::Int(3))),
    (LENGTH, EMPTY_LIST, &[], Want::Value(Holder::Int(0))),
    (LENGTH, BAD_LIST, &[], BAD),
    (LENGTH, VECTOR, &[], KIND),
    (LENGTH, GONE_CLASS, &[], GONE),
];

#[test]
fn lengths(rt: HostRuntime) -> Result<(), Fail> {
    assert_eq!(rt; first_unlike(rt.alloc(), &LENGTH_ROWS)?, None);
    Ok(())
}

const WHOLE: Want = Want::List(&[ONE, TEXT, ONE]);

const NONE: Want = Want::List(&[]);

const SUBLIST_ROWS: [Row; 20] = [
    (SUBLIST, LIST, &[ONE], WHOLE),
    (SUBLIST, LIVE_LIST, &[ONE], WHOLE),
    (SUBLIST, LIST, &[ONE, Holder::Int(3)], WHOLE),
    (SUBLIST, LIST, &[ONE, MANY], WHOLE),
    (SUBLIST, LIST, &[Holder::Int(2), ONE], Want::List(&[TEXT])),
    (
        SUBLIST,
        LIVE_LIST,
        &[Holder::Int(2), MANY],
        Want::List(&[TEXT, ONE]),
    ),
    (SUBLIST, LIST, &[Holder::Int(3)], Want::List(&[ONE])),
    (SUBLIST, LIST, &[Holder::Int(4)], NONE),
    (SUBLIST, LIVE_LIST, &[MANY, MANY], NONE),
    (SUBLIST, LIST, &[ONE, Holder::Int(0)], NONE),
    (SUBLIST, EMPTY_LIST, &[ONE], NONE),
    (SUBLIST, LIST, &[Holder::Int(0)], RANGE),
    (SUBLIST, LIST, &[ONE, Holder::Int(-1)], RANGE),
    (SUBLIST, BAD_LIST, &[Holder::Int(0)], RANGE),
    (SUBLIST, BAD_LIST, &[ONE], BAD),
    (SUBLIST, LIST, &[Holder::Nil], KIND),
    (SUBLIST, LIST, &[Holder::Int(0), GONE_CLASS], KIND),
    (SUBLIST, BAD_LIST, &[ONE, Holder::Nil], KIND),
    (SUBLIST, TEXT, &[ONE], KIND),
    (SUBLIST, GONE_CLASS, &[ONE], GONE),
];

#[test]
fn parts(rt: HostRuntime) -> Result<(), Fail> {
    assert_eq!(rt; first_unlike(rt.alloc(), &SUBLIST_ROWS)?, None);
    Ok(())
}

const INDEX_ROWS: [Row; 11] = [
    (INDEX_OF, LIST, &[ONE], Want::Value(Holder::Int(1))),
    (INDEX_OF, LIST, &[TEXT], Want::Value(Holder::Int(2))),
    (INDEX_OF, LIVE_LIST, &[TEXT], Want::Value(Holder::Int(2))),
    (INDEX_OF, LIST, &[Holder::Int(2)], NO),
    (INDEX_OF, LIST, &[GONE_CLASS], NO),
    (INDEX_OF, NEST, &[LIVE_LIST], Want::Value(Holder::Int(2))),
    (INDEX_OF, NEST, &[EMPTY_LIST], Want::Value(Holder::Int(1))),
    (INDEX_OF, NEST, &[BAD_LIST], BAD),
    (INDEX_OF, NEST, &[Holder::Nil], NO),
    (INDEX_OF, BAD_LIST, &[ONE], BAD),
    (INDEX_OF, VECTOR, &[ONE], KIND),
];

#[test]
fn indices(rt: HostRuntime) -> Result<(), Fail> {
    assert_eq!(rt; first_unlike(rt.alloc(), &INDEX_ROWS)?, None);
    Ok(())
}

/// The answer of indexOf of a list in the list of lists, with so many turns, and the turns left.
fn index_with(alloc: Global, turns: u32) -> Result<(Result<Holder, OpRefusal>, u32), Fail> {
    let pools = pools(alloc)?;
    let mut store = store(alloc)?;
    let mut left = turns;
    let answer = call_with(
        alloc,
        INDEX_OF,
        NEST,
        &[LIVE_LIST],
        &mut store,
        &pools,
        &mut left,
    )?;
    Ok((answer, left))
}

#[test]
fn each_pair_is_a_turn(rt: HostRuntime) -> Result<(), Fail> {
    let alloc = rt.alloc();
    // The empty list and that of three are two pairs, and so are three elements three.
    assert_eq!(rt; index_with(alloc, 7)?, (Ok(Holder::Int(2)), 2));
    assert_eq!(rt; index_with(alloc, 5)?, (Ok(Holder::Int(2)), 0));
    assert_eq!(rt;
        index_with(alloc, 4)?.0,
        Err(OpRefusal::Fault(Fault::CompareLong))
    );
    Ok(())
}

const APPEND_ROWS: [Row; 6] = [
    (APPEND, LIST, &[TEXT], Want::List(&[ONE, TEXT, ONE, TEXT])),
    (APPEND, EMPTY_LIST, &[LIST], Want::List(&[LIST])),
    (
        APPEND,
        LIVE_LIST,
        &[GONE_CLASS],
        Want::List(&[ONE, TEXT, ONE, GONE_CLASS]),
    ),
    (APPEND, BAD_LIST, &[ONE], BAD),
    (APPEND, TEXT, &[ONE], KIND),
    (APPEND, GONE_CLASS, &[ONE], GONE),
];

#[test]
fn longer_lists(rt: HostRuntime) -> Result<(), Fail> {
    assert_eq!(rt; first_unlike(rt.alloc(), &APPEND_ROWS)?, None);
    Ok(())
}
