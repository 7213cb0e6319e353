//! The methods of lookup tables.
use crate::fixture::{
    At, BAD_TEXT, CLASS, GONE, GONE_CLASS, KIND, LIST, NEXT, NO, PASSING_TABLE, Row, TABLE, TEXT,
    VECTOR, Want, YES, call, first_unlike, pools, store,
};
use std::alloc::Global;
use std::test::Fail;
use t3_holder::Holder;
use t3_kinds::Methods;
use t3_ops::Fault;
use t3_pools::Pools;
use t3_store::Store;

const PRESENT: At = (Methods::Table, 0);

const REMOVE: At = (Methods::Table, 1);

const COUNT: At = (Methods::Table, 5);

pub(crate) const KEYS: At = (Methods::Table, 7);

const VALUES: At = (Methods::Table, 8);

const DEFAULT: At = (Methods::Table, 9);

const SET_DEFAULT: At = (Methods::Table, 10);

const SEVEN: Holder = Holder::Int(7);

const EIGHT: Holder = Holder::Int(8);

const KEY_ROWS: [Row; 15] = [
    (PRESENT, TABLE, &[SEVEN], YES),
    (PRESENT, TABLE, &[EIGHT], NO),
    (PRESENT, TABLE, &[TEXT], NO),
    (PRESENT, TABLE, &[CLASS], NO),
    (PRESENT, TABLE, &[LIST], Want::Fault(Fault::KeyKind)),
    (PRESENT, TABLE, &[BAD_TEXT], Want::Fault(Fault::BadConstant)),
    (PRESENT, TABLE, &[GONE_CLASS], GONE),
    (PRESENT, VECTOR, &[SEVEN], KIND),
    (PRESENT, GONE_CLASS, &[SEVEN], GONE),
    (REMOVE, TABLE, &[SEVEN], Want::Value(EIGHT)),
    (REMOVE, TABLE, &[EIGHT], NO),
    (REMOVE, PASSING_TABLE, &[SEVEN], NO),
    (
        REMOVE,
        TABLE,
        &[Holder::Shown(0)],
        Want::Fault(Fault::KeyKind),
    ),
    (REMOVE, TABLE, &[GONE_CLASS], GONE),
    (REMOVE, TEXT, &[SEVEN], KIND),
];

#[test]
fn keys(rt: HostRuntime) -> Result<(), Fail> {
    assert_eq!(rt; first_unlike(rt.alloc(), &KEY_ROWS)?, None);
    Ok(())
}

const WHOLE_ROWS: [Row; 9] = [
    (COUNT, TABLE, &[], Want::Value(Holder::Int(2))),
    (COUNT, PASSING_TABLE, &[], Want::Value(Holder::Int(0))),
    (COUNT, LIST, &[], KIND),
    (VALUES, TABLE, &[], Want::List(&[Holder::True, EIGHT])),
    (VALUES, PASSING_TABLE, &[], Want::List(&[])),
    (KEYS, PASSING_TABLE, &[], Want::List(&[])),
    (KEYS, CLASS, &[], KIND),
    (DEFAULT, TABLE, &[], NO),
    (SET_DEFAULT, TABLE, &[GONE_CLASS], NO),
];

#[test]
fn whole_tables(rt: HostRuntime) -> Result<(), Fail> {
    assert_eq!(rt; first_unlike(rt.alloc(), &WHOLE_ROWS)?, None);
    Ok(())
}

/// Whether the keys of a table are listed so: a new string before the list.
fn lists_keys(alloc: Global, store: &mut Store, pools: &Pools) -> Result<bool, Fail> {
    let answer = call(alloc, KEYS, TABLE, &[], store, pools)?;
    let list = NEXT.wrapping_add(1);
    let items = [Holder::Obj(NEXT), SEVEN];
    let text = store.text(NEXT) == Some(b"ab");
    Ok(answer == Ok(Holder::Obj(list)) && text && store.items(list) == Some(&items))
}

#[test]
fn a_list_of_keys(rt: HostRuntime) -> Result<(), Fail> {
    let alloc = rt.alloc();
    let pools = pools(alloc)?;
    let mut store = store(alloc)?;
    assert!(rt; lists_keys(alloc, &mut store, &pools)?);
    Ok(())
}

/// A method on the table with arguments, and the value that it answers.
type TurnRow = (At, &'static [Holder], Holder);

/// The index of the first row that isn't so, one after the other in one store.
fn first_unlike_in_turn(alloc: Global, rows: &[TurnRow]) -> Result<Option<usize>, Fail> {
    let pools = pools(alloc)?;
    let mut store = store(alloc)?;
    for index in 0..rows.len() {
        let (at, args, want) = rows[index];
        if call(alloc, at, TABLE, args, &mut store, &pools)? != Ok(want) {
            return Ok(Some(index));
        }
    }
    Ok(None)
}

const REMOVED: [TurnRow; 3] = [
    (REMOVE, &[SEVEN], EIGHT),
    (PRESENT, &[SEVEN], Holder::Nil),
    (COUNT, &[], Holder::Int(1)),
];

#[test]
fn a_removed_key(rt: HostRuntime) -> Result<(), Fail> {
    assert_eq!(rt; first_unlike_in_turn(rt.alloc(), &REMOVED)?, None);
    Ok(())
}

const DEFAULTS: [TurnRow; 2] = [(SET_DEFAULT, &[SEVEN], Holder::Nil), (DEFAULT, &[], SEVEN)];

#[test]
fn a_default(rt: HostRuntime) -> Result<(), Fail> {
    assert_eq!(rt; first_unlike_in_turn(rt.alloc(), &DEFAULTS)?, None);
    Ok(())
}
