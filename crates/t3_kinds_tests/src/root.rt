//! The methods of all kinds of objects.
use crate::fixture::{
    At, BAD_TEXT, CLASS, GONE_CLASS, KIND, LIST, LIVE_LIST, NO, ORPHAN, PASSING, PASSING_CHILD,
    PASSING_TABLE, Row, TABLE, TADS, TEXT, VECTOR, Want, YES, first_unlike,
};
use std::test::Fail;
use t3_holder::Holder;
use t3_kinds::Methods;

const OF_KIND: At = (Methods::Root, 0);

const SUPERS: At = (Methods::Root, 1);

const DEFINED: At = (Methods::Root, 2);

const IS_CLASS: At = (Methods::Root, 6);

const IS_TRANSIENT: At = (Methods::Root, 8);

const KIND_ROWS: [Row; 13] = [
    (OF_KIND, TADS, &[TADS], YES),
    (OF_KIND, TADS, &[CLASS], YES),
    (OF_KIND, PASSING_CHILD, &[CLASS], YES),
    (OF_KIND, CLASS, &[TADS], NO),
    (OF_KIND, TADS, &[VECTOR], NO),
    (OF_KIND, VECTOR, &[VECTOR], NO),
    (OF_KIND, TEXT, &[TADS], NO),
    (OF_KIND, BAD_TEXT, &[TADS], NO),
    (OF_KIND, ORPHAN, &[ORPHAN], YES),
    (OF_KIND, ORPHAN, &[GONE_CLASS], NO),
    (OF_KIND, TADS, &[Holder::Nil], KIND),
    (OF_KIND, VECTOR, &[Holder::Int(1)], KIND),
    (OF_KIND, TEXT, &[TEXT], KIND),
];

#[test]
fn of_kind(rt: HostRuntime) -> Result<(), Fail> {
    assert_eq!(rt; first_unlike(rt.alloc(), &KIND_ROWS)?, None);
    Ok(())
}

const SUPER_ROWS: [Row; 6] = [
    (SUPERS, CLASS, &[], Want::List(&[])),
    (SUPERS, TADS, &[], Want::List(&[CLASS])),
    (SUPERS, PASSING_CHILD, &[], Want::List(&[PASSING])),
    (SUPERS, ORPHAN, &[], Want::List(&[GONE_CLASS])),
    (SUPERS, VECTOR, &[], Want::List(&[])),
    (SUPERS, LIST, &[], Want::List(&[])),
];

#[test]
fn superclass_lists(rt: HostRuntime) -> Result<(), Fail> {
    assert_eq!(rt; first_unlike(rt.alloc(), &SUPER_ROWS)?, None);
    Ok(())
}

const FIVE: Holder = Holder::Prop(5);

const DEFINED_ROWS: [Row; 9] = [
    (DEFINED, CLASS, &[FIVE], YES),
    (DEFINED, TADS, &[FIVE], YES),
    (DEFINED, PASSING_CHILD, &[FIVE], YES),
    (DEFINED, TADS, &[Holder::Prop(6)], NO),
    (DEFINED, ORPHAN, &[FIVE], NO),
    (DEFINED, TABLE, &[FIVE], NO),
    (DEFINED, TEXT, &[FIVE], NO),
    (DEFINED, TADS, &[Holder::Int(5)], KIND),
    (DEFINED, TEXT, &[GONE_CLASS], KIND),
];

#[test]
fn defined_properties(rt: HostRuntime) -> Result<(), Fail> {
    assert_eq!(rt; first_unlike(rt.alloc(), &DEFINED_ROWS)?, None);
    Ok(())
}

const FLAG_ROWS: [Row; 11] = [
    (IS_CLASS, CLASS, &[], YES),
    (IS_CLASS, TADS, &[], NO),
    (IS_CLASS, VECTOR, &[], NO),
    (IS_CLASS, TEXT, &[], NO),
    (IS_TRANSIENT, TADS, &[], NO),
    (IS_TRANSIENT, PASSING, &[], YES),
    (IS_TRANSIENT, TABLE, &[], NO),
    (IS_TRANSIENT, PASSING_TABLE, &[], YES),
    (IS_TRANSIENT, LIVE_LIST, &[], NO),
    (IS_TRANSIENT, TEXT, &[], NO),
    (IS_TRANSIENT, LIST, &[], NO),
];

#[test]
fn flags(rt: HostRuntime) -> Result<(), Fail> {
    assert_eq!(rt; first_unlike(rt.alloc(), &FLAG_ROWS)?, None);
    Ok(())
}
