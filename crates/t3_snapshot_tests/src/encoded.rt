//! What is written: worked bytes, states that were read, and states without what refers to what isn't there.
use crate::fixture::{ZERO, again, spelled, worked};
use std::alloc::Global;
use std::test::Fail;
use t3_holder::Holder;
use t3_lists::Holders;
use t3_snapshot::{encode, savable_objects};
use t3_store::{NewObject, Persistent};

/// The bytes of no objects, with next number 1.
fn no_objects(alloc: Global) -> Result<Vec<u8>, Fail> {
    savable_objects();
    let state = Persistent::new(alloc);
    Ok(encode(alloc, &state, &ZERO, 1)?)
}

/// The bytes of the list 1 of itself, of object 2, which isn't there, and of true; with next number 3.
fn one_list(alloc: Global) -> Result<Vec<u8>, Fail> {
    savable_objects();
    let mut state = Persistent::new(alloc);
    let items = Vec::from_slice(alloc, &[Holder::Obj(1), Holder::Obj(2), Holder::True])?;
    state.add(1, NewObject::List(Holders(items)))?;
    Ok(encode(alloc, &state, &ZERO, 3)?)
}

#[test]
fn worked_bytes(rt: HostRuntime) -> Result<(), Fail> {
    let alloc = rt.alloc();
    let none = no_objects(alloc)?;
    assert_eq!(rt; none.len(), 82);
    assert_eq!(rt; none, spelled(alloc, 1, 0, &[])?);
    let string = again(alloc, &worked(alloc)?)?;
    assert_eq!(rt; string.len(), 91);
    assert_eq!(rt; string, worked(alloc)?);
    let body = [4, 0, 0, 0, 1, 0, 0, 0, 3, 0, 0, 0, 2, 2, 0, 0x68, 0x69];
    assert_eq!(rt; &string[42..59], body.as_slice());
    Ok(())
}

/// A state with superclass 2 of class 1, and class 3 with both as superclasses.
const SUPERCLASSES: [u8; 45] = [
    1, 0, 0, 0, 1, 1, 0, 1, 0, 2, 0, 0, 0, 0, 0, 2, 0, 0, 0, 1, 0, 0, 0, 0, 0, 0, 3, 0, 0, 0, 1, 1,
    0, 2, 0, 1, 0, 0, 0, 2, 0, 0, 0, 0, 0,
];

#[test]
fn superclasses_are_written_again(rt: HostRuntime) -> Result<(), Fail> {
    let alloc = rt.alloc();
    let bytes = spelled(alloc, 4, 3, &SUPERCLASSES)?;
    assert_eq!(rt; again(alloc, &bytes)?, bytes);
    Ok(())
}

#[test]
fn nil_where_nothing_is(rt: HostRuntime) -> Result<(), Fail> {
    let alloc = rt.alloc();
    let list = [
        1, 0, 0, 0, 3, 3, 0, 5, 1, 0, 0, 0, 1, 0, 0, 0, 0, 2, 0, 0, 0, 0,
    ];
    assert_eq!(rt; one_list(alloc)?, spelled(alloc, 3, 1, &list)?);
    Ok(())
}

/// The example of docs/SAVED_STATE.md: class 1, whose property 7 refers to string 3, which is `hi`. Its
/// digest is another program's.
const EXAMPLE: [u8; 27] = [
    1, 0, 0, 0, 1, 1, 0, 0, 0, 1, 0, 7, 0, 5, 3, 0, 0, 0, 3, 0, 0, 0, 2, 2, 0, 0x68, 0x69,
];

const EXAMPLE_DIGEST: [u8; 32] = [
    0xc8, 0xdf, 0xbb, 0xcd, 0xba, 0xe6, 0x98, 0xde, 0xf1, 0x5a, 0x7a, 0xdb, 0xd9, 0x9e, 0xe6, 0xed,
    0x9f, 0x62, 0x6f, 0xf2, 0x4a, 0xc4, 0xfe, 0x72, 0x5d, 0x77, 0xb3, 0x1d, 0xa0, 0x21, 0x63, 0xa8,
];

#[test]
fn the_example_is_written_again(rt: HostRuntime) -> Result<(), Fail> {
    let alloc = rt.alloc();
    let bytes = spelled(alloc, 4, 2, &EXAMPLE)?;
    let written = again(alloc, &bytes)?;
    assert_eq!(rt; written.len(), 109);
    assert_eq!(rt; &written[77..], EXAMPLE_DIGEST.as_slice());
    assert_eq!(rt; written, bytes);
    Ok(())
}

/// A table 1 with the text keys `a` and `b` and itself as a key, and a vector 2 that refers to both.
const TABLE_AND_VECTOR: [u8; 60] = [
    1, 0, 0, 0, 5, 7, 9, 0, 0, 0, 3, 0, 0, 0, 1, 1, 0, 0x61, 5, 2, 0, 0, 0, 1, 1, 0, 0x62, 2, 0, 0,
    0, 0, 0, 5, 1, 0, 0, 0, 15, 4, 0, 0, 0, 2, 0, 0, 0, 4, 2, 0, 5, 1, 0, 0, 0, 5, 2, 0, 0, 0,
];

#[test]
fn tables_and_vectors_are_written_again(rt: HostRuntime) -> Result<(), Fail> {
    let alloc = rt.alloc();
    let bytes = spelled(alloc, 3, 2, &TABLE_AND_VECTOR)?;
    assert_eq!(rt; again(alloc, &bytes)?, bytes);
    Ok(())
}
