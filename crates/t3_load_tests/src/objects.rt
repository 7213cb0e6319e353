//! The static objects of an image: what their bytes say, and which bytes begin with an object.
use crate::images::{GOOD, Parts, Thing, refusal_with, started};
use std::alloc::Global;
use std::process::Abort;
use std::test::Fail;
use t3_holder::Holder;
use t3_load::LoadRefusal;
use t3_store::Store;
use t3_tadsobj::PropValue;
use t3_undo::Cell;

/// The metaclasses of test images, by their indices.
const TADS: u16 = 0;

const STRING: u16 = 1;

const LIST: u16 = 2;

const VECTOR: u16 = 3;

const TABLE: u16 = 4;

const ROOT: u16 = 5;

const COLLECTION: u16 = 6;

/// A class with the superclasses 9 and 5 and the properties 3, which is nil, and 2, which is 7; and a
/// byte behind it.
const CLASS: &[u8] = b"\x02\x00\x02\x00\x01\x00\x09\x00\x00\x00\x05\x00\x00\x00\
\x03\x00\x01\x00\x00\x00\x00\x02\x00\x07\x07\x00\x00\x00\xFF";

/// A tads-object with no superclass and no property.
const PLAIN: &[u8] = &[0, 0, 0, 0, 0, 0];

/// The class as object 7, the string `\u{E4}`, and a vector whose room is less than the elements that it has.
const THINGS: Parts<'static> = Parts {
    things: &[
        (TADS, false, 5, PLAIN),
        (TADS, false, 9, PLAIN),
        (TADS, false, 7, CLASS),
        (STRING, false, 2, b"\x02\x00\xC3\xA4b"),
        (VECTOR, false, 3, b"\x00\x00\x01\x00\x02\x00\x00\x00\x00"),
    ],
    ..GOOD
};

/// The properties of the class.
const PROPS: [PropValue; 2] = [
    PropValue {
        number: 2,
        value: Holder::Int(7),
    },
    PropValue {
        number: 3,
        value: Holder::Nil,
    },
];

/// Whether a store has the class as object 7.
fn has_class(alloc: Global, store: &Store) -> Result<bool, Fail> {
    let object = store.at(7);
    let Some(supers) = object.supers() else {
        return Ok(false);
    };
    if supers != [9, 5].as_slice() || !store.is_class(7) {
        return Ok(false);
    }
    Ok(object.props(alloc)?.items() == PROPS.as_slice())
}

/// A store has those objects.
fn check_things(rt: &impl Abort, alloc: Global, store: &Store) -> Result<(), Fail> {
    assert!(rt; has_class(alloc, store)?);
    assert_eq!(rt; store.text(2), Some(b"\xC3\xA4".as_slice()));
    assert_eq!(rt; store.length(3), Some(1));
    assert_eq!(rt; store.get(3, &Cell::Elem(1)), Some(Holder::True));
    Ok(())
}

#[test]
fn static_objects_are_as_their_bytes_say(rt: HostRuntime) -> Result<(), Fail> {
    let store = started(rt.alloc(), &THINGS)?;
    check_things(&rt, rt.alloc(), &store)
}

/// A metaclass, bytes, and whether they begin with an object of it.
type BytesRow = (u16, &'static [u8], bool);

const BYTES: [BytesRow; 22] = [
    (
        TADS,
        b"\x02\x00\x02\x00\x01\x00\x09\x00\x00\x00\x05\x00\x00\x00\
          \x03\x00\x01\x00\x00\x00\x00\x02\x00\x07\x07\x00\x00\x00",
        true,
    ),
    (
        TADS,
        b"\x02\x00\x02\x00\x01\x00\x09\x00\x00\x00\x05\x00\x00\x00\
          \x03\x00\x01\x00\x00\x00\x00\x02\x00\x07\x07\x00\x00",
        false,
    ),
    (
        TADS,
        b"\x02\x00\x02\x00\x01\x00\x09\x00\x00\x00\x05\x00\x00",
        false,
    ),
    (TADS, b"\x00\x00\x00\x00\xFE\xFF", true),
    (TADS, b"\x00\x00\x00\x00\xFE", false),
    // The property 0.
    (
        TADS,
        b"\x00\x00\x01\x00\x00\x00\x00\x00\x01\x00\x00\x00\x00",
        false,
    ),
    // A holder of a type that there isn't.
    (
        TADS,
        b"\x00\x00\x01\x00\x00\x00\x01\x00\x04\x00\x00\x00\x00",
        false,
    ),
    // One property twice.
    (
        TADS,
        b"\x00\x00\x02\x00\x00\x00\x01\x00\x01\x00\x00\x00\x00\x01\x00\x02\x00\x00\x00\x00",
        false,
    ),
    (STRING, b"\x00\x00", true),
    (STRING, b"\x00", false),
    (STRING, b"\x03\x00ab", false),
    (STRING, b"\x01\x00\xC3\xA4", false),
    (LIST, b"\x00\x00", true),
    (LIST, b"\x01\x00\x01\x00\x00\x00\x00", true),
    (LIST, b"\x01\x00\x01\x00\x00\x00", false),
    // The object 0.
    (LIST, b"\x01\x00\x05\x00\x00\x00\x00", false),
    (LIST, b"", false),
    (VECTOR, b"\x00\x00", false),
    (VECTOR, b"\xFF\xFF\x00\x00", true),
    (ROOT, b"\x00\x00\x00\x00\x00\x00", false),
    (COLLECTION, b"\x00\x00", false),
    (TABLE, b"\x00\x00\x00\x00\x00\x00", false),
];

/// The first row whose bytes are taken for an object where they aren't one, or aren't where they are.
fn first_unlike(alloc: Global, rows: &[BytesRow]) -> Result<Option<BytesRow>, Fail> {
    for row in rows {
        let (metaclass, bytes, is_object) = *row;
        let things = [(metaclass, false, 7, bytes)];
        let refused = refusal_with(alloc, &GOOD, &things)? == Some(LoadRefusal::ObjectData(7));
        if refused == is_object {
            return Ok(Some(*row));
        }
    }
    Ok(None)
}

#[test]
fn bytes_begin_with_an_object_or_with_none(rt: HostRuntime) -> Result<(), Fail> {
    assert_eq!(rt; first_unlike(rt.alloc(), &BYTES)?, None);
    Ok(())
}

/// The string `ab`, and a byte behind it.
const TEXT: &[u8] = &[2, 0, 97, 98, 9];

/// A list of two integers.
const PAIR: &[u8] = &[2, 0, 7, 1, 0, 0, 0, 7, 2, 0, 0, 0];

/// A vector with room for nine elements, of which it has one, an enumerator.
const ENUMERATORS: &[u8] = &[9, 0, 1, 0, 15, 1, 0, 0, 0];

/// One of each, of which the vector is transient.
const HALVES: Parts<'static> = Parts {
    units: 200,
    things: &[
        (STRING, false, 7, TEXT),
        (VECTOR, true, 6, ENUMERATORS),
        (LIST, false, 5, PAIR),
    ],
    ..GOOD
};

/// A store has those objects.
fn check_contents(rt: &impl Abort, store: &Store) -> Result<(), Fail> {
    assert_eq!(rt; store.text(7), Some(b"ab".as_slice()));
    assert_eq!(rt;
        store.items(5),
        Some([Holder::Int(1), Holder::Int(2)].as_slice())
    );
    assert_eq!(rt; store.length(6), Some(1));
    assert_eq!(rt; store.get(6, &Cell::Elem(1)), Some(Holder::Enum(1)));
    Ok(())
}

/// Which of the objects from number 5 on are transient.
fn transient_ones(store: &Store) -> (bool, bool, bool) {
    (
        store.is_transient(5),
        store.is_transient(6),
        store.is_transient(7),
    )
}

#[test]
fn strings_lists_and_vectors_are_in_their_halves(rt: HostRuntime) -> Result<(), Fail> {
    let store = started(rt.alloc(), &HALVES)?;
    check_contents(&rt, &store)?;
    assert_eq!(rt; transient_ones(&store), (false, true, false));
    Ok(())
}
