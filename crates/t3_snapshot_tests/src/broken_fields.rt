//! Objects that don't spell: each field broken by itself. The object before it is whole, so one object stands
//! in turn.
use crate::fixture::items;
use std::alloc::Global;
use std::test::Fail;

/// After how many objects a state is malformed of which the second and last object has these bytes behind its
/// number; `None` where it is a state. The first is the table 1 without entries, and the next number is 9.
fn second(alloc: Global, kind_and_part: &[u8]) -> Result<Option<u32>, Fail> {
    let mut objects = Vec::from_slice(alloc, &[1, 0, 0, 0, 5, 1, 0, 0, 0, 0, 0, 0, 0, 0])?;
    objects.extend_from_slice(&[2, 0, 0, 0])?;
    objects.extend_from_slice(kind_and_part)?;
    items(alloc, 9, 2, &objects)
}

#[test]
fn whole_objects(rt: HostRuntime) -> Result<(), Fail> {
    let alloc = rt.alloc();
    // A class without superclasses that has property 7 with true.
    let tads = [1, 1, 0, 0, 0, 1, 0, 7, 0, 2, 0, 0, 0, 0];
    assert_eq!(rt; second(alloc, &tads)?, None);
    assert_eq!(rt; second(alloc, &[2, 1, 0, 0x61])?, None);
    assert_eq!(rt; second(alloc, &[3, 1, 0, 7, 0xFF, 0xFF, 0xFF, 0xFF])?, None);
    assert_eq!(rt; second(alloc, &[4, 1, 0, 5, 1, 0, 0, 0])?, None);
    // A table under whose text key `a` its default stands.
    let table = [5, 2, 0, 0, 0, 0, 1, 0, 0, 0, 1, 1, 0, 0x61, 2, 0, 0, 0, 0];
    assert_eq!(rt; second(alloc, &table)?, None);
    Ok(())
}

#[test]
fn kinds(rt: HostRuntime) -> Result<(), Fail> {
    let alloc = rt.alloc();
    assert_eq!(rt; second(alloc, &[0, 0, 0, 0, 0, 0, 0])?, Some(1));
    assert_eq!(rt; second(alloc, &[6, 0, 0, 0, 0, 0, 0])?, Some(1));
    assert_eq!(rt; second(alloc, &[])?, Some(1));
    Ok(())
}

#[test]
fn flags_and_properties(rt: HostRuntime) -> Result<(), Fail> {
    let alloc = rt.alloc();
    // Flag 0x0002, and a flag of the second byte.
    assert_eq!(rt; second(alloc, &[1, 2, 0, 0, 0, 0, 0])?, Some(1));
    assert_eq!(rt; second(alloc, &[1, 0, 1, 0, 0, 0, 0])?, Some(1));
    // Property 0; a property twice; properties that fall.
    let zero = [1, 0, 0, 0, 0, 1, 0, 0, 0, 1, 0, 0, 0, 0];
    assert_eq!(rt; second(alloc, &zero)?, Some(1));
    let twice = [
        1, 0, 0, 0, 0, 2, 0, 7, 0, 1, 0, 0, 0, 0, 7, 0, 1, 0, 0, 0, 0,
    ];
    assert_eq!(rt; second(alloc, &twice)?, Some(1));
    let falling = [
        1, 0, 0, 0, 0, 2, 0, 7, 0, 1, 0, 0, 0, 0, 6, 0, 1, 0, 0, 0, 0,
    ];
    assert_eq!(rt; second(alloc, &falling)?, Some(1));
    let rising = [
        1, 0, 0, 0, 0, 2, 0, 7, 0, 1, 0, 0, 0, 0, 8, 0, 1, 0, 0, 0, 0,
    ];
    assert_eq!(rt; second(alloc, &rising)?, None);
    Ok(())
}

#[test]
fn holders(rt: HostRuntime) -> Result<(), Fail> {
    let alloc = rt.alloc();
    // Nil with a value byte that it doesn't use, and a property whose number has more than two bytes.
    assert_eq!(rt; second(alloc, &[3, 1, 0, 1, 0, 0, 0, 1])?, Some(1));
    assert_eq!(rt; second(alloc, &[3, 1, 0, 6, 1, 0, 1, 0])?, Some(1));
    // Object 0, property 0, and a type that is none.
    assert_eq!(rt; second(alloc, &[3, 1, 0, 5, 0, 0, 0, 0])?, Some(1));
    assert_eq!(rt; second(alloc, &[4, 1, 0, 6, 0, 0, 0, 0])?, Some(1));
    assert_eq!(rt; second(alloc, &[4, 1, 0, 3, 0, 0, 0, 0])?, Some(1));
    // A default that is none.
    assert_eq!(rt; second(alloc, &[5, 0, 0, 0, 0, 0, 0, 0, 0, 0])?, Some(1));
    Ok(())
}

#[test]
fn texts(rt: HostRuntime) -> Result<(), Fail> {
    let alloc = rt.alloc();
    // A string of two bytes that aren't UTF-8, and one of two that are.
    assert_eq!(rt; second(alloc, &[2, 2, 0, 0xC3, 0x28])?, Some(1));
    assert_eq!(rt; second(alloc, &[2, 2, 0, 0xC3, 0xA9])?, None);
    // The same of a text key.
    let bad = [
        5, 1, 0, 0, 0, 0, 1, 0, 0, 0, 1, 2, 0, 0xC3, 0x28, 1, 0, 0, 0, 0,
    ];
    assert_eq!(rt; second(alloc, &bad)?, Some(1));
    let good = [
        5, 1, 0, 0, 0, 0, 1, 0, 0, 0, 1, 2, 0, 0xC3, 0xA9, 1, 0, 0, 0, 0,
    ];
    assert_eq!(rt; second(alloc, &good)?, None);
    Ok(())
}

#[test]
fn keys(rt: HostRuntime) -> Result<(), Fail> {
    let alloc = rt.alloc();
    // A key that is neither a holder nor a text.
    let neither = [5, 1, 0, 0, 0, 0, 1, 0, 0, 0, 2, 0, 0, 1, 0, 0, 0, 0];
    assert_eq!(rt; second(alloc, &neither)?, Some(1));
    // A constant text, a list and a code pointer are no keys; nil is one.
    let text = [
        5, 1, 0, 0, 0, 0, 1, 0, 0, 0, 0, 8, 4, 0, 0, 0, 1, 0, 0, 0, 0,
    ];
    assert_eq!(rt; second(alloc, &text)?, Some(1));
    let list = [
        5, 1, 0, 0, 0, 0, 1, 0, 0, 0, 0, 10, 4, 0, 0, 0, 1, 0, 0, 0, 0,
    ];
    assert_eq!(rt; second(alloc, &list)?, Some(1));
    let code = [
        5, 1, 0, 0, 0, 0, 1, 0, 0, 0, 0, 11, 4, 0, 0, 0, 1, 0, 0, 0, 0,
    ];
    assert_eq!(rt; second(alloc, &code)?, Some(1));
    let nil = [
        5, 1, 0, 0, 0, 0, 1, 0, 0, 0, 0, 1, 0, 0, 0, 0, 1, 0, 0, 0, 0,
    ];
    assert_eq!(rt; second(alloc, &nil)?, None);
    Ok(())
}

/// After how many objects a state is malformed whose second object is a table with a key of this type and value 4.
fn key_of_type(alloc: Global, holder_type: u8) -> Result<Option<u32>, Fail> {
    let table = [
        5,
        1,
        0,
        0,
        0,
        0,
        1,
        0,
        0,
        0,
        0,
        holder_type,
        4,
        0,
        0,
        0,
        1,
        0,
        0,
        0,
        0,
    ];
    second(alloc, &table)
}

#[test]
fn types_of_keys(rt: HostRuntime) -> Result<(), Fail> {
    let alloc = rt.alloc();
    // A property, an integer, a function and an enumerated value; a string in double quotes.
    for holder_type in [6, 7, 12, 15] {
        assert_eq!(rt; key_of_type(alloc, holder_type)?, None);
    }
    assert_eq!(rt; key_of_type(alloc, 9)?, Some(1));
    Ok(())
}

#[test]
fn keys_that_stand_twice(rt: HostRuntime) -> Result<(), Fail> {
    let alloc = rt.alloc();
    let mut table = Vec::from_slice(alloc, &[5, 1, 0, 0, 0, 0, 2, 0, 0, 0])?;
    // True and true; then true and the text `a`.
    table.extend_from_slice(&[0, 2, 0, 0, 0, 0, 1, 0, 0, 0, 0])?;
    let one = table.clone()?;
    table.extend_from_slice(&[0, 2, 0, 0, 0, 0, 2, 0, 0, 0, 0])?;
    assert_eq!(rt; second(alloc, &table)?, Some(1));
    let mut other = one;
    other.extend_from_slice(&[1, 1, 0, 0x61, 2, 0, 0, 0, 0])?;
    assert_eq!(rt; second(alloc, &other)?, None);
    // The text `a` twice.
    let mut texts = Vec::from_slice(alloc, &[5, 1, 0, 0, 0, 0, 2, 0, 0, 0])?;
    texts.extend_from_slice(&[1, 1, 0, 0x61, 1, 0, 0, 0, 0])?;
    texts.extend_from_slice(&[1, 1, 0, 0x61, 2, 0, 0, 0, 0])?;
    assert_eq!(rt; second(alloc, &texts)?, Some(1));
    Ok(())
}
