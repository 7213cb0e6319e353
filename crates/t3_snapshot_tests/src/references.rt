//! References: forward, to itself, in a ring, and to what isn't there; superclasses.
use crate::fixture::{ZERO, items, spelled};
use std::test::Fail;
use t3_holder::Holder;
use t3_snapshot::decode;

#[test]
fn references_may_point_anywhere(rt: HostRuntime) -> Result<(), Fail> {
    let alloc = rt.alloc();
    // List 1 refers to vector 2, vector 2 to itself and to list 1.
    let ring = [
        1, 0, 0, 0, 3, 1, 0, 5, 2, 0, 0, 0, 2, 0, 0, 0, 4, 2, 0, 5, 2, 0, 0, 0, 5, 1, 0, 0, 0,
    ];
    assert_eq!(rt; items(alloc, 3, 2, &ring)?, None);
    let bytes = spelled(alloc, 3, 2, &ring)?;
    let (state, next) = decode(alloc, &bytes, &ZERO)?;
    assert_eq!(rt; next, 3);
    let list = state.items(1).ok_or("no list")?;
    assert_eq!(rt; list, [Holder::Obj(2)].as_slice());
    assert_eq!(rt; state.length(2), Some(2));
    Ok(())
}

#[test]
fn references_outside(rt: HostRuntime) -> Result<(), Fail> {
    let alloc = rt.alloc();
    // Of a list, a vector, a property, a default, an entry's value: number 2 isn't there.
    assert_eq!(rt;
        items(alloc, 3, 1, &[1, 0, 0, 0, 3, 1, 0, 5, 2, 0, 0, 0])?,
        Some(1)
    );
    assert_eq!(rt;
        items(alloc, 3, 1, &[1, 0, 0, 0, 4, 1, 0, 5, 2, 0, 0, 0])?,
        Some(1)
    );
    let property = [1, 0, 0, 0, 1, 0, 0, 0, 0, 1, 0, 9, 0, 5, 2, 0, 0, 0];
    assert_eq!(rt; items(alloc, 3, 1, &property)?, Some(1));
    assert_eq!(rt;
        items(alloc, 3, 1, &[1, 0, 0, 0, 5, 5, 2, 0, 0, 0, 0, 0, 0, 0])?,
        Some(1)
    );
    let value = [
        1, 0, 0, 0, 5, 1, 0, 0, 0, 0, 1, 0, 0, 0, 1, 1, 0, 0x61, 5, 2, 0, 0, 0,
    ];
    assert_eq!(rt; items(alloc, 3, 1, &value)?, Some(1));
    Ok(())
}

#[test]
fn references_as_keys(rt: HostRuntime) -> Result<(), Fail> {
    let alloc = rt.alloc();
    // A table's key is itself, and then what isn't there.
    let itself = [
        1, 0, 0, 0, 5, 1, 0, 0, 0, 0, 1, 0, 0, 0, 0, 5, 1, 0, 0, 0, 1, 0, 0, 0, 0,
    ];
    assert_eq!(rt; items(alloc, 9, 1, &itself)?, None);
    let outside = [
        1, 0, 0, 0, 5, 1, 0, 0, 0, 0, 1, 0, 0, 0, 0, 5, 8, 0, 0, 0, 1, 0, 0, 0, 0,
    ];
    assert_eq!(rt; items(alloc, 9, 1, &outside)?, Some(1));
    // A string can't be a key by its number; a vector and a tads-object can.
    let mut table = Vec::from_slice(alloc, &itself)?;
    table[16] = 2;
    let mut string = table.clone()?;
    string.extend_from_slice(&[2, 0, 0, 0, 2, 0, 0])?;
    assert_eq!(rt; items(alloc, 9, 2, &string)?, Some(2));
    let mut list = table.clone()?;
    list.extend_from_slice(&[2, 0, 0, 0, 3, 0, 0])?;
    assert_eq!(rt; items(alloc, 9, 2, &list)?, Some(2));
    let mut vector = table.clone()?;
    vector.extend_from_slice(&[2, 0, 0, 0, 4, 0, 0])?;
    assert_eq!(rt; items(alloc, 9, 2, &vector)?, None);
    let mut tads = table;
    tads.extend_from_slice(&[2, 0, 0, 0, 1, 0, 0, 0, 0, 0, 0])?;
    assert_eq!(rt; items(alloc, 9, 2, &tads)?, None);
    Ok(())
}

#[test]
fn superclasses(rt: HostRuntime) -> Result<(), Fail> {
    let alloc = rt.alloc();
    // Tads-object 1 has the superclass 2: a tads-object, a string, none.
    let first = [1, 0, 0, 0, 1, 0, 0, 1, 0, 2, 0, 0, 0, 0, 0];
    let mut whole = Vec::from_slice(alloc, &first)?;
    whole.extend_from_slice(&[2, 0, 0, 0, 1, 1, 0, 0, 0, 0, 0])?;
    assert_eq!(rt; items(alloc, 9, 2, &whole)?, None);
    let mut string = Vec::from_slice(alloc, &first)?;
    string.extend_from_slice(&[2, 0, 0, 0, 2, 0, 0])?;
    assert_eq!(rt; items(alloc, 9, 2, &string)?, Some(2));
    assert_eq!(rt; items(alloc, 9, 1, &first)?, Some(1));
    // Its own superclass, and a ring of two.
    let own = [1, 0, 0, 0, 1, 0, 0, 1, 0, 1, 0, 0, 0, 0, 0];
    assert_eq!(rt; items(alloc, 9, 1, &own)?, Some(1));
    let mut ring = Vec::from_slice(alloc, &first)?;
    ring.extend_from_slice(&[2, 0, 0, 0, 1, 0, 0, 1, 0, 1, 0, 0, 0, 0, 0])?;
    assert_eq!(rt; items(alloc, 9, 2, &ring)?, Some(2));
    // Superclass 0.
    let zero = [1, 0, 0, 0, 1, 0, 0, 1, 0, 0, 0, 0, 0, 0, 0];
    assert_eq!(rt; items(alloc, 9, 1, &zero)?, Some(1));
    Ok(())
}
