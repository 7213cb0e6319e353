//! States whose objects all spell: what only the whole breaks counts all objects.
use crate::fixture::items;
use std::alloc::Global;
use std::test::Fail;

#[test]
fn numbers(rt: HostRuntime) -> Result<(), Fail> {
    let alloc = rt.alloc();
    // Two empty strings: their numbers rise, are equal, and fall.
    let rising = [3, 0, 0, 0, 2, 0, 0, 4, 0, 0, 0, 2, 0, 0];
    assert_eq!(rt; items(alloc, 5, 2, &rising)?, None);
    let equal = [3, 0, 0, 0, 2, 0, 0, 3, 0, 0, 0, 2, 0, 0];
    assert_eq!(rt; items(alloc, 5, 2, &equal)?, Some(1));
    let falling = [3, 0, 0, 0, 2, 0, 0, 2, 0, 0, 0, 2, 0, 0];
    assert_eq!(rt; items(alloc, 5, 2, &falling)?, Some(1));
    // The second has the next number, and one above it.
    assert_eq!(rt; items(alloc, 4, 2, &rising)?, Some(1));
    assert_eq!(rt; items(alloc, 3, 2, &rising)?, Some(0));
    // No object has the number 0.
    assert_eq!(rt; items(alloc, 5, 1, &[0, 0, 0, 0, 2, 0, 0])?, Some(0));
    Ok(())
}

#[test]
fn next_numbers(rt: HostRuntime) -> Result<(), Fail> {
    let alloc = rt.alloc();
    assert_eq!(rt; items(alloc, 0, 0, &[])?, None);
    assert_eq!(rt; items(alloc, 0x8000_0000, 0, &[])?, None);
    assert_eq!(rt; items(alloc, 0x8000_0001, 0, &[])?, Some(0));
    let string = [3, 0, 0, 0, 2, 0, 0];
    assert_eq!(rt; items(alloc, 0x8000_0000, 1, &string)?, None);
    assert_eq!(rt; items(alloc, 0xFFFF_FFFF, 1, &string)?, Some(1));
    Ok(())
}

#[test]
fn misspelled_below_a_great_next_number(rt: HostRuntime) -> Result<(), Fail> {
    let alloc = rt.alloc();
    let second = [3, 0, 0, 0, 2, 0, 0, 4, 0, 0, 0, 6];
    assert_eq!(rt; items(alloc, 5, 2, &second)?, Some(1));
    assert_eq!(rt; items(alloc, 0xFFFF_FFFF, 2, &second)?, Some(1));
    Ok(())
}

#[test]
fn counts(rt: HostRuntime) -> Result<(), Fail> {
    let alloc = rt.alloc();
    let string = [3, 0, 0, 0, 2, 0, 0];
    assert_eq!(rt; items(alloc, 4, 0, &string)?, Some(0));
    assert_eq!(rt; items(alloc, 4, 2, &string)?, Some(1));
    // A byte behind the last object.
    assert_eq!(rt; items(alloc, 4, 1, &[3, 0, 0, 0, 2, 0, 0, 0])?, Some(1));
    // Fewer bytes than the two counts have.
    assert_eq!(rt; short_head(alloc)?, Some(0));
    Ok(())
}

/// After how many objects a body of 7 bytes is malformed.
fn short_head(alloc: Global) -> Result<Option<u32>, Fail> {
    let mut bytes = Vec::from_slice(alloc, b"t3state\n\x01\x00")?;
    bytes.extend_from_slice(&crate::fixture::ZERO)?;
    bytes.extend_from_slice(&[0; 7])?;
    crate::fixture::append_digest(&mut bytes)?;
    match crate::fixture::refusal(alloc, &bytes)? {
        Some(t3_snapshot::SnapshotRefusal::Malformed { items }) => Ok(Some(items)),
        _ => Ok(None),
    }
}

#[test]
fn great_counts_take_no_memory(rt: HostRuntime) -> Result<(), Fail> {
    let alloc = rt.alloc();
    // 4,294,967,295 objects; entries; and 65,535 items, superclasses, properties and bytes.
    let string = [3, 0, 0, 0, 2, 2, 0, 0x68, 0x69];
    assert_eq!(rt; items(alloc, 4, 0xFFFF_FFFF, &string)?, Some(1));
    let table = [3, 0, 0, 0, 5, 1, 0, 0, 0, 0, 0xFF, 0xFF, 0xFF, 0xFF];
    assert_eq!(rt; items(alloc, 4, 1, &table)?, Some(0));
    assert_eq!(rt; items(alloc, 4, 1, &[3, 0, 0, 0, 3, 0xFF, 0xFF])?, Some(0));
    assert_eq!(rt; items(alloc, 4, 1, &[3, 0, 0, 0, 4, 0xFF, 0xFF])?, Some(0));
    assert_eq!(rt;
        items(alloc, 4, 1, &[3, 0, 0, 0, 1, 0, 0, 0xFF, 0xFF])?,
        Some(0)
    );
    assert_eq!(rt;
        items(alloc, 4, 1, &[3, 0, 0, 0, 1, 0, 0, 0, 0, 0xFF, 0xFF])?,
        Some(0)
    );
    assert_eq!(rt; items(alloc, 4, 1, &[3, 0, 0, 0, 2, 0xFF, 0xFF])?, Some(0));
    Ok(())
}
