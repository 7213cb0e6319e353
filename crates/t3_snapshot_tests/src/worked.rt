//! Worked states.
use crate::fixture::{ZERO, refusal, spelled, worked};
use std::alloc::Global;
use std::test::Fail;
use t3_snapshot::{SnapshotRefusal, decode};

#[test]
fn the_string_is_read(rt: HostRuntime) -> Result<(), Fail> {
    let alloc = rt.alloc();
    let bytes = worked(alloc)?;
    assert_eq!(rt; bytes.len(), 91);
    let (state, next) = decode(alloc, &bytes, &ZERO)?;
    assert_eq!(rt; next, 4);
    let text = state.text(3).ok_or("no string")?;
    assert_eq!(rt; text, b"hi".as_slice());
    assert_eq!(rt; state.after(0), Some(3));
    assert_eq!(rt; state.after(3), None);
    Ok(())
}

#[test]
fn no_objects_are_read(rt: HostRuntime) -> Result<(), Fail> {
    let alloc = rt.alloc();
    let bytes = spelled(alloc, 1, 0, &[])?;
    assert_eq!(rt; bytes.len(), 82);
    let (state, next) = decode(alloc, &bytes, &ZERO)?;
    assert_eq!(rt; next, 1);
    assert_eq!(rt; state.after(0), None);
    Ok(())
}

/// Why the state without objects is refused with its last byte changed, and without it; and why its first 7 bytes are.
fn refusals_of_changes(alloc: Global) -> Result<[Option<SnapshotRefusal>; 3], Fail> {
    let mut bytes = spelled(alloc, 1, 0, &[])?;
    let mut changed = bytes.clone()?;
    if let Some(last) = changed.last_mut() {
        *last ^= 1;
    }
    let changed = refusal(alloc, &changed)?;
    bytes.truncate(81);
    let cut = refusal(alloc, &bytes)?;
    bytes.truncate(7);
    Ok([changed, cut, refusal(alloc, &bytes)?])
}

#[test]
fn no_objects_are_refused(rt: HostRuntime) -> Result<(), Fail> {
    let expected = [
        Some(SnapshotRefusal::Digest),
        Some(SnapshotRefusal::Digest),
        Some(SnapshotRefusal::Signature),
    ];
    assert_eq!(rt; refusals_of_changes(rt.alloc())?, expected);
    Ok(())
}

/// Why these bytes are refused for another image, whose fingerprint begins with this byte.
fn refusal_of_image(
    alloc: Global,
    bytes: &[u8],
    first: u8,
) -> Result<Option<SnapshotRefusal>, Fail> {
    let mut fingerprint = ZERO;
    fingerprint[0] = first;
    match decode(alloc, bytes, &fingerprint) {
        Ok(_) => Ok(None),
        Err(why) => Ok(Some(why)),
    }
}

#[test]
fn of_another_image(rt: HostRuntime) -> Result<(), Fail> {
    let alloc = rt.alloc();
    let none = spelled(alloc, 1, 0, &[])?;
    let other = Some(SnapshotRefusal::OtherImage);
    assert_eq!(rt; refusal_of_image(alloc, &none, 0)?, None);
    assert_eq!(rt; refusal_of_image(alloc, &none, 1)?, other);
    assert_eq!(rt; refusal_of_image(alloc, &worked(alloc)?, 1)?, other);
    Ok(())
}

#[test]
fn refusals_in_words(rt: HostRuntime) -> Result<(), Fail> {
    let alloc = rt.alloc();
    let rows = [
        (SnapshotRefusal::TooLong, "too long"),
        (SnapshotRefusal::Signature, "no saved state"),
        (SnapshotRefusal::Version, "another version"),
        (SnapshotRefusal::OtherImage, "of another image"),
        (SnapshotRefusal::Digest, "the digest differs"),
        (
            SnapshotRefusal::Malformed { items: 7 },
            "malformed after 7 objects",
        ),
        (SnapshotRefusal::NoMemory, "out of memory"),
    ];
    for (why, words) in &rows {
        assert_eq!(rt; why.to_string(alloc)?.as_str(), *words);
    }
    Ok(())
}
