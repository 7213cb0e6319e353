//! A state with an object of each kind, cut to each length and with each byte changed, as it stands and with its digest
//! made anew.
use crate::changes::{first_change, first_cut};
use crate::each_change::{ANOTHER, CHANGES, OBJECTS};
use crate::fixture::{again, append_digest, refusal, refusal_at, spelled};
use std::alloc::Global;
use std::test::Fail;
use t3_snapshot::SnapshotRefusal;

/// Where the objects end in the bytes.
const ENDS: [usize; 6] = [75, 97, 107, 124, 141, 186];

/// The whole state: its next number is 9.
fn whole(alloc: Global) -> Result<Vec<u8>, Fail> {
    spelled(alloc, 9, 6, &OBJECTS)
}

/// So many bytes of a state, and their digest.
fn front(alloc: Global, bytes: &[u8], length: usize) -> Result<Vec<u8>, Fail> {
    let mut out = Vec::from_slice(alloc, bytes)?;
    out.truncate(length);
    append_digest(&mut out)?;
    Ok(out)
}

/// A state with another byte at a place, and the digest made anew.
fn changed(alloc: Global, bytes: &[u8], place: usize, byte: u8) -> Result<Vec<u8>, Fail> {
    let mut out = Vec::from_slice(alloc, bytes)?;
    out.truncate(186);
    if place >= out.len() {
        return Err(Fail::from("a place"));
    }
    out[place] = byte;
    append_digest(&mut out)?;
    Ok(out)
}

/// Why the front of a state with its digest is refused.
fn refusal_of_front(length: usize) -> SnapshotRefusal {
    if length < 42 {
        return refusal_at(length);
    }
    let items = ENDS.iter().filter(|end| **end <= length).count();
    SnapshotRefusal::Malformed {
        items: items as u32,
    }
}

/// Whether a row is for this byte at this place.
fn is_for(row: &[u8; 5], place: u8, byte: u8) -> bool {
    let [first, last, least, greatest, _] = *row;
    (first..=last).contains(&place) && (least..=greatest).contains(&byte)
}

/// What the rows say of this byte at this place.
fn outcome(rows: &[[u8; 5]], place: u8, byte: u8) -> u8 {
    let mut outcome = ANOTHER;
    for row in rows {
        if is_for(row, place, byte) {
            outcome = row[4];
        }
    }
    outcome
}

/// Whether this byte at this place of the body makes what the rows say: a refusal, or a state that is written again
/// by just these bytes.
fn is_as_said(
    alloc: Global,
    bytes: &[u8],
    rows: &[[u8; 5]],
    place: u8,
    byte: u8,
) -> Result<bool, Fail> {
    let changed = changed(alloc, bytes, 42 + place as usize, byte)?;
    if changed.as_slice() == bytes {
        return Ok(true);
    }
    match outcome(rows, place, byte) {
        ANOTHER => Ok(again(alloc, &changed)? == changed),
        items => {
            let malformed = SnapshotRefusal::Malformed {
                items: u32::from(items),
            };
            Ok(refusal(alloc, &changed)? == Some(malformed))
        }
    }
}

/// The first change of the body that makes something else than the rows say.
fn first_otherwise(
    alloc: Global,
    bytes: &[u8],
    rows: &[[u8; 5]],
) -> Result<Option<(u8, u8)>, Fail> {
    for place in 0..144u8 {
        for byte in 0..=255u8 {
            if !is_as_said(alloc, bytes, rows, place, byte)? {
                return Ok(Some((place, byte)));
            }
        }
    }
    Ok(None)
}

/// The first length whose front with its digest is refused otherwise.
fn first_front(alloc: Global, bytes: &[u8]) -> Result<Option<usize>, Fail> {
    for length in 0..186 {
        let why = refusal(alloc, &front(alloc, bytes, length)?)?;
        if why != Some(refusal_of_front(length)) {
            return Ok(Some(length));
        }
    }
    Ok(None)
}

/// The first byte before the body, and what is put there, that with its digest is refused otherwise.
fn first_of_head(alloc: Global, bytes: &[u8]) -> Result<Option<(usize, u8)>, Fail> {
    for place in 0..42 {
        for byte in 0..=255u8 {
            let changed = changed(alloc, bytes, place, byte)?;
            let expected = (changed.as_slice() != bytes).then_some(refusal_at(place));
            if refusal(alloc, &changed)? != expected {
                return Ok(Some((place, byte)));
            }
        }
    }
    Ok(None)
}

#[test]
fn it_is_written_again(rt: HostRuntime) -> Result<(), Fail> {
    let alloc = rt.alloc();
    let bytes = whole(alloc)?;
    assert_eq!(rt; bytes.len(), 218);
    assert_eq!(rt; again(alloc, &bytes)?, bytes);
    Ok(())
}

#[test]
fn each_byte_changed_with_its_digest(rt: HostRuntime) -> Result<(), Fail> {
    let alloc = rt.alloc();
    let bytes = whole(alloc)?;
    assert_eq!(rt; first_otherwise(alloc, &bytes, &CHANGES)?, None);
    Ok(())
}

#[test]
fn each_byte_of_the_head_with_its_digest(rt: HostRuntime) -> Result<(), Fail> {
    let alloc = rt.alloc();
    let bytes = whole(alloc)?;
    assert_eq!(rt; first_of_head(alloc, &bytes)?, None);
    Ok(())
}

#[test]
fn cut_to_each_length_with_its_digest(rt: HostRuntime) -> Result<(), Fail> {
    let alloc = rt.alloc();
    let bytes = whole(alloc)?;
    assert_eq!(rt; first_front(alloc, &bytes)?, None);
    Ok(())
}

#[test]
fn cut_to_each_length(rt: HostRuntime) -> Result<(), Fail> {
    let alloc = rt.alloc();
    let bytes = whole(alloc)?;
    assert_eq!(rt; first_cut(alloc, &bytes)?, None);
    Ok(())
}

#[test]
fn each_byte_changed(rt: HostRuntime) -> Result<(), Fail> {
    let alloc = rt.alloc();
    let bytes = whole(alloc)?;
    assert_eq!(rt; first_change(alloc, &bytes)?, None);
    Ok(())
}
