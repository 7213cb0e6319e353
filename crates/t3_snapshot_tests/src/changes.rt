//! The worked state, cut to each length and with each byte changed.
use crate::fixture::{append_digest, refusal, refusal_at, worked};
use std::alloc::Global;
use std::test::Fail;
use t3_snapshot::SnapshotRefusal;

/// After how many objects the worked state is malformed with this byte at this place of its body, and the
/// digest made anew; `None` where it is another state.
fn items_at(place: usize, byte: u8) -> Option<u32> {
    match place {
        // The next number: above 3, and at most 2^31.
        0 => (byte <= 3).then_some(0),
        1 | 2 => None,
        3 => (byte >= 0x80).then_some(1),
        // The object count.
        4 => Some(if byte == 0 { 0 } else { 1 }),
        5..=7 => Some(1),
        // The number: from 1 on, and below 4.
        8 => (byte == 0 || byte >= 4).then_some(0),
        // The kind, and the higher bytes of the number and of the length.
        9..=12 | 14 => Some(0),
        // The length: fewer bytes leave some.
        13 => Some(if byte < 2 { 1 } else { 0 }),
        // The text.
        _ => (byte >= 0x80).then_some(0),
    }
}

/// The worked state with this byte at this place of its body, and the digest made anew.
fn changed(alloc: Global, bytes: &[u8], place: usize, byte: u8) -> Result<Vec<u8>, Fail> {
    if bytes.len() < 59 {
        return Err(Fail::from("59 bytes"));
    }
    let (front, _) = bytes.split_at(59);
    let mut out = Vec::from_slice(alloc, front)?;
    if place >= 17 {
        return Err(Fail::from("a place"));
    }
    let at = 42 + place;
    if at >= out.len() {
        return Err(Fail::from("a place"));
    }
    out[at] = byte;
    append_digest(&mut out)?;
    Ok(out)
}

/// The first length to which bytes of a state are cut and refused otherwise than for their end.
pub(crate) fn first_cut(alloc: Global, bytes: &[u8]) -> Result<Option<usize>, Fail> {
    for length in 0..bytes.len() {
        if refusal(alloc, &bytes[..length])? != Some(refusal_at(length)) {
            return Ok(Some(length));
        }
    }
    Ok(None)
}

/// The first place of a state's bytes, and what is put there, that is refused otherwise than for that place.
pub(crate) fn first_change(alloc: Global, bytes: &[u8]) -> Result<Option<(usize, u8)>, Fail> {
    for place in 0..bytes.len() {
        for byte in 0..=255u8 {
            let mut changed = Vec::from_slice(alloc, bytes)?;
            if place < changed.len() {
                changed[place] = byte;
            }
            let expected = (changed.as_slice() != bytes).then_some(refusal_at(place));
            if refusal(alloc, &changed)? != expected {
                return Ok(Some((place, byte)));
            }
        }
    }
    Ok(None)
}

#[test]
fn cut_to_each_length(rt: HostRuntime) -> Result<(), Fail> {
    let alloc = rt.alloc();
    let bytes = worked(alloc)?;
    assert_eq!(rt; bytes.len(), 91);
    assert_eq!(rt; first_cut(alloc, &bytes)?, None);
    assert_eq!(rt; refusal(alloc, &bytes)?, None);
    Ok(())
}

#[test]
fn each_byte_changed(rt: HostRuntime) -> Result<(), Fail> {
    let alloc = rt.alloc();
    let bytes = worked(alloc)?;
    assert_eq!(rt; first_change(alloc, &bytes)?, None);
    Ok(())
}

#[test]
fn each_byte_changed_with_its_digest(rt: HostRuntime) -> Result<(), Fail> {
    let alloc = rt.alloc();
    let bytes = worked(alloc)?;
    for place in 0..17 {
        for other in 0..=255u8 {
            let other_bytes = changed(alloc, &bytes, place, other)?;
            let expected = if other_bytes == bytes {
                None
            } else {
                items_at(place, other).map(|items| SnapshotRefusal::Malformed { items })
            };
            let why = refusal(alloc, &other_bytes)?;
            assert_eq!(rt; why, expected, "{other} at {place}");
        }
    }
    Ok(())
}
