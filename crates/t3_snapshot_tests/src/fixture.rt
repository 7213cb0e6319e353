//! Bytes of states, spelled by hand.
use sha2::{Digest, Sha256};
use std::alloc::Global;
use std::test::Fail;
use t3_snapshot::{SnapshotRefusal, decode, encode, state_text};

/// The fingerprint of the image.
pub(crate) const ZERO: [u8; 32] = [0; 32];

/// Appends the digest of what is there.
pub(crate) fn append_digest(out: &mut Vec<u8>) -> Result<(), Fail> {
    let digest = Sha256::digest(out.as_slice());
    out.extend_from_slice(&digest)?;
    Ok(())
}

/// The bytes of a state with this next number, this object count and these bytes of objects.
pub(crate) fn spelled(
    alloc: Global,
    next: u32,
    count: u32,
    objects: &[u8],
) -> Result<Vec<u8>, Fail> {
    let mut out = Vec::from_slice(alloc, b"t3state\n\x01\x00")?;
    out.extend_from_slice(&ZERO)?;
    out.extend_from_slice(&next.to_le_bytes())?;
    out.extend_from_slice(&count.to_le_bytes())?;
    out.extend_from_slice(objects)?;
    append_digest(&mut out)?;
    Ok(out)
}

/// A string 3 with the bytes `hi`, and next number 4.
pub(crate) fn worked(alloc: Global) -> Result<Vec<u8>, Fail> {
    spelled(alloc, 4, 1, &[3, 0, 0, 0, 2, 2, 0, 0x68, 0x69])
}

/// What bytes say, written again.
pub(crate) fn again(alloc: Global, bytes: &[u8]) -> Result<Vec<u8>, Fail> {
    state_text();
    match decode(alloc, bytes, &ZERO) {
        Ok((state, next)) => Ok(encode(alloc, &state, &ZERO, next)?),
        Err(_) => Err(Fail::from("refused")),
    }
}

/// The refusal of bytes that are cut or changed from this place on.
pub(crate) fn refusal_at(place: usize) -> SnapshotRefusal {
    if place < 8 {
        SnapshotRefusal::Signature
    } else if place < 10 {
        SnapshotRefusal::Version
    } else if place < 42 {
        SnapshotRefusal::OtherImage
    } else {
        SnapshotRefusal::Digest
    }
}

/// Why bytes are refused, or `None` where they spell a state.
pub(crate) fn refusal(alloc: Global, bytes: &[u8]) -> Result<Option<SnapshotRefusal>, Fail> {
    match decode(alloc, bytes, &ZERO) {
        Ok(_) => Ok(None),
        Err(SnapshotRefusal::NoMemory) => Err(Fail::from("memory")),
        Err(why) => Ok(Some(why)),
    }
}

/// After how many objects the bytes of these objects are malformed, or `None` where they spell a state.
pub(crate) fn items(
    alloc: Global,
    next: u32,
    count: u32,
    objects: &[u8],
) -> Result<Option<u32>, Fail> {
    let bytes = spelled(alloc, next, count, objects)?;
    match refusal(alloc, &bytes)? {
        None => Ok(None),
        Some(SnapshotRefusal::Malformed { items }) => Ok(Some(items)),
        Some(_) => Err(Fail::from("another refusal")),
    }
}
