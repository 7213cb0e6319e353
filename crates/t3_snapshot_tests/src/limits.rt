//! The bounds of a state, each just met and passed by one: its bytes, its objects and its units.
use crate::fixture::{items, refusal};
use std::alloc::Global;
use std::test::Fail;
use t3_snapshot::SnapshotRefusal;

/// So many empty strings, with the numbers from 1 on.
fn strings(alloc: Global, count: u32) -> Result<Vec<u8>, Fail> {
    let mut out = Vec::new(alloc);
    for index in 0..count {
        out.extend_from_slice(&(index + 1).to_le_bytes())?;
        out.extend_from_slice(&[2, 0, 0])?;
    }
    Ok(out)
}

/// Appends a list of so many nils.
fn append_list(out: &mut Vec<u8>, number: u32, length: u16) -> Result<(), Fail> {
    out.extend_from_slice(&number.to_le_bytes())?;
    out.push(3)?;
    out.extend_from_slice(&length.to_le_bytes())?;
    for _ in 0..length {
        out.extend_from_slice(&[1, 0, 0, 0, 0])?;
    }
    Ok(())
}

/// 64 lists of 65,535 elements, and one of so many.
fn lists(alloc: Global, last: u16) -> Result<Vec<u8>, Fail> {
    let mut out = Vec::new(alloc);
    for number in 1..=64u32 {
        append_list(&mut out, number, 65_535)?;
    }
    append_list(&mut out, 65, last)?;
    Ok(out)
}

/// 65 lists that count one unit too many, and behind them an object of no kind.
fn lists_and_no_object(alloc: Global) -> Result<Vec<u8>, Fail> {
    let mut out = lists(alloc, 65)?;
    out.extend_from_slice(&[66, 0, 0, 0, 6])?;
    Ok(out)
}

#[test]
fn bytes(rt: HostRuntime) -> Result<(), Fail> {
    let alloc = rt.alloc();
    let mut bytes = Vec::new(alloc);
    bytes.resize(268_435_457, 0u8)?;
    let longer = refusal(alloc, &bytes)?;
    bytes.truncate(268_435_456);
    let longest = refusal(alloc, &bytes)?;
    assert_eq!(rt; longer, Some(SnapshotRefusal::TooLong));
    assert_eq!(rt; longest, Some(SnapshotRefusal::Signature));
    Ok(())
}

#[test]
fn objects(rt: HostRuntime) -> Result<(), Fail> {
    let alloc = rt.alloc();
    let most = strings(alloc, 1_048_576)?;
    assert_eq!(rt; items(alloc, 0x8000_0000, 1_048_576, &most)?, None);
    let more = strings(alloc, 1_048_577)?;
    assert_eq!(rt;
        items(alloc, 0x8000_0000, 1_048_577, &more)?,
        Some(1_048_577)
    );
    Ok(())
}

#[test]
fn units(rt: HostRuntime) -> Result<(), Fail> {
    let alloc = rt.alloc();
    assert_eq!(rt; items(alloc, 66, 65, &lists(alloc, 64)?)?, None);
    assert_eq!(rt; items(alloc, 66, 65, &lists(alloc, 65)?)?, Some(65));
    // What doesn't spell behind a bound that is passed counts from its own place.
    let behind = lists_and_no_object(alloc)?;
    assert_eq!(rt; items(alloc, 67, 66, &behind)?, Some(65));
    Ok(())
}
