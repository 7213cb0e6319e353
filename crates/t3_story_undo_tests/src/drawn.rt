//! Stories that are drawn, beside a machine that keeps whole copies.
use crate::drawing::drawn;
use crate::story::shown;
use std::alloc::Global;
use std::test::Fail;

/// Whether the story of a seed shows what the machine of whole copies has, under these limits.
fn is_as_copies(alloc: Global, seed: u32, records: usize, savepoints: usize) -> Result<bool, Fail> {
    let records_option = format!(in alloc; "--records={records}")?;
    let savepoints_option = format!(in alloc; "--savepoints={savepoints}")?;
    let story = drawn(alloc, seed, records, savepoints)?;
    let options = [records_option.as_str(), savepoints_option.as_str()];
    let got = shown(alloc, &options, story.body.as_str())?;
    Ok(got.as_slice() == story.shows.as_bytes())
}

/// How many stories are drawn for each pair of limits.
const STORIES: u32 = 100;

/// The first seed whose story shows something else.
fn first_unlike(alloc: Global, records: usize, savepoints: usize) -> Result<Option<u32>, Fail> {
    for seed in 0..STORIES {
        if !is_as_copies(alloc, seed, records, savepoints)? {
            return Ok(Some(seed));
        }
    }
    Ok(None)
}

#[test]
fn keeps_whole_copies(rt: HostRuntime) -> Result<(), Fail> {
    assert_eq!(rt; first_unlike(rt.alloc(), 65_536, 128)?, None);
    Ok(())
}

#[test]
fn keeps_three_savepoints(rt: HostRuntime) -> Result<(), Fail> {
    assert_eq!(rt; first_unlike(rt.alloc(), 1_000, 3)?, None);
    Ok(())
}

#[test]
fn keeps_five_records(rt: HostRuntime) -> Result<(), Fail> {
    assert_eq!(rt; first_unlike(rt.alloc(), 5, 128)?, None);
    Ok(())
}

#[test]
fn keeps_three_records_and_two_savepoints(rt: HostRuntime) -> Result<(), Fail> {
    assert_eq!(rt; first_unlike(rt.alloc(), 3, 2)?, None);
    Ok(())
}

#[test]
fn keeps_one_record_and_one_savepoint(rt: HostRuntime) -> Result<(), Fail> {
    assert_eq!(rt; first_unlike(rt.alloc(), 1, 1)?, None);
    Ok(())
}
