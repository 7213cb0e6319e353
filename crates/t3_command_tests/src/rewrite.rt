//! Images that are written anew, over the devices in memory.
use crate::devices::{Left, STOPS, Stop, check_outcome, halves_of, left_by};
use std::alloc::{AllocError, Global};
use std::process::Abort;
use std::test::Fail;
use t3_cli::Status;
use t3_testing::{END, image};

/// The page 54 F2 under the mask FF, and under none.
const MASKED: &[u8] = b"CPPG\x09\0\0\0\0\0\x01\0\0\0\0\0\xFF\xAB\x0D";

const PLAIN: &[u8] = b"CPPG\x09\0\0\0\0\0\x01\0\0\0\0\0\0\x54\xF2";

/// An image of this page, with two bytes after its end.
fn read_file(alloc: Global) -> Result<Vec<u8>, AllocError> {
    image(alloc, &[MASKED, END, b"\x01\x02"])
}

/// What words leave with that image as `a.t3`, and `old` as `b.t3`.
fn carried(
    alloc: Global,
    words: &[&str],
    depot_calls: &[u32],
    console_calls: &[u32],
) -> Result<Left, Fail> {
    left_by(alloc, words, &read_file(alloc)?, depot_calls, console_calls)
}

/// The image stays, and the other file is this one.
fn check_put(rt: &impl Abort, alloc: Global, left: &Left, put: &[u8]) -> Result<(), Fail> {
    assert_eq!(rt; left.read, Some(read_file(alloc)?));
    assert_eq!(rt; left.put, Some(Vec::from_slice(alloc, put)?));
    Ok(())
}

/// What is shown of an image that was written.
const DONE: &str = "ok bytes=98\n";

/// Words, and the page that is put.
type MaskRow = (&'static [&'static str], &'static [u8]);

const MASKS: [MaskRow; 4] = [
    (&["rewrite", "a.t3", "b.t3"], MASKED),
    (&["rewrite", "a.t3", "b.t3", "--mask=255"], MASKED),
    (&["rewrite", "a.t3", "b.t3", "--mask=0"], PLAIN),
    (
        &["rewrite", "a.t3", "b.t3", "--mask=84"],
        b"CPPG\x09\0\0\0\0\0\x01\0\0\0\0\0\x54\x00\xA6",
    ),
];

/// The words of a row put an image of its page.
fn check_mask(rt: &impl Abort, alloc: Global, row: &MaskRow) -> Result<(), Fail> {
    let (words, page) = *row;
    let left = carried(alloc, words, &[], &[])?;
    assert_eq!(rt; left.shown.as_slice(), DONE.as_bytes());
    assert_eq!(rt; left.status, Status::Done);
    check_put(rt, alloc, &left, &image(alloc, &[page, END])?)
}

#[test]
fn writes_an_image_under_another_mask(rt: HostRuntime) -> Result<(), Fail> {
    for row in &MASKS {
        check_mask(&rt, rt.alloc(), row)?;
    }
    Ok(())
}

/// The image is under no mask, and the other file stays.
fn check_over_itself(rt: &impl Abort, alloc: Global, left: &Left) -> Result<(), Fail> {
    assert_eq!(rt; left.shown.as_slice(), DONE.as_bytes());
    assert_eq!(rt; left.read, Some(image(alloc, &[PLAIN, END])?));
    assert_eq!(rt; left.put, Some(Vec::from_slice(alloc, b"old")?));
    Ok(())
}

#[test]
fn writes_an_image_over_itself(rt: HostRuntime) -> Result<(), Fail> {
    let words = ["rewrite", "a.t3", "a.t3", "--mask=0"];
    let left = carried(rt.alloc(), &words, &[], &[])?;
    check_over_itself(&rt, rt.alloc(), &left)
}

/// What is left where the calls of a row fail, of an image that is to be put as this one.
fn check_stop(rt: &impl Abort, alloc: Global, plain: &[u8], stop: &Stop) -> Result<(), Fail> {
    let (depot_call, console_call, status, is_shown, halves) = *stop;
    let words = ["rewrite", "a.t3", "b.t3", "--mask=0"];
    let left = carried(alloc, &words, &[depot_call], &[console_call])?;
    let shown = if is_shown { DONE } else { "" };
    assert_eq!(rt; left.status, status);
    assert_eq!(rt; left.shown.as_slice(), shown.as_bytes());
    check_put(rt, alloc, &left, halves_of(plain, halves))
}

/// The k-th call of a device fails, for k from 0 until none is left to fail.
#[test]
fn stops_where_a_device_fails(rt: HostRuntime) -> Result<(), Fail> {
    let plain = image(rt.alloc(), &[PLAIN, END])?;
    for stop in &STOPS {
        check_stop(&rt, rt.alloc(), &plain, stop)?;
    }
    Ok(())
}

#[test]
fn puts_nothing_of_a_file_that_is_no_image(rt: HostRuntime) -> Result<(), Fail> {
    let cut = image(rt.alloc(), &[MASKED])?;
    let words = ["rewrite", "a.t3", "a.t3", "--mask=0"];
    let want = "refused Truncated at 88\n";
    check_outcome(
        &rt,
        rt.alloc(),
        &words,
        Some(&cut),
        want,
        Status::ImageRefused,
    )?;
    check_outcome(
        &rt,
        rt.alloc(),
        &words,
        None,
        "absent a.t3\n",
        Status::Absent,
    )
}

/// Words that are no command.
const OTHER: [&[&str]; 8] = [
    &["rewrite", "a.t3"],
    &["rewrite", "a.t3", "folder/b.t3"],
    &["rewrite", "a.t3", "--mask=0"],
    &["rewrite", "a.t3", "--mask=0", "b.t3"],
    &["rewrite", "a.t3", "b.t3", "--mask=256"],
    &["rewrite", "a.t3", "b.t3", "--mask=00"],
    &["rewrite", "a.t3", "b.t3", "--mask="],
    &["rewrite", "a.t3", "b.t3", "--mask=0", "--mask=0"],
];

/// These words leave the other file as it was.
fn check_other(rt: &impl Abort, alloc: Global, words: &[&str]) -> Result<(), Fail> {
    let left = carried(alloc, words, &[], &[])?;
    assert_eq!(rt; left.status, Status::Usage);
    assert_eq!(rt; left.put, Some(Vec::from_slice(alloc, b"old")?));
    Ok(())
}

#[test]
fn other_words_write_nothing(rt: HostRuntime) -> Result<(), Fail> {
    for words in OTHER {
        check_other(&rt, rt.alloc(), words)?;
    }
    Ok(())
}
