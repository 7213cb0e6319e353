//! Images that are checked.
use crate::devices::check_outcome;
use std::alloc::Global;
use std::process::Abort;
use std::test::Fail;
use t3_cli::Status;
use t3_testing::{
    END, ENTRY, FUNCTIONS, METHOD, POOL, SAYS_42, code_image, code_page, image, outcome,
};

/// What `check` shows and answers of a file.
fn check_file(
    rt: &impl Abort,
    alloc: Global,
    file: &[u8],
    want: &str,
    status: Status,
) -> Result<(), Fail> {
    check_outcome(rt, alloc, &["check", "a.t3"], Some(file), want, status)
}

const CUT: &[u8] = b"EOF \x00\x00\x00\x00\x00";

const SIZED_END: &[u8] = b"EOF \x01\x00\x00\x00\x00\x00\x00";

const KEPT: &[u8] = b"ZZZZ\x03\x00\x00\x00\x00\x00\x01\x02\x03";

const MANDATORY: &[u8] = b"ZZZZ\x03\x00\x00\x00\x01\x00\x01\x02\x03";

const TOO_LONG: &[u8] = b"OBJS\x01\x00\x00\x10\x01\x00";

/// What an image is made of, what is shown, and the status.
type ImageRow = (&'static [&'static [u8]], &'static str, Status);

const IMAGES: [ImageRow; 8] = [
    (&[END], "ok blocks=1 bytes=79\n", Status::Done),
    (&[CUT], "refused Truncated at 69\n", Status::ImageRefused),
    (&[END, &[7; 10]], "ok blocks=1 bytes=79\n", Status::Done),
    (&[KEPT, END], "ok blocks=2 bytes=92\n", Status::Done),
    (
        &[MANDATORY, END],
        "refused UnknownMandatory at 69\n",
        Status::ImageRefused,
    ),
    (&[TOO_LONG], "refused TooLong at 69\n", Status::ImageRefused),
    (
        &[SIZED_END],
        "refused EofSize at 69\n",
        Status::ImageRefused,
    ),
    (&[KEPT], "refused Truncated at 82\n", Status::ImageRefused),
];

/// What `check` shows and answers of the image of a row.
fn check_image(rt: &impl Abort, alloc: Global, row: &ImageRow) -> Result<(), Fail> {
    let (parts, want, status) = *row;
    let file = image(alloc, parts)?;
    check_file(rt, alloc, &file, want, status)
}

/// The first byte of an image is another.
fn check_signature(rt: &impl Abort, alloc: Global) -> Result<(), Fail> {
    let mut file = image(alloc, &[END])?;
    if let Some(first) = file.first_mut() {
        *first = 0x55;
    }
    check_file(
        rt,
        alloc,
        &file,
        "refused Signature at 0\n",
        Status::ImageRefused,
    )
}

#[test]
fn checks_the_worked_images(rt: HostRuntime) -> Result<(), Fail> {
    let alloc = rt.alloc();
    for row in &IMAGES {
        check_image(&rt, alloc, row)?;
    }
    check_signature(&rt, alloc)?;
    check_file(
        &rt,
        alloc,
        b"",
        "refused Truncated at 0\n",
        Status::ImageRefused,
    )?;
    check_outcome(
        &rt,
        alloc,
        &["check", "x.t3"],
        None,
        "absent x.t3\n",
        Status::Absent,
    )
}

/// The line that `check` shows of the header, these parts and the end.
fn checked(alloc: Global, parts: &[&[u8]]) -> Result<Vec<u8>, Fail> {
    let mut bytes = image(alloc, parts)?;
    bytes.extend_from_slice(END)?;
    let (_, shown) = outcome(alloc, &["check", "a.t3"], Some(&bytes))?;
    Ok(shown)
}

/// A block, and the line that `check` shows of it.
type BlockRow = (&'static [u8], &'static str);

const BLOCKS: [BlockRow; 8] = [
    (
        b"ENTP\x01\x00\x00\x00\x00\x00\x00",
        "refused Malformed at 69 items=0\n",
    ),
    (
        b"CPDF\x0B\x00\x00\x00\x00\x00\x01\x00\x01\x00\x00\x00\x40\x00\x00\x00\x00",
        "refused Malformed at 69 items=0\n",
    ),
    (
        b"CPPG\x06\x00\x00\x00\x00\x00\x01\x00\x00\x00\x00\x00",
        "refused Malformed at 69 items=0\n",
    ),
    (
        b"CPPG\x09\x00\x00\x00\x00\x00\x01\x00\x00\x00\x00\x00\xFF\xAB\x0D",
        "ok blocks=2 bytes=98\n",
    ),
    (
        b"FNSD\x05\x00\x00\x00\x00\x00\x02\x00\x02ab",
        "refused Malformed at 69 items=1\n",
    ),
    (
        b"FNSD\x06\x00\x00\x00\x00\x00\x01\x00\x02abc",
        "refused Malformed at 69 items=1\n",
    ),
    (
        b"FNSD\x05\x00\x00\x00\x00\x00\x01\x00\x03ab",
        "refused Malformed at 69 items=0\n",
    ),
    (
        b"OBJS\x12\x00\x00\x00\x01\x00\x02\x00\x00\x00\x00\x00\x07\x00\x00\x00\x06\x00\x00\x00\x00\x00\x00\x00",
        "refused Malformed at 69 items=1\n",
    ),
];

/// `check` shows this of these parts.
fn check_parts(rt: &impl Abort, alloc: Global, parts: &[&[u8]], want: &str) -> Result<(), Fail> {
    let shown = checked(alloc, parts)?;
    assert_eq!(rt; shown.as_slice(), want.as_bytes());
    Ok(())
}

/// The blocks of the image of a story.
fn check_story(rt: &impl Abort, alloc: Global) -> Result<(), Fail> {
    let page = code_page(alloc, METHOD, SAYS_42)?;
    let want = "ok blocks=5 bytes=185\n";
    check_parts(rt, alloc, &[ENTRY, POOL, FUNCTIONS, &page], want)
}

#[test]
fn checks_the_blocks_of_a_running_image(rt: HostRuntime) -> Result<(), Fail> {
    check_story(&rt, rt.alloc())?;
    for (block, want) in BLOCKS {
        check_parts(&rt, rt.alloc(), &[block], want)?;
    }
    Ok(())
}

/// Where the header and each block of the image of a story that says 42 begin, and where they end.
const SPANS: [(usize, usize); 6] = [
    (0, 69),
    (69, 95),
    (95, 115),
    (115, 142),
    (142, 175),
    (175, 185),
];

/// An image that is cut to each length of a span is refused at its place.
fn check_cuts(
    rt: &impl Abort,
    alloc: Global,
    file: &[u8],
    start: usize,
    end: usize,
) -> Result<(), Fail> {
    let want = format!(in alloc; "refused Truncated at {start}\n")?;
    for length in start..end {
        let cut = file.get(..length).unwrap_or(b"");
        check_file(rt, alloc, cut, want.as_str(), Status::ImageRefused)?;
    }
    Ok(())
}

/// The image of a story that says 42, cut to each length: the place is that of the header or of the block that isn't
/// whole.
#[test]
fn refuses_an_image_that_is_cut(rt: HostRuntime) -> Result<(), Fail> {
    let alloc = rt.alloc();
    let file = code_image(alloc, &[ENTRY, POOL, FUNCTIONS], METHOD, SAYS_42)?;
    assert_eq!(rt; file.len(), 185);
    for (start, end) in SPANS {
        check_cuts(&rt, alloc, &file, start, end)?;
    }
    check_file(&rt, alloc, &file, "ok blocks=5 bytes=185\n", Status::Done)
}
