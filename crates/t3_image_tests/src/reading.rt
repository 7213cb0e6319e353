//! One image in pieces of each length: the same answers, whatever the cut.
ghost use Rattle.std.specs.Prelude.{◌<◌};

use std::alloc::{AllocError, Global};
use std::process::Abort;
use std::test::Fail;
use t3_blocks::{Block, BlockRefusal, PayloadRefusal};
use t3_holder::NoMemory;
use t3_image_read::{Fed, Image, ImageChecker, ImageReader, ReadRefusal, ReadWhy, Totals};

/// A header whose reserved bytes are 0 and whose time is spaces, a block, and the end.
fn image(alloc: Global, flags: u8) -> Result<Vec<u8>, AllocError> {
    let mut bytes = Vec::new(alloc);
    bytes.extend_from_slice(b"T3-image\r\n\x1a\x01\x00")?;
    bytes.extend_from_slice(&[0; 32])?;
    bytes.extend_from_slice(&[32; 24])?;
    bytes.extend_from_slice(&[0x5A, 0x5A, 0x5A, 0x5A, 3, 0, 0, 0, flags, 0, 1, 2, 3])?;
    bytes.extend_from_slice(b"EOF \x00\x00\x00\x00\x02\x00")?;
    Ok(bytes)
}

/// What is answered of a piece of so many bytes behind so many others, of an image that ends there.
fn answer(taken: usize, size: usize, end: usize) -> Fed {
    if taken >= end {
        Fed::Done { used: 0 }
    } else if end - taken <= size {
        Fed::Done { used: end - taken }
    } else {
        Fed::More
    }
}

/// The image that bytes begin with, in pieces of a length.
fn read_by(
    rt: &impl Abort,
    alloc: Global,
    bytes: &[u8],
    end: usize,
    length: usize,
) -> Result<Image, Fail>
    requires { 0 < length }
{
    let mut reader = ImageReader::new(alloc);
    let mut taken = 0usize;
    for piece in bytes.chunks(length) {
        let want = answer(taken, piece.len(), end);
        assert_eq!(rt; reader.feed(piece)?, want, "at {taken}, by {length}");
        taken = taken.saturating_add(piece.len());
    }
    Ok(reader.finish()?)
}

/// It is the image of `image` without a flag.
fn check_image(rt: &impl Abort, image: &Image) -> Result<(), Fail> {
    assert_eq!(rt; image.head.stamp, [32; 24]);
    assert_eq!(rt; image.eof_flags, 2);
    assert_eq!(rt; image.blocks.0.len(), 1);
    for placed in &image.blocks.0 {
        assert_eq!(rt; placed.flags, 0);
        match &placed.block {
            Block::Opaque { name, bytes } => {
                assert_eq!(rt; *name, *b"ZZZZ");
                assert_eq!(rt; bytes.0.as_slice(), [1, 2, 3].as_slice());
            }
            _ => panic!(rt; "a block without a layout is kept as bytes"),
        }
    }
    Ok(())
}

#[test]
fn reads_an_image_in_pieces_of_each_length(rt: HostRuntime) -> Result<(), Fail> {
    let mut bytes = image(rt.alloc(), 0)?;
    let end = bytes.len();
    assert_eq!(rt; end, 92);
    // What stands after the end is left alone.
    bytes.extend_from_slice(b"trailing")?;
    for length in 1..=bytes.len() {
        let image = read_by(&rt, rt.alloc(), &bytes, end, length)?;
        check_image(&rt, &image)?;
    }
    Ok(())
}

/// Bytes are refused as soon as so many of them are taken, in pieces of a length.
fn check_refused(
    rt: &impl Abort,
    alloc: Global,
    bytes: &[u8],
    due: usize,
    refusal: ReadRefusal,
    length: usize,
) -> Result<(), Fail>
    requires { 0 < length }
{
    let mut reader = ImageReader::new(alloc);
    let mut taken = 0usize;
    for piece in bytes.chunks(length) {
        taken = taken.saturating_add(piece.len());
        let want = if taken < due {
            Ok(Fed::More)
        } else {
            Err(refusal)
        };
        assert_eq!(rt; reader.feed(piece), want, "before {taken}, by {length}");
    }
    assert!(rt; reader.finish().err() == Some(refusal), "by {length}");
    Ok(())
}

#[test]
fn refuses_a_malformed_payload_in_pieces_of_each_length(rt: HostRuntime) -> Result<(), Fail> {
    let mut bytes = image(rt.alloc(), 0)?;
    bytes.truncate(82);
    // Two names are due, and one is there.
    bytes.extend_from_slice(b"FNSD\x05\x00\x00\x00\x01\x00\x02\x00\x02abEOF ")?;
    let refusal = ReadRefusal::At {
        place: 82,
        why: ReadWhy::Malformed { items: 1 },
    };
    // The payload ends after 97 bytes.
    for length in 1..=bytes.len() {
        check_refused(&rt, rt.alloc(), &bytes, 97, refusal, length)?;
    }
    Ok(())
}

#[test]
fn refuses_an_image_in_pieces_of_each_length(rt: HostRuntime) -> Result<(), Fail> {
    let bytes = image(rt.alloc(), 1)?;
    let refusal = ReadRefusal::At {
        place: 69,
        why: ReadWhy::UnknownMandatory,
    };
    // The block's header ends after 79 bytes.
    for length in 1..=bytes.len() {
        check_refused(&rt, rt.alloc(), &bytes, 79, refusal, length)?;
    }
    Ok(())
}

#[test]
fn refuses_what_ends_too_early(rt: HostRuntime) -> Result<(), Fail> {
    let bytes = image(rt.alloc(), 0)?;
    let prefix = bytes.get(..68).ok_or("the image has a header")?;
    let mut cut = ImageReader::new(rt.alloc());
    assert_eq!(rt; cut.feed(prefix)?, Fed::More);
    let refusal = ReadRefusal::At {
        place: 0,
        why: ReadWhy::Truncated,
    };
    assert!(rt; cut.finish().err() == Some(refusal));
    Ok(())
}

#[test]
fn names_the_first_rule_that_a_block_header_breaks(rt: HostRuntime) -> Result<(), Fail> {
    let rows: [(&[u8; 10], ReadWhy); 5] = [
        (b"EOF \x01\x00\x00\x00\x00\x00", ReadWhy::EofSize),
        (b"EOF \xFF\xFF\xFF\xFF\x00\x00", ReadWhy::EofSize),
        (b"OBJS\x01\x00\x00\x10\x01\x00", ReadWhy::TooLong),
        (b"ZZZZ\xFF\xFF\xFF\xFF\x01\x00", ReadWhy::TooLong),
        (b"ZZZZ\x00\x00\x00\x00\x01\x00", ReadWhy::UnknownMandatory),
    ];
    let mut head = image(rt.alloc(), 0)?;
    head.truncate(69);
    for (header, why) in rows {
        let mut reader = ImageReader::new(rt.alloc());
        assert_eq!(rt; reader.feed(&head)?, Fed::More);
        let refusal = ReadRefusal::At { place: 69, why };
        assert_eq!(rt; reader.feed(header), Err(refusal));
    }
    Ok(())
}

#[test]
fn counts_the_end_among_the_blocks(rt: HostRuntime) -> Result<(), Fail> {
    let mut bytes = image(rt.alloc(), 0)?;
    bytes.truncate(69);
    for _ in 0..65_535 {
        bytes.extend_from_slice(b"ZZZZ\x00\x00\x00\x00\x00\x00")?;
    }
    assert_eq!(rt;
        fed_behind(&rt, rt.alloc(), &bytes, b"")?,
        Ok(Fed::Done { used: 10 })
    );
    let refusal = ReadRefusal::At {
        place: 655_429,
        why: ReadWhy::TooMany,
    };
    let block = b"ZZZZ\x00\x00\x00\x00\x00\x00";
    assert_eq!(rt; fed_behind(&rt, rt.alloc(), &bytes, block)?, Err(refusal));
    Ok(())
}

/// What is answered of the end behind these bytes and this block, of neither of which more is told.
fn fed_behind(
    rt: &impl Abort,
    alloc: Global,
    bytes: &[u8],
    block: &[u8],
) -> Result<Result<Fed, ReadRefusal>, Fail> {
    let mut reader = ImageReader::new(alloc);
    assert_eq!(rt; reader.feed(bytes)?, Fed::More);
    assert_eq!(rt; reader.feed(block)?, Fed::More);
    Ok(reader.feed(b"EOF \x00\x00\x00\x00\x00\x00"))
}

/// This test and the next have the text of every error that these crates answer.
#[test]
fn shows_what_is_refused_and_where(rt: HostRuntime) -> Result<(), Fail> {
    let rules = [
        (ReadWhy::Signature, "the signature is another"),
        (ReadWhy::Version, "the version isn't 1"),
        (ReadWhy::TooLong, "the block ends past the greatest image"),
        (ReadWhy::TooMany, "the block is one too many"),
        (
            ReadWhy::UnknownMandatory,
            "the block is mandatory and unknown",
        ),
        (
            ReadWhy::Malformed { items: 3 },
            "the block's payload is malformed after 3 items",
        ),
        (ReadWhy::EofSize, "the end has a payload"),
        (ReadWhy::Truncated, "the stream ends too early"),
    ];
    for (why, wanted) in rules {
        let text = format!(in rt.alloc(); "{why}")?;
        assert_eq!(rt; text.as_str(), wanted);
        let refusal = ReadRefusal::At { place: 82, why };
        let text = format!(in rt.alloc(); "{refusal}")?;
        assert_eq!(rt;
            text.strip_prefix("an image is refused at 82: "),
            Some(wanted)
        );
    }
    Ok(())
}

#[test]
fn shows_what_is_refused_of_a_block(rt: HostRuntime) -> Result<(), Fail> {
    let blocks = [
        (
            BlockRefusal::UnknownMandatory,
            "an unknown block is mandatory",
        ),
        (
            BlockRefusal::Malformed { items: 3 },
            "a block's payload is malformed after 3 items",
        ),
        (BlockRefusal::NoMemory, "out of memory"),
    ];
    for (refusal, wanted) in blocks {
        let text = format!(in rt.alloc(); "{refusal}")?;
        assert_eq!(rt; text.as_str(), wanted);
    }
    let malformed = PayloadRefusal::Malformed { items: 3 };
    let text = format!(in rt.alloc(); "{malformed}")?;
    assert_eq!(rt;
        text.as_str(),
        "a block's payload is malformed after 3 items"
    );
    check_want_of_memory(&rt, rt.alloc())
}

fn check_want_of_memory(rt: &impl Abort, alloc: Global) -> Result<(), Fail> {
    let wants = format!(in alloc;
        "{}, {}, {}",
        NoMemory,
        PayloadRefusal::NoMemory,
        ReadRefusal::NoMemory
    )?;
    assert_eq!(rt;
        wants.as_str(),
        "out of memory, out of memory, out of memory"
    );
    Ok(())
}

/// The example of the crate's first page.
#[test]
fn reads_an_image_in_two_pieces(rt: HostRuntime) -> Result<(), Fail> {
    let bytes = image(rt.alloc(), 0)?;
    let (first, second) = bytes.split_at_checked(70).ok_or("the image is longer")?;
    let mut reader = ImageReader::new(rt.alloc());
    assert_eq!(rt; reader.feed(first)?, Fed::More);
    assert_eq!(rt; reader.feed(second)?, Fed::Done { used: 22 });
    assert_eq!(rt; reader.finish()?.blocks.0.len(), 1);
    Ok(())
}

/// What a checker answers, and what a reader does, of the same bytes in pieces of a length.
fn told(
    alloc: Global,
    bytes: &[u8],
    length: usize,
) -> (Result<Totals, ReadRefusal>, Result<usize, ReadRefusal>)
    requires { 0 < length }
{
    let mut checker = ImageChecker::new(alloc);
    let mut reader = ImageReader::new(alloc);
    for piece in bytes.chunks(length) {
        let _ = checker.feed(piece);
        let _ = reader.feed(piece);
    }
    let blocks = match reader.finish() {
        Ok(image) => Ok(image.blocks.0.len()),
        Err(refusal) => Err(refusal),
    };
    (checker.totals(), blocks)
}

/// What a checker and a reader answer of bytes in pieces of a length.
fn check_told(
    rt: &impl Abort,
    alloc: Global,
    bytes: &[u8],
    length: usize,
    want: (Result<Totals, ReadRefusal>, Result<usize, ReadRefusal>),
) -> Result<(), Fail>
    requires { 0 < length }
{
    let (totals, blocks) = told(alloc, bytes, length);
    assert_eq!(rt; totals, want.0);
    assert_eq!(rt; blocks, want.1);
    Ok(())
}

#[test]
fn a_checker_counts_what_a_reader_keeps(rt: HostRuntime) -> Result<(), Fail> {
    let bytes = image(rt.alloc(), 0)?;
    let refused = image(rt.alloc(), 1)?;
    let mut cut = image(rt.alloc(), 0)?;
    cut.truncate(91);
    let totals = Totals {
        blocks: 2,
        bytes: 92,
    };
    let unknown = ReadRefusal::At {
        place: 69,
        why: ReadWhy::UnknownMandatory,
    };
    let truncated = ReadRefusal::At {
        place: 82,
        why: ReadWhy::Truncated,
    };
    for length in 1..=bytes.len() {
        check_told(&rt, rt.alloc(), &bytes, length, (Ok(totals), Ok(1)))?;
        check_told(
            &rt,
            rt.alloc(),
            &refused,
            length,
            (Err(unknown), Err(unknown)),
        )?;
        check_told(
            &rt,
            rt.alloc(),
            &cut,
            length,
            (Err(truncated), Err(truncated)),
        )?;
    }
    Ok(())
}
