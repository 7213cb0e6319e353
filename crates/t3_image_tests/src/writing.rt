//! Images that are read, and written again.
ghost use Rattle.std.specs.Prelude.{◌<◌};

use std::alloc::{AllocError, Global};
use std::marker::Brand;
use std::test::Fail;
use t3_image_read::{Image, ImageReader, ReadRefusal, Reader};
use t3_image_write::{Rewriter, remask, rewritten_text, write_image};

/// A block of each kind, beside the page.
const OTHERS: [&[u8]; 8] = [
    b"ENTP\x12\0\0\0\x01\0\x10\0\0\0\x0A\0\x0B\0\x01\0\x02\0\x03\0\x04\0\x05\x06",
    b"CPDF\x0A\0\0\0\x03\0\x01\0\x01\0\0\0\x40\0\0\0",
    b"FNSD\x07\0\0\0\x01\0\x02\0\x02ab\x01c",
    b"MCLD\x0F\0\0\0\x01\0\x01\0\x0D\0\x02mc\x01\0\x03\0\x07\0\x09\xEE",
    b"OBJS\x0E\0\0\0\x01\0\x01\0\x04\0\x02\0\x07\0\0\0\x02\0\x11\x22",
    b"SYMD\x09\0\0\0\x01\0\x01\0\x07\x2A\0\0\0\x01s",
    b"MRES\x01\0\0\0\x01\0\x05",
    b"ZZZZ\x03\0\0\0\xFE\xFF\x01\x02\x03",
];

/// The page 54 F2 under the mask FF.
const MASKED: &[u8] = b"CPPG\x09\0\0\0\x01\0\x01\0\0\0\0\0\xFF\xAB\x0D";

/// The same page under no mask.
const PLAIN: &[u8] = b"CPPG\x09\0\0\0\x01\0\x01\0\0\0\0\0\0\x54\xF2";

/// An image with a page in the middle of a block of each kind.
fn image(alloc: Global, page: &[u8]) -> Result<Vec<u8>, AllocError> {
    let mut bytes = Vec::from_slice(alloc, b"T3-image\r\n\x1a\x01\0")?;
    bytes.extend_from_slice(&[7; 32])?;
    bytes.extend_from_slice(&[32; 24])?;
    for other in &OTHERS[..4] {
        bytes.extend_from_slice(other)?;
    }
    bytes.extend_from_slice(page)?;
    for other in &OTHERS[4..] {
        bytes.extend_from_slice(other)?;
    }
    bytes.extend_from_slice(b"EOF \0\0\0\0\x02\0")?;
    Ok(bytes)
}

fn read(alloc: Global, bytes: &[u8]) -> Result<Image, ReadRefusal> {
    let mut reader = ImageReader::new(alloc);
    reader.feed(bytes)?;
    reader.finish()
}

#[test]
fn writes_what_was_read(rt: HostRuntime) -> Result<(), Fail> {
    let bytes = image(rt.alloc(), MASKED)?;
    let image = read(rt.alloc(), &bytes)?;
    assert_eq!(rt; image.blocks.0.len(), 9);
    let written = write_image(rt.alloc(), &image)?;
    assert_eq!(rt; written, bytes);
    Ok(())
}

#[test]
fn writes_an_image_without_blocks(rt: HostRuntime) -> Result<(), Fail> {
    let mut bytes = image(rt.alloc(), MASKED)?;
    bytes.truncate(69);
    bytes.extend_from_slice(b"EOF \0\0\0\0\0\0")?;
    let image = read(rt.alloc(), &bytes)?;
    assert_eq!(rt; write_image(rt.alloc(), &image)?, bytes);
    Ok(())
}

/// The example of the crate's first page.
#[test]
fn puts_a_page_under_another_mask(rt: HostRuntime) -> Result<(), Fail> {
    let mut image = read(rt.alloc(), &image(rt.alloc(), MASKED)?)?;
    remask(&mut image, 0);
    let plain = self::image(rt.alloc(), PLAIN)?;
    assert_eq!(rt; write_image(rt.alloc(), &image)?, plain);
    Ok(())
}

#[test]
fn rewrites_while_it_reads(rt: HostRuntime) -> Result<(), Fail> {
    let bytes = image(rt.alloc(), MASKED)?;
    for length in 1..=bytes.len() {
        let written = rewritten_by(rt.alloc(), &bytes, length)?;
        assert!(rt; written == bytes, "by {length}");
    }
    Ok(())
}

/// An image that is rewritten while it is read in pieces of a length.
fn rewritten_by(alloc: Global, bytes: &[u8], length: usize) -> Result<Vec<u8>, Fail>
    requires { 0 < length }
{
    let mut reader = Reader::with_sink(alloc, Rewriter::<Brand>::new(alloc, None)?);
    for piece in bytes.chunks(length) {
        reader.feed(piece)?;
    }
    Ok(rewritten_text(alloc, reader.into_parts()?)?)
}
