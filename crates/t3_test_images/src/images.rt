//! A whole image, and any block.
use std::alloc::{AllocError, Global};
use std::test::Fail;
use t3_image_read::{Image, ImageReader};

/// A header whose reserved bytes and time are 0, these blocks, and the end.
pub fn image_bytes(alloc: Global, blocks: &[Vec<u8>]) -> Result<Vec<u8>, AllocError> {
    let mut bytes = Vec::new(alloc);
    bytes.extend_from_slice(b"T3-image\r\n\x1a\x01\x00")?;
    bytes.extend_from_slice(&[0; 56])?;
    for block in blocks {
        bytes.extend_from_slice(block)?;
    }
    bytes.extend_from_slice(b"EOF \x00\x00\x00\x00\x00\x00")?;
    Ok(bytes)
}

/// The image of these blocks.
pub fn image(alloc: Global, blocks: &[Vec<u8>]) -> Result<Image, Fail> {
    let mut reader = ImageReader::new(alloc);
    reader.feed(&image_bytes(alloc, blocks)?)?;
    Ok(reader.finish()?)
}

/// A block of this name and payload, with the flag that it is mandatory.
pub fn block(alloc: Global, name: &[u8], payload: &[u8]) -> Result<Vec<u8>, AllocError> {
    let mut block = Vec::from_slice(alloc, name)?;
    let size = u32::try_from(payload.len()).unwrap_or(0);
    block.extend_from_slice(&size.to_le_bytes())?;
    block.extend_from_slice(b"\x01\x00")?;
    block.extend_from_slice(payload)?;
    Ok(block)
}
