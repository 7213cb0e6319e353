//! Worked drills: counted by hand, and the longest by another program.
use crate::image::drill_image;
use std::alloc::{AllocError, Global};
use std::test::Fail;
use t3_blocks::Block;
use t3_image_read::Image;

/// The bytes of all pages, how many pages there are, and how many the pool's definition says.
fn code_of(alloc: Global, image: &Image) -> Result<(Vec<u8>, u32, u32), AllocError> {
    let mut code = Vec::new(alloc);
    let mut pages = 0_u32;
    let mut defined = 0;
    for placed in &image.blocks.0 {
        match &placed.block {
            Block::Page { bytes, .. } => {
                code.extend_from_slice(bytes.as_slice())?;
                pages = pages.wrapping_add(1);
            }
            Block::PoolDef { count, .. } => defined = *count,
            _ => {}
        }
    }
    Ok((code, pages, defined))
}

#[test]
fn the_first_drill_sets_two_objects_and_undoes(rt: HostRuntime) -> Result<(), Fail> {
    let (code, _, _) = code_of(rt.alloc(), &drill_image(rt.alloc(), 1)?)?;
    let want = b"\x00\x00\x00\x00\x04\x00\x00\x00\x00\x00\x03\x26\xE8\x07\x00\x00\x00\x01\x00\
        \x03\x3A\xE8\x3F\x00\x00\x00\x01\x00\xB1\x00\x0E";
    assert_eq!(rt; code.get(..31), Some(&want[..]));
    Ok(())
}

#[test]
fn a_drill_without_actions_is_one_page(rt: HostRuntime) -> Result<(), Fail> {
    let (code, pages, defined) = code_of(rt.alloc(), &drill_image(rt.alloc(), 0)?)?;
    assert_eq!(rt;
        (code.len(), pages, defined),
        (10 + 1 + 64 * 9 + 3 + 1, 1, 1)
    );
    Ok(())
}

#[test]
fn the_longest_drill_has_as_many_pages_as_are_defined(rt: HostRuntime) -> Result<(), Fail> {
    let (code, pages, defined) = code_of(rt.alloc(), &drill_image(rt.alloc(), 200)?)?;
    assert_eq!(rt; (code.len(), pages, defined), (1_650_819, 404, 404));
    Ok(())
}
