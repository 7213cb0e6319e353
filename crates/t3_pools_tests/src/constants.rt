//! Constant strings and lists, whatever the pages.
ghost use Rattle.std.specs.Prelude.{◌<◌};

use crate::parts::build;
use std::alloc::Global;
use std::process::Abort;
use std::test::Fail;
use t3_holder::Holder;
use t3_pools::Pools;
use t3_test_images::{page, pool_definition};

/// Constants of these pages, beside a code pool without pages.
fn constants(alloc: Global, size: u32, pages: &[&[u8]]) -> Result<Pools, Fail> {
    let mut blocks = Vec::new(alloc);
    let mut count = 0u32;
    for bytes in pages {
        blocks.push(page(alloc, 2, count, bytes)?)?;
        count = count.wrapping_add(1);
    }
    blocks.push(pool_definition(alloc, 2, count, size)?)?;
    blocks.push(pool_definition(alloc, 1, 0, 0)?)?;
    Ok(build(alloc, &blocks)??)
}

/// Constants of these bytes, in pages of a size.
fn paged(alloc: Global, size: u32, bytes: &[u8]) -> Result<Pools, Fail>
    requires { 0 < size }
{
    let mut pages = Vec::new(alloc);
    for page in bytes.chunks(size as usize) {
        pages.push(page)?;
    }
    constants(alloc, size, &pages)
}

/// An address, and the text and the list that stand there.
type Row = (u32, Option<(u32, u16)>, Option<(u32, u16)>);

fn check_rows(rt: &impl Abort, pools: &Pools, rows: &[Row]) -> Result<(), Fail> {
    for row in rows {
        let (address, text, list) = *row;
        assert_eq!(rt; pools.text_at(address), text, "text {address}");
        assert_eq!(rt; pools.list_at(address), list, "list {address}");
    }
    Ok(())
}

/// Constants one behind the other, whose addresses stand beside them.
const LAID_OUT: &[u8] = b"\
    \x05\x00hallo\
    \x02\x00\xC3\xA9\
    \x00\x00\
    \x03\x00\xE2\x82\xAC\
    \x01\x00\xFF\
    \x02\x00\xC0\xAF\
    \x03\x00\xED\xA0\x80\
    \x01\x00\xE2\
    \x02\x00\x07\xFE\xFF\xFF\xFF\x01\x00\x00\x00\x09\
    \x02\x00\x02\x00\x00\x00\x00\x05\x00\x00\x00\x00\
    \x04\x00\xF0\x9F\x98\x80\
    \x04\x00\xF4\x90\x80\x80\
    \x03\x00\xE0\x80\xAF\
    \x01\x00\xC3\xA9\
    \x02\x00\x01\xEE\xEE\xEE\xEE\x03\x00\x00\x00\x00\
    \x01\x00\x06\x00\x00\x01\x00\
    \x02\x00\x02\x00\x00\x00\x00\
    \x09\x00ab";

const AT_ADDRESSES: [Row; 21] = [
    (0, Some((2, 5)), None),
    (7, Some((9, 2)), None),
    // Nothing in it, so it is a text and a list.
    (11, Some((13, 0)), Some((13, 0))),
    (13, Some((15, 3)), None),
    // No character, one that is overlong, a surrogate, and a character that isn't whole.
    (18, None, None),
    (21, None, None),
    (25, None, None),
    (30, None, None),
    // -2, and nil, which has bits that it doesn't use.
    (33, None, Some((35, 2))),
    // The last holder is object 0; two bytes of the first are a text.
    (45, Some((47, 2)), None),
    // A character of four bytes, one past the last there is, one that is overlong, and one that ends
    // after its text.
    (57, Some((59, 4)), None),
    (63, None, None),
    (69, None, None),
    (74, None, None),
    // A type of no holder, property 0 with other bits, and a list whose second holder isn't there.
    (78, None, None),
    (90, Some((92, 1)), None),
    (97, Some((99, 2)), None),
    // So much isn't there, nor is its length, nor a byte.
    (104, None, None),
    (107, None, None),
    (108, None, None),
    (u32::MAX, None, None),
];

#[test]
fn constants_go_over_the_borders_of_pages(rt: HostRuntime) -> Result<(), Fail> {
    for size in [1u32, 4, 7, 61, 0x7FFF_FFFF] {
        let pools = paged(rt.alloc(), size, LAID_OUT)?;
        check_rows(&rt, &pools, &AT_ADDRESSES)?;
    }
    Ok(())
}

#[test]
fn holders_stand_alone_too(rt: HostRuntime) -> Result<(), Fail> {
    let alloc = rt.alloc();
    // Of the lists above: -2, nil and true; object 0, a type of no holder, property 0; and four bytes alone.
    let rows: [(u32, Option<Holder>); 10] = [
        (35, Some(Holder::Int(-2))),
        (40, Some(Holder::Nil)),
        (47, Some(Holder::True)),
        (52, None),
        (80, Some(Holder::Nil)),
        (85, None),
        (92, None),
        (99, Some(Holder::True)),
        (104, None),
        (u32::MAX, None),
    ];
    for size in [1u32, 4, 7, 61, 0x7FFF_FFFF] {
        let mut pages = Vec::new(alloc);
        for bytes in LAID_OUT.chunks(size as usize) {
            pages.push(bytes)?;
        }
        let pools = constants(alloc, size, &pages)?;
        for (address, holder) in rows {
            assert_eq!(rt; pools.holder_at(address), holder, "{size} {address}");
        }
    }
    Ok(())
}

/// Pages of 8 bytes. The first is one byte short, within a text; the second too, within a list. A length goes from the
/// third to the last.
const HOLED: [&[u8]; 4] = [
    b"\x02\x00ab\x02\x00a",
    b"a\x01\x00\x02\x00\x00\x00",
    b"\x01\x00\x02\x00\x00\x00\x00\x01",
    b"\x00a",
];

const AT_HOLES: [Row; 9] = [
    (0, Some((2, 2)), None),
    (4, None, None),
    // Of a length the second byte isn't there, or the first.
    (6, None, None),
    (14, None, None),
    (15, None, None),
    (7, None, None),
    (9, Some((11, 1)), None),
    (16, Some((18, 1)), Some((18, 1))),
    (23, Some((25, 1)), None),
];

/// Pages in which the last byte of a character isn't there.
const CUT: [&[u8]; 2] = [b"\x04\x00ab\x01\xE2\x82", b"\xAC"];

const NOTHING: [Row; 1] = [(0, None, None)];

/// What stands in pages of a size is as these rows say.
fn check_pages(
    rt: &impl Abort,
    alloc: Global,
    size: u32,
    pages: &[&[u8]],
    rows: &[Row],
) -> Result<(), Fail> {
    let pools = constants(alloc, size, pages)?;
    check_rows(rt, &pools, rows)
}

#[test]
fn a_hole_ends_constants(rt: HostRuntime) -> Result<(), Fail> {
    check_pages(&rt, rt.alloc(), 8, &HOLED, &AT_HOLES)?;
    check_pages(&rt, rt.alloc(), 8, &CUT, &NOTHING)?;
    check_pages(&rt, rt.alloc(), 0, &[], &NOTHING)
}

#[test]
fn the_longest_text_and_one_that_is_cut(rt: HostRuntime) -> Result<(), Fail> {
    let alloc = rt.alloc();
    let mut bytes = Vec::from_slice(alloc, b"\xFF\xFF")?;
    bytes.resize(65_537, b'x')?;
    let rows: [(usize, Option<(u32, u16)>); 2] = [(65_537, Some((2, 65_535))), (65_536, None)];
    for (size, want) in rows {
        bytes.truncate(size);
        assert_eq!(rt; paged(alloc, 1000, &bytes)?.text_at(0), want, "{size}");
    }
    Ok(())
}
