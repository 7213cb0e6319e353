//! What is shown of images, over the devices in memory.
use crate::devices::check_outcome;
use std::alloc::Global;
use std::process::Abort;
use std::test::Fail;
use t3_cli::Status;
use t3_testing::{ENTRY, FUNCTIONS, METHOD, POOL, SAYS_42, code_image, image};

/// What `show` shows and answers of a file, if there is one.
fn check_show(
    rt: &impl Abort,
    alloc: Global,
    file: Option<&[u8]>,
    want: &str,
    status: Status,
) -> Result<(), Fail> {
    check_outcome(rt, alloc, &["show", "a.t3"], file, want, status)
}

/// A story's image, with a line for each of its blocks.
#[test]
fn shows_the_blocks_of_a_story(rt: HostRuntime) -> Result<(), Fail> {
    let file = code_image(rt.alloc(), &[ENTRY, POOL, FUNCTIONS], METHOD, SAYS_42)?;
    let lines = "ENTP at=69 size=16 flags=1 code=0\n\
                 CPDF at=95 size=10 flags=1 pool=1 count=1 page=64\n\
                 FNSD at=115 size=17 flags=1 entries=1\n\
                 CPPG at=142 size=23 flags=1 pool=1 index=0 mask=0\n\
                 EOF  at=175 size=0 flags=0\n\
                 ok blocks=5 bytes=185\n";
    check_show(&rt, rt.alloc(), Some(&file), lines, Status::Done)
}

/// The other kinds, a page under a mask, a block that is kept, a name that isn't plain text, the flags
/// of the end, and bytes after it.
#[test]
fn shows_the_other_kinds(rt: HostRuntime) -> Result<(), Fail> {
    let metas = b"MCLD\x0F\0\0\0\x01\0\x01\0\x0D\0\x02mc\x01\0\x03\0\x07\0\x09\xEE";
    let objects = b"OBJS\x0E\0\0\0\x01\0\x01\0\x04\0\x02\0\x07\0\0\0\x02\0\x11\x22";
    let symbols = b"SYMD\x09\0\0\0\x01\0\x01\0\x07\x2A\0\0\0\x01s";
    let page = b"CPPG\x09\0\0\0\x02\0\x02\0\x03\0\0\0\xFF\xAB\x0D";
    let kept = b"MRES\x01\0\0\0\x01\0\x05";
    let odd = b"\x1F ~\x7F\x00\0\0\0\xFE\xFF";
    let end = b"EOF \0\0\0\0\x02\0";
    let trailing = b"trailing";
    let file = image(
        rt.alloc(),
        &[metas, objects, symbols, page, kept, odd, end, trailing],
    )?;
    let lines = "MCLD at=69 size=15 flags=1 entries=1\n\
                 OBJS at=94 size=14 flags=1 objects=1 metaclass=4\n\
                 SYMD at=118 size=9 flags=1 entries=1\n\
                 CPPG at=137 size=9 flags=2 pool=2 index=3 mask=255\n\
                 MRES at=156 size=1 flags=1\n\
                 ? ~? at=167 size=0 flags=65534\n\
                 EOF  at=177 size=0 flags=2\n\
                 ok blocks=7 bytes=187\n";
    check_show(&rt, rt.alloc(), Some(&file), lines, Status::Done)
}

/// Of a file that is no image, or isn't there, the one line of `check` is shown.
#[test]
fn shows_no_block_of_another_file(rt: HostRuntime) -> Result<(), Fail> {
    let kept = b"MRES\x01\0\0\0\x01\0\x05";
    let file = image(rt.alloc(), &[kept])?;
    let want = "refused Truncated at 80\n";
    check_show(&rt, rt.alloc(), Some(&file), want, Status::ImageRefused)?;
    check_show(&rt, rt.alloc(), None, "absent a.t3\n", Status::Absent)
}
