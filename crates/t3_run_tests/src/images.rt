//! Images whose blocks differ, which are run or refused.
use crate::run::ran;
use std::alloc::Global;
use std::process::Abort;
use std::test::Fail;
use t3_cli::Status;
use t3_testing::{ENTRY, FUNCTIONS, METHOD, POOL, SAYS_42, code_image};

/// Blocks of an image whose method says 42, what is shown of a run, and the status.
type ImageRow = (&'static [&'static [u8]], &'static str, Status);

fn check_image(rt: &impl Abort, alloc: Global, row: &ImageRow) -> Result<(), Fail> {
    let (blocks, want, status) = *row;
    let (got, shown) = ran(alloc, &code_image(alloc, blocks, METHOD, SAYS_42)?, &[])?;
    assert_eq!(rt; shown.as_slice(), want.as_bytes());
    assert_eq!(rt; got, status);
    Ok(())
}

fn check_images(rt: &impl Abort, alloc: Global, rows: &[ImageRow]) -> Result<(), Fail> {
    for row in rows {
        check_image(rt, alloc, row)?;
    }
    Ok(())
}

/// Two pages of 13 bytes, and the second of them.
const TWO_PAGES: &[u8] = b"CPDF\x0A\x00\x00\x00\x01\x00\x01\x00\x02\x00\x00\x00\x0D\x00\x00\x00";

const SECOND_PAGE: &[u8] = b"CPPG\x0A\x00\x00\x00\x01\x00\x01\x00\x01\x00\x00\x00\x00\x01\x00\x51";

/// What is shown of a story whose method goes on in the second page, which these blocks have or lack.
fn shown_over_pages(alloc: Global, blocks: &[&[u8]]) -> Result<Vec<u8>, Fail> {
    let file = code_image(alloc, blocks, METHOD, b"\x03\x2A\xB1")?;
    let (_, shown) = ran(alloc, &file, &[])?;
    Ok(shown)
}

#[test]
fn code_goes_on_in_the_next_page(rt: HostRuntime) -> Result<(), Fail> {
    let shown = shown_over_pages(rt.alloc(), &[ENTRY, SECOND_PAGE, FUNCTIONS, TWO_PAGES])?;
    assert_eq!(rt; shown.as_slice(), b"42\n".as_slice());
    Ok(())
}

#[test]
fn a_missing_page_is_refused(rt: HostRuntime) -> Result<(), Fail> {
    let shown = shown_over_pages(rt.alloc(), &[ENTRY, FUNCTIONS, TWO_PAGES])?;
    assert_eq!(rt;
        shown.as_slice(),
        b"load refused Pool PageMissing\n".as_slice()
    );
    Ok(())
}

/// Entries whose method headers, or exception entries, have another size.
const OTHER_METHOD_SIZE: &[u8] =
    b"ENTP\x10\x00\x00\x00\x01\x00\x00\x00\x00\x00\x0B\x00\x0A\x00\x00\x00\x00\x00\x00\x00\x00\x00";

const OTHER_EXCEPTION_SIZE: &[u8] =
    b"ENTP\x10\x00\x00\x00\x01\x00\x00\x00\x00\x00\x0A\x00\x09\x00\x00\x00\x00\x00\x00\x00\x00\x00";

const REFUSED: [ImageRow; 5] = [
    (
        &[POOL, FUNCTIONS],
        "load refused NoEntry\n",
        Status::LoadRefused,
    ),
    (
        &[ENTRY, ENTRY, POOL],
        "load refused TwoEntries\n",
        Status::LoadRefused,
    ),
    (
        &[OTHER_METHOD_SIZE, POOL],
        "load refused HeaderSizes\n",
        Status::LoadRefused,
    ),
    (
        &[OTHER_EXCEPTION_SIZE, POOL],
        "load refused HeaderSizes\n",
        Status::LoadRefused,
    ),
    (&[ENTRY], "load refused Pool NoCode\n", Status::LoadRefused),
];

#[test]
fn images_that_break_a_rule_are_not_run(rt: HostRuntime) -> Result<(), Fail> {
    check_images(&rt, rt.alloc(), &REFUSED)
}

const NO_METACLASSES: &[u8] = b"MCLD\x02\x00\x00\x00\x01\x00\x00\x00";

const NO_OBJECTS: &[u8] = b"OBJS\x06\x00\x00\x00\x01\x00\x00\x00\x00\x00\x00\x00";

const NO_SYMBOLS: &[u8] = b"SYMD\x02\x00\x00\x00\x01\x00\x00\x00";

const EMPTY_LISTS: [ImageRow; 3] = [
    (
        &[ENTRY, POOL, FUNCTIONS, NO_METACLASSES],
        "42\n",
        Status::Done,
    ),
    (&[ENTRY, POOL, FUNCTIONS, NO_OBJECTS], "42\n", Status::Done),
    (&[ENTRY, POOL, FUNCTIONS, NO_SYMBOLS], "42\n", Status::Done),
];

#[test]
fn images_with_empty_lists_are_run(rt: HostRuntime) -> Result<(), Fail> {
    check_images(&rt, rt.alloc(), &EMPTY_LISTS)
}

/// Lists of sets of functions: the one for input and output without its version, ones of other names, none, and
/// one twice.
const BARE: &[u8] = b"FNSD\x0A\x00\x00\x00\x01\x00\x01\x00\x07tads-io";

const OTHER: &[u8] = b"FNSD\x0A\x00\x00\x00\x01\x00\x01\x00\x07tads-ix";

const LONGER: &[u8] = b"FNSD\x0B\x00\x00\x00\x01\x00\x01\x00\x08tads-iox";

const NONE: &[u8] = b"FNSD\x02\x00\x00\x00\x01\x00\x00\x00";

const TWICE: &[u8] = b"FNSD\x12\x00\x00\x00\x01\x00\x02\x00\x07tads-io\x07tads-io";

const FUNCTION_SETS: [ImageRow; 7] = [
    (&[ENTRY, POOL, BARE], "42\n", Status::Done),
    // Without a list of sets there is no set 0, so no function of it is known.
    (
        &[ENTRY, POOL],
        "[unhandled object=1 fault=8]\n",
        Status::Unhandled,
    ),
    (
        &[ENTRY, POOL, OTHER],
        "load refused FunctionSet 0\n",
        Status::LoadRefused,
    ),
    (
        &[ENTRY, POOL, BARE, LONGER],
        "load refused FunctionSet 1\n",
        Status::LoadRefused,
    ),
    (
        &[ENTRY, POOL, NONE],
        "[unhandled object=1 fault=8]\n",
        Status::Unhandled,
    ),
    (&[ENTRY, POOL, TWICE], "42\n", Status::Done),
    (&[ENTRY, POOL, BARE, BARE], "42\n", Status::Done),
];

#[test]
fn sets_of_functions_are_one_list(rt: HostRuntime) -> Result<(), Fail> {
    check_images(&rt, rt.alloc(), &FUNCTION_SETS)
}

/// Without a list of sets function 4 isn't known either.
#[test]
fn no_function_is_known_without_a_set(rt: HostRuntime) -> Result<(), Fail> {
    let alloc = rt.alloc();
    let file = code_image(alloc, &[ENTRY, POOL], METHOD, b"\xB1\x00\x04")?;
    let (_, shown) = ran(alloc, &file, &[])?;
    assert_eq!(rt;
        shown.as_slice(),
        b"[unhandled object=1 fault=8]\n".as_slice()
    );
    Ok(())
}
