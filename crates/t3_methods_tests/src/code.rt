//! Instructions, headers and handlers in worked pages, by hand from the tables.
use crate::rows::{
    CONSTANTS_AND_NUMBERS, KNOWN, MAKING_AND_SETTING, Row, TESTS_AND_CALLS, VALUES_AND_JUMPS,
};
use std::alloc::{AllocError, Global};
use std::process::Abort;
use std::test::Fail;
use t3_methods::{
    CodeRefusal, Kind, case_at, handler_in, header_at, instr_at, opcode_named, shape_of,
};
use t3_pools::Pools;
use t3_test_images::{image, page, pool_definition};

/// Pools with one page of code.
pub(crate) fn pools(alloc: Global, code: &[u8]) -> Result<Pools, Fail> {
    paged(alloc, 64, &[code])
}

/// Pools with these pages of code, of this size.
fn paged(alloc: Global, size: u32, pages: &[&[u8]]) -> Result<Pools, Fail> {
    let image = image(alloc, &code_blocks(alloc, size, pages)?)?;
    Ok(Pools::build(alloc, &image)?)
}

fn code_blocks(alloc: Global, size: u32, pages: &[&[u8]]) -> Result<Vec<Vec<u8>>, AllocError> {
    let mut blocks = Vec::new(alloc);
    let mut count = 0u32;
    for bytes in pages {
        blocks.push(page(alloc, 1, count, bytes)?)?;
        count = count.wrapping_add(1);
    }
    blocks.push(pool_definition(alloc, 1, count, size)?)?;
    Ok(blocks)
}

/// The instruction that code begins with, and its size, as they are printed.
fn printed(alloc: Global, code: &[u8]) -> Result<String, Fail> {
    let pools = pools(alloc, code)?;
    let found = instr_at(&pools, 0);
    Ok(format!(in alloc; "{found:?}")?)
}

fn wanted(alloc: Global, instr: &str, size: usize) -> Result<String, Fail> {
    Ok(format!(in alloc; "Ok(({instr}, {size}))")?)
}

/// Whether a row's bytes are its instruction.
fn is_decoded(alloc: Global, code: &[u8], instr: &str) -> Result<bool, Fail> {
    let want = wanted(alloc, instr, code.len())?;
    let found = printed(alloc, code)?;
    Ok(found.as_str() == want.as_str())
}

/// Whether a row's bytes without the last are none, where it has operands.
fn is_refused_when_cut(alloc: Global, code: &[u8]) -> Result<bool, Fail> {
    if code.len() < 2 {
        return Ok(true);
    }
    let pools = pools(alloc, &code[..code.len() - 1])?;
    Ok(instr_at(&pools, 0) == Err(CodeRefusal::Operand))
}

/// The bytes of each row are its instruction, and without the last none.
fn check_rows(rt: &impl Abort, alloc: Global, rows: &[Row]) -> Result<(), Fail> {
    for row in rows {
        let (code, instr) = *row;
        assert!(rt; is_decoded(alloc, code, instr)?, "{instr}");
        assert!(rt; is_refused_when_cut(alloc, code)?, "{instr}");
    }
    Ok(())
}

#[test]
fn decodes_constants_and_numbers(rt: HostRuntime) -> Result<(), Fail> {
    check_rows(&rt, rt.alloc(), &CONSTANTS_AND_NUMBERS)
}

#[test]
fn decodes_tests_and_calls(rt: HostRuntime) -> Result<(), Fail> {
    check_rows(&rt, rt.alloc(), &TESTS_AND_CALLS)
}

#[test]
fn decodes_values_and_jumps(rt: HostRuntime) -> Result<(), Fail> {
    check_rows(&rt, rt.alloc(), &VALUES_AND_JUMPS)
}

#[test]
fn decodes_making_and_setting(rt: HostRuntime) -> Result<(), Fail> {
    check_rows(&rt, rt.alloc(), &MAKING_AND_SETTING)
}

#[test]
fn refuses_other_bytes(rt: HostRuntime) -> Result<(), Fail> {
    let alloc = rt.alloc();
    for opcode in 0..=u8::MAX {
        if !KNOWN.contains(&opcode) {
            let found = instr_at(&pools(alloc, &[opcode, 1, 1, 1, 1, 1, 1, 1])?, 0);
            assert_eq!(rt; found, Err(CodeRefusal::Opcode(opcode)));
        }
    }
    Ok(())
}

/// A page with a method.
const METHODS: &[u8] = b"\x81\x00\x00\x00\x02\x00\x00\x00\x00\x00\x03\x2A\xB1\x01\x00\x51";

/// What is read at its addresses: the headers that stand there overlap.
#[test]
fn reads_a_header_at_each_address(rt: HostRuntime) -> Result<(), Fail> {
    let alloc = rt.alloc();
    let pools = pools(alloc, METHODS)?;
    let rows = [
        (
            0,
            "least: 1, varying: true, optional: 0, locals: 0, depth: 2, exceptions: 0, debug: 0",
        ),
        (
            1,
            "least: 0, varying: false, optional: 0, locals: 512, depth: 0, exceptions: 0, debug: 768",
        ),
        (
            2,
            "least: 0, varying: false, optional: 0, locals: 2, depth: 0, exceptions: 0, debug: 10755",
        ),
        (
            3,
            "least: 0, varying: false, optional: 2, locals: 0, depth: 0, exceptions: 768, debug: 45354",
        ),
        (
            4,
            "least: 2, varying: false, optional: 0, locals: 0, depth: 0, exceptions: 10755, debug: 433",
        ),
        (
            5,
            "least: 0, varying: false, optional: 0, locals: 0, depth: 768, exceptions: 45354, debug: 1",
        ),
        (
            6,
            "least: 0, varying: false, optional: 0, locals: 0, depth: 10755, exceptions: 433, debug: 20736",
        ),
    ];
    for (method, want) in rows {
        assert!(rt; is_header(alloc, &pools, method, want)?, "at {method}");
    }
    Ok(())
}

/// Whether the header at an address is printed so.
fn is_header(alloc: Global, pools: &Pools, method: u32, want: &str) -> Result<bool, Fail> {
    let found = format!(in alloc; "{:?}", header_at(pools, method))?;
    let want = format!(in alloc; "Ok(Header {{ {want} }})")?;
    Ok(found.as_str() == want.as_str())
}

#[test]
fn refuses_addresses_without_a_header(rt: HostRuntime) -> Result<(), Fail> {
    let alloc = rt.alloc();
    let pools = pools(alloc, METHODS)?;
    for method in [7, 8, 16, u32::MAX] {
        assert_eq!(rt;
            header_at(&pools, method),
            Err(CodeRefusal::Header),
            "at {method}"
        );
    }
    Ok(())
}

/// Two cases, 7 to 1 and nil to -2, and else 3.
const SWITCH: &[u8] =
    b"\x90\x02\x00\x07\x07\x00\x00\x00\x01\x00\x01\x00\x00\x00\x00\xFE\xFF\x03\x00";

/// With pages of 10 bytes and of 17 a border is within a case.
#[test]
fn reads_a_switch_over_borders(rt: HostRuntime) -> Result<(), Fail> {
    for size in [18, 17, 10] {
        let (first, rest) = SWITCH.split_at(size);
        assert!(rt;
            is_switch(rt.alloc(), size as u32, &[first, rest])?,
            "{size}"
        );
    }
    Ok(())
}

/// Whether in these pages the same stands as in one.
fn is_switch(alloc: Global, size: u32, pages: &[&[u8]]) -> Result<bool, Fail> {
    let whole = instr_at(&pools(alloc, SWITCH)?, 0);
    Ok(instr_at(&paged(alloc, size, pages)?, 0) == whole)
}

#[test]
fn refuses_a_cut_switch(rt: HostRuntime) -> Result<(), Fail> {
    let alloc = rt.alloc();
    for size in 1..SWITCH.len() {
        let found = instr_at(&pools(alloc, &SWITCH[..size])?, 0);
        assert_eq!(rt; found, Err(CodeRefusal::Operand), "{size} bytes");
    }
    Ok(())
}

/// The last case has a holder of a type that there isn't.
#[test]
fn refuses_a_bad_case(rt: HostRuntime) -> Result<(), Fail> {
    let alloc = rt.alloc();
    let code = b"\x90\x02\x00\x07\x08\x00\x00\x00\x01\x00\x0D\x00\x00\x00\x00\xFE\xFF\x00\x00";
    let found = instr_at(&pools(alloc, code)?, 0);
    assert_eq!(rt; found, Err(CodeRefusal::Operand));
    Ok(())
}

const CASES: [(u32, u16, &str); 5] = [
    (3, 0, "Some((Int(7), 8, 1))"),
    (3, 1, "Some((Nil, 15, -2))"),
    (3, 2, "None"),
    (6, 0, "None"),
    (u32::MAX, u16::MAX, "None"),
];

#[test]
fn reads_cases(rt: HostRuntime) -> Result<(), Fail> {
    let alloc = rt.alloc();
    let pools = pools(alloc, SWITCH)?;
    for (at, nth, want) in CASES {
        assert!(rt;
            is_case(alloc, &pools, at, nth, want)?,
            "case {nth} from {at}"
        );
    }
    Ok(())
}

/// Whether a case is printed so.
fn is_case(alloc: Global, pools: &Pools, at: u32, nth: u16, want: &str) -> Result<bool, Fail> {
    let found = format!(in alloc; "{:?}", case_at(pools, at, nth))?;
    Ok(found.as_str() == want)
}

/// A method at 2 whose table, at offset 10, has three entries: 10 to 20 for class 5 to 100, 15 to 30 for
/// all to 200, and 40 to 40 for class 6 to 300.
pub(crate) const HANDLERS: &[u8] = b"\xF2\xF2\x00\x00\x00\x00\x00\x00\x0A\x00\x00\x00\x03\x00\
\x0A\x00\x14\x00\x05\x00\x00\x00\x64\x00\x0F\x00\x1E\x00\x00\x00\x00\x00\xC8\x00\
\x28\x00\x28\x00\x06\x00\x00\x00\x2C\x01";

/// A place, a class, and the handler that catches the class there.
const CAUGHT: [(u32, u32, Option<u16>); 9] = [
    (12, 5, Some(100)),
    (22, 5, Some(100)),
    (11, 5, None),
    (17, 5, Some(100)),
    (17, 9, Some(200)),
    (23, 5, Some(200)),
    (32, 5, Some(200)),
    (33, 5, None),
    (42, 6, Some(300)),
];

#[test]
fn finds_the_first_handler(rt: HostRuntime) -> Result<(), Fail> {
    let alloc = rt.alloc();
    let pools = pools(alloc, HANDLERS)?;
    for (place, class, want) in CAUGHT {
        assert_eq!(rt;
            handler_in(&pools, 2, place, &[class]),
            Ok(want),
            "at {place}"
        );
    }
    Ok(())
}

/// A method, a place and the classes of what is thrown, and what answers.
type HandlerRow<'a> = (u32, u32, &'a [u32], Result<Option<u16>, CodeRefusal>);

fn check_handlers(
    rt: &impl Abort,
    alloc: Global,
    code: &[u8],
    rows: &[HandlerRow<'_>],
) -> Result<(), Fail> {
    let pools = pools(alloc, code)?;
    for row in rows {
        let (method, place, classes, want) = *row;
        let found = handler_in(&pools, method, place, classes);
        assert_eq!(rt; found, want, "method {method} at {place}");
    }
    Ok(())
}

/// What is thrown is of several classes, or of none.
#[test]
fn finds_a_handler_by_any_class(rt: HostRuntime) -> Result<(), Fail> {
    let rows: [HandlerRow<'_>; 3] = [
        (2, 22, &[9, 5], Ok(Some(100))),
        (2, 17, &[], Ok(Some(200))),
        (2, 0, &[5, 6], Ok(None)),
    ];
    check_handlers(&rt, rt.alloc(), HANDLERS, &rows)
}

#[test]
fn refuses_a_cut_table(rt: HostRuntime) -> Result<(), Fail> {
    let alloc = rt.alloc();
    for size in 12..HANDLERS.len() {
        let found = handler_in(&pools(alloc, &HANDLERS[..size])?, 2, 17, &[5]);
        assert_eq!(rt; found, Err(CodeRefusal::Table), "{size} bytes");
    }
    Ok(())
}

/// The header at 1 names a table after the code, and at 40 stand fewer than ten bytes. A method of zeros
/// has no table.
#[test]
fn tells_headers_and_tables_apart(rt: HostRuntime) -> Result<(), Fail> {
    let rows: [HandlerRow<'_>; 2] = [
        (1, 17, &[5], Err(CodeRefusal::Table)),
        (40, 17, &[5], Err(CodeRefusal::Header)),
    ];
    check_handlers(&rt, rt.alloc(), HANDLERS, &rows)?;
    let plain: [HandlerRow<'_>; 1] = [(0, 10, &[5], Ok(None))];
    check_handlers(&rt, rt.alloc(), &[0; 10], &plain)
}

const SHAPES: [(u8, &str, &[Kind]); 5] = [
    (0x01, "push_0", &[]),
    (
        0x67,
        "objcallprop",
        &[Kind::Ubyte, Kind::Object, Kind::Property],
    ),
    (0x90, "switch", &[Kind::Cases]),
    (0xB1, "builtin_a", &[Kind::Ubyte, Kind::Ubyte]),
    (0xD3, "addilcl4", &[Kind::Uint2, Kind::Int4]),
];

#[test]
fn tells_the_opcode_of_a_name(rt: HostRuntime) -> Result<(), Fail> {
    for (opcode, name, _) in SHAPES {
        assert_eq!(rt; opcode_named(name), Some(opcode));
    }
    assert_eq!(rt; opcode_named("Push_0"), None);
    assert_eq!(rt; opcode_named(""), None);
    Ok(())
}

#[test]
fn tells_the_shape_of_an_opcode(rt: HostRuntime) -> Result<(), Fail> {
    for (opcode, name, kinds) in SHAPES {
        let shape = shape_of(opcode);
        assert_eq!(rt; shape.map(|shape| shape.name), Some(name));
        assert_eq!(rt; shape.map(|shape| shape.kinds), Some(kinds));
    }
    assert!(rt; shape_of(0).is_none());
    Ok(())
}
