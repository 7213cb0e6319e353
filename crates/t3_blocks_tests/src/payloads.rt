//! What names, flags and payloads give: a block, or why there is none.
use std::alloc::Global;
use std::process::Abort;
use std::test::Fail;
use t3_blocks::{BlockKind, END_NAME, append_block, parse_block, take_block};
use t3_holder::Bytes;

/// A name, flags and a payload, and what they give.
type Row = (&'static [u8; 4], u16, &'static [u8], &'static str);

/// Tries a row with a payload that lies in a buffer, and with one that is handed in. A block is written
/// as it was read.
fn check(rt: &impl Abort, alloc: Global, row: Row) -> Result<(), Fail> {
    let (name, flags, payload, wanted) = row;
    assert!(rt; *name != END_NAME);
    assert!(rt; payload.len() < 64);
    let copied = parse_block(alloc, *name, flags, payload);
    let shown = format!(in alloc; "{copied:?}")?;
    assert_eq!(rt; shown.as_str(), wanted);
    if let Ok(block) = &copied {
        let mut out = Vec::from_slice(alloc, b"before")?;
        append_block(block, &mut out)?;
        assert_eq!(rt; out.strip_prefix(b"before"), Some(payload));
    }
    let owned = Bytes(Vec::from_slice(alloc, payload)?);
    let kind = BlockKind::of(*name);
    if !kind.is_unknown_mandatory(flags) {
        let taken = take_block(alloc, kind, *name, owned);
        let shown = format!(in alloc; "{taken:?}")?;
        assert_eq!(rt; shown.as_str(), wanted);
    }
    Ok(())
}

fn check_rows(rt: &impl Abort, alloc: Global, rows: &[Row]) -> Result<(), Fail> {
    for row in rows {
        check(rt, alloc, *row)?;
    }
    Ok(())
}

/// The example of the crate's first page.
#[test]
fn reads_names_and_writes_them(rt: HostRuntime) -> Result<(), Fail> {
    let block = parse_block(rt.alloc(), *b"FNSD", 1, b"\x01\x00\x02ab")?;
    let mut out = Vec::new(rt.alloc());
    append_block(&block, &mut out)?;
    assert_eq!(rt; out.as_slice(), b"\x01\x00\x02ab".as_slice());
    Ok(())
}

// Kept as bytes, or refused where a name without meaning is mandatory.
#[test]
fn keeps_payloads_without_a_layout(rt: HostRuntime) -> Result<(), Fail> {
    let rows: [Row; 5] = [
        (
            b"ZZZZ",
            0,
            b"\x01\x02",
            "Ok(Opaque { name: [90, 90, 90, 90], bytes: Bytes([1, 2]) })",
        ),
        (
            b"ZZZZ",
            0xFFFE,
            b"",
            "Ok(Opaque { name: [90, 90, 90, 90], bytes: Bytes([]) })",
        ),
        (
            b"MRES",
            1,
            b"\x05",
            "Ok(Opaque { name: [77, 82, 69, 83], bytes: Bytes([5]) })",
        ),
        (b"ZZZZ", 1, b"", "Err(UnknownMandatory)"),
        (b"entp", 3, b"", "Err(UnknownMandatory)"),
    ];
    check_rows(&rt, rt.alloc(), &rows)
}

// A head of 16 bytes, and what follows it.
#[test]
fn takes_entry_points_apart(rt: HostRuntime) -> Result<(), Fail> {
    let rows: [Row; 4] = [
        (
            b"ENTP",
            1,
            b"\x01\x02\x00\x00\x0A\x00\x0B\x00\x01\x00\x02\x00\x03\x00\x04\x01",
            "Ok(Entry { code: 513, method_size: 10, exception_size: 11, debug: [1, 2, 3, 260], tail: Bytes([]) })",
        ),
        (
            b"ENTP",
            0,
            b"\x00\x00\x00\x80\x0A\x00\x0A\x00\x00\x00\x00\x00\x00\x00\x00\x00\x07\x08",
            "Ok(Entry { code: 2147483648, method_size: 10, exception_size: 10, debug: [0, 0, 0, 0], tail: Bytes([7, 8]) })",
        ),
        (b"ENTP", 1, b"", "Err(Malformed { items: 0 })"),
        (b"ENTP", 1, &[0; 15], "Err(Malformed { items: 0 })"),
    ];
    check_rows(&rt, rt.alloc(), &rows)
}

// A head of 10 bytes, and no trailing bytes.
#[test]
fn takes_pool_definitions_apart(rt: HostRuntime) -> Result<(), Fail> {
    let rows: [Row; 3] = [
        (
            b"CPDF",
            1,
            b"\x01\x00\x02\x00\x00\x00\x00\x10\x00\x00",
            "Ok(PoolDef { pool: 1, count: 2, size: 4096 })",
        ),
        (b"CPDF", 1, &[0; 9], "Err(Malformed { items: 0 })"),
        (b"CPDF", 1, &[0; 11], "Err(Malformed { items: 0 })"),
    ];
    check_rows(&rt, rt.alloc(), &rows)
}

// A head of 7 bytes, and a page under a mask.
#[test]
fn takes_pages_apart(rt: HostRuntime) -> Result<(), Fail> {
    let rows: [Row; 4] = [
        (
            b"CPPG",
            1,
            b"\x02\x00\x03\x00\x00\x00\xFF\xAB\x0D",
            "Ok(Page { pool: 2, index: 3, mask: 255, bytes: PageBytes(Bytes([84, 242])) })",
        ),
        (
            b"CPPG",
            1,
            b"\x01\x00\x00\x00\x00\x00\x5A",
            "Ok(Page { pool: 1, index: 0, mask: 90, bytes: PageBytes(Bytes([])) })",
        ),
        (
            b"CPPG",
            0,
            b"\x01\x00\x00\x00\x00\x01\x00\x01",
            "Ok(Page { pool: 1, index: 16777216, mask: 0, bytes: PageBytes(Bytes([1])) })",
        ),
        (b"CPPG", 1, &[0; 6], "Err(Malformed { items: 0 })"),
    ];
    check_rows(&rt, rt.alloc(), &rows)
}

// A count, and so many length-prefixed names.
#[test]
fn takes_function_sets_apart(rt: HostRuntime) -> Result<(), Fail> {
    let rows: [Row; 11] = [
        (
            b"FNSD",
            1,
            b"\x00\x00",
            "Ok(Functions { names: Names([]) })",
        ),
        (
            b"FNSD",
            1,
            b"\x02\x00\x02ab\x00",
            "Ok(Functions { names: Names([Bytes([97, 98]), Bytes([])]) })",
        ),
        (b"FNSD", 1, b"", "Err(Malformed { items: 0 })"),
        (b"FNSD", 1, b"\x01", "Err(Malformed { items: 0 })"),
        (b"FNSD", 1, b"\x00\x00\x00", "Err(Malformed { items: 0 })"),
        (b"FNSD", 1, b"\x01\x00", "Err(Malformed { items: 0 })"),
        (b"FNSD", 1, b"\x01\x00\x03ab", "Err(Malformed { items: 0 })"),
        (b"FNSD", 1, b"\x02\x00\x02ab", "Err(Malformed { items: 1 })"),
        (
            b"FNSD",
            1,
            b"\x02\x00\x02ab\x02c",
            "Err(Malformed { items: 1 })",
        ),
        (
            b"FNSD",
            1,
            b"\x01\x00\x02abc",
            "Err(Malformed { items: 1 })",
        ),
        (
            b"FNSD",
            1,
            b"\xFF\xFF\x00\x00\x00",
            "Err(Malformed { items: 3 })",
        ),
    ];
    check_rows(&rt, rt.alloc(), &rows)
}

// A count, and so many size-prefixed entries.
#[test]
fn takes_metaclasses_apart(rt: HostRuntime) -> Result<(), Fail> {
    let rows: [Row; 5] = [
        (
            b"MCLD",
            1,
            b"\x01\x00\x0C\x00\x01a\x01\x00\x03\x00\x05\x00\x07\x09",
            "Ok(Metas { metas: Metas([Meta { name: Bytes([97]), property_size: 3, props: PropEntries([PropEntry { number: 5, extra: Bytes([7]) }]), tail: Bytes([9]) }]) })",
        ),
        (
            b"MCLD",
            1,
            b"\x01\x00\x07\x00\x00\x00\x00\x01\x00",
            "Ok(Metas { metas: Metas([Meta { name: Bytes([]), property_size: 1, props: PropEntries([]), tail: Bytes([]) }]) })",
        ),
        (
            b"MCLD",
            1,
            b"\x01\x00\x08\x00\x00\x01\x00\x01\x00\x05",
            "Err(Malformed { items: 0 })",
        ),
        (
            b"MCLD",
            1,
            b"\x01\x00\x06\x00\x00\x00\x00\x01\x00",
            "Err(Malformed { items: 0 })",
        ),
        (
            b"MCLD",
            1,
            b"\x02\x00\x07\x00\x00\x00\x00\x01\x00\x08\x00\x00\x00\x00\x00\x00",
            "Err(Malformed { items: 1 })",
        ),
    ];
    check_rows(&rt, rt.alloc(), &rows)
}

// Six bytes, and as many objects as they say, with sizes of two or four bytes.
#[test]
fn takes_objects_apart(rt: HostRuntime) -> Result<(), Fail> {
    let rows: [Row; 5] = [
        (
            b"OBJS",
            1,
            b"\x02\x00\x03\x00\x02\x00\x07\x00\x00\x00\x01\x00\xAA\x08\x00\x00\x00\x00\x00",
            "Ok(Objects { metaclass: 3, flags: 2, objects: Statics([Static { number: 7, bytes: Bytes([170]) }, Static { number: 8, bytes: Bytes([]) }]) })",
        ),
        (
            b"OBJS",
            1,
            b"\x01\x00\x00\x00\x01\x00\x07\x00\x00\x00\x01\x00\x00\x00\xAA",
            "Ok(Objects { metaclass: 0, flags: 1, objects: Statics([Static { number: 7, bytes: Bytes([170]) }]) })",
        ),
        (
            b"OBJS",
            1,
            b"\x02\x00\x00\x00\x00\x00\x07\x00\x00\x00\x06\x00\x00\x00\x00\x00\x00\x00",
            "Err(Malformed { items: 1 })",
        ),
        (
            b"OBJS",
            1,
            b"\x00\x00\x00\x00\x00",
            "Err(Malformed { items: 0 })",
        ),
        (
            b"OBJS",
            1,
            b"\x00\x00\x00\x00\x00\x00\x00",
            "Err(Malformed { items: 0 })",
        ),
    ];
    check_rows(&rt, rt.alloc(), &rows)
}

// A count, and so many data holders with their names.
#[test]
fn takes_symbols_apart(rt: HostRuntime) -> Result<(), Fail> {
    let rows: [Row; 4] = [
        (
            b"SYMD",
            1,
            b"\x01\x00\x06\x02\x00\xAA\xBB\x02ab",
            "Ok(Symbols { symbols: Symbols([Symbol { raw: Raw { tag: 6, bits: 3148480514 }, name: Bytes([97, 98]) }]) })",
        ),
        (
            b"SYMD",
            1,
            b"\x01\x00\x06\x02\x00\xAA",
            "Err(Malformed { items: 0 })",
        ),
        (
            b"SYMD",
            1,
            b"\x01\x00\x06\x02\x00\xAA\xBB\x02a",
            "Err(Malformed { items: 0 })",
        ),
        (
            b"SYMD",
            1,
            b"\x01\x00\x06\x02\x00\xAA\xBB\x00a",
            "Err(Malformed { items: 1 })",
        ),
    ];
    check_rows(&rt, rt.alloc(), &rows)
}
