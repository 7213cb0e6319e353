//! What stands at addresses, and why images have no pools.
use crate::parts::{Part, blocks, build, refused};
use std::alloc::Global;
use std::test::Fail;
use t3_pools::PoolRefusal;

/// The bytes 84, 242 and 255 under the mask 255.
const PAGE: &[u8] = b"CPPG\x0A\x00\x00\x00\x01\x00\x01\x00\x00\x00\x00\x00\xFF\xAB\x0D\x00";

/// What stands beside that page in the example.
const BESIDE: &[Part] = &[
    Part::Definition(1, 1, 3),
    Part::Page(2, 0, b"\x05\x00hallo"),
    Part::Definition(2, 1, 7),
];

#[test]
fn the_example_of_the_first_page(rt: HostRuntime) -> Result<(), Fail> {
    let alloc = rt.alloc();
    let mut blocks = blocks(alloc, BESIDE)?;
    blocks.push(Vec::from_slice(alloc, PAGE)?)?;
    let pools = build(alloc, &blocks)??;
    assert_eq!(rt; pools.byte(1, 0), Some(84));
    assert_eq!(rt; pools.run(1, 1), [242, 255].as_slice());
    assert_eq!(rt; pools.byte(1, 3), None);
    assert_eq!(rt; pools.text_at(0), Some((2, 5)));
    Ok(())
}

/// Pages in another order than that of their indices, and those of a pool that no rule looks at.
const PAGES: &[Part] = &[
    Part::Page(1, 2, b"ef"),
    Part::Page(1, 1, b"c"),
    Part::Page(9, 7, b"not looked at"),
    Part::Page(2, 0, b"xyz"),
    Part::Page(1, 0, b"ab"),
    Part::Definition(9, 1, 1),
    Part::Definition(1, 3, 2),
    Part::Definition(2, 1, 0x7FFF_FFFF),
];

/// A pool, an address there, and the bytes from it to the end of its page.
const RUNS: [(u8, u32, &[u8]); 10] = [
    (1, 0, b"ab"),
    (1, 1, b"b"),
    (1, 2, b"c"),
    (1, 3, b""),
    (1, 4, b"ef"),
    (1, 5, b"f"),
    (1, 6, b""),
    (2, 1, b"yz"),
    (2, u32::MAX, b""),
    (9, 7, b""),
];

#[test]
fn pages_stand_by_their_indices(rt: HostRuntime) -> Result<(), Fail> {
    let alloc = rt.alloc();
    let pools = build(alloc, &blocks(alloc, PAGES)?)??;
    for (pool, address, want) in RUNS {
        assert!(rt; pools.run(pool, address) == want, "{pool} {address}");
        let first = want.first().copied();
        assert!(rt; pools.byte(pool, address) == first, "{pool} {address}");
    }
    Ok(())
}

/// What breaks each rule, in their order; beside it stands what breaks each of the later ones.
const ALL: &[Part] = &[
    Part::Definition(2, 1, 1),
    Part::Definition(2, 1, 1),
    Part::Definition(2, 0x8000_0000, 1),
    Part::Page(1, 3, b""),
    Part::Page(1, 1, b"a"),
    Part::Page(1, 1, b"a"),
    Part::Page(1, 0, b"abc"),
    Part::Definition(1, 3, 2),
];

/// A page that is too long, alone.
const LONG: &[Part] = &[Part::Page(1, 0, b"abc"), Part::Definition(1, 1, 2)];

#[test]
fn the_first_broken_rule_is_named(rt: HostRuntime) -> Result<(), Fail> {
    let rows: [(&[Part], PoolRefusal); 7] = [
        (&ALL[..7], PoolRefusal::NoCode),
        (ALL, PoolRefusal::TwoDefs),
        (&ALL[2..], PoolRefusal::TooWide),
        (&ALL[3..], PoolRefusal::PageIndex),
        (&ALL[4..], PoolRefusal::PageTwice),
        (&ALL[5..], PoolRefusal::PageMissing),
        (LONG, PoolRefusal::PageLong),
    ];
    for (parts, want) in rows {
        assert_eq!(rt; refused(rt.alloc(), parts)?, Some(want));
    }
    Ok(())
}

/// Parts of a pool that break this rule and no other one; or no rule. A page of another pool stands
/// for what isn't there.
fn breaking(pool: u8, rule: Option<PoolRefusal>) -> [Part; 3] {
    let none = Part::Page(9, 0, b"");
    let first = Part::Page(pool, 0, b"ab");
    let second = Part::Page(pool, 1, b"c");
    let one = Part::Definition(pool, 1, 4);
    match rule {
        Some(PoolRefusal::NoCode) => [none, none, none],
        Some(PoolRefusal::TwoDefs) => [first, one, one],
        Some(PoolRefusal::TooWide) => [first, second, Part::Definition(pool, 2, 0x4000_0000)],
        Some(PoolRefusal::PageIndex) => [first, second, one],
        Some(PoolRefusal::PageTwice) => [first, Part::Page(pool, 0, b"c"), one],
        Some(PoolRefusal::PageMissing) => [none, second, Part::Definition(pool, 2, 4)],
        Some(PoolRefusal::PageLong) => [first, none, Part::Definition(pool, 1, 1)],
        _ => [first, none, one],
    }
}

/// Why an image of parts of the constants and of the code has no pools, if it has none.
fn refused_together(
    alloc: Global,
    constants: [Part; 3],
    code: [Part; 3],
) -> Result<Option<PoolRefusal>, Fail> {
    let mut parts = Vec::from_slice(alloc, &constants)?;
    parts.extend_from_slice(&code)?;
    refused(alloc, &parts)
}

const RULES: [Option<PoolRefusal>; 8] = [
    Some(PoolRefusal::NoCode),
    Some(PoolRefusal::TwoDefs),
    Some(PoolRefusal::TooWide),
    Some(PoolRefusal::PageIndex),
    Some(PoolRefusal::PageTwice),
    Some(PoolRefusal::PageMissing),
    Some(PoolRefusal::PageLong),
    None,
];

#[test]
fn of_two_broken_rules_the_earlier_is_named(rt: HostRuntime) -> Result<(), Fail> {
    for code in 0..8 {
        for constants in 1..8 {
            let of_constants = breaking(2, RULES[constants]);
            let of_code = breaking(1, RULES[code]);
            assert_eq!(rt;
                refused_together(rt.alloc(), of_constants, of_code)?,
                RULES[code.min(constants)],
                "{code} {constants}"
            );
        }
    }
    Ok(())
}

const FAR: Part = Part::Page(1, 7, b"");

const TOO_LONG: Part = Part::Page(1, 0, b"abc");

const TWO: Part = Part::Definition(1, 2, 2);

const WIDE: Part = Part::Definition(1, 2, 0x4000_0000);

/// Rules that are broken in one and the same pool.
const OF_A_POOL: [([Part; 3], PoolRefusal); 6] = [
    ([TWO, FAR, TWO], PoolRefusal::TwoDefs),
    ([WIDE, FAR, FAR], PoolRefusal::TooWide),
    ([TWO, FAR, FAR], PoolRefusal::PageIndex),
    ([TWO, FAR, TOO_LONG], PoolRefusal::PageIndex),
    ([TWO, TOO_LONG, TOO_LONG], PoolRefusal::PageTwice),
    (
        [TWO, TOO_LONG, Part::Page(9, 0, b"")],
        PoolRefusal::PageMissing,
    ),
];

#[test]
fn of_two_broken_rules_of_a_pool_the_earlier_is_named(rt: HostRuntime) -> Result<(), Fail> {
    for (parts, want) in &OF_A_POOL {
        assert_eq!(rt; refused(rt.alloc(), parts)?, Some(*want));
    }
    Ok(())
}

/// A page count, a page size, the bytes of the one page, and the refusal.
const BOUNDS: [(u32, u32, &[u8], Option<PoolRefusal>); 10] = [
    (1, 0, b"", None),
    (1, 0, b"a", Some(PoolRefusal::PageLong)),
    (0, 0, b"a", Some(PoolRefusal::PageIndex)),
    (1, 0x7FFF_FFFF, b"a", None),
    (1, 0x8000_0000, b"a", Some(PoolRefusal::TooWide)),
    (0x8000, 0x1_0000, b"a", Some(PoolRefusal::TooWide)),
    // Products that are 0 and 1 in 32 bits.
    (0x1_0000, 0x1_0000, b"a", Some(PoolRefusal::TooWide)),
    (u32::MAX, u32::MAX, b"a", Some(PoolRefusal::TooWide)),
    (0x7FFF_FFFF, 1, b"a", Some(PoolRefusal::PageMissing)),
    (u32::MAX, 0, b"", Some(PoolRefusal::PageMissing)),
];

#[test]
fn sizes_at_their_bounds(rt: HostRuntime) -> Result<(), Fail> {
    for (count, size, bytes, want) in BOUNDS {
        let parts = [Part::Page(1, 0, bytes), Part::Definition(1, count, size)];
        assert_eq!(rt; refused(rt.alloc(), &parts)?, want, "{count} {size}");
    }
    Ok(())
}

/// Both pools with an empty page of size 0.
const EMPTY: &[Part] = &[
    Part::Page(1, 0, b""),
    Part::Definition(1, 1, 0),
    Part::Page(2, 0, b""),
    Part::Definition(2, 1, 0),
];

#[test]
fn a_page_size_of_0_has_no_bytes(rt: HostRuntime) -> Result<(), Fail> {
    let alloc = rt.alloc();
    let pools = build(alloc, &blocks(alloc, EMPTY)?)??;
    for pool in [1, 2] {
        assert_eq!(rt; pools.byte(pool, 0), None);
        assert_eq!(rt; pools.run(pool, 0), b"".as_slice());
    }
    assert_eq!(rt; pools.text_at(0), None);
    assert_eq!(rt; pools.list_at(0), None);
    Ok(())
}

#[test]
fn refusals_say_what_is_wrong(rt: HostRuntime) -> Result<(), Fail> {
    let rows = [
        (PoolRefusal::NoCode, "no definition of a code pool"),
        (PoolRefusal::TwoDefs, "two definitions of one pool"),
        (PoolRefusal::TooWide, "a pool of 2 GiB or more"),
        (
            PoolRefusal::PageIndex,
            "a page's index isn't below the page count",
        ),
        (PoolRefusal::PageTwice, "two pages of one index"),
        (PoolRefusal::PageMissing, "a page is missing"),
        (PoolRefusal::PageLong, "a page is longer than the page size"),
        (PoolRefusal::NoMemory, "out of memory"),
    ];
    for (refusal, text) in rows {
        assert_eq!(rt; format!(in rt.alloc(); "{refusal}")?.as_str(), text);
    }
    Ok(())
}
