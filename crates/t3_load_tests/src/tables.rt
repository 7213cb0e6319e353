//! The tables of an image: metaclasses, function sets and symbols, each list over all blocks of its kind.
use crate::images::{loaded_behind, refusal_behind};
use std::alloc::{AllocError, Global};
use std::process::Abort;
use std::test::Fail;
use t3_holder::Raw;
use t3_load::{LoadRefusal, MetaKind, Program, SetKind};
use t3_test_images::{function_sets, metaclasses_with, symbols};

/// The metaclasses of these names, each with the two properties 3 and 1.
fn metas(alloc: Global, names: &[&[u8]]) -> Result<Vec<u8>, AllocError> {
    metaclasses_with(alloc, names, b"\x02\x00\x02\x00\x03\x00\x01\x00")
}

/// The program of an image with these blocks, which breaks no rule.
fn program(alloc: Global, blocks: &[Vec<u8>]) -> Result<Program, Fail> {
    match loaded_behind(alloc, blocks)? {
        Ok(program) => Ok(program),
        Err(_why) => Err(Fail::from("a good image is refused")),
    }
}

/// Blocks of metaclasses and of function sets, mixed.
fn many_tables(alloc: Global) -> Result<[Vec<u8>; 5], AllocError> {
    Ok([
        metas(alloc, &[b"tads-object/030005", b"root-object"])?,
        function_sets(alloc, &[b"t3vm"])?,
        metas(alloc, &[])?,
        metas(alloc, &[b"lookuptable/a/b", b"root-object/030000"])?,
        function_sets(alloc, &[b"tads-io/030007", b"tads-gen/"])?,
    ])
}

/// The kinds of a program's metaclasses, each of which has the two properties.
fn kinds(alloc: Global, program: &Program) -> Result<Option<Vec<MetaKind>>, Fail> {
    let mut found = Vec::new(alloc);
    for entry in &program.kinds.0 {
        if entry.props.0.as_slice() != [3, 1].as_slice() {
            return Ok(None);
        }
        found.push(entry.kind)?;
    }
    Ok(Some(found))
}

const KINDS: [MetaKind; 4] = [
    MetaKind::Tads,
    MetaKind::Root,
    MetaKind::Table,
    MetaKind::Root,
];

const SETS: [SetKind; 3] = [SetKind::Vm, SetKind::Io, SetKind::Gen];

/// Whether these are the function sets of a program.
fn has_sets(program: &Program, sets: &[SetKind]) -> bool {
    program.sets.0.as_slice() == sets
}

/// A program has those kinds and those sets.
fn check_lists(rt: &impl Abort, alloc: Global, program: &Program) -> Result<(), Fail> {
    let Some(kinds) = kinds(alloc, program)? else {
        return Err(Fail::from("other properties"));
    };
    assert_eq!(rt; kinds.as_slice(), KINDS.as_slice());
    assert!(rt; has_sets(program, &SETS));
    Ok(())
}

#[test]
fn lists_over_blocks_are_one(rt: HostRuntime) -> Result<(), Fail> {
    let blocks = many_tables(rt.alloc())?;
    let program = program(rt.alloc(), &blocks)?;
    check_lists(&rt, rt.alloc(), &program)
}

/// The names of two metaclasses, and the index of the first that isn't known.
type NameRow = (&'static [u8], &'static [u8], Option<u32>);

const NAMES: [NameRow; 8] = [
    (b"string", b"list/1", None),
    (b"string", b"vector/1/2", None),
    (b"", b"string", Some(0)),
    (b"string", b"/string", Some(1)),
    (b"String", b"dictionary", Some(0)),
    (b"collection", b"lists", Some(1)),
    (b"list", b"lis", Some(1)),
    (b"bignumber/030000", b"list", Some(0)),
];

/// Whether an image of these two metaclasses is refused by the index that its row says.
fn is_told(alloc: Global, row: &NameRow) -> Result<bool, Fail> {
    let (first, second, unknown) = *row;
    let blocks = [metas(alloc, &[first])?, metas(alloc, &[second])?];
    let told = match refusal_behind(alloc, &blocks)? {
        Some(LoadRefusal::Metaclass(index)) => Some(index),
        Some(_why) => return Ok(false),
        None => None,
    };
    Ok(told == unknown)
}

/// The first row whose unknown name isn't told so.
fn first_unlike(alloc: Global, rows: &[NameRow]) -> Result<Option<NameRow>, Fail> {
    for row in rows {
        if !is_told(alloc, row)? {
            return Ok(Some(*row));
        }
    }
    Ok(None)
}

#[test]
fn the_first_unknown_name_is_told(rt: HostRuntime) -> Result<(), Fail> {
    assert_eq!(rt; first_unlike(rt.alloc(), &NAMES)?, None);
    let blocks = [function_sets(rt.alloc(), &[b"t3vm", b"tads-net", b"tads-net"])?];
    let refused = refusal_behind(rt.alloc(), &blocks)?;
    assert_eq!(rt; refused, Some(LoadRefusal::FunctionSet(1)));
    Ok(())
}

/// A name, and the bits of the first symbol that has it.
type SymbolRow = (&'static [u8], Option<u32>);

const SYMBOLS: [SymbolRow; 5] = [
    (b"one", Some(1)),
    (b"", Some(2)),
    (b"four", Some(4)),
    (b"five", None),
    (b"fou", None),
];

/// Two blocks of symbols, of which some have one name.
fn symbols_twice(alloc: Global) -> Result<[Vec<u8>; 2], AllocError> {
    Ok([
        symbols(alloc, &[(b"one", 1), (b"", 2)])?,
        symbols(alloc, &[(b"one", 3), (b"four", 4), (b"four", 5)])?,
    ])
}

/// A program has the symbols that these rows say.
fn check_symbols(rt: &impl Abort, program: &Program, rows: &[SymbolRow]) -> Result<(), Fail> {
    for row in rows {
        let (name, bits) = *row;
        let want = bits.map(|bits| Raw { tag: 7, bits });
        assert_eq!(rt; program.symbols.raw(name), want);
    }
    Ok(())
}

#[test]
fn the_first_symbol_of_a_name_counts(rt: HostRuntime) -> Result<(), Fail> {
    let blocks = symbols_twice(rt.alloc())?;
    let program = program(rt.alloc(), &blocks)?;
    check_symbols(&rt, &program, &SYMBOLS)
}
