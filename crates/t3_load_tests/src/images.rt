//! Small images for tests of the loader.
use std::alloc::{AllocError, Global};
use std::test::Fail;
use t3_image_read::Image;
use t3_load::{LoadRefusal, Program, load};
use t3_store::{Store, StoreLimits};
use t3_test_images::{
    block, function_sets, image, metaclasses, metaclasses_with, object_block, page, pool_definition,
};

/// An object of a test image: its metaclass's index, whether it is transient, its number and its
/// bytes.
pub(crate) type Thing<'a> = (u16, bool, u32, &'a [u8]);

/// A test image, and the limits that it is loaded with.
#[derive(Clone, Copy)]
pub(crate) struct Parts<'a> {
    /// How many `ENTP` blocks there are.
    pub(crate) entries: usize,
    pub(crate) method_size: u8,
    pub(crate) exception_size: u8,
    pub(crate) has_pool: bool,
    /// The bytes of code, at most 64. The entry method is to stand at the sixth.
    pub(crate) code: &'a [u8],
    pub(crate) metas: &'a [&'a [u8]],
    /// Whether each has properties.
    pub(crate) has_methods: bool,
    pub(crate) sets: &'a [&'a [u8]],
    pub(crate) things: &'a [Thing<'a>],
    pub(crate) objects: u16,
    pub(crate) units: u16,
}

/// The metaclasses that test images list, by their indices.
const METAS: [&[u8]; 7] = [
    b"tads-object/030005",
    b"string/030000",
    b"list",
    b"vector",
    b"lookuptable/030003",
    b"root-object",
    b"collection",
];

/// An image that breaks no rule, without objects.
pub(crate) const GOOD: Parts<'static> = Parts {
    entries: 1,
    method_size: 10,
    exception_size: 10,
    has_pool: true,
    code: &[1, 2, 3],
    metas: &METAS,
    has_methods: false,
    sets: &[b"tads-gen/030008", b"tads-io"],
    things: &[],
    objects: 100,
    units: 100,
};

/// Two properties, 3 and 1, behind their count and size.
const PROPS: &[u8] = b"\x02\x00\x02\x00\x03\x00\x01\x00";

/// Adds the blocks of the entry.
fn add_entries(
    alloc: Global,
    parts: &Parts<'_>,
    blocks: &mut Vec<Vec<u8>>,
) -> Result<(), AllocError> {
    let mut entry = [0; 16];
    entry[0] = 5;
    entry[4] = parts.method_size;
    entry[6] = parts.exception_size;
    for _entry in 0..parts.entries {
        blocks.push(block(alloc, b"ENTP", &entry)?)?;
    }
    Ok(())
}

/// Adds a block for each of these objects.
fn add_things(
    alloc: Global,
    things: &[Thing<'_>],
    blocks: &mut Vec<Vec<u8>>,
) -> Result<(), AllocError> {
    for thing in things {
        let (metaclass, transient, number, bytes) = *thing;
        blocks.push(object_block(alloc, metaclass, transient, number, bytes)?)?;
    }
    Ok(())
}

/// Adds the pool of code and its page, where there is one.
fn add_pool(alloc: Global, parts: &Parts<'_>, blocks: &mut Vec<Vec<u8>>) -> Result<(), AllocError> {
    if parts.has_pool {
        blocks.push(pool_definition(alloc, 1, 1, 64)?)?;
        blocks.push(page(alloc, 1, 0, parts.code)?)?;
    }
    Ok(())
}

/// Adds the metaclasses and the function sets.
fn add_tables(
    alloc: Global,
    parts: &Parts<'_>,
    blocks: &mut Vec<Vec<u8>>,
) -> Result<(), AllocError> {
    if parts.has_methods {
        blocks.push(metaclasses_with(alloc, parts.metas, PROPS)?)?;
    } else {
        blocks.push(metaclasses(alloc, parts.metas)?)?;
    }
    blocks.push(function_sets(alloc, parts.sets)?)?;
    Ok(())
}

/// The blocks of a test image with these objects.
fn blocks(
    alloc: Global,
    parts: &Parts<'_>,
    things: &[Thing<'_>],
) -> Result<Vec<Vec<u8>>, AllocError> {
    let mut blocks = Vec::new(alloc);
    add_entries(alloc, parts, &mut blocks)?;
    add_things(alloc, things, &mut blocks)?;
    add_pool(alloc, parts, &mut blocks)?;
    add_tables(alloc, parts, &mut blocks)?;
    Ok(blocks)
}

/// An image of the blocks of `GOOD` and these behind them, which may be tables of all kinds.
fn image_behind(alloc: Global, behind: &[Vec<u8>]) -> Result<Image, Fail> {
    let without_tables = Parts {
        metas: &[],
        sets: &[],
        ..GOOD
    };
    let mut all = blocks(alloc, &without_tables, &[])?;
    for block in behind {
        all.push(Vec::from_slice(alloc, block)?)?;
    }
    image(alloc, &all)
}

/// What is made of that image.
pub(crate) fn loaded_behind(
    alloc: Global,
    behind: &[Vec<u8>],
) -> Result<Result<Program, LoadRefusal>, Fail> {
    let image = image_behind(alloc, behind)?;
    let limits = StoreLimits {
        objects: 1,
        units: 1,
        records: 1,
        savepoints: 1,
    };
    Ok(load(alloc, &image, [7; 32], limits))
}

/// The refusal of that image.
pub(crate) fn refusal_behind(
    alloc: Global,
    behind: &[Vec<u8>],
) -> Result<Option<LoadRefusal>, Fail> {
    match loaded_behind(alloc, behind)? {
        Ok(_program) => Ok(None),
        Err(why) => Ok(Some(why)),
    }
}

/// A test image with these objects in place of its own.
fn image_with(alloc: Global, parts: &Parts<'_>, things: &[Thing<'_>]) -> Result<Image, Fail> {
    image(alloc, &blocks(alloc, parts, things)?)
}

/// What is made of it.
fn loaded_with(
    alloc: Global,
    parts: &Parts<'_>,
    things: &[Thing<'_>],
) -> Result<Result<Program, LoadRefusal>, Fail> {
    let image = image_with(alloc, parts, things)?;
    let limits = StoreLimits {
        objects: u32::from(parts.objects),
        units: u32::from(parts.units),
        records: 1,
        savepoints: 1,
    };
    Ok(load(alloc, &image, [7; 32], limits))
}

/// The refusal of a test image.
pub(crate) fn refusal(alloc: Global, parts: &Parts<'_>) -> Result<Option<LoadRefusal>, Fail> {
    refusal_with(alloc, parts, parts.things)
}

/// The refusal of a test image with these objects in place of its own.
pub(crate) fn refusal_with(
    alloc: Global,
    parts: &Parts<'_>,
    things: &[Thing<'_>],
) -> Result<Option<LoadRefusal>, Fail> {
    match loaded_with(alloc, parts, things)? {
        Ok(_program) => Ok(None),
        Err(why) => Ok(Some(why)),
    }
}

/// The program of a test image that breaks no rule.
pub(crate) fn program_of(alloc: Global, parts: &Parts<'_>) -> Result<Program, Fail> {
    match loaded_with(alloc, parts, parts.things)? {
        Ok(program) => Ok(program),
        Err(LoadRefusal::NoMemory) => Err(Fail::from("no memory")),
        Err(_why) => Err(Fail::from("a good image is refused")),
    }
}

/// A store that begins with the objects of a program.
fn store_of(alloc: Global, program: Program) -> Result<Store, Fail> {
    let Program {
        first,
        passing,
        next,
        limits,
        ..
    } = program;
    Ok(Store::start(alloc, limits, first, passing, next)?)
}

/// A store with the objects of a test image.
pub(crate) fn started(alloc: Global, parts: &Parts<'_>) -> Result<Store, Fail> {
    store_of(alloc, program_of(alloc, parts)?)
}
