//! The blocks that come before the pages: where the story begins, the pool of its code, what it uses,
//! and its objects.
ghost use Rattle.std.specs.Prelude.{◌≡◌, ◌∷◌, [], codes, map, IfOk};
ghost use Rattle.t3_blocks.specs.declared.block.Block.TheVariants as blocks;
ghost use Rattle.t3_drill.specs.Drill.{front as front_of, mandatory as mandatory_of, objects as object_numbers, static_object as static_object_of, tads_object};

use crate::code::OBJECTS;
use crate::pages::{CODE_POOL, PAGE_SIZE};
use std::alloc::Global;
use t3_blocks::{Block, Meta, Metas, Names, PropEntries, Static, Statics};
use t3_holder::{Bytes, NoMemory};
use t3_image_read::PlacedBlock;

/// The flags of a block that may not be skipped.
const MANDATORY: u16 = 1;

/// How many bytes a method's header has, and an entry of its exception table.
const HEADER_SIZE: u16 = 10;

/// The bytes of each object: no superclass, one property, no flags, and of the property its number 1 and
/// its value, the integer 0.
const OBJECT: [u8; 13] = [0, 0, 1, 0, 0, 0, 1, 0, 7, 0, 0, 0, 0];

/// The blocks that come before so many pages.
pub(crate) fn front(alloc: Global, count: u32) -> Result<Vec<PlacedBlock>, NoMemory>
    ensures { IfOk result (λ blocks. blocks.items ≡ front_of count) }
{
    let pool = Block::PoolDef {
        pool: CODE_POOL,
        count,
        size: PAGE_SIZE as u32,
    };
    let mut blocks = Vec::new(alloc);
    blocks.push(mandatory(entry(alloc)))?;
    blocks.push(mandatory(pool))?;
    blocks.push(mandatory(metas(alloc)?))?;
    blocks.push(mandatory(functions(alloc)?))?;
    blocks.push(mandatory(objects(alloc)?))?;
    Ok(blocks)
}

/// A block that may not be skipped.
pub(crate) fn mandatory(block: Block) -> PlacedBlock
    ensures { result ≡ mandatory_of block }
{
    PlacedBlock {
        flags: MANDATORY,
        block,
    }
}

/// The story begins with the first byte of its code.
fn entry(alloc: Global) -> Block
    ensures { result ≡ blocks.Entry 0 10 10 (0 ∷ 0 ∷ 0 ∷ 0 ∷ []) [] }
{
    Block::Entry {
        code: 0,
        method_size: HEADER_SIZE,
        exception_size: HEADER_SIZE,
        debug: [0; 4],
        tail: Bytes(Vec::new(alloc)),
    }
}

/// The one metaclass.
fn metas(alloc: Global) -> Result<Block, NoMemory>
    ensures { IfOk result (λ block. block ≡ blocks.Metas (tads_object ∷ [])) }
{
    let mut metas = Vec::new(alloc);
    metas.push(Meta {
        name: Bytes(Vec::from_slice(alloc, b"tads-object/030005")?),
        property_size: 2,
        props: PropEntries(Vec::new(alloc)),
        tail: Bytes(Vec::new(alloc)),
    })?;
    Ok(Block::Metas {
        metas: Metas(metas),
    })
}

/// The two sets of functions.
fn functions(alloc: Global) -> Result<Block, NoMemory>
    ensures { IfOk result (λ block. block ≡ blocks.Functions
        (codes "tads-gen/030008" ∷ codes "tads-io/030007" ∷ [])) }
{
    let mut names = Vec::new(alloc);
    names.push(Bytes(Vec::from_slice(alloc, b"tads-gen/030008")?))?;
    names.push(Bytes(Vec::from_slice(alloc, b"tads-io/030007")?))?;
    Ok(Block::Functions {
        names: Names(names),
    })
}

/// The objects.
fn objects(alloc: Global) -> Result<Block, NoMemory>
    ensures { IfOk result (λ block. block
        ≡ blocks.Objects 0 0 (map static_object_of object_numbers)) }
{
    let mut objects = Vec::new(alloc);
    for number in 1..=OBJECTS {
        objects.push(static_object(alloc, number)?)?;
    }
    Ok(Block::Objects {
        metaclass: 0,
        flags: 0,
        objects: Statics(objects),
    })
}

/// The object of a number.
fn static_object(alloc: Global, number: u32) -> Result<Static, NoMemory>
    ensures { IfOk result (λ object. object ≡ static_object_of number) }
{
    Ok(Static {
        number,
        bytes: Bytes(Vec::from_slice(alloc, &OBJECT)?),
    })
}
