//! What the tests stand on: constants in pages, and a store with an object of each kind.
ghost use Rattle.std.specs.Prelude.{◌<◌, ◌≤◌, OnOk};

use std::alloc::{AllocError, Global};
use std::test::Fail;
use t3_holder::{Bytes, Holder};
use t3_image_read::ImageReader;
use t3_lists::Holders;
use t3_ops::{Fault, OpRefusal};
use t3_pools::Pools;
use t3_store::{Kind, NewObject, Store, StoreLimits};
use t3_test_stores::create_tads;
use t3_undo::{Cell, Key};

/// The constants of [`pools`]. The values below say what stands where.
const CONSTANTS: [u8; 33] = [
    // The text of 2 bytes at 0, that of none at 4, and one at 6 whose byte is no UTF-8.
    2, 0, b'a', b'b', 0, 0, 1, 0, 0xFF, //
    // The list of 2 elements at 9, and one at 21 whose element has the type 0.
    2, 0, 7, 1, 0, 0, 0, 1, 0, 0, 0, 0, 1, 0, 0, 0, 0, 0, 0, //
    // What would be 65,535 bytes or elements at 28.
    0xFF, 0xFF, b'e', b'n', b'd',
];

/// The constant string `ab`.
pub(crate) const TEXT: Holder = Holder::Text(0);

/// The constant string without a byte.
pub(crate) const EMPTY_TEXT: Holder = Holder::Text(4);

/// A constant string that isn't UTF-8.
pub(crate) const BAD_TEXT: Holder = Holder::Text(6);

/// A constant string that ends behind the constants.
pub(crate) const LONG_TEXT: Holder = Holder::Text(28);

/// The constant list of 1 and nil.
pub(crate) const LIST: Holder = Holder::List(9);

/// The constant list without an element.
pub(crate) const EMPTY_LIST: Holder = Holder::List(4);

/// A constant list whose element means nothing.
pub(crate) const BAD_LIST: Holder = Holder::List(21);

/// A constant list that ends behind the constants.
pub(crate) const LONG_LIST: Holder = Holder::List(28);

/// The tads-object of [`store`], without a property.
pub(crate) const TADS: Holder = Holder::Obj(1);

/// Its string `cd`.
pub(crate) const LIVE_TEXT: Holder = Holder::Obj(2);

/// Its list of 3.
pub(crate) const LIVE_LIST: Holder = Holder::Obj(3);

/// Its vector of 4 and 5.
pub(crate) const VECTOR: Holder = Holder::Obj(4);

/// Its table, in which true stands under the text `ab`, and 8 under the integer 7. Its default is nil.
pub(crate) const TABLE: Holder = Holder::Obj(5);

/// The number of the object that is made next in it.
pub(crate) const NEXT: u32 = 6;

/// A reference to an object that isn't there.
pub(crate) const STALE: Holder = Holder::Obj(99);

/// A value of each kind: of those that stand for themselves one each, and then the texts, lists and objects above.
pub(crate) const VALUES: [Holder; 18] = [
    Holder::Nil,
    Holder::True,
    Holder::Int(7),
    Holder::Enum(7),
    Holder::Prop(7),
    Holder::Shown(0),
    Holder::Code(7),
    Holder::Func(7),
    TEXT,
    BAD_TEXT,
    LIVE_TEXT,
    LIST,
    BAD_LIST,
    LIVE_LIST,
    VECTOR,
    TABLE,
    TADS,
    STALE,
];

/// An image of these blocks.
fn image(alloc: Global, blocks: &[Vec<u8>]) -> Result<Vec<u8>, AllocError> {
    let mut bytes = Vec::new(alloc);
    bytes.extend_from_slice(b"T3-image\r\n\x1a\x01\x00")?;
    bytes.extend_from_slice(&[0; 56])?;
    for block in blocks {
        bytes.extend_from_slice(block)?;
    }
    bytes.extend_from_slice(b"EOF \x00\x00\x00\x00\x00\x00")?;
    Ok(bytes)
}

/// A definition of a pool.
fn definition(alloc: Global, pool: u8, count: u32, size: u32) -> Result<Vec<u8>, AllocError> {
    let mut block = Vec::from_slice(alloc, b"CPDF\x0A\x00\x00\x00\x01\x00")?;
    block.extend_from_slice(&[pool, 0])?;
    block.extend_from_slice(&count.to_le_bytes())?;
    block.extend_from_slice(&size.to_le_bytes())?;
    Ok(block)
}

/// A page of a pool, under the mask 0.
fn page(alloc: Global, pool: u8, index: u32, bytes: &[u8]) -> Result<Vec<u8>, AllocError> {
    let mut block = Vec::from_slice(alloc, b"CPPG")?;
    let size = u32::try_from(bytes.len()).unwrap_or(0).wrapping_add(7);
    block.extend_from_slice(&size.to_le_bytes())?;
    block.extend_from_slice(&[1, 0, pool, 0])?;
    block.extend_from_slice(&index.to_le_bytes())?;
    block.push(0)?;
    block.extend_from_slice(bytes)?;
    Ok(block)
}

/// Adds the pages of these constants, and tells how many they are.
fn add_pages(
    alloc: Global,
    size: u32,
    constants: &[u8],
    blocks: &mut Vec<Vec<u8>>,
) -> Result<u32, AllocError> {
    let mut count = 0u32;
    for bytes in constants.chunks((size as usize).max(1)) {
        blocks.push(page(alloc, 2, count, bytes)?)?;
        count = count.wrapping_add(1);
    }
    Ok(count)
}

/// The blocks of an image with these constants, in pages of so many bytes.
fn blocks(alloc: Global, size: u32, constants: &[u8]) -> Result<Vec<Vec<u8>>, AllocError> {
    let mut blocks = Vec::new(alloc);
    blocks.push(definition(alloc, 1, 1, 1)?)?;
    blocks.push(page(alloc, 1, 0, b"\xF2")?)?;
    let count = add_pages(alloc, size, constants, &mut blocks)?;
    blocks.push(definition(alloc, 2, count, size)?)?;
    Ok(blocks)
}

/// Pools with these constants, in pages of so many bytes.
pub(crate) fn paged(alloc: Global, size: u32, constants: &[u8]) -> Result<Pools, Fail> {
    let bytes = image(alloc, &blocks(alloc, size, constants)?)?;
    let mut reader = ImageReader::new(alloc);
    reader.feed(&bytes)?;
    Ok(Pools::build(alloc, &reader.finish()?)?)
}

/// Pools with the constants above, in one page.
pub(crate) fn pools(alloc: Global) -> Result<Pools, Fail> {
    paged(alloc, 33, &CONSTANTS)
}

/// A store without objects, with room for so many of them and for so many units.
pub(crate) fn empty_store(alloc: Global, objects: u32, units: u32) -> Result<Store, Fail>
    requires objects { objects ≤ 1048576 }
    requires units { units ≤ 4194304 }
{
    let limits = StoreLimits {
        objects,
        units,
        records: 16,
        savepoints: 2,
    };
    Ok(t3_test_stores::empty_store(alloc, limits)?)
}

/// A store with the objects above, and ample room.
pub(crate) fn store(alloc: Global) -> Result<Store, Fail> {
    let mut store = empty_store(alloc, 1_000, 1_000_000)?;
    add_objects(alloc, &mut store)?;
    Ok(store)
}

/// Adds those objects.
fn add_objects(alloc: Global, store: &mut Store) -> Result<(), Fail> {
    let _tads = create_tads(alloc, store, false)?;
    let _text = add_text(alloc, store, b"cd")?;
    let _list = add_list(alloc, store, &[Holder::Int(3)])?;
    let _vector = add_vector(alloc, store, &[Holder::Int(4), Holder::Int(5)])?;
    add_table(alloc, store)
}

/// Adds the table with its two entries.
fn add_table(alloc: Global, store: &mut Store) -> Result<(), Fail> {
    let table = store.create(NewObject::Table, false)?;
    let key = Key::Text(Bytes(Vec::from_slice(alloc, b"ab")?));
    set_key(store, table, key, Holder::True)?;
    set_key(store, table, Key::Int(7), Holder::Int(8))?;
    Ok(())
}

/// A new string.
pub(crate) fn add_text(alloc: Global, store: &mut Store, bytes: &[u8]) -> Result<Holder, Fail> {
    if bytes.len() > 65_535 {
        return Err(Fail::from("a string"));
    }
    let bytes = Vec::from_slice(alloc, bytes)?;
    Ok(Holder::Obj(store.create(NewObject::Text(Bytes(bytes)), false)?))
}

/// A new list.
pub(crate) fn add_list(alloc: Global, store: &mut Store, items: &[Holder]) -> Result<Holder, Fail> {
    if items.len() > 65_535 {
        return Err(Fail::from("a list"));
    }
    let items = Vec::from_slice(alloc, items)?;
    Ok(Holder::Obj(store.create(NewObject::List(Holders(items)), false)?))
}

/// A new vector.
pub(crate) fn add_vector(
    alloc: Global,
    store: &mut Store,
    items: &[Holder],
) -> Result<Holder, Fail> {
    if items.len() > 65_535 {
        return Err(Fail::from("a vector"));
    }
    let items = Vec::from_slice(alloc, items)?;
    Ok(Holder::Obj(store.create(NewObject::Vector(Holders(items)), false)?))
}

/// Few writes were made so far.
pub(crate) fn few_writes(store: &Store) -> Result<(), Fail>
    ensures { OnOk result (store.now.writes < 1000000) }
{
    if store.writes() >= 1_000_000 {
        return Err(Fail::from("few writes"));
    }
    Ok(())
}

/// Sets the value under a key of a table.
pub(crate) fn set_key(store: &mut Store, number: u32, key: Key, value: Holder) -> Result<(), Fail> {
    let Some(Kind::Table) = store.kind(number) else {
        return Err(Fail::from("a table"));
    };
    few_writes(store)?;
    Ok(store.write(number, Cell::Key(key), Some(value))?)
}

/// What is wanted of an operation. A new object is the next one of [`store`].
#[derive(Clone, Copy, Debug)]
pub(crate) enum Want {
    Value(Holder),
    /// A new string of these bytes.
    Text(&'static [u8]),
    /// A new list of these elements.
    List(&'static [Holder]),
    Fault(Fault),
}

pub(crate) const KIND: Want = Want::Fault(Fault::Kind);

pub(crate) const GONE: Want = Want::Fault(Fault::Stale);

pub(crate) const BAD: Want = Want::Fault(Fault::BadConstant);

/// Whether an operation answered what is wanted, and made what is wanted and nothing else.
pub(crate) fn is_wanted(want: Want, answer: Result<Holder, OpRefusal>, store: &Store) -> bool {
    match want {
        Want::Value(value) => answer == Ok(value) && store.next() == NEXT,
        Want::Text(bytes) => answer == Ok(Holder::Obj(NEXT)) && store.text(NEXT) == Some(bytes),
        Want::List(items) => answer == Ok(Holder::Obj(NEXT)) && store.items(NEXT) == Some(items),
        Want::Fault(fault) => { answer == Err(OpRefusal::Fault(fault)) && store.next() == NEXT }
    }
}

/// A value, and what is wanted of an operation with it.
pub(crate) type WantRow = (Holder, Want);

/// What is wanted with a value: what its row says, and of each that has no row the same.
pub(crate) fn want_with(value: Holder, rows: &[WantRow], others: Want) -> Want {
    for (of, want) in rows {
        if *of == value {
            return *want;
        }
    }
    others
}
