//! A store, objects of each kind that has cells, and these set and taken away.
ghost use Rattle.std.specs.Prelude.{◌<◌, ◌≤◌, ◌^◌, OnOk};

use std::alloc::Global;
use std::test::Fail;
use t3_holder::{Holder, NoMemory};
use t3_lists::Holders;
use t3_store::{Admit, Kind, NewObject, Store, StoreLimits, StoreRefusal};
use t3_test_stores::create_tads;
use t3_undo::{Cell, Key};

/// Which cells an object has.
#[derive(Clone, Copy)]
pub(crate) enum Cells {
    Props,
    Elements,
    Keys,
}

/// A store without objects, with room for so many records and savepoints.
pub(crate) fn empty_store(alloc: Global, records: u32, savepoints: u32) -> Result<Store, NoMemory>
    requires records { (0 < records) × (records ≤ 1048576) }
    requires savepoints { (0 < savepoints) × (savepoints ≤ 1024) }
{
    let limits = StoreLimits {
        objects: 8,
        units: 65_536,
        records,
        savepoints,
    };
    t3_test_stores::empty_store(alloc, limits)
}

/// Makes an object that has such cells, none of which is present, but for a table's default.
pub(crate) fn create(
    store: &mut Store,
    alloc: Global,
    cells: Cells,
    transient: bool,
) -> Result<u32, StoreRefusal> {
    match cells {
        Cells::Props => create_tads(alloc, store, transient),
        Cells::Elements => store.create(NewObject::Vector(Holders(Vec::new(alloc))), transient),
        Cells::Keys => store.create(NewObject::Table, transient),
    }
}

/// How many writes and savepoints there are at most.
const MOST_WRITES: u64 = 0x8000_0000_0000_0000;

/// Further writes may be made.
fn few_writes(store: &Store) -> Result<(), Fail>
    ensures { OnOk result (store.now.writes < 2 ^ 63) }
{
    if store.writes() >= MOST_WRITES {
        return Err(Fail::from("few writes"));
    }
    Ok(())
}

/// A number of 31 bits.
fn small(number: u32) -> i32 {
    (number & 0x7FFF_FFFF) as i32
}

/// Sets a property to its number, or takes it away.
fn write_prop(
    store: &mut Store,
    number: u32,
    prop: u16,
    value: Option<Holder>,
) -> Result<(), Fail> {
    let Some(Kind::Tads) = store.kind(number) else {
        return Err(Fail::from("a tads-object"));
    };
    few_writes(store)?;
    Ok(store.write(number, Cell::Prop(prop), value)?)
}

/// Sets the entry under a key to a value, or takes it away.
fn write_key(store: &mut Store, number: u32, key: Key, value: Option<Holder>) -> Result<(), Fail> {
    let Some(Kind::Table) = store.kind(number) else {
        return Err(Fail::from("a table"));
    };
    few_writes(store)?;
    Ok(store.write(number, Cell::Key(key), value)?)
}

/// Sets an element up to one behind the last.
pub(crate) fn set_element(
    store: &mut Store,
    number: u32,
    element: u32,
    value: u32,
) -> Result<(), Fail> {
    let Some(length) = store.length(number) else {
        return Err(Fail::from("a vector"));
    };
    if element == 0 || element > 65_535 || element - 1 > length {
        return Err(Fail::from("an element"));
    }
    few_writes(store)?;
    Ok(store.write(number, Cell::Elem(element), Some(Holder::Int(small(value))))?)
}

/// Takes the last element away.
fn take_last(store: &mut Store, number: u32) -> Result<(), Fail> {
    let Some(length) = store.length(number) else {
        return Err(Fail::from("a vector"));
    };
    if length == 0 {
        return Err(Fail::from("an element"));
    }
    few_writes(store)?;
    Ok(store.write(number, Cell::Elem(length), None)?)
}

/// Adds an element behind the last.
fn append(store: &mut Store, number: u32, value: u32) -> Result<(), Fail> {
    match store.length(number) {
        Some(length) => set_element(store, number, length.saturating_add(1), value),
        None => Err(Fail::from("a vector")),
    }
}

/// Sets the cell of a number. An element is added behind the last.
pub(crate) fn set(store: &mut Store, number: u32, cells: Cells, cell: u32) -> Result<(), Fail> {
    let value = Holder::Int(small(cell));
    match cells {
        Cells::Props => write_prop(store, number, (cell & 0xFFFF) as u16, Some(value)),
        Cells::Elements => append(store, number, cell),
        Cells::Keys => write_key(store, number, Key::Int(small(cell)), Some(value)),
    }
}

/// Takes the cell of a number away, and of elements the last.
pub(crate) fn take(store: &mut Store, number: u32, cells: Cells, cell: u32) -> Result<(), Fail> {
    match cells {
        Cells::Props => write_prop(store, number, (cell & 0xFFFF) as u16, None),
        Cells::Elements => take_last(store, number),
        Cells::Keys => write_key(store, number, Key::Int(small(cell)), None),
    }
}

/// Puts a copy of the persistent objects in their place.
pub(crate) fn put_copy_back(store: &mut Store, alloc: Global) -> Result<bool, Fail> {
    let state = store.persistent_copy(alloc)?;
    let next = store.next();
    if next == 0 || next > 0x8000_0000 {
        return Err(Fail::from("a next number"));
    }
    let None = state.after(next - 1) else {
        return Err(Fail::from("numbers below the next"));
    };
    let Admit::Fits = store.admits(&state) else {
        return Ok(false);
    };
    store.replace(state, next);
    Ok(true)
}

pub(crate) fn savepoint(store: &mut Store) -> Result<(), Fail> {
    if store.marks() >= MOST_WRITES {
        return Err(Fail::from("few savepoints"));
    }
    store.savepoint();
    Ok(())
}

/// Whether a table has no entry.
pub(crate) fn is_bare(store: &Store, alloc: Global, number: u32) -> Result<bool, Fail> {
    let Some(Kind::Table) = store.kind(number) else {
        return Err(Fail::from("a table"));
    };
    let entries = store.entries(alloc, number)?;
    Ok(entries.items().is_empty())
}
