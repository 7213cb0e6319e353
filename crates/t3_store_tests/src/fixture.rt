//! Stores and objects for the tests, and short calls of a store.
ghost use Rattle.std.specs.Prelude.{◌≡◌, ◌<◌, ◌≤◌, length, IfOk, OnOk};
ghost use Rattle.t3_store.specs.Value.{new_value, HasFittingLength};

use std::alloc::Global;
use std::test::Fail;
use t3_holder::{Bytes, Holder, NoMemory};
use t3_lists::Holders;
use t3_store::{Kind, NewObject, Store, StoreLimits, StoreRefusal};
use t3_test_stores::{create_tads, tads};
use t3_undo::{Cell, Key};

/// What a tads-object without anything is made of.
pub(crate) fn plain(alloc: Global) -> NewObject
    ensures { HasFittingLength (new_value result) }
{
    tads(alloc, Vec::new(alloc), false)
}

/// A store without objects, with room for so many.
pub(crate) fn empty_store(
    alloc: Global,
    objects: u32,
    units: u32,
    records: u32,
    savepoints: u32,
) -> Result<Store, NoMemory>
    requires objects { objects ≤ 1048576 }
    requires units { units ≤ 4194304 }
    requires records { (0 < records) × (records ≤ 1048576) }
    requires savepoints { (0 < savepoints) × (savepoints ≤ 1024) }
{
    let limits = StoreLimits {
        objects,
        units,
        records,
        savepoints,
    };
    t3_test_stores::empty_store(alloc, limits)
}

/// Makes an object without anything.
pub(crate) fn create(
    store: &mut Store,
    alloc: Global,
    transient: bool,
) -> Result<u32, StoreRefusal> {
    create_tads(alloc, store, transient)
}

/// A list of numbers.
pub(crate) fn numbers(alloc: Global, values: &[i32]) -> Result<Holders, NoMemory>
    ensures { IfOk result (λ items. length items ≡ length values.now) }
{
    let items = values.iter().map(|value| Holder::Int(*value));
    Ok(Holders(items.collect(alloc)?))
}

/// Few writes were made so far.
pub(crate) fn few_writes(store: &Store) -> Result<(), Fail>
    ensures { OnOk result (store.now.writes < 1000) }
{
    if store.writes() >= 1000 {
        return Err(Fail::from("few writes"));
    }
    Ok(())
}

/// `false` where the store is full.
pub(crate) fn answer(written: Result<(), StoreRefusal>) -> Result<bool, Fail> {
    match written {
        Ok(()) => Ok(true),
        Err(StoreRefusal::Full) => Ok(false),
        Err(StoreRefusal::NoMemory) => Err(Fail::from("memory")),
    }
}

/// Sets a property to a number, or takes it away. `false` where the store is full.
pub(crate) fn set(
    store: &mut Store,
    number: u32,
    prop: u16,
    value: Option<i32>,
) -> Result<bool, Fail> {
    let Some(Kind::Tads) = store.kind(number) else {
        return Err(Fail::from("a tads-object"));
    };
    few_writes(store)?;
    answer(store.write(number, Cell::Prop(prop), value.map(Holder::Int)))
}

/// Sets the entry under a key to a number, or takes it away. `false` where the store is full.
pub(crate) fn set_key(
    store: &mut Store,
    number: u32,
    key: Key,
    value: Option<i32>,
) -> Result<bool, Fail> {
    let Some(Kind::Table) = store.kind(number) else {
        return Err(Fail::from("a table"));
    };
    few_writes(store)?;
    answer(store.write(number, Cell::Key(key), value.map(Holder::Int)))
}

/// Sets an element to a number. `false` where the store is full.
pub(crate) fn set_element(
    store: &mut Store,
    number: u32,
    element: u32,
    value: i32,
) -> Result<bool, Fail> {
    let Some(length) = store.length(number) else {
        return Err(Fail::from("a vector"));
    };
    if element == 0 || element > 65_535 || element - 1 > length {
        return Err(Fail::from("an element"));
    }
    few_writes(store)?;
    answer(store.write(number, Cell::Elem(element), Some(Holder::Int(value))))
}

/// Takes the last element away.
pub(crate) fn take_last(store: &mut Store, number: u32) -> Result<bool, Fail> {
    let Some(length) = store.length(number) else {
        return Err(Fail::from("a vector"));
    };
    if length == 0 {
        return Err(Fail::from("an element"));
    }
    few_writes(store)?;
    answer(store.write(number, Cell::Elem(length), None))
}

/// Sets what stands in a cell anew.
pub(crate) fn overwrite(
    store: &mut Store,
    number: u32,
    cell: Cell,
    value: i32,
) -> Result<(), Fail> {
    let Some(_) = store.get(number, &cell) else {
        return Err(Fail::from("a present cell"));
    };
    few_writes(store)?;
    store.overwrite(number, cell, Holder::Int(value));
    Ok(())
}

pub(crate) fn savepoint(store: &mut Store) -> Result<(), Fail> {
    if store.marks() >= 1000 {
        return Err(Fail::from("few savepoints"));
    }
    store.savepoint();
    Ok(())
}

/// The number in a cell.
pub(crate) fn value(store: &Store, number: u32, cell: &Cell) -> Option<i32> {
    match store.get(number, cell) {
        Some(Holder::Int(value)) => Some(value),
        _ => None,
    }
}

/// A key of one letter.
pub(crate) fn letter(alloc: Global, letter: u8) -> Result<Key, NoMemory> {
    let mut bytes = Vec::new(alloc);
    bytes.push(letter)?;
    Ok(Key::Text(Bytes(bytes)))
}

/// Sets the entries under letters to numbers, or takes those away that have none.
pub(crate) fn set_letters(
    store: &mut Store,
    alloc: Global,
    number: u32,
    entries: &[(u8, Option<i32>)],
) -> Result<bool, Fail> {
    for (key, value) in entries {
        if !set_key(store, number, letter(alloc, *key)?, *value)? {
            return Ok(false);
        }
    }
    Ok(true)
}

/// Whether a table has just these entries under letters, in this order.
pub(crate) fn has_letters(
    store: &Store,
    alloc: Global,
    number: u32,
    expected: &[(u8, i32)],
) -> Result<bool, Fail> {
    let Some(Kind::Table) = store.kind(number) else {
        return Err(Fail::from("a table"));
    };
    let entries = store.entries(alloc, number)?;
    let pairs = entries.items();
    if pairs.len() != expected.len() {
        return Ok(false);
    }
    for index in 0..pairs.len() {
        let (key, value) = expected[index];
        if pairs[index].key != letter(alloc, key)? || pairs[index].value != Holder::Int(value) {
            return Ok(false);
        }
    }
    Ok(true)
}

/// Whether a vector has just these numbers.
pub(crate) fn has_numbers(store: &Store, number: u32, expected: &[i32]) -> bool {
    if expected.len() > 100 {
        return false;
    }
    for index in 0..expected.len() {
        if value(store, number, &Cell::Elem(index as u32 + 1)) != Some(expected[index]) {
            return false;
        }
    }
    store.length(number) == Some(expected.len() as u32)
}

/// A store with a tads-object, whose property 5 is 10, a vector of 1, 2, 3, and a table with `a` to 1 and `b` to
/// 2, under the numbers 1, 2, 3.
pub(crate) fn three_kinds(alloc: Global) -> Result<Store, Fail> {
    let mut store = empty_store(alloc, 9, 99, 8, 2)?;
    add_three(&mut store, alloc)?;
    Ok(store)
}

/// Adds the three, in this order.
fn add_three(store: &mut Store, alloc: Global) -> Result<(), Fail> {
    let _set = add_object(store, alloc)?;
    let _vector = store.create(NewObject::Vector(numbers(alloc, &[1, 2, 3])?), false)?;
    let _set = add_table(store, alloc)?;
    Ok(())
}

/// Adds an object whose property 5 is 10.
pub(crate) fn add_object(store: &mut Store, alloc: Global) -> Result<bool, Fail> {
    let object = create(store, alloc, false)?;
    set(store, object, 5, Some(10))
}

/// Adds a table with `a` to 1 and `b` to 2.
pub(crate) fn add_table(store: &mut Store, alloc: Global) -> Result<bool, Fail> {
    let table = store.create(NewObject::Table, false)?;
    set_letters(store, alloc, table, &[(b'a', Some(1)), (b'b', Some(2))])
}
