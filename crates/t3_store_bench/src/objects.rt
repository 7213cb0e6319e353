//! A store, and single calls of it that are sure of their conditions.
ghost use Rattle.std.specs.Prelude.{◌≤◌};
ghost use Rattle.t3_store.specs.Store.{AreLimits};

use crate::runs::Failure;
use std::alloc::Global;
use t3_holder::Holder;
use t3_lists::Holders;
use t3_store::{Kind, NewObject, Store, StoreLimits};
use t3_test_stores::create_tads;
use t3_undo::{Cell, Key};

/// As much room as a store may have.
pub(crate) const LARGEST: StoreLimits = StoreLimits {
    objects: 1_048_576,
    units: 4_194_304,
    records: 1_048_576,
    savepoints: 1_024,
};

/// Room for a play with few records.
pub(crate) const PLAY: StoreLimits = StoreLimits {
    objects: 1_024,
    units: 65_536,
    records: 1_000,
    savepoints: 128,
};

/// Room for the worlds of vectors.
pub(crate) const WORLDS: StoreLimits = StoreLimits {
    objects: 2_048,
    units: 4_194_304,
    records: 65_536,
    savepoints: 1_024,
};

/// A store without objects.
pub(crate) fn empty_store(alloc: Global, limits: StoreLimits) -> Result<Store, Failure>
    requires { AreLimits limits }
{
    Ok(t3_test_stores::empty_store(alloc, limits)?)
}

/// How many writes and savepoints there are at most.
const MOST_WRITES: u64 = 0x8000_0000_0000_0000;

/// Makes a persistent tads-object without anything.
pub(crate) fn create(store: &mut Store, alloc: Global) -> Result<u32, Failure> {
    Ok(create_tads(alloc, store, false)?)
}

/// Sets the property of an object.
pub(crate) fn set(store: &mut Store, number: u32, value: i32) -> Result<(), Failure> {
    match store.kind(number) {
        Some(Kind::Tads) if store.writes() < MOST_WRITES => {
            Ok(store.write(number, Cell::Prop(1), Some(Holder::Int(value)))?)
        }
        _ => Err(Failure),
    }
}

/// Sets the property of an object that has it anew.
pub(crate) fn overwrite(
    store: &mut Store,
    number: u32,
    cell: Cell,
    value: i32,
) -> Result<(), Failure> {
    if store.get(number, &cell).is_none() || store.writes() >= MOST_WRITES {
        return Err(Failure);
    }
    store.overwrite(number, cell, Holder::Int(value));
    Ok(())
}

/// Sets the entry under a key to a number, or takes it away.
pub(crate) fn set_key(
    store: &mut Store,
    number: u32,
    key: Key,
    value: Option<i32>,
) -> Result<(), Failure> {
    match store.kind(number) {
        Some(Kind::Table) if store.writes() < MOST_WRITES => {
            Ok(store.write(number, Cell::Key(key), value.map(Holder::Int))?)
        }
        _ => Err(Failure),
    }
}

/// Makes a persistent vector of so many zeros.
pub(crate) fn create_vector(store: &mut Store, alloc: Global, count: usize) -> Result<(), Failure>
    requires { count ≤ 65535 }
{
    let mut items = Vec::new(alloc);
    items.resize(count, Holder::Int(0))?;
    let _number = store.create(NewObject::Vector(Holders(items)), false)?;
    Ok(())
}

pub(crate) fn savepoint(store: &mut Store) -> Result<(), Failure> {
    if store.marks() >= MOST_WRITES {
        return Err(Failure);
    }
    store.savepoint();
    Ok(())
}
