//! The runs, and what stands after each.
use crate::objects::{self, LARGEST, PLAY, WORLDS, create, empty_store, set, set_key};
use std::alloc::{AllocError, Global};
use t3_holder::{Holder, NoMemory};
use t3_store::{NewObject, Store, StoreRefusal};
use t3_undo::{Cell, Key};

/// The words say no run, or the store has no room for it.
#[derive(Clone, Copy, Debug)]
pub(crate) struct Failure;

impl From<NoMemory> for Failure {
    fn from(_error: NoMemory) -> Failure {
        Failure
    }
}

impl From<AllocError> for Failure {
    fn from(_error: AllocError) -> Failure {
        Failure
    }
}

impl From<StoreRefusal> for Failure {
    fn from(_error: StoreRefusal) -> Failure {
        Failure
    }
}

/// What a store says of itself.
#[derive(Clone, Copy, Debug)]
pub(crate) struct Stands {
    pub(crate) objects: u32,
    pub(crate) units: u32,
    pub(crate) held: u32,
    pub(crate) records: u32,
    pub(crate) next: u32,
}

impl Stands {
    fn of(store: &Store) -> Stands {
        Stands {
            objects: store.objects(),
            units: store.units(),
            held: store.held(),
            records: store.records(),
            next: store.next(),
        }
    }
}

/// Objects without anything.
pub(crate) fn objects(alloc: Global, count: u32) -> Result<Stands, Failure> {
    let mut store = empty_store(alloc, LARGEST)?;
    for _object in 0..count {
        let _number = create(&mut store, alloc)?;
    }
    Ok(Stands::of(&store))
}

/// A store of so many objects with a property.
fn with_props(alloc: Global, count: u32) -> Result<Store, Failure> {
    let mut store = empty_store(alloc, LARGEST)?;
    for _object in 0..count {
        let number = create(&mut store, alloc)?;
        set(&mut store, number, 0)?;
    }
    Ok(store)
}

/// Sets the property of one object after the other.
pub(crate) fn overwrite(alloc: Global, count: u32, turns: u32) -> Result<Stands, Failure> {
    let mut store = with_props(alloc, count)?;
    change(&mut store, count, turns)?;
    Ok(Stands::of(&store))
}

/// Sets the property of one of so many objects after the other, so many times.
fn change(store: &mut Store, count: u32, turns: u32) -> Result<(), Failure> {
    if count == 0 {
        return Err(Failure);
    }
    for turn in 0..turns {
        objects::overwrite(store, turn % count + 1, Cell::Prop(1), small(turn))?;
    }
    Ok(())
}

/// A number of 31 bits.
fn small(number: u32) -> i32 {
    (number & 0x7FFF_FFFF) as i32
}

/// The key of a number.
fn key_of(number: u32) -> Key {
    Key::Int(small(number))
}

/// A table of so many keys, of which each is renewed so many times.
pub(crate) fn table(alloc: Global, count: u32, turns: u32) -> Result<Stands, Failure> {
    let mut store = empty_store(alloc, LARGEST)?;
    let table = store.create(NewObject::Table, false)?;
    for key in 0..count {
        set_key(&mut store, table, key_of(key), Some(0))?;
    }
    for _turn in 0..turns {
        renew_all(&mut store, table, count)?;
    }
    Ok(Stands::of(&store))
}

/// Finds each key, takes it away and sets it again.
fn renew_all(store: &mut Store, table: u32, count: u32) -> Result<(), Failure> {
    for key in 0..count {
        if store.get(table, &Cell::Key(key_of(key))).is_none() {
            return Err(Failure);
        }
        set_key(store, table, key_of(key), None)?;
        set_key(store, table, key_of(key), Some(1))?;
    }
    Ok(())
}

/// A table in which so many keys come and go.
pub(crate) fn keys(alloc: Global, count: u32) -> Result<Stands, Failure> {
    let mut store = empty_store(alloc, PLAY)?;
    let table = store.create(NewObject::Table, false)?;
    for key in 0..count {
        set_key(&mut store, table, key_of(key), Some(0))?;
        set_key(&mut store, table, key_of(key), None)?;
    }
    Ok(Stands::of(&store))
}

/// So many savepoints with nothing behind them.
pub(crate) fn savepoint(alloc: Global, count: u32, turns: u32) -> Result<Stands, Failure> {
    let mut store = with_props(alloc, count)?;
    for _turn in 0..turns {
        objects::savepoint(&mut store)?;
    }
    Ok(Stands::of(&store))
}

/// So many rounds, each of a savepoint, so many changes, and an undo.
pub(crate) fn undo(
    alloc: Global,
    count: u32,
    changes: u32,
    rounds: u32,
) -> Result<Stands, Failure> {
    let mut store = with_props(alloc, count)?;
    for _round in 0..rounds {
        objects::savepoint(&mut store)?;
        change(&mut store, count, changes)?;
        undo_some(&mut store, 1)?;
    }
    Ok(Stands::of(&store))
}

/// How many vectors there are, how many elements each has, and how many savepoints are made.
const VECTORS: u32 = 32;

const ELEMENTS: usize = 65_535;

const SAVEPOINTS: u32 = 1_024;

/// Worlds of vectors: savepoints between changes of each, and undos up to the first. What stands is looked at
/// after the changes, after the first undo and after the last.
pub(crate) fn worlds(alloc: Global) -> Result<Stands, Failure> {
    let mut store = empty_store(alloc, WORLDS)?;
    for _vector in 0..VECTORS {
        objects::create_vector(&mut store, alloc, ELEMENTS)?;
    }
    for number in 0..SAVEPOINTS {
        objects::savepoint(&mut store)?;
        let _table = store.create(NewObject::Table, false)?;
        set_first(&mut store, small(number + 1))?;
    }
    check(&store, 1_024, 32_768, 1_056, 1_024)?;
    undo_some(&mut store, 1)?;
    check(&store, 1_023, 32_736, 1_055, 1_023)?;
    undo_some(&mut store, 1_023)?;
    check(&store, 0, 0, 32, 0)?;
    match store.undo() {
        true => Err(Failure),
        false => Ok(Stands::of(&store)),
    }
}

/// Sets the first element of each vector.
fn set_first(store: &mut Store, value: i32) -> Result<(), Failure> {
    for vector in 1..VECTORS + 1 {
        objects::overwrite(store, vector, Cell::Elem(1), value)?;
    }
    Ok(())
}

/// Undoes so many savepoints, each of which is held.
fn undo_some(store: &mut Store, count: u32) -> Result<(), Failure> {
    for _turn in 0..count {
        if !store.undo() {
            return Err(Failure);
        }
    }
    Ok(())
}

/// So many savepoints are held with so many records, there are so many objects, and the first element of
/// each vector is this.
fn check(store: &Store, held: u32, records: u32, objects: u32, value: i32) -> Result<(), Failure> {
    for vector in 1..VECTORS + 1 {
        if store.get(vector, &Cell::Elem(1)) != Some(Holder::Int(value)) {
            return Err(Failure);
        }
    }
    if store.held() == held && store.records() == records && store.objects() == objects {
        Ok(())
    } else {
        Err(Failure)
    }
}
