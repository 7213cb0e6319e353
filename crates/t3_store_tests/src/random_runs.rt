//! Random runs of a store, beside a plain program that keeps whole copies. Objects of each kind are
//! made and changed in both halves; after each step all that can be read of both is compared.
ghost use Rattle.std.specs.Prelude.{◌≡◌, IsTrue, IfOk, IsSome, length};
ghost use Rattle.t3_store.specs.Whole.{supers_for};

use crate::fixture::{answer, savepoint, set, set_element, set_key, take_last};
use crate::whole_copies::{DEFAULT, NIL, Row, TEXTS, Whole, has_row};
use std::alloc::Global;
use std::test::Fail;
use t3_holder::{Bytes, Holder, NoMemory};
use t3_lists::Holders;
use t3_store::{Kind, NewObject, Store, StoreRefusal};
use t3_tadsobj::Supers;
use t3_test_stores::tads;
use t3_undo::{Cell, Key};

/// How many objects there may be in the runs.
pub(crate) const OBJECTS: u32 = 8;

/// One cell of one object set to a number or, without one, taken away. One that is there is
/// overwritten where `anew` says so.
#[derive(Clone, Copy)]
struct Change {
    number: u32,
    cell: u32,
    value: Option<i32>,
    anew: bool,
}

/// A call of both. Whether they gave the same answer.
pub(crate) fn step(
    store: &mut Store,
    whole: &mut Whole,
    alloc: Global,
    call: u32,
    roll: u32,
) -> Result<bool, Fail> {
    match call {
        0 => {
            savepoint(store)?;
            whole.savepoint(alloc)?;
            Ok(true)
        }
        1 => Ok(store.undo() == whole.undo()),
        2 | 3 => create_object(store, whole, alloc, roll / 12),
        _ => change_cell(store, whole, alloc, roll / 12),
    }
}

/// An object made.
fn create_object(
    store: &mut Store,
    whole: &mut Whole,
    alloc: Global,
    roll: u32,
) -> Result<bool, Fail> {
    let transient = roll % 3 == 0;
    let mut row = Row {
        number: 0,
        kind: kind_of(roll / 3),
        class: false,
        supers: Vec::new(alloc),
        cells: Vec::new(alloc),
    };
    if row.kind == Kind::Tads {
        row.class = roll / 15 % 2 == 0;
        push_superclass(whole, transient, roll / 30, &mut row.supers)?;
    } else {
        push_content(row.kind, roll / 15, &mut row.cells)?;
    }
    let made = make(store, alloc, &row, transient)?;
    Ok(made == whole.create(row, transient)?)
}

fn kind_of(roll: u32) -> Kind {
    match roll % 5 {
        0 => Kind::Tads,
        1 => Kind::Text,
        2 => Kind::List,
        3 => Kind::Vector,
        _ => Kind::Table,
    }
}

/// A superclass of a new object, if there is one: of a persistent object it is persistent.
fn push_superclass(
    whole: &Whole,
    transient: bool,
    roll: u32,
    supers: &mut Vec<u32>,
) -> Result<(), NoMemory> {
    let rows = if transient && roll % 2 == 0 {
        &whole.transient
    } else {
        &whole.persistent
    };
    let mut skipped = roll / 2 % 3;
    for row in rows {
        if row.kind == Kind::Tads {
            if skipped == 0 {
                supers.push(row.number)?;
                return Ok(());
            }
            skipped -= 1;
        }
    }
    Ok(())
}

/// The bytes, items or elements of a new object, or the default of a new table.
fn push_content(kind: Kind, roll: u32, cells: &mut Vec<(u32, i32)>) -> Result<(), NoMemory> {
    let length = match kind {
        Kind::Table => 0,
        Kind::Text => roll % 18,
        _ => roll % 4,
    };
    if kind == Kind::Table {
        cells.push((DEFAULT, NIL))?;
    }
    for index in 0..length {
        cells.push((index + 1, (roll / 32 % 16 + index) as i32))?;
    }
    Ok(())
}

/// The number of what was made. `None` where the store is full.
fn number_made(made: Result<u32, StoreRefusal>) -> Result<Option<u32>, Fail> {
    match made {
        Ok(number) => Ok(Some(number)),
        Err(why) => {
            let _full = answer(Err(why))?;
            Ok(None)
        }
    }
}

/// Makes an object like the row.
fn make(store: &mut Store, alloc: Global, row: &Row, transient: bool) -> Result<Option<u32>, Fail> {
    if row.cells.len() > 65_535 {
        return Err(Fail::from("a content that fits"));
    }
    number_made(match row.kind {
        Kind::Tads => return make_tads(store, alloc, row, transient),
        Kind::Text => store.create(NewObject::Text(bytes_in(alloc, &row.cells)?), transient),
        Kind::List => store.create(NewObject::List(items_in(alloc, &row.cells)?), transient),
        Kind::Vector => store.create(NewObject::Vector(items_in(alloc, &row.cells)?), transient),
        Kind::Table => store.create(NewObject::Table, transient),
    })
}

fn make_tads(
    store: &mut Store,
    alloc: Global,
    row: &Row,
    transient: bool,
) -> Result<Option<u32>, Fail> {
    let mut supers = Vec::new(alloc);
    let Some(superclass) = row.supers.first() else {
        return number_made(store.create(tads(alloc, supers, row.class), transient));
    };
    let superclass = *superclass;
    if !can_be_superclass(store, superclass, transient) {
        return Err(Fail::from("a superclass"));
    }
    supers.push(superclass)?;
    number_made(store.create(tads(alloc, supers, row.class), transient))
}

/// Whether a new object may have this superclass.
fn can_be_superclass(store: &Store, number: u32, transient: bool) -> bool
    ensures { IsTrue result → IsSome (supers_for transient store.now.store number) }
{
    if store.is_transient(number) && !transient {
        return false;
    }
    store.supers(number).is_some()
}

fn bytes_in(alloc: Global, cells: &[(u32, i32)]) -> Result<Bytes, NoMemory>
    ensures { IfOk result (λ bytes. length bytes ≡ length cells.now) }
{
    let bytes = cells.iter().map(|cell| u8::try_from(cell.1).unwrap_or(0));
    Ok(Bytes(bytes.collect(alloc)?))
}

fn items_in(alloc: Global, cells: &[(u32, i32)]) -> Result<Holders, NoMemory>
    ensures { IfOk result (λ items. length items ≡ length cells.now) }
{
    let items = cells.iter().map(|cell| Holder::Int(cell.1));
    Ok(Holders(items.collect(alloc)?))
}

/// A cell of an object changed.
fn change_cell(
    store: &mut Store,
    whole: &mut Whole,
    alloc: Global,
    roll: u32,
) -> Result<bool, Fail> {
    let Some(row) = whole.row_at((roll % OBJECTS) as usize) else {
        return Ok(true);
    };
    let kind = row.kind;
    let Some(change) = change_of(row, roll / 10) else {
        return Ok(true);
    };
    let done = change_store(store, alloc, kind, change)?;
    Ok(done == change_whole(whole, change)?)
}

/// What a roll changes of an object. Strings and lists never change.
fn change_of(row: &Row, roll: u32) -> Option<Change> {
    let value = if roll % 3 == 0 {
        None
    } else {
        Some((roll / 42 % 100) as i32)
    };
    let mut change = Change {
        number: row.number,
        cell: 1 + roll / 6 % 3,
        value,
        anew: roll / 3 % 2 == 0,
    };
    match row.kind {
        Kind::Tads => Some(change),
        Kind::Table => {
            change.cell = table_cell(roll / 6);
            if change.cell == DEFAULT {
                change.value = Some(value.unwrap_or(NIL));
                change.anew = true;
            }
            Some(change)
        }
        Kind::Vector => {
            let length = u32::try_from(row.cells.len()).unwrap_or(0);
            change.cell = match value {
                Some(_) => change.cell.min(length.saturating_add(1)),
                None => length,
            };
            (change.cell > 0).then_some(change)
        }
        Kind::Text | Kind::List => None,
    }
}

fn table_cell(roll: u32) -> u32 {
    match roll % 7 {
        0 => DEFAULT,
        1 => TEXTS,
        2 => TEXTS + 8,
        3 => TEXTS + 9,
        place => place,
    }
}

/// `false` where the store is full.
fn change_store(
    store: &mut Store,
    alloc: Global,
    kind: Kind,
    change: Change,
) -> Result<bool, Fail> {
    if let (true, Some(value)) = (change.anew, change.value) {
        let cell = cell_of(alloc, kind, change.cell)?;
        if overwrite(store, change.number, cell, value)? {
            return Ok(true);
        }
    }
    match kind {
        Kind::Tads => set(store, change.number, prop_of(change.cell), change.value),
        Kind::Table => {
            let key = key_of(alloc, change.cell)?;
            set_key(store, change.number, key, change.value)
        }
        _ => match change.value {
            Some(value) => set_element(store, change.number, change.cell, value),
            None => take_last(store, change.number),
        },
    }
}

/// `false` where the cell isn't there.
fn overwrite(store: &mut Store, number: u32, cell: Cell, value: i32) -> Result<bool, Fail> {
    let Some(_) = store.get(number, &cell) else {
        return Ok(false);
    };
    if store.writes() >= 1000 {
        return Err(Fail::from("few writes"));
    }
    store.overwrite(number, cell, Holder::Int(value));
    Ok(true)
}

fn change_whole(whole: &mut Whole, change: Change) -> Result<bool, Fail> {
    match change.value {
        Some(value) => Ok(whole.set(change.number, change.cell, value)?),
        None => {
            whole.take(change.number, change.cell)?;
            Ok(true)
        }
    }
}

fn cell_of(alloc: Global, kind: Kind, cell: u32) -> Result<Cell, NoMemory> {
    match kind {
        Kind::Tads => Ok(Cell::Prop(prop_of(cell))),
        Kind::Table if cell == DEFAULT => Ok(Cell::Default),
        Kind::Table => Ok(Cell::Key(key_of(alloc, cell)?)),
        _ => Ok(Cell::Elem(cell)),
    }
}

fn prop_of(cell: u32) -> u16 {
    u16::try_from(cell).unwrap_or(0)
}

fn key_of(alloc: Global, cell: u32) -> Result<Key, NoMemory> {
    if cell < TEXTS {
        return Ok(Key::Int(i32::try_from(cell).unwrap_or(0)));
    }
    let bytes = Vec::from_elem(alloc, b'k', (cell - TEXTS) as usize)?;
    Ok(Key::Text(Bytes(bytes)))
}

/// Whether both say the same.
pub(crate) fn agree(store: &Store, whole: &Whole, alloc: Global) -> Result<bool, Fail> {
    for row in &whole.persistent {
        if store.is_transient(row.number) || !has_row(store, row, alloc)? {
            return Ok(false);
        }
    }
    for row in &whole.transient {
        if !store.is_transient(row.number) || !has_row(store, row, alloc)? {
            return Ok(false);
        }
    }
    Ok(
        store.objects() as usize == whole.objects()
            && store.units() as usize == whole.units()
            && store.held() as usize == whole.held()
            && store.records() as usize == whole.records()
            && store.next() == whole.next,
    )
}
