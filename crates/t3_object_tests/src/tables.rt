//! Tables, each call once: keys of each kind, entries that go and come back, the default.
use std::alloc::Global;
use std::process::Abort;
use std::test::Fail;
use t3_holder::{Bytes, Holder, NoMemory};
use t3_tables::Table;
use t3_undo::{Cell, Content, Key, Metaclass};

/// Puts an entry with a tick, and gives what stood there.
fn put(
    alloc: Global,
    table: &mut Table,
    key: Key,
    tick: u64,
    number: i32,
) -> Result<Content, NoMemory> {
    let cell = Cell::Key(key);
    table.make_place(cell.copy(alloc)?)?;
    if tick == u64::MAX {
        return Ok(Content::Absent);
    }
    Ok(table.put(&cell, Content::Slot(tick, Holder::Int(number))))
}

/// Sets a new entry.
fn add(alloc: Global, table: &mut Table, key: Key, number: i32) -> Result<(), NoMemory> {
    let tick = table.next_tick();
    let _absent = put(alloc, table, key, tick, number)?;
    Ok(())
}

/// Takes an entry away, and gives what stood there.
fn take_away(alloc: Global, table: &mut Table, key: Key) -> Result<Content, NoMemory> {
    let cell = Cell::Key(key);
    table.make_place(cell.copy(alloc)?)?;
    Ok(table.put(&cell, Content::Absent))
}

/// Sets the default, and gives what stood there.
fn set_default(table: &mut Table, number: i32) -> Content {
    table.put(&Cell::Default, Content::Held(Holder::Int(number)))
}

/// The numbers under the keys, in the order of the entries.
fn numbers(alloc: Global, table: &Table) -> Result<Vec<i32>, NoMemory> {
    let entries = table.entries(alloc)?;
    let mut numbers = Vec::new(alloc);
    for pair in entries.items() {
        if let Holder::Int(number) = pair.value {
            numbers.push(number)?;
        }
    }
    Ok(numbers)
}

/// A key of each kind, with the same number where it has one.
fn key_of_kind(alloc: Global, kind: i32) -> Result<Key, NoMemory> {
    Ok(match kind {
        1 => Key::Nil,
        2 => Key::True,
        3 => Key::Int(1),
        4 => Key::Int(-1),
        5 => Key::Enum(1),
        6 => Key::Prop(1),
        7 => Key::Func(1),
        8 => Key::Obj(1),
        _ => Key::Text(Bytes(Vec::from_slice(alloc, b"1")?)),
    })
}

/// The entries stand in this order, by their numbers.
fn check_order(rt: &impl Abort, alloc: Global, table: &Table, want: &[i32]) -> Result<(), Fail> {
    let order = numbers(alloc, table)?;
    assert_eq!(rt; order.as_slice(), want);
    Ok(())
}

/// An entry under a key of each kind, from the last kind to the first.
fn with_each_kind(alloc: Global) -> Result<Table, NoMemory> {
    let mut table = Table::new(alloc);
    for kind in [9, 8, 7, 6, 5, 4, 3, 2, 1] {
        let key = key_of_kind(alloc, kind)?;
        add(alloc, &mut table, key, kind)?;
    }
    Ok(table)
}

/// The table has an entry for each kind, in the order in which they came.
fn check_each_kind(rt: &impl Abort, alloc: Global, table: &Table) -> Result<(), Fail> {
    assert_eq!(rt; (table.next_tick(), table.places()), (10, 10));
    check_order(rt, alloc, table, &[9, 8, 7, 6, 5, 4, 3, 2, 1])
}

/// A key like one that is there is no further key.
fn check_same_key(rt: &impl Abort, alloc: Global, table: &mut Table) -> Result<(), Fail> {
    let same = key_of_kind(alloc, 9)?;
    let stood = put(alloc, table, same, 1, 0)?;
    assert_eq!(rt; stood, Content::Slot(1, Holder::Int(9)), "by its bytes");
    assert_eq!(rt; (table.next_tick(), table.places()), (10, 10));
    Ok(())
}

#[test]
fn keys_of_each_kind_are_apart(rt: HostRuntime) -> Result<(), Fail> {
    let mut table = with_each_kind(rt.alloc())?;
    check_each_kind(&rt, rt.alloc(), &table)?;
    check_same_key(&rt, rt.alloc(), &mut table)
}

/// 1 under 1, 2 under 2 and 3 under 3.
fn with_three(alloc: Global) -> Result<Table, NoMemory> {
    let mut table = Table::new(alloc);
    for number in [1, 2, 3] {
        add(alloc, &mut table, Key::Int(number), number)?;
    }
    Ok(table)
}

/// The first entry goes, and another under its key is the last.
fn check_gone(rt: &impl Abort, alloc: Global, table: &mut Table) -> Result<(), Fail> {
    let old = take_away(alloc, table, Key::Int(1))?;
    assert_eq!(rt; old, Content::Slot(1, Holder::Int(1)));
    add(alloc, table, Key::Int(1), 4)?;
    check_order(rt, alloc, table, &[2, 3, 4])
}

/// With its former tick it is the first again.
fn check_back(rt: &impl Abort, alloc: Global, table: &mut Table) -> Result<(), Fail> {
    let _four = put(alloc, table, Key::Int(1), 1, 1)?;
    check_order(rt, alloc, table, &[1, 2, 3])?;
    assert_eq!(rt; table.next_tick(), 5, "it isn't set back");
    Ok(())
}

#[test]
fn an_entry_goes_and_comes_back(rt: HostRuntime) -> Result<(), Fail> {
    let mut table = with_three(rt.alloc())?;
    check_gone(&rt, rt.alloc(), &mut table)?;
    check_back(&rt, rt.alloc(), &mut table)
}

/// A default of 7, 2 under 2 by the tick 20, 1 under 1 by the tick 10, and a place for nil.
fn with_ticks(alloc: Global) -> Result<Table, NoMemory> {
    let mut table = Table::new(alloc);
    let _nil = set_default(&mut table, 7);
    let _two = put(alloc, &mut table, Key::Int(2), 20, 2)?;
    let _one = put(alloc, &mut table, Key::Int(1), 10, 1)?;
    let _none = take_away(alloc, &mut table, Key::Nil)?;
    Ok(table)
}

#[test]
fn a_copy_has_new_ticks(rt: HostRuntime) -> Result<(), Fail> {
    check_new(&rt, &mut Table::new(rt.alloc()))?;
    let table = with_ticks(rt.alloc())?;
    assert_eq!(rt; (table.next_tick(), table.places()), (21, 4));
    let copy = table.copy(rt.alloc())?;
    check_copied(&rt, rt.alloc(), &copy)
}

/// A new table has a place for its default from the start, with which no tick goes.
fn check_new(rt: &impl Abort, table: &mut Table) -> Result<(), Fail> {
    assert_eq!(rt; (table.next_tick(), table.places()), (1, 1));
    table.make_place(Cell::Default)?;
    assert_eq!(rt; (table.next_tick(), table.places()), (1, 1));
    let old = set_default(table, 7);
    assert_eq!(rt; old, Content::Held(Holder::Nil));
    Ok(())
}

fn check_copied(rt: &impl Abort, alloc: Global, copy: &Table) -> Result<(), Fail> {
    assert_eq!(rt; (copy.next_tick(), copy.places()), (3, 3));
    check_order(rt, alloc, copy, &[1, 2])?;
    assert_eq!(rt; copy.get(&Cell::Default), Content::Held(Holder::Int(7)));
    Ok(())
}

/// Makes an empty place, gives it a stamp, and tells the one that it had.
fn empty_place(alloc: Global, table: &mut Table, key: Key, stamp: u64) -> Result<u64, NoMemory> {
    let cell = Cell::Key(key);
    table.make_place(cell.copy(alloc)?)?;
    let first = table.stamp(&cell);
    table.set_stamp(&cell, stamp);
    Ok(first)
}

/// Two empty places, with the stamps 7 and 8.
fn check_empty_places(rt: &impl Abort, alloc: Global, table: &mut Table) -> Result<(), Fail> {
    assert_eq!(rt; empty_place(alloc, table, Key::Int(4), 7)?, 0);
    assert_eq!(rt; empty_place(alloc, table, Key::Int(5), 8)?, 0);
    assert_eq!(rt; (table.places(), table.present()), (6, 4));
    Ok(())
}

/// The one with the stamp 7 goes, and the entries stay.
fn check_purged(rt: &impl Abort, alloc: Global, table: &mut Table) -> Result<(), Fail> {
    table.purge(8);
    assert_eq!(rt; (table.places(), table.present()), (5, 4));
    check_order(rt, alloc, table, &[1, 2, 3])
}

#[test]
fn empty_places_go_by_their_stamps(rt: HostRuntime) -> Result<(), Fail> {
    let mut table = with_three(rt.alloc())?;
    check_empty_places(&rt, rt.alloc(), &mut table)?;
    check_purged(&rt, rt.alloc(), &mut table)
}
