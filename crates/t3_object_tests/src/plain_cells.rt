//! Each kind of object beside a plain one, by calls that look as if they were drawn.
use crate::orders::drawn;
use crate::plain_places::{Plain, PlainPlace, Value, content};
use crate::tried::Tried;
use std::alloc::Global;
use std::process::Abort;
use std::test::Fail;
use t3_holder::{Bytes, Holder, NoMemory};
use t3_lists::{Holders, List, Text, Vector};
use t3_tables::Table;
use t3_tadsobj::TadsObject;
use t3_undo::{Cell, Key};

/// How many cells of an object are tried.
const CELLS: u32 = 8;

/// How many runs there are of a kind that has cells.
const RUNS: u32 = 500;

/// The stamps that are given, and the serials at which objects are purged.
const SERIALS: [u64; 8] = [0, 1, 2, 3, 5, 8, u64::MAX - 1, u64::MAX];

/// A cell that is tried, and its index.
#[derive(Clone, Copy)]
struct At<'a> {
    index: usize,
    cell: &'a Cell,
}

/// A place in both. Whether both have one then, or both can have none.
fn make_place<K: Tried>(
    object: &mut K,
    plain: &mut Plain,
    alloc: Global,
    at: At,
) -> Result<bool, NoMemory> {
    plain.make_place(at.index)?;
    Ok(object.try_place(alloc, at.cell)? == plain.place(at.index).is_some())
}

/// Sets a cell in both, once it has a place. Whether the same stood there.
fn put<K: Tried>(
    object: &mut K,
    plain: &mut Plain,
    alloc: Global,
    at: At,
    value: Option<Value>,
) -> Result<bool, NoMemory> {
    plain.make_place(at.index)?;
    let has_place = object.try_place(alloc, at.cell)?;
    match plain.place(at.index) {
        Some(place) if has_place => {
            let old = object.put(at.cell, content(at.cell, value));
            let same = old == content(at.cell, place.value);
            plain.set(PlainPlace { value, ..place })?;
            Ok(same)
        }
        place => Ok(place.is_some() == has_place),
    }
}

/// Gives a cell's place a stamp in both, once there is one. Whether both have one.
fn set_stamp<K: Tried>(
    object: &mut K,
    plain: &mut Plain,
    alloc: Global,
    at: At,
    stamp: u64,
) -> Result<bool, NoMemory> {
    plain.make_place(at.index)?;
    let has_place = object.try_place(alloc, at.cell)?;
    match plain.place(at.index) {
        Some(place) if has_place => {
            object.set_stamp(at.cell, stamp);
            plain.set(PlainPlace { stamp, ..place })?;
            Ok(true)
        }
        place => Ok(place.is_some() == has_place),
    }
}

/// Purges both at each serial in turn. Whether they tell the same in between.
fn purge_at_each<K: Tried>(
    object: &mut K,
    plain: &mut Plain,
    alloc: Global,
    cells: &[Cell],
) -> Result<bool, NoMemory> {
    for serial in SERIALS {
        object.purge(serial);
        plain.purge(alloc, serial)?;
        if !agree(object, plain, alloc, cells)? {
            return Ok(false);
        }
    }
    Ok(true)
}

/// Goes on with copies of both, where there are any. Whether there are copies of both, or of none.
fn copy<K: Tried>(object: &mut K, plain: &mut Plain, alloc: Global) -> Result<bool, NoMemory> {
    match object.try_copy(alloc)? {
        Some(copy) => {
            *object = copy;
            let is_whole = plain.is_whole();
            *plain = plain.copy(alloc)?;
            Ok(is_whole)
        }
        None => Ok(!plain.is_whole()),
    }
}

fn drawn_serial(seed: &mut u32) -> u64 {
    match SERIALS.get(drawn(seed, 8) as usize) {
        Some(serial) => *serial,
        None => 0,
    }
}

/// A value that can stand in the cell, with a tick that no other turn draws, or none where there can be
/// none.
fn drawn_value(seed: &mut u32, cell: &Cell, turn: u32) -> Option<Value> {
    let tick = drawn(seed, 1000).saturating_mul(1000).saturating_add(turn);
    let holder = match drawn(seed, 6) {
        0 => Holder::Nil,
        1 => Holder::True,
        2 => Holder::Obj(1),
        3 => Holder::Int(1),
        _ if matches!(cell, Cell::Default) => Holder::Nil,
        _ => return None,
    };
    match cell {
        Cell::Key(_) => Some(Value { tick, holder }),
        _ => Some(Value { tick: 0, holder }),
    }
}

/// One call of both. Whether they gave the same answer.
fn step<K: Tried>(
    object: &mut K,
    plain: &mut Plain,
    alloc: Global,
    cells: &[Cell],
    seed: &mut u32,
    turn: u32,
) -> Result<bool, NoMemory> {
    let index = drawn(seed, CELLS) as usize;
    let Some(cell) = cells.get(index) else {
        return Ok(false);
    };
    let at = At { index, cell };
    match drawn(seed, 32) {
        0..=4 => make_place(object, plain, alloc, at),
        5..=16 => put(object, plain, alloc, at, drawn_value(seed, cell, turn)),
        17..=24 => set_stamp(object, plain, alloc, at, drawn_serial(seed)),
        25..=28 => {
            let serial = drawn_serial(seed);
            object.purge(serial);
            plain.purge(alloc, serial)?;
            Ok(true)
        }
        29 => purge_at_each(object, plain, alloc, cells),
        _ => copy(object, plain, alloc),
    }
}

/// Whether both tell the same of a cell.
fn agree_on<K: Tried>(
    object: &mut K,
    plain: &Plain,
    alloc: Global,
    at: At,
) -> Result<bool, NoMemory> {
    if object.get(at.cell) != plain.content(at.index, at.cell) {
        return Ok(false);
    }
    let Some(place) = plain.place(at.index) else {
        return Ok(true);
    };
    // The stamp may be asked only where a place is sure: one is made, and then it must have been there.
    let places = object.places();
    if !object.try_place(alloc, at.cell)? || object.places() != places {
        return Ok(false);
    }
    Ok(object.stamp(at.cell) == place.stamp)
}

/// Whether both tell the same, also of how many places there are: so there are no others.
fn agree<K: Tried>(
    object: &mut K,
    plain: &Plain,
    alloc: Global,
    cells: &[Cell],
) -> Result<bool, NoMemory> {
    for (index, cell) in cells.iter().enumerate() {
        if !agree_on(object, plain, alloc, At { index, cell })? {
            return Ok(false);
        }
    }
    Ok(object.places() == plain.places.len() as u64 && object.present() == plain.present() as u64)
}

/// One run, after each call of which both tell the same.
fn agree_all_along<K: Tried>(
    mut object: K,
    mut plain: Plain,
    alloc: Global,
    cells: &[Cell],
    first_seed: u32,
) -> Result<bool, NoMemory> {
    let mut seed = first_seed;
    for turn in 1000..1200u32 {
        if !step(&mut object, &mut plain, alloc, cells, &mut seed, turn)?
            || !agree(&mut object, &plain, alloc, cells)?
        {
            return Ok(false);
        }
    }
    Ok(true)
}

/// A plain object without places.
fn bare(alloc: Global, own: usize, is_row: bool) -> Plain {
    Plain {
        own,
        is_row,
        places: Vec::new(alloc),
    }
}

/// Tads-objects agree in each run.
fn check_objects(rt: &impl Abort, alloc: Global, cells: &[Cell]) -> Result<(), Fail> {
    for seed in 0..RUNS {
        let plain = bare(alloc, 6, false);
        let same = agree_all_along(TadsObject::new(alloc), plain, alloc, cells, seed)?;
        assert!(rt; same, "in run {seed}");
    }
    Ok(())
}

#[test]
fn properties_are_those_of_a_plain_list(rt: HostRuntime) -> Result<(), Fail> {
    let cells = [
        Cell::Prop(0),
        Cell::Prop(1),
        Cell::Prop(2),
        Cell::Prop(256),
        Cell::Prop(257),
        Cell::Prop(u16::MAX),
        Cell::Elem(1),
        Cell::Default,
    ];
    check_objects(&rt, rt.alloc(), &cells)
}

/// Vectors agree in each run.
fn check_vectors(rt: &impl Abort, alloc: Global, cells: &[Cell]) -> Result<(), Fail> {
    for seed in 0..RUNS {
        let plain = bare(alloc, 6, true);
        let same = agree_all_along(Vector::new(alloc), plain, alloc, cells, seed)?;
        assert!(rt; same, "in run {seed}");
    }
    Ok(())
}

#[test]
fn elements_are_those_of_a_plain_list(rt: HostRuntime) -> Result<(), Fail> {
    let cells = [
        Cell::Elem(1),
        Cell::Elem(2),
        Cell::Elem(3),
        Cell::Elem(4),
        Cell::Elem(5),
        Cell::Elem(6),
        Cell::Elem(0),
        Cell::Prop(1),
    ];
    check_vectors(&rt, rt.alloc(), &cells)
}

/// A default, five keys, and two cells that no table has.
fn cells_of_tables(alloc: Global) -> Result<[Cell; 8], NoMemory> {
    Ok([
        Cell::Default,
        Cell::Key(Key::Nil),
        Cell::Key(Key::Int(1)),
        Cell::Key(Key::Int(-1)),
        Cell::Key(Key::Obj(1)),
        Cell::Key(Key::Text(Bytes(Vec::from_slice(alloc, b"1")?))),
        Cell::Prop(1),
        Cell::Elem(1),
    ])
}

/// A plain table without entries, whose default is nil.
fn bare_table(alloc: Global) -> Result<Plain, NoMemory> {
    let mut plain = bare(alloc, 6, false);
    let nil = Some(Value {
        tick: 0,
        holder: Holder::Nil,
    });
    plain.places.push(PlainPlace {
        cell: 0,
        stamp: 0,
        value: nil,
    })?;
    Ok(plain)
}

/// Tables agree in each run.
fn check_tables(rt: &impl Abort, alloc: Global, cells: &[Cell]) -> Result<(), Fail> {
    for seed in 0..RUNS {
        let plain = bare_table(alloc)?;
        let same = agree_all_along(Table::new(alloc), plain, alloc, cells, seed)?;
        assert!(rt; same, "in run {seed}");
    }
    Ok(())
}

#[test]
fn entries_are_those_of_a_plain_list(rt: HostRuntime) -> Result<(), Fail> {
    let cells = cells_of_tables(rt.alloc())?;
    check_tables(&rt, rt.alloc(), &cells)
}

/// Whether a string agrees with a plain object that can have no place.
fn text_agrees(alloc: Global, cells: &[Cell]) -> Result<bool, NoMemory> {
    let text = Text::of(Bytes(Vec::from_slice(alloc, b"text")?));
    agree_all_along(text, bare(alloc, 0, false), alloc, cells, 1)
}

/// Whether a list does.
fn list_agrees(alloc: Global, cells: &[Cell]) -> Result<bool, NoMemory> {
    let list = List::of(Holders(Vec::from_slice(alloc, &[Holder::True])?));
    agree_all_along(list, bare(alloc, 0, false), alloc, cells, 1)
}

#[test]
fn strings_and_lists_have_no_cell_all_along(rt: HostRuntime) -> Result<(), Fail> {
    let cells = cells_of_tables(rt.alloc())?;
    assert!(rt; text_agrees(rt.alloc(), &cells)?);
    assert!(rt; list_agrees(rt.alloc(), &cells)?);
    Ok(())
}
