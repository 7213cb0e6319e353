//! However many cells of an object were set and taken away, few have a place; and an undo gives back what stood there.
use crate::cells::{
    Cells, create, empty_store, is_bare, put_copy_back, savepoint, set, set_element, take,
};
use std::alloc::Global;
use std::process::Abort;
use std::test::Fail;
use t3_holder::Holder;
use t3_store::Store;
use t3_undo::Cell;

/// Whether an object has so many places at most.
fn has_at_most(store: &Store, number: u32, most: u64) -> bool {
    match store.places(number) {
        Some(places) => places <= most,
        None => false,
    }
}

/// So many cells, each set and taken away. Whether the object has at most so many places all along, and two more while the
/// cell is present.
fn renews(
    store: &mut Store,
    number: u32,
    cells: Cells,
    count: u32,
    most: u64,
) -> Result<bool, Fail> {
    for cell in 1..count.saturating_add(1) {
        set(store, number, cells, cell)?;
        if !has_at_most(store, number, most.saturating_add(2)) {
            return Ok(false);
        }
        take(store, number, cells, cell)?;
        if !has_at_most(store, number, most) {
            return Ok(false);
        }
    }
    Ok(true)
}

/// Three cells that come and go after a savepoint, of which so many get a record, and an undo.
fn check_few_behind(
    rt: &impl Abort,
    store: &mut Store,
    number: u32,
    cells: Cells,
    most: u64,
    records: u32,
) -> Result<(), Fail> {
    savepoint(store)?;
    assert!(rt; renews(store, number, cells, 3, most)?);
    assert_eq!(rt; store.records(), records);
    assert!(rt; store.undo());
    assert_eq!(rt; (store.units(), store.held()), (0, 0));
    Ok(())
}

/// The same after a thousand without a savepoint.
fn check_few(
    rt: &impl Abort,
    alloc: Global,
    cells: Cells,
    most: u64,
    records: u32,
) -> Result<(), Fail> {
    let mut store = empty_store(alloc, 4, 2)?;
    let number = create(&mut store, alloc, cells, false)?;
    assert!(rt; renews(&mut store, number, cells, 1_000, most)?);
    assert_eq!(rt; store.units(), 0);
    check_few_behind(rt, &mut store, number, cells, most, records)
}

/// A thousand keys of a new table come and go.
fn check_bare(rt: &impl Abort, alloc: Global, store: &mut Store) -> Result<(), Fail> {
    let table = create(store, alloc, Cells::Keys, false)?;
    assert_eq!(rt; table, 1);
    assert!(rt; renews(store, table, Cells::Keys, 1_000, 26)?);
    assert!(rt; is_bare(store, alloc, table)?);
    Ok(())
}

#[test]
fn a_table_whose_keys_came_and_went_has_no_entry(rt: HostRuntime) -> Result<(), Fail> {
    let mut store = empty_store(rt.alloc(), 4, 2)?;
    check_bare(&rt, rt.alloc(), &mut store)
}

/// A table's default is present, so it may have two places more. The elements are all one cell.
#[test]
fn cells_that_come_and_go_leave_few_places(rt: HostRuntime) -> Result<(), Fail> {
    check_few(&rt, rt.alloc(), Cells::Keys, 26, 3)?;
    check_few(&rt, rt.alloc(), Cells::Props, 24, 3)?;
    check_few(&rt, rt.alloc(), Cells::Elements, 24, 1)
}

/// A thousand properties of a new transient object come and go, and leave no record.
fn check_transient(rt: &impl Abort, alloc: Global, store: &mut Store) -> Result<(), Fail> {
    let object = create(store, alloc, Cells::Props, true)?;
    savepoint(store)?;
    assert!(rt; renews(store, object, Cells::Props, 1_000, 24)?);
    assert_eq!(rt; store.records(), 0);
    Ok(())
}

#[test]
fn a_transient_object_keeps_few_places(rt: HostRuntime) -> Result<(), Fail> {
    let mut store = empty_store(rt.alloc(), 4, 2)?;
    check_transient(&rt, rt.alloc(), &mut store)
}

/// Elements from the one number to the other, each set to its number.
fn add_elements(store: &mut Store, vector: u32, first: u32, last: u32) -> Result<(), Fail> {
    for element in first..last.saturating_add(1) {
        set_element(store, vector, element, element)?;
    }
    Ok(())
}

/// Takes elements away until so many are left. Whether the vector has few places all along, with a record limit that is
/// below 1,000.
fn shrinks(
    store: &mut Store,
    vector: u32,
    first: u32,
    left: u32,
    records: u64,
) -> Result<bool, Fail> {
    for taken in 0..first.saturating_sub(left) {
        let count = first.saturating_sub(taken).saturating_sub(1);
        take(store, vector, Cells::Elements, count)?;
        if !has_at_most(
            store,
            vector,
            2 * (u64::from(count) + records.min(1_000)) + 16,
        ) {
            return Ok(false);
        }
    }
    Ok(true)
}

/// A new vector grows by a thousand elements and shrinks to none, and by four after a savepoint, which are undone.
fn check_grown(rt: &impl Abort, alloc: Global, store: &mut Store) -> Result<(), Fail> {
    let vector = create(store, alloc, Cells::Elements, false)?;
    add_elements(store, vector, 1, 1_000)?;
    assert!(rt; shrinks(store, vector, 1_000, 0, 4)?);
    assert_eq!(rt; store.length(vector), Some(0));
    savepoint(store)?;
    add_elements(store, vector, 1, 4)?;
    assert!(rt; store.undo());
    assert_eq!(rt; store.length(vector), Some(0));
    Ok(())
}

#[test]
fn a_vector_that_grew_and_shrank_keeps_few_places(rt: HostRuntime) -> Result<(), Fail> {
    let mut store = empty_store(rt.alloc(), 4, 2)?;
    check_grown(&rt, rt.alloc(), &mut store)
}

/// Whether a vector has just these elements, each with its number.
fn counts_up(store: &Store, vector: u32, count: u32) -> bool {
    for element in 1..count.saturating_add(1) {
        let is = match store.get(vector, &Cell::Elem(element)) {
            Some(Holder::Int(value)) => i64::from(value) == i64::from(element),
            _ => false,
        };
        if !is {
            return false;
        }
    }
    store.length(vector) == Some(count)
}

/// A vector of a hundred elements loses all of them after a savepoint, the one in the middle set before.
fn check_emptied(rt: &impl Abort, store: &mut Store, vector: u32) -> Result<(), Fail> {
    savepoint(store)?;
    set_element(store, vector, 50, 7)?;
    assert!(rt; shrinks(store, vector, 100, 0, 100)?);
    assert_eq!(rt; store.records(), 100);
    Ok(())
}

/// An undo gives all of them back, and no place more.
fn check_back(rt: &impl Abort, store: &mut Store, vector: u32) -> Result<(), Fail> {
    assert!(rt; store.undo());
    assert!(rt; counts_up(store, vector, 100));
    assert_eq!(rt; store.places(vector), Some(100));
    assert!(rt; !store.undo());
    Ok(())
}

/// Element 50 is put back behind those around it, so that it is missing below others meanwhile.
#[test]
fn a_vector_comes_back_over_holes(rt: HostRuntime) -> Result<(), Fail> {
    let alloc = rt.alloc();
    let mut store = empty_store(alloc, 100, 2)?;
    let vector = create(&mut store, alloc, Cells::Elements, false)?;
    add_elements(&mut store, vector, 1, 400)?;
    assert!(rt; shrinks(&mut store, vector, 400, 100, 100)?);
    check_emptied(&rt, &mut store, vector)?;
    check_back(&rt, &mut store, vector)
}

/// Adds four keys after a savepoint, each of which has a place.
fn check_keys_added(rt: &impl Abort, store: &mut Store, table: u32) -> Result<(), Fail> {
    savepoint(store)?;
    for key in 101..105 {
        set(store, table, Cells::Keys, key)?;
    }
    assert_eq!(rt; store.places(table), Some(30));
    Ok(())
}

/// Each of the new keys has a record until the undo; then the places are more than there may be.
fn check_undone(rt: &impl Abort, alloc: Global, store: &mut Store) -> Result<(), Fail> {
    let table = create(store, alloc, Cells::Keys, false)?;
    assert!(rt; renews(store, table, Cells::Keys, 25, 26)?);
    assert_eq!(rt; store.places(table), Some(26));
    check_keys_added(rt, store, table)?;
    assert!(rt; store.undo());
    assert!(rt; has_at_most(store, table, 26));
    assert!(rt; is_bare(store, alloc, table)?);
    Ok(())
}

#[test]
fn an_undo_takes_empty_places_away(rt: HostRuntime) -> Result<(), Fail> {
    let mut store = empty_store(rt.alloc(), 4, 2)?;
    check_undone(&rt, rt.alloc(), &mut store)
}

/// Keys set and taken away, with a savepoint before each thousand.
fn comes_and_goes(store: &mut Store, table: u32, count: u32) -> Result<bool, Fail> {
    for key in 0..count {
        if key % 1_000 == 0 {
            savepoint(store)?;
        }
        set(store, table, Cells::Keys, key)?;
        take(store, table, Cells::Keys, key)?;
        if !has_at_most(store, table, 2_018) {
            return Ok(false);
        }
    }
    Ok(true)
}

/// A hundred thousand keys of a new table come and go, and there is an undo.
fn check_long_play(rt: &impl Abort, alloc: Global, store: &mut Store) -> Result<(), Fail> {
    let table = create(store, alloc, Cells::Keys, false)?;
    assert!(rt; comes_and_goes(store, table, 100_000)?);
    assert!(rt; store.undo());
    assert!(rt; is_bare(store, alloc, table)?);
    Ok(())
}

#[test]
fn a_long_play_keeps_few_places(rt: HostRuntime) -> Result<(), Fail> {
    let mut store = empty_store(rt.alloc(), 1_000, 128)?;
    check_long_play(&rt, rt.alloc(), &mut store)
}

/// Of two keys the one that is taken away keeps its place.
fn check_taken(rt: &impl Abort, store: &mut Store, table: u32) -> Result<(), Fail> {
    set(store, table, Cells::Keys, 1)?;
    set(store, table, Cells::Keys, 2)?;
    take(store, table, Cells::Keys, 2)?;
    assert_eq!(rt; store.places(table), Some(3));
    Ok(())
}

/// And so does one that an undo takes away.
fn check_key_undone(rt: &impl Abort, store: &mut Store, table: u32) -> Result<(), Fail> {
    savepoint(store)?;
    set(store, table, Cells::Keys, 3)?;
    assert_eq!(rt; store.places(table), Some(4));
    assert!(rt; store.undo());
    assert_eq!(rt; store.places(table), Some(4));
    Ok(())
}

/// There are none where there is no object. A new table has its default's; a key that is gone keeps its own while there
/// are few.
#[test]
fn the_places_of_a_table_are_counted(rt: HostRuntime) -> Result<(), Fail> {
    let alloc = rt.alloc();
    let mut store = empty_store(alloc, 4, 2)?;
    assert_eq!(rt; store.places(1), None);
    let table = create(&mut store, alloc, Cells::Keys, false)?;
    assert_eq!(rt; store.places(table), Some(1));
    check_taken(&rt, &mut store, table)?;
    check_key_undone(&rt, &mut store, table)
}

/// A table of one key, beside nine that came and went, is put back.
fn check_put_back(rt: &impl Abort, alloc: Global, store: &mut Store) -> Result<(), Fail> {
    let table = create(store, alloc, Cells::Keys, false)?;
    assert!(rt; renews(store, table, Cells::Keys, 9, 26)?);
    set(store, table, Cells::Keys, 10)?;
    assert_eq!(rt; store.places(table), Some(11));
    assert!(rt; put_copy_back(store, alloc)?);
    assert_eq!(rt; store.places(table), Some(2));
    Ok(())
}

/// A copy has a place for each present cell alone.
#[test]
fn a_state_that_is_put_back_has_no_empty_place(rt: HostRuntime) -> Result<(), Fail> {
    let mut store = empty_store(rt.alloc(), 4, 2)?;
    check_put_back(&rt, rt.alloc(), &mut store)
}

/// As many empty places as there may be stay.
#[test]
fn the_places_of_a_transient_object_are_counted(rt: HostRuntime) -> Result<(), Fail> {
    let alloc = rt.alloc();
    let mut store = empty_store(alloc, 4, 2)?;
    let passing = create(&mut store, alloc, Cells::Props, true)?;
    assert!(rt; renews(&mut store, passing, Cells::Props, 24, 24)?);
    assert_eq!(rt; store.places(passing), Some(24));
    Ok(())
}

/// A vector that is made behind a savepoint keeps the place of an element that is taken away, until it is undone.
fn check_made(rt: &impl Abort, alloc: Global, store: &mut Store) -> Result<(), Fail> {
    savepoint(store)?;
    let vector = create(store, alloc, Cells::Elements, false)?;
    add_elements(store, vector, 1, 3)?;
    take(store, vector, Cells::Elements, 3)?;
    assert_eq!(rt; store.places(vector), Some(3));
    assert!(rt; store.undo());
    assert_eq!(rt; store.places(vector), None);
    Ok(())
}

#[test]
fn what_was_made_since_a_savepoint_has_no_places(rt: HostRuntime) -> Result<(), Fail> {
    let mut store = empty_store(rt.alloc(), 4, 2)?;
    check_made(&rt, rt.alloc(), &mut store)
}
