//! The store as a whole, on small worked cases.

use crate::fixture::{
    create, empty_store, has_letters, has_numbers, overwrite, plain, savepoint, set, set_element,
    set_key, set_letters, take_last, three_kinds, value,
};
use std::alloc::Global;
use std::process::Abort;
use std::test::Fail;
use t3_holder::{Bytes, NoMemory};
use t3_store::{NewObject, Persistent, Store, StoreRefusal};
use t3_undo::{Cell, Key};

/// Changes each of the three.
fn change(store: &mut Store, alloc: Global) -> Result<bool, Fail> {
    let props = set(store, 1, 5, Some(11))? && set(store, 1, 5, Some(12))?;
    let elements = take_last(store, 2)? && take_last(store, 2)? && set_element(store, 2, 2, 9)?;
    let entries = [(b'a', None), (b'c', Some(3)), (b'a', Some(4))];
    Ok(props && elements && set_letters(store, alloc, 3, &entries)?)
}

#[test]
fn all_kinds_change(rt: HostRuntime) -> Result<(), Fail> {
    let mut store = three_kinds(rt.alloc())?;
    check_change(&rt, rt.alloc(), &mut store)?;
    check_changed(&rt, rt.alloc(), &store)
}

/// The three change behind a savepoint.
fn check_change(rt: &impl Abort, alloc: Global, store: &mut Store) -> Result<(), Fail> {
    savepoint(store)?;
    assert!(rt; change(store, alloc)?);
    Ok(())
}

/// The three are as `change` left them.
fn check_changed(rt: &impl Abort, alloc: Global, store: &Store) -> Result<(), Fail> {
    assert_eq!(rt; store.records(), 5);
    assert!(rt; has_numbers(store, 2, &[1, 9]));
    assert!(rt; has_letters(store, alloc, 3, &[(b'b', 2), (b'c', 3), (b'a', 4)])?);
    Ok(())
}

#[test]
fn all_kinds_come_back(rt: HostRuntime) -> Result<(), Fail> {
    let mut store = three_kinds(rt.alloc())?;
    check_change(&rt, rt.alloc(), &mut store)?;
    check_undone(&rt, rt.alloc(), &mut store)
}

/// An undo takes all of the changes back, and a second one finds no savepoint.
fn check_undone(rt: &impl Abort, alloc: Global, store: &mut Store) -> Result<(), Fail> {
    assert!(rt; store.undo());
    check_as_made(rt, alloc, store)?;
    assert!(rt; !store.undo());
    Ok(())
}

/// The three are as they were made, and no savepoint is held.
fn check_as_made(rt: &impl Abort, alloc: Global, store: &Store) -> Result<(), Fail> {
    assert_eq!(rt; value(store, 1, &Cell::Prop(5)), Some(10));
    assert!(rt; has_numbers(store, 2, &[1, 2, 3]));
    assert!(rt; has_letters(store, alloc, 3, &[(b'a', 1), (b'b', 2)])?);
    assert_eq!(rt; store.held(), 0);
    Ok(())
}

#[test]
fn what_was_made_since_goes_and_transient_objects_stay(rt: HostRuntime) -> Result<(), Fail> {
    let mut store = empty_store(rt.alloc(), 9, 9, 8, 2)?;
    check_made(&rt, rt.alloc(), &mut store)?;
    check_gone(&rt, rt.alloc(), &mut store)
}

/// An object is made before a savepoint, and two behind it.
fn check_made(rt: &impl Abort, alloc: Global, store: &mut Store) -> Result<(), Fail> {
    assert_eq!(rt; create(store, alloc, false)?, 1);
    savepoint(store)?;
    make_both(rt, alloc, store)
}

/// By an undo the second one goes, and its number isn't given again.
fn check_gone(rt: &impl Abort, alloc: Global, store: &mut Store) -> Result<(), Fail> {
    assert!(rt; store.undo());
    check_transient_alone(rt, store)?;
    assert_eq!(rt; create(store, alloc, false)?, 3);
    Ok(())
}

/// The first transient number.
const TRANSIENT: u32 = 2_147_483_648;

/// Makes a second persistent object, and a transient one whose property 5 is 7.
fn make_both(rt: &impl Abort, alloc: Global, store: &mut Store) -> Result<(), Fail> {
    assert_eq!(rt; create(store, alloc, false)?, 2);
    assert_eq!(rt; create(store, alloc, true)?, TRANSIENT);
    assert!(rt; set(store, TRANSIENT, 5, Some(7))?);
    Ok(())
}

/// Of these two the transient one is there, as it was made.
fn check_transient_alone(rt: &impl Abort, store: &Store) -> Result<(), Fail> {
    assert!(rt; !store.live(2));
    assert!(rt; store.is_transient(TRANSIENT));
    assert_eq!(rt; value(store, TRANSIENT, &Cell::Prop(5)), Some(7));
    Ok(())
}

#[test]
fn one_savepoint_may_outgrow_the_journal(rt: HostRuntime) -> Result<(), Fail> {
    let mut store = empty_store(rt.alloc(), 9, 9, 2, 128)?;
    let object = create_and_fill(&rt, rt.alloc(), &mut store)?;
    check_outgrown(&rt, &mut store, object)
}

/// Makes an object, and fills the journal behind a savepoint.
fn create_and_fill(rt: &impl Abort, alloc: Global, store: &mut Store) -> Result<u32, Fail> {
    let object = create(store, alloc, false)?;
    savepoint(store)?;
    fill_journal(rt, store, object)?;
    Ok(object)
}

/// Makes two records, and none for a cell that has one.
fn fill_journal(rt: &impl Abort, store: &mut Store, object: u32) -> Result<(), Fail> {
    assert!(rt; set(store, object, 1, Some(1))?);
    assert!(rt; set(store, object, 2, Some(2))?);
    overwrite(store, object, Cell::Prop(2), 3)?;
    assert_eq!(rt; store.records(), 2);
    Ok(())
}

/// A further change costs the savepoint, and stands.
fn check_outgrown(rt: &impl Abort, store: &mut Store, object: u32) -> Result<(), Fail> {
    assert!(rt; set(store, object, 3, Some(4))?);
    assert_eq!(rt; store.held(), 0);
    assert_eq!(rt; store.records(), 0);
    assert!(rt; !store.undo());
    assert_eq!(rt; value(store, object, &Cell::Prop(3)), Some(4));
    Ok(())
}

#[test]
fn nothing_is_noted_after_the_last_drop_until_a_savepoint(rt: HostRuntime) -> Result<(), Fail> {
    let mut store = empty_store(rt.alloc(), 9, 9, 2, 128)?;
    let object = create_and_fill(&rt, rt.alloc(), &mut store)?;
    check_not_noted(&rt, &mut store, object)?;
    check_noted_once(&rt, &mut store, object)
}

/// The change that cost the savepoint left none: nothing is noted.
fn check_not_noted(rt: &impl Abort, store: &mut Store, object: u32) -> Result<(), Fail> {
    check_outgrown(rt, store, object)?;
    overwrite(store, object, Cell::Prop(3), 5)?;
    assert_eq!(rt; (store.held(), store.records()), (0, 0));
    Ok(())
}

/// Behind a further savepoint, property 3 is noted at its first change and not at its second.
fn check_noted_once(rt: &impl Abort, store: &mut Store, object: u32) -> Result<(), Fail> {
    savepoint(store)?;
    overwrite(store, object, Cell::Prop(3), 6)?;
    overwrite(store, object, Cell::Prop(3), 7)?;
    assert_eq!(rt; (store.held(), store.records()), (1, 1));
    assert!(rt; store.undo());
    assert_eq!(rt; value(store, object, &Cell::Prop(3)), Some(5));
    Ok(())
}

#[test]
fn a_change_that_drops_the_oldest_is_noted_once(rt: HostRuntime) -> Result<(), Fail> {
    let mut store = empty_store(rt.alloc(), 9, 9, 2, 128)?;
    let object = create_and_fill(&rt, rt.alloc(), &mut store)?;
    check_first_noted(&rt, &mut store, object)?;
    check_second_noted(&rt, &mut store, object)?;
    check_both_changes(&rt, &mut store, object)
}

/// Behind a second savepoint the first change of property 1 costs the other one, and is noted alone.
fn check_first_noted(rt: &impl Abort, store: &mut Store, object: u32) -> Result<(), Fail> {
    savepoint(store)?;
    for number in [4, 5] {
        overwrite(store, object, Cell::Prop(1), number)?;
        assert_eq!(rt; (store.held(), store.records()), (1, 1));
    }
    Ok(())
}

/// Property 2 was noted for the savepoint that went, and is noted again.
fn check_second_noted(rt: &impl Abort, store: &mut Store, object: u32) -> Result<(), Fail> {
    overwrite(store, object, Cell::Prop(2), 6)?;
    assert_eq!(rt; (store.held(), store.records()), (1, 2));
    Ok(())
}

/// An undo takes both properties back to what they were at the savepoint.
fn check_both_changes(rt: &impl Abort, store: &mut Store, object: u32) -> Result<(), Fail> {
    assert!(rt; store.undo() && !store.undo());
    assert_eq!(rt; value(store, object, &Cell::Prop(1)), Some(1));
    assert_eq!(rt; value(store, object, &Cell::Prop(2)), Some(3));
    Ok(())
}

/// Sets property 5 to 1, 2 and 3, each behind a savepoint of its own.
fn overwrite_behind_savepoints(store: &mut Store, object: u32) -> Result<(), Fail> {
    for value in 1..4 {
        savepoint(store)?;
        overwrite(store, object, Cell::Prop(5), value)?;
    }
    Ok(())
}

#[test]
fn a_further_savepoint_drops_the_oldest(rt: HostRuntime) -> Result<(), Fail> {
    let mut store = empty_store(rt.alloc(), 9, 9, 3, 2)?;
    let object = create_with_zero(&rt, rt.alloc(), &mut store)?;
    overwrite_behind_savepoints(&mut store, object)?;
    check_two_savepoints(&rt, &mut store, object)
}

/// Makes an object whose property 5 is 0.
fn create_with_zero(rt: &impl Abort, alloc: Global, store: &mut Store) -> Result<u32, Fail> {
    let object = create(store, alloc, false)?;
    assert!(rt; set(store, object, 5, Some(0))?);
    Ok(object)
}

/// Two savepoints are held, before the change to 3 and before that to 2.
fn check_two_savepoints(rt: &impl Abort, store: &mut Store, object: u32) -> Result<(), Fail> {
    assert_eq!(rt; (store.held(), store.records()), (2, 2));
    assert!(rt; store.undo());
    assert_eq!(rt; value(store, object, &Cell::Prop(5)), Some(2));
    assert!(rt; store.undo());
    assert!(rt; !store.undo());
    assert_eq!(rt; value(store, object, &Cell::Prop(5)), Some(1));
    Ok(())
}

#[test]
fn limits_are_reached_and_not_passed(rt: HostRuntime) -> Result<(), Fail> {
    let mut store = empty_store(rt.alloc(), 1, 1, 8, 2)?;
    let object = create_only(&rt, rt.alloc(), &mut store)?;
    check_one_unit(&rt, &mut store, object)
}

/// Makes an object, for which alone there is room.
fn create_only(rt: &impl Abort, alloc: Global, store: &mut Store) -> Result<u32, Fail> {
    let object = create(store, alloc, false)?;
    assert!(rt; create(store, alloc, true) == Err(StoreRefusal::Full));
    assert_eq!(rt; store.objects(), 1);
    Ok(object)
}

/// Of two properties there is room for one.
fn check_one_unit(rt: &impl Abort, store: &mut Store, object: u32) -> Result<(), Fail> {
    assert!(rt; set(store, object, 1, Some(1))?);
    assert!(rt; !set(store, object, 2, Some(2))?);
    assert!(rt; set(store, object, 1, None)?);
    assert!(rt; set(store, object, 2, Some(2))?, "a unit was given back");
    Ok(())
}

/// A key of so many bytes.
fn long_key(alloc: Global, length: usize) -> Result<Key, NoMemory> {
    let bytes = Vec::from_elem(alloc, b'k', length)?;
    Ok(Key::Text(Bytes(bytes)))
}

/// How long each of three keys is, and how many units there are with it and those before it.
const KEYS: [(usize, u32); 3] = [(0, 1), (8, 3), (9, 6)];

#[test]
fn keys_count_by_eight_bytes(rt: HostRuntime) -> Result<(), Fail> {
    let mut store = empty_store(rt.alloc(), 9, 6, 8, 2)?;
    check_keys(&rt, rt.alloc(), &mut store, &KEYS)
}

/// A new table counts so with these keys, which fill the store.
fn check_keys(
    rt: &impl Abort,
    alloc: Global,
    store: &mut Store,
    rows: &[(usize, u32)],
) -> Result<(), Fail> {
    let table = store.create(NewObject::Table, false)?;
    for (length, units) in rows {
        assert_eq!(rt; units_with_key(store, alloc, table, *length)?, Some(*units));
    }
    assert!(rt; !set_key(store, table, Key::Nil, Some(1))?);
    Ok(())
}

/// How many units there are with an entry more, under a key of so many bytes, if there is room.
fn units_with_key(
    store: &mut Store,
    alloc: Global,
    table: u32,
    length: usize,
) -> Result<Option<u32>, Fail> {
    if !set_key(store, table, long_key(alloc, length)?, Some(1))? {
        return Ok(None);
    }
    Ok(Some(store.units()))
}

/// Adds an object without anything under a number that isn't there.
fn add(objects: &mut Persistent, alloc: Global, number: u32) -> Result<(), Fail> {
    if number == 0 || number > 0x7FFF_FFFF {
        return Err(Fail::from("a persistent number"));
    }
    let None = objects.kind(number) else {
        return Err(Fail::from("a new number"));
    };
    Ok(objects.add(number, plain(alloc))?)
}

/// Adds the object with the greatest number, and then the one with the least.
fn add_two(objects: &mut Persistent, alloc: Global) -> Result<(), Fail> {
    add(objects, alloc, 2_147_483_647)?;
    add(objects, alloc, 1)
}

/// They come by rising number, in a copy too.
fn check_two(rt: &impl Abort, alloc: Global, objects: &Persistent) -> Result<(), Fail> {
    assert_eq!(rt; objects.after(0), Some(1));
    assert_eq!(rt; objects.after(1), Some(2_147_483_647));
    assert_eq!(rt; objects.copy(alloc)?.after(2_147_483_647), None);
    Ok(())
}

#[test]
fn numbers_come_in_any_order(rt: HostRuntime) -> Result<(), Fail> {
    let mut objects = Persistent::new(rt.alloc());
    add_two(&mut objects, rt.alloc())?;
    check_two(&rt, rt.alloc(), &objects)
}
