//! States that are put in the place of the persistent objects, and that aren't.
ghost use Rattle.t3_store.specs.Value.{new_value, HasFittingLength};

use crate::broken::add;
use crate::fixture::{
    create, empty_store, few_writes, numbers, plain, savepoint, set, three_kinds,
};
use std::alloc::Global;
use std::process::Abort;
use std::test::Fail;
use t3_holder::Holder;
use t3_store::{Admit, NewObject, Persistent, Store, StoreLimits};
use t3_undo::Cell;

/// Puts a state in the place of the persistent objects where it fits, and tells whether it does.
pub(crate) fn restore(
    store: &mut Store,
    alloc: Global,
    state: Persistent,
    next: u32,
) -> Result<Admit, Fail> {
    if next == 0 || next > 0x8000_0000 {
        return Err(Fail::from("a next number"));
    }
    let None = state.after(next - 1) else {
        return Err(Fail::from("numbers below the next"));
    };
    let None = state.first_broken(alloc)? else {
        return Err(Fail::from("a whole state"));
    };
    match store.admits(&state) {
        Admit::Fits => {
            store.replace(state, next);
            Ok(Admit::Fits)
        }
        other => Ok(other),
    }
}

/// A state of so many objects without anything, from number 1 on.
fn objects_of(alloc: Global, count: u32) -> Result<Persistent, Fail> {
    let mut state = Persistent::new(alloc);
    for number in 1..count.saturating_add(1) {
        add(&mut state, number, plain(alloc))?;
    }
    Ok(state)
}

/// A state of one list of these numbers.
pub(crate) fn list_of(alloc: Global, number: u32, items: &[i32]) -> Result<Persistent, Fail> {
    if items.len() > 65_535 {
        return Err(Fail::from("a list that fits"));
    }
    let mut state = Persistent::new(alloc);
    add(&mut state, number, NewObject::List(numbers(alloc, items)?))?;
    Ok(state)
}

/// A store with room for three objects and four units, of which a transient object with a property takes one of
/// each.
pub(crate) fn small_store(alloc: Global) -> Result<Store, Fail> {
    let mut store = empty_store(alloc, 3, 4, 8, 2)?;
    let object = create(&mut store, alloc, true)?;
    let _set = set(&mut store, object, 1, Some(1))?;
    Ok(store)
}

/// What a store tells of a state of so many objects.
fn check_objects(
    rt: &impl Abort,
    alloc: Global,
    store: &Store,
    count: u32,
    want: Admit,
) -> Result<(), Fail> {
    let state = objects_of(alloc, count)?;
    assert_eq!(rt; store.admits(&state), want);
    Ok(())
}

#[test]
fn a_state_is_full_behind_the_limit_of_objects(rt: HostRuntime) -> Result<(), Fail> {
    let store = small_store(rt.alloc())?;
    check_objects(&rt, rt.alloc(), &store, 2, Admit::Fits)?;
    check_objects(&rt, rt.alloc(), &store, 3, Admit::Full)
}

/// The number of a list and its items, and whether a state of that list alone fits.
type Row = (u32, &'static [i32], Admit);

fn check_list(rt: &impl Abort, alloc: Global, store: &Store, row: &Row) -> Result<(), Fail> {
    let (number, items, want) = *row;
    let state = list_of(alloc, number, items)?;
    assert_eq!(rt; store.admits(&state), want, "of {items:?} as {number}");
    Ok(())
}

/// Each row is so of a store.
fn check_lists(rt: &impl Abort, alloc: Global, store: &Store, rows: &[Row]) -> Result<(), Fail> {
    for row in rows {
        check_list(rt, alloc, store, row)?;
    }
    Ok(())
}

const AT_THE_LIMIT: [Row; 2] = [
    (1, &[1, 2, 3], Admit::Fits),
    (1, &[1, 2, 3, 4], Admit::Full),
];

#[test]
fn a_state_is_full_behind_the_limit_of_units(rt: HostRuntime) -> Result<(), Fail> {
    let store = small_store(rt.alloc())?;
    check_lists(&rt, rt.alloc(), &store, &AT_THE_LIMIT)
}

/// A store with room for four units, in which the object number 5 is transient.
fn store_with_passing(alloc: Global) -> Result<Store, Fail> {
    let mut passing = Persistent::new(alloc);
    add(&mut passing, 5, plain(alloc))?;
    start_with(alloc, passing)
}

/// A store with room for four units, with these transient objects.
fn start_with(alloc: Global, passing: Persistent) -> Result<Store, Fail> {
    let None = passing.after(5) else {
        return Err(Fail::from("numbers up to 5"));
    };
    let None = passing.first_broken(alloc)? else {
        return Err(Fail::from("whole objects"));
    };
    if passing.units() > 4 {
        return Err(Fail::from("few units"));
    }
    let limits = StoreLimits {
        objects: 1_048_576,
        units: 4,
        records: 8,
        savepoints: 2,
    };
    Ok(Store::start(alloc, limits, Persistent::new(alloc), passing, 6)?)
}

const BESIDE_PASSING: [Row; 4] = [
    (4, &[1, 2, 3, 4], Admit::Fits),
    (5, &[1], Admit::Clash),
    (4, &[1, 2, 3, 4, 5], Admit::Full),
    (5, &[1, 2, 3, 4, 5], Admit::Clash),
];

#[test]
fn a_clash_is_told_before_a_full_store(rt: HostRuntime) -> Result<(), Fail> {
    let store = store_with_passing(rt.alloc())?;
    check_lists(&rt, rt.alloc(), &store, &BESIDE_PASSING)
}

#[test]
fn a_state_takes_the_place_of_the_objects(rt: HostRuntime) -> Result<(), Fail> {
    let mut store = three_kinds(rt.alloc())?;
    check_passing_stays(&rt, rt.alloc(), &mut store)
}

/// A transient object keeps its property where a state takes the place of the others.
fn check_passing_stays(rt: &impl Abort, alloc: Global, store: &mut Store) -> Result<(), Fail> {
    let passing = create(store, alloc, true)?;
    assert!(rt; set(store, passing, 5, Some(7))?);
    check_restored(rt, alloc, store)?;
    assert_eq!(rt; store.get(passing, &Cell::Prop(5)), Some(Holder::Int(7)));
    Ok(())
}

/// A state of one list takes the place of all objects, over two savepoints.
fn check_restored(rt: &impl Abort, alloc: Global, store: &mut Store) -> Result<(), Fail> {
    savepoint(store)?;
    assert!(rt; set(store, 1, 5, Some(11))?);
    savepoint(store)?;
    check_list_put(rt, alloc, store)?;
    check_list_alone(rt, store)
}

/// A state of one list fits.
fn check_list_put(rt: &impl Abort, alloc: Global, store: &mut Store) -> Result<(), Fail> {
    let state = list_of(alloc, 2, &[8, 9])?;
    assert_eq!(rt; restore(store, alloc, state, 3)?, Admit::Fits);
    Ok(())
}

/// Whether an object of a store has these items.
fn has_items(store: &Store, number: u32, expected: &[Holder]) -> bool {
    store.items(number).unwrap_or(&[]) == expected
}

/// The list is there, no other persistent object, and no savepoint.
fn check_list_alone(rt: &impl Abort, store: &mut Store) -> Result<(), Fail> {
    assert!(rt; !store.live(1));
    assert!(rt; has_items(store, 2, &[Holder::Int(8), Holder::Int(9)]));
    assert!(rt; !store.live(3));
    assert_eq!(rt; store.held(), 0);
    assert_eq!(rt; store.records(), 0);
    assert!(rt; !store.undo());
    Ok(())
}

/// What number the next object has, once a state of one list was put in place with this next number.
fn next_behind(store: &mut Store, alloc: Global, next: u32) -> Result<u32, Fail> {
    let state = list_of(alloc, 1, &[1])?;
    let _fits = restore(store, alloc, state, next)?;
    Ok(create(store, alloc, false)?)
}

/// The next number of each of three states in turn, and the number that the next object has then.
const NEXT_NUMBERS: [(u32, u32); 3] = [(2, 4), (9, 9), (9, 10)];

fn check_next_numbers(
    rt: &impl Abort,
    alloc: Global,
    store: &mut Store,
    rows: &[(u32, u32)],
) -> Result<(), Fail> {
    for (next, want) in rows {
        assert_eq!(rt; next_behind(store, alloc, *next)?, *want);
    }
    Ok(())
}

#[test]
fn the_greater_next_number_stays(rt: HostRuntime) -> Result<(), Fail> {
    let mut store = three_kinds(rt.alloc())?;
    check_next_numbers(&rt, rt.alloc(), &mut store, &NEXT_NUMBERS)
}

/// A state of a list under the greatest number fits.
fn check_greatest_put(rt: &impl Abort, alloc: Global, store: &mut Store) -> Result<(), Fail> {
    let state = list_of(alloc, 0x7FFF_FFFF, &[1])?;
    assert_eq!(rt; restore(store, alloc, state, 0x8000_0000)?, Admit::Fits);
    Ok(())
}

/// No number is left for an object but a transient one.
fn check_none_left(rt: &impl Abort, alloc: Global, store: &mut Store) -> Result<(), Fail> {
    assert!(rt; create(store, alloc, false).is_err());
    assert!(rt; create(store, alloc, true).is_ok());
    Ok(())
}

#[test]
fn the_greatest_next_number_leaves_none(rt: HostRuntime) -> Result<(), Fail> {
    let mut store = empty_store(rt.alloc(), 9, 9, 8, 2)?;
    check_greatest_put(&rt, rt.alloc(), &mut store)?;
    check_none_left(&rt, rt.alloc(), &mut store)
}

/// A copy of the objects takes their place after a change.
fn check_copy_put(rt: &impl Abort, alloc: Global, store: &mut Store) -> Result<(), Fail> {
    let state = store.persistent_copy(alloc)?;
    assert!(rt; set(store, 1, 5, Some(11))?);
    assert_eq!(rt; restore(store, alloc, state, 4)?, Admit::Fits);
    Ok(())
}

/// A change behind a savepoint is undone, to what the copy had.
fn check_undone(rt: &impl Abort, store: &mut Store) -> Result<(), Fail> {
    savepoint(store)?;
    assert!(rt; set(store, 1, 5, Some(12))?);
    assert!(rt; store.undo());
    assert_eq!(rt; store.get(1, &Cell::Prop(5)), Some(Holder::Int(10)));
    few_writes(store)
}

#[test]
fn undo_goes_on_from_a_state(rt: HostRuntime) -> Result<(), Fail> {
    let mut store = three_kinds(rt.alloc())?;
    check_copy_put(&rt, rt.alloc(), &mut store)?;
    check_undone(&rt, &mut store)
}
