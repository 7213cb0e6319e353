//! How many writes and savepoints a store counts.
use crate::fixture::{create, empty_store, savepoint, set};
use crate::restoring::{list_of, restore, small_store};
use std::alloc::Global;
use std::process::Abort;
use std::test::Fail;
use t3_store::{Admit, Store};

/// Each write counts, also one that changes nothing. One that the store is full for doesn't, nor does an object that
/// is made.
fn check_writes(rt: &impl Abort, alloc: Global, store: &mut Store) -> Result<(), Fail> {
    assert_eq!(rt; store.writes(), 1);
    let object = create(store, alloc, false)?;
    assert!(rt; set(store, object, 2, None)?);
    for property in 2..5 {
        assert!(rt; set(store, object, property, Some(0))?);
    }
    assert!(rt; !set(store, object, 5, Some(0))?);
    assert_eq!(rt; store.writes(), 5);
    Ok(())
}

#[test]
fn each_write_is_counted(rt: HostRuntime) -> Result<(), Fail> {
    let mut store = small_store(rt.alloc())?;
    check_writes(&rt, rt.alloc(), &mut store)
}

/// Each savepoint counts, also one that takes another's room, and an undo takes none off.
fn check_savepoints(rt: &impl Abort, store: &mut Store) -> Result<(), Fail> {
    assert_eq!(rt; store.marks(), 0);
    for _ in 0..3 {
        savepoint(store)?;
    }
    assert!(rt; store.undo());
    assert_eq!(rt; (store.marks(), store.held()), (3, 1));
    Ok(())
}

#[test]
fn each_savepoint_is_counted(rt: HostRuntime) -> Result<(), Fail> {
    let mut store = small_store(rt.alloc())?;
    check_savepoints(&rt, &mut store)
}

/// Once a state of a list of three items takes the place of the objects, its units are at least as many as the writes.
fn check_state(rt: &impl Abort, alloc: Global, store: &mut Store, want: u64) -> Result<(), Fail> {
    let state = list_of(alloc, 1, &[1, 2, 3])?;
    assert_eq!(rt; restore(store, alloc, state, 2)?, Admit::Fits);
    assert_eq!(rt; store.writes(), want);
    Ok(())
}

#[test]
fn a_state_raises_the_writes_to_its_units(rt: HostRuntime) -> Result<(), Fail> {
    let mut store = empty_store(rt.alloc(), 9, 9, 8, 2)?;
    check_state(&rt, rt.alloc(), &mut store, 3)
}

#[test]
fn a_state_leaves_more_writes(rt: HostRuntime) -> Result<(), Fail> {
    let mut store = small_store(rt.alloc())?;
    check_writes(&rt, rt.alloc(), &mut store)?;
    check_state(&rt, rt.alloc(), &mut store, 5)
}
