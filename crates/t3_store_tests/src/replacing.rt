//! A property set to another value where it is present, in both halves and over a savepoint.
use crate::fixture::{create, empty_store, few_writes, savepoint, set};
use std::alloc::Global;
use std::process::Abort;
use std::test::Fail;
use t3_holder::Holder;
use t3_lists::Holders;
use t3_store::{NewObject, Store};
use t3_undo::Cell;

/// Whether a property is set to a number in the place of another value.
fn replaces(store: &mut Store, number: u32, prop: u16, value: i32) -> Result<bool, Fail> {
    few_writes(store)?;
    Ok(store.replace_prop(number, prop, Holder::Int(value)))
}

/// A vector of one element.
fn vector(store: &mut Store, alloc: Global) -> Result<u32, Fail> {
    let items = Holders(Vec::from_elem(alloc, Holder::Int(1), 1)?);
    Ok(store.create(NewObject::Vector(items), false)?)
}

/// Replaces property 7 of an object, which has no property 8.
fn check_replaced(rt: &impl Abort, store: &mut Store, object: u32) -> Result<(), Fail> {
    let units = store.units();
    assert!(rt; replaces(store, object, 7, 2)?);
    assert!(rt; !replaces(store, object, 8, 2)?);
    assert_eq!(rt; store.get(object, &Cell::Prop(7)), Some(Holder::Int(2)));
    assert_eq!(rt; store.units(), units);
    Ok(())
}

/// A property 7 that isn't there isn't replaced, and is set.
fn check_set(rt: &impl Abort, store: &mut Store, object: u32) -> Result<(), Fail> {
    assert!(rt; !replaces(store, object, 7, 1)?);
    assert!(rt; set(store, object, 7, Some(1))?);
    Ok(())
}

/// Replaces a property of a new object of one half over a savepoint, and has this value after undo.
fn check_half(
    rt: &impl Abort,
    alloc: Global,
    store: &mut Store,
    transient: bool,
    after_undo: i32,
) -> Result<(), Fail> {
    let object = create(store, alloc, transient)?;
    check_set(rt, store, object)?;
    savepoint(store)?;
    check_replaced(rt, store, object)?;
    assert!(rt; store.undo());
    assert_eq!(rt;
        store.get(object, &Cell::Prop(7)),
        Some(Holder::Int(after_undo))
    );
    Ok(())
}

#[test]
fn a_present_property_is_replaced(rt: HostRuntime) -> Result<(), Fail> {
    let alloc = rt.alloc();
    let mut store = empty_store(alloc, 9, 9, 8, 9)?;
    check_half(&rt, alloc, &mut store, false, 1)?;
    check_half(&rt, alloc, &mut store, true, 2)
}

#[test]
fn nothing_else_has_a_property_to_replace(rt: HostRuntime) -> Result<(), Fail> {
    let mut store = empty_store(rt.alloc(), 9, 9, 8, 2)?;
    check_none_replaced(&rt, rt.alloc(), &mut store)
}

/// Neither a vector has a property to replace nor an object that isn't there.
fn check_none_replaced(rt: &impl Abort, alloc: Global, store: &mut Store) -> Result<(), Fail> {
    let vector = vector(store, alloc)?;
    assert!(rt; !replaces(store, vector, 1, 2)?);
    assert!(rt; !replaces(store, 9, 1, 2)?);
    assert_eq!(rt; store.get(vector, &Cell::Elem(1)), Some(Holder::Int(1)));
    Ok(())
}
