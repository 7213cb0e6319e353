//! What is made of values in a store that has no room for it.
ghost use Rattle.std.specs.Prelude.{IfOk};
ghost use Rattle.t3_ops.specs.Making.{CanBeCreated};

use crate::creating::create;
use crate::fixture::{EMPTY_TEXT, TEXT, empty_store, pools};
use std::alloc::Global;
use std::process::Abort;
use std::test::Fail;
use t3_holder::Holder;
use t3_ops::{Fault, new_list, new_string, new_table, new_vector};
use t3_pools::Pools;
use t3_store::{NewObject, Store, StoreRefusal};

/// Whether a store has no room for the object.
fn is_full(store: &mut Store, made: Result<NewObject, Fault>) -> bool
    requires { IfOk made CanBeCreated }
{
    matches!(create(store, made, false), Err(StoreRefusal::Full))
}

/// Whether a store has no room for the string of a text.
fn refuses_string(
    alloc: Global,
    text: Holder,
    store: &mut Store,
    pools: &Pools,
) -> Result<bool, Fail> {
    let made = new_string(alloc, &[text], store, pools)?;
    Ok(is_full(store, made))
}

/// Whether it has none for a list of nil.
fn refuses_list(alloc: Global, store: &mut Store) -> Result<bool, Fail> {
    let made = new_list(alloc, &[Holder::Nil])?;
    Ok(is_full(store, made))
}

/// Whether it has none for a vector of nil.
fn refuses_vector(alloc: Global, store: &mut Store, pools: &Pools) -> Result<bool, Fail> {
    let made = new_vector(alloc, &[Holder::Int(0), Holder::Int(1)], store, pools)?;
    Ok(is_full(store, made))
}

/// There is no room for a string, for a list and for a vector that have some unit.
fn check_units(
    rt: &impl Abort,
    alloc: Global,
    store: &mut Store,
    pools: &Pools,
) -> Result<(), Fail> {
    assert!(rt; refuses_string(alloc, TEXT, store, pools)?);
    assert!(rt; refuses_list(alloc, store)?);
    assert!(rt; refuses_vector(alloc, store, pools)?);
    Ok(())
}

/// There is room for a table, and then for no object.
fn check_objects(
    rt: &impl Abort,
    alloc: Global,
    store: &mut Store,
    pools: &Pools,
) -> Result<(), Fail> {
    assert_eq!(rt; create(store, new_table(&[]), false)?, Ok(1));
    assert!(rt; is_full(store, new_table(&[])));
    assert!(rt; refuses_string(alloc, EMPTY_TEXT, store, pools)?);
    Ok(())
}

#[test]
fn a_full_store_takes_no_object(rt: HostRuntime) -> Result<(), Fail> {
    let alloc = rt.alloc();
    let pools = pools(alloc)?;
    // Room for an object, but for no unit.
    let mut store = empty_store(alloc, 1, 0)?;
    check_units(&rt, alloc, &mut store, &pools)?;
    check_objects(&rt, alloc, &mut store, &pools)
}
