//! Calls that want memory, made again where it was wanting: nothing has changed, and the answer
//! comes then.
use crate::fixture::{LIST, LIVE_TEXT, NEXT, TABLE, TEXT, Want, is_wanted, pools, store};
use std::alloc::Global;
use std::test::Fail;
use t3_holder::{Holder, NoMemory};
use t3_ops::{
    OpRefusal, index, list_with_element, new_string, new_vector, pure_at, pure_builtin, sum,
};
use t3_pools::Pools;
use t3_store::Store;

/// The operations of these tests, by a number.
fn operation(
    alloc: Global,
    which: u8,
    store: &mut Store,
    pools: &Pools,
) -> Result<Holder, OpRefusal> {
    let two = Holder::Int(2);
    match which {
        0 => sum(alloc, TEXT, LIVE_TEXT, store, pools),
        1 => sum(alloc, TEXT, two, store, pools),
        2 => sum(alloc, LIST, LIST, store, pools),
        3 => list_with_element(alloc, LIST, two, two, store, pools),
        _ => copies(alloc, two, store, pools),
    }
}

/// `makeString` of a text.
fn copies(
    alloc: Global,
    count: Holder,
    store: &mut Store,
    pools: &Pools,
) -> Result<Holder, OpRefusal> {
    match pure_at(20) {
        Some(_) => pure_builtin(alloc, 20, &[TEXT, count], store, pools),
        None => Err(OpRefusal::Full),
    }
}

/// An operation by its number, and what is wanted of it.
type Row = (u8, Want);

const ROWS: [Row; 5] = [
    (0, Want::Text(b"abcd")),
    (1, Want::Text(b"ab2")),
    (
        2,
        Want::List(&[Holder::Int(1), Holder::Nil, Holder::Int(1), Holder::Nil]),
    ),
    (3, Want::List(&[Holder::Int(1), Holder::Int(2)])),
    (4, Want::Text(b"abab")),
];

/// Whether an operation answers what is wanted, in a store of its own: at once, or the second time where
/// memory was wanting and nothing had changed.
fn is_made_again(alloc: Global, which: u8, want: Want, pools: &Pools) -> Result<bool, Fail> {
    let mut store = store(alloc)?;
    let units = store.units();
    let answer = operation(alloc, which, &mut store, pools);
    if answer != Err(OpRefusal::NoMemory) {
        return Ok(is_wanted(want, answer, &store));
    }
    if store.next() != NEXT || store.units() != units {
        return Ok(false);
    }
    let again = operation(alloc, which, &mut store, pools);
    Ok(is_wanted(want, again, &store))
}

/// The first operation that isn't made so.
fn first_unlike(alloc: Global, rows: &[Row]) -> Result<Option<u8>, Fail> {
    let pools = pools(alloc)?;
    for (which, want) in rows {
        if !is_made_again(alloc, *which, *want, &pools)? {
            return Ok(Some(*which));
        }
    }
    Ok(None)
}

#[test]
fn an_operation_is_made_again(rt: HostRuntime) -> Result<(), Fail> {
    assert_eq!(rt; first_unlike(rt.alloc(), &ROWS)?, None);
    Ok(())
}

/// Whether a string is made of a text.
fn makes_string(alloc: Global, store: &Store, pools: &Pools) -> Result<bool, NoMemory> {
    Ok(new_string(alloc, &[TEXT], store, pools)?.is_ok())
}

/// Whether a vector is made of a list.
fn makes_vector(alloc: Global, store: &Store, pools: &Pools) -> Result<bool, NoMemory> {
    Ok(new_vector(alloc, &[Holder::Int(0), LIST], store, pools)?.is_ok())
}

/// What is looked up of the fixture's table by a text, and made of the fixture's values.
fn look(alloc: Global, store: &Store, pools: &Pools) -> Result<bool, NoMemory> {
    let found = index(alloc, TABLE, TEXT, store, pools)?;
    let has_string = makes_string(alloc, store, pools)?;
    let has_vector = makes_vector(alloc, store, pools)?;
    Ok(found == Ok(Holder::True) && has_string && has_vector)
}

/// The same, and once more where memory was wanting.
fn look_again(alloc: Global, store: &Store, pools: &Pools) -> Result<bool, NoMemory> {
    let looked = look(alloc, store, pools);
    if looked.is_err() {
        return look(alloc, store, pools);
    }
    looked
}

#[test]
fn a_look_is_made_again(rt: HostRuntime) -> Result<(), Fail> {
    let alloc = rt.alloc();
    let pools = pools(alloc)?;
    let store = store(alloc)?;
    assert!(rt; look_again(alloc, &store, &pools)?);
    Ok(())
}
