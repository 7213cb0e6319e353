//! Methods at a store that is full before they are through: what comes before stays.
ghost use Rattle.std.specs.Prelude.{◌≤◌};

use crate::fixture::{TEXT, add_vector, call, empty_store, has_elements, pools, set_key};
use crate::tables::KEYS;
use crate::vectors::SET_LENGTH;
use std::alloc::Global;
use std::test::Fail;
use t3_holder::{Bytes, Holder};
use t3_kinds::Methods;
use t3_ops::OpRefusal;
use t3_store::{NewObject, Store};
use t3_undo::Key;

/// A store of two objects, the second a table of two texts, which has room for so many objects.
fn table_store(alloc: Global, objects: u32) -> Result<Store, Fail>
    requires { objects ≤ 1048576 }
{
    let mut store = empty_store(alloc, objects, 100)?;
    let _first = add_vector(alloc, &mut store, &[])?;
    let table = store.create(NewObject::Table, false)?;
    let one = Key::Text(Bytes(Vec::from_slice(alloc, b"one")?));
    set_key(&mut store, table, one, Holder::Nil)?;
    let two = Key::Text(Bytes(Vec::from_slice(alloc, b"two")?));
    set_key(&mut store, table, two, Holder::Nil)?;
    Ok(store)
}

/// What a method answers.
type Answer = Result<Holder, OpRefusal>;

const FULL: Answer = Err(OpRefusal::Full);

/// What listing the keys of that table answers, whether the last object is a string of these bytes then, and
/// how many objects there are.
fn keys_listed(alloc: Global, objects: u32, bytes: &[u8]) -> Result<(Answer, bool, u32), Fail>
    requires { objects ≤ 1048576 }
{
    let pools = pools(alloc)?;
    let mut store = table_store(alloc, objects)?;
    let answer = call(alloc, KEYS, Holder::Obj(2), &[], &mut store, &pools)?;
    let stays = store.text(objects) == Some(bytes);
    Ok((answer, stays, store.objects()))
}

#[test]
fn the_first_strings_stay(rt: HostRuntime) -> Result<(), Fail> {
    assert_eq!(rt; keys_listed(rt.alloc(), 3, b"one")?, (FULL, true, 3));
    Ok(())
}

#[test]
fn all_strings_stay(rt: HostRuntime) -> Result<(), Fail> {
    assert_eq!(rt; keys_listed(rt.alloc(), 4, b"two")?, (FULL, true, 4));
    Ok(())
}

/// What setting the length of a vector of a text to 5 answers in a store with room for three elements, and whether
/// the vector has two nils more then.
fn length_set(alloc: Global) -> Result<(Answer, bool), Fail> {
    let pools = pools(alloc)?;
    let mut store = empty_store(alloc, 10, 3)?;
    let vector = add_vector(alloc, &mut store, &[TEXT])?;
    let five = [Holder::Int(5)];
    let answer = call(alloc, SET_LENGTH, vector, &five, &mut store, &pools)?;
    let stays = has_elements(&store, vector, &[TEXT, Holder::Nil, Holder::Nil]);
    Ok((answer, stays))
}

#[test]
fn the_first_elements_stay(rt: HostRuntime) -> Result<(), Fail> {
    assert_eq!(rt; length_set(rt.alloc())?, (FULL, true));
    Ok(())
}

/// What making a list of a vector answers in a store with room for no further object, and how many objects there are
/// then.
fn list_made(alloc: Global) -> Result<(Answer, u32), Fail> {
    let pools = pools(alloc)?;
    let mut store = empty_store(alloc, 1, 100)?;
    let vector = add_vector(alloc, &mut store, &[TEXT])?;
    let answer = call(alloc, (Methods::Vector, 0), vector, &[], &mut store, &pools)?;
    Ok((answer, store.objects()))
}

#[test]
fn a_full_store_makes_no_list(rt: HostRuntime) -> Result<(), Fail> {
    assert_eq!(rt; list_made(rt.alloc())?, (FULL, 1));
    Ok(())
}
