//! How much objects of each kind count, at the limit.
use crate::fixture::{answer, empty_store, set_element, set_key, take_last};
use std::alloc::Global;
use std::process::Abort;
use std::test::Fail;
use t3_holder::{Bytes, Holder, NoMemory};
use t3_lists::Holders;
use t3_store::{NewObject, Store};
use t3_undo::Key;

/// Room for four units.
fn small_store(alloc: Global) -> Result<Store, NoMemory> {
    empty_store(alloc, 9, 4, 8, 2)
}

/// Whether a string of these bytes is made.
fn makes_text(store: &mut Store, alloc: Global, bytes: &[u8]) -> Result<bool, Fail> {
    if bytes.len() > 65_535 {
        return Ok(false);
    }
    let text = Bytes(Vec::from_slice(alloc, bytes)?);
    match store.create(NewObject::Text(text), false) {
        Ok(_number) => Ok(true),
        Err(why) => answer(Err(why)),
    }
}

/// Whether a list or a vector of so many integers is made.
fn makes_items(store: &mut Store, alloc: Global, vector: bool, count: u16) -> Result<bool, Fail> {
    let items = Holders(Vec::from_elem(alloc, Holder::Int(1), usize::from(count))?);
    let made = if vector {
        store.create(NewObject::Vector(items), false)
    } else {
        store.create(NewObject::List(items), false)
    };
    match made {
        Ok(_number) => Ok(true),
        Err(why) => answer(Err(why)),
    }
}

#[test]
fn strings_count_their_bytes_by_eights(rt: HostRuntime) -> Result<(), Fail> {
    check_letters(&rt, rt.alloc())?;
    let mut store = small_store(rt.alloc())?;
    check_four_units(&rt, rt.alloc(), &mut store)
}

/// For seventeen letters of two bytes each there is no room.
fn check_letters(rt: &impl Abort, alloc: Global) -> Result<(), Fail> {
    let letters =
        "\u{e9}\u{e9}\u{e9}\u{e9}\u{e9}\u{e9}\u{e9}\u{e9}\u{e9}\u{e9}\u{e9}\u{e9}\u{e9}\u{e9}\u{e9}\u{e9}\u{e9}".as_bytes();
    assert!(rt; !makes_text(&mut small_store(alloc)?, alloc, letters)?);
    Ok(())
}

/// A string of 32 bytes fills a small store.
fn check_four_units(rt: &impl Abort, alloc: Global, store: &mut Store) -> Result<(), Fail> {
    assert!(rt; makes_text(store, alloc, &[b'x'; 32])?);
    assert_eq!(rt; store.units(), 4);
    assert!(rt; makes_text(store, alloc, b"")?);
    assert!(rt; !makes_text(store, alloc, b"x")?);
    Ok(())
}

#[test]
fn lists_and_vectors_count_their_elements(rt: HostRuntime) -> Result<(), Fail> {
    for vector in [false, true] {
        let mut store = small_store(rt.alloc())?;
        check_items(&rt, rt.alloc(), &mut store, vector)?;
    }
    Ok(())
}

/// A list or a vector of four elements fills a small store.
fn check_items(
    rt: &impl Abort,
    alloc: Global,
    store: &mut Store,
    vector: bool,
) -> Result<(), Fail> {
    assert!(rt; !makes_items(store, alloc, vector, 5)?);
    assert!(rt; makes_items(store, alloc, vector, 4)?);
    assert_eq!(rt; store.units(), 4);
    assert!(rt; !makes_items(store, alloc, vector, 1)?);
    Ok(())
}

#[test]
fn tables_count_their_entries(rt: HostRuntime) -> Result<(), Fail> {
    let mut store = small_store(rt.alloc())?;
    let table = create_full_table(&rt, &mut store)?;
    check_full_table(&rt, &mut store, table)
}

/// Makes a table of four entries.
fn create_full_table(rt: &impl Abort, store: &mut Store) -> Result<u32, Fail> {
    let table = store.create(NewObject::Table, false)?;
    for key in 0..4 {
        assert!(rt; set_key(store, table, Key::Int(key), Some(1))?);
    }
    Ok(table)
}

/// Of a table that fills the store a present entry is set, and one that is taken away gives its unit
/// back.
fn check_full_table(rt: &impl Abort, store: &mut Store, table: u32) -> Result<(), Fail> {
    assert!(rt; !set_key(store, table, Key::Enum(0), Some(1))?);
    assert!(rt; set_key(store, table, Key::Int(0), Some(2))?);
    assert!(rt; set_key(store, table, Key::Int(1), None)?);
    assert!(rt; set_key(store, table, Key::Enum(0), Some(1))?);
    assert_eq!(rt; store.units(), 4);
    Ok(())
}

#[test]
fn a_vector_is_emptied_and_filled_again(rt: HostRuntime) -> Result<(), Fail> {
    let mut store = small_store(rt.alloc())?;
    let vector = create_vector(&mut store, rt.alloc())?;
    check_emptied(&rt, &mut store, vector)?;
    check_filled(&rt, &mut store, vector)
}

/// Makes a vector of two elements.
fn create_vector(store: &mut Store, alloc: Global) -> Result<u32, Fail> {
    let items = Holders(Vec::from_elem(alloc, Holder::Int(1), 2)?);
    Ok(store.create(NewObject::Vector(items), false)?)
}

/// The two elements of a vector are taken away.
fn check_emptied(rt: &impl Abort, store: &mut Store, vector: u32) -> Result<(), Fail> {
    assert!(rt; take_last(store, vector)?);
    assert!(rt; take_last(store, vector)?);
    assert_eq!(rt; store.length(vector), Some(0));
    assert_eq!(rt; store.units(), 0);
    Ok(())
}

/// A vector is given four elements, and finds no room for a fifth.
fn check_filled(rt: &impl Abort, store: &mut Store, vector: u32) -> Result<(), Fail> {
    for element in 1..5 {
        assert!(rt; set_element(store, vector, element, 7)?);
    }
    assert!(rt; !set_element(store, vector, 5, 7)?);
    assert_eq!(rt; store.length(vector), Some(4));
    Ok(())
}
