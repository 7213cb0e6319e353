//! Objects of each kind in a map of their own: what its calls give, and equal copies of it.
ghost use Rattle.std.specs.Prelude.{◌≡◌, length, IfOk};
ghost use Rattle.t3_store.specs.Value.{new_value, HasFittingLength};

use crate::broken::add;
use crate::fixture::{empty_store, numbers, plain};
use crate::restoring::restore;
use std::alloc::Global;
use std::process::Abort;
use std::test::Fail;
use t3_holder::{Bytes, Holder, NoMemory};
use t3_store::{Admit, Kind, NewObject, ObjectsRef, Persistent, Store};
use t3_tadsobj::{PropValue, Props, Supers};
use t3_undo::{Cell, Key, Numbers};

/// Property 9 is 90 and property 3 is 30, in this order.
fn two_props(alloc: Global) -> Result<Props, NoMemory> {
    let mut props = Vec::new(alloc);
    props.push(PropValue {
        number: 9,
        value: Holder::Int(90),
    })?;
    props.push(PropValue {
        number: 3,
        value: Holder::Int(30),
    })?;
    Ok(Props(props))
}

/// What a class with two properties and the superclass 6 is made of.
fn class_of_six(alloc: Global) -> Result<NewObject, NoMemory>
    ensures { IfOk result (λ what. HasFittingLength (new_value what)) }
{
    let mut supers = Vec::new(alloc);
    supers.push(6)?;
    Ok(NewObject::Tads {
        supers: Numbers(supers),
        class: true,
        props: two_props(alloc)?,
    })
}

/// What a string is made of.
fn text(alloc: Global, bytes: &[u8; 5]) -> Result<NewObject, NoMemory>
    ensures { IfOk result (λ what. HasFittingLength (new_value what)) }
{
    Ok(NewObject::Text(Bytes(Vec::from_slice(alloc, bytes)?)))
}

/// Adds an entry to a table that doesn't have it.
fn add_entry(
    objects: &mut Persistent,
    alloc: Global,
    number: u32,
    key: Key,
    value: i32,
) -> Result<(), Fail> {
    let Some(Kind::Table) = objects.kind(number) else {
        return Err(Fail::from("a table"));
    };
    let cell = Cell::Key(key.copy(alloc)?);
    let None = objects.get(number, &cell) else {
        return Err(Fail::from("a new key"));
    };
    Ok(objects.add_pair(number, key, Holder::Int(value))?)
}

/// Sets the default of a table.
fn set_default(objects: &mut Persistent, number: u32, value: Holder) -> Result<(), Fail> {
    let Some(Kind::Table) = objects.kind(number) else {
        return Err(Fail::from("a table"));
    };
    objects.set_default(number, value);
    Ok(())
}

/// The key of two letters.
fn letters(alloc: Global) -> Result<Key, NoMemory> {
    Ok(Key::Text(Bytes(Vec::from_slice(alloc, b"ab")?)))
}

/// A class, a string, a list, a vector and a table, under the numbers 1 to 5, and the class of the first under 6.
fn each_kind(alloc: Global) -> Result<Persistent, Fail> {
    let mut objects = Persistent::new(alloc);
    add_class(&mut objects, alloc)?;
    add_contents(&mut objects, alloc)?;
    add_table(&mut objects, alloc)?;
    Ok(objects)
}

/// Adds the class and its superclass.
fn add_class(objects: &mut Persistent, alloc: Global) -> Result<(), Fail> {
    add(objects, 6, plain(alloc))?;
    add(objects, 1, class_of_six(alloc)?)
}

/// Adds the string, the list and the vector.
fn add_contents(objects: &mut Persistent, alloc: Global) -> Result<(), Fail> {
    add(objects, 2, text(alloc, b"house")?)?;
    add_numbers(objects, alloc)
}

/// Adds the list 7, 8 and the vector 4, 5, 6.
fn add_numbers(objects: &mut Persistent, alloc: Global) -> Result<(), Fail> {
    add(objects, 3, NewObject::List(numbers(alloc, &[7, 8])?))?;
    add(objects, 4, NewObject::Vector(numbers(alloc, &[4, 5, 6])?))
}

/// Adds a table with `ab` to 1, and -3 to 2 behind it, and true as its default.
fn add_table(objects: &mut Persistent, alloc: Global) -> Result<(), Fail> {
    add(objects, 5, NewObject::Table)?;
    add_entry(objects, alloc, 5, letters(alloc)?, 1)?;
    add_entry(objects, alloc, 5, Key::Int(-3), 2)?;
    set_default(objects, 5, Holder::True)
}

/// These are the objects of each kind.
fn check_each(rt: &impl Abort, alloc: Global, objects: &Persistent) -> Result<(), Fail> {
    check_class(rt, alloc, objects)?;
    check_contents(rt, objects)?;
    check_vector(rt, objects)?;
    check_table(rt, alloc, objects)?;
    assert_eq!(rt; objects.units(), 12);
    Ok(())
}

/// Whether an object has these superclasses.
fn has_supers(objects: &Persistent, number: u32, expected: &[u32]) -> bool {
    objects.supers(number).unwrap_or(&[]) == expected
}

/// Whether an object has these bytes.
fn has_text(objects: &Persistent, number: u32, expected: &[u8]) -> bool {
    objects.text(number).unwrap_or(&[]) == expected
}

/// Whether an object has these items.
fn has_items(objects: &Persistent, number: u32, expected: &[Holder]) -> bool {
    objects.items(number).unwrap_or(&[]) == expected
}

/// The class with its superclass and its properties.
fn check_class(rt: &impl Abort, alloc: Global, objects: &Persistent) -> Result<(), Fail> {
    let Some(Kind::Tads) = objects.kind(1) else {
        return Err(Fail::from("a tads-object"));
    };
    assert!(rt; objects.is_class(1));
    assert!(rt; !objects.is_class(6));
    assert!(rt; has_supers(objects, 1, &[6]));
    assert_eq!(rt; objects.get(1, &Cell::Prop(9)), Some(Holder::Int(90)));
    assert!(rt; has_two_props(alloc, objects)?);
    Ok(())
}

/// Whether object 1 has its two properties, by rising number.
fn has_two_props(alloc: Global, objects: &Persistent) -> Result<bool, Fail> {
    let Some(_supers) = objects.supers(1) else {
        return Err(Fail::from("a tads-object"));
    };
    let props = objects.props(alloc, 1)?;
    let expected = [
        PropValue {
            number: 3,
            value: Holder::Int(30),
        },
        PropValue {
            number: 9,
            value: Holder::Int(90),
        },
    ];
    Ok(props.items() == expected.as_slice())
}

/// The bytes of the string and the items of the list.
fn check_contents(rt: &impl Abort, objects: &Persistent) -> Result<(), Fail> {
    assert!(rt; has_text(objects, 2, b"house"));
    assert!(rt; objects.text(3).is_none());
    assert!(rt; has_items(objects, 3, &[Holder::Int(7), Holder::Int(8)]));
    assert!(rt; objects.items(4).is_none());
    Ok(())
}

/// The elements of the vector.
fn check_vector(rt: &impl Abort, objects: &Persistent) -> Result<(), Fail> {
    assert_eq!(rt; objects.length(4), Some(3));
    assert_eq!(rt; objects.length(3), None);
    assert_eq!(rt; objects.get(4, &Cell::Elem(3)), Some(Holder::Int(6)));
    assert_eq!(rt; objects.get(4, &Cell::Elem(4)), None);
    Ok(())
}

/// The entries of the table in their order, and its default.
fn check_table(rt: &impl Abort, alloc: Global, objects: &Persistent) -> Result<(), Fail> {
    assert_eq!(rt; objects.get(5, &Cell::Default), Some(Holder::True));
    assert_eq!(rt; value_at(alloc, objects, 0)?, Some(1));
    assert_eq!(rt; value_at(alloc, objects, 1)?, Some(2));
    assert_eq!(rt; value_at(alloc, objects, 2)?, None);
    assert_eq!(rt;
        objects.get(5, &Cell::Key(letters(alloc)?)),
        Some(Holder::Int(1))
    );
    Ok(())
}

/// The number in the entry of table 5 that stands there.
fn value_at(alloc: Global, objects: &Persistent, place: usize) -> Result<Option<i32>, Fail> {
    let Some(Kind::Table) = objects.kind(5) else {
        return Err(Fail::from("a table"));
    };
    match objects.entries(alloc, 5)?.items().get(place) {
        Some(pair) => match pair.value {
            Holder::Int(value) => Ok(Some(value)),
            _ => Err(Fail::from("a number")),
        },
        None => Ok(None),
    }
}

#[test]
fn objects_of_each_kind_are_told(rt: HostRuntime) -> Result<(), Fail> {
    let alloc = rt.alloc();
    check_each(&rt, alloc, &each_kind(alloc)?)
}

#[test]
fn a_copy_has_objects_of_each_kind(rt: HostRuntime) -> Result<(), Fail> {
    let alloc = rt.alloc();
    let copy = each_kind(alloc)?.copy(alloc)?;
    check_each(&rt, alloc, &copy)
}

/// The objects of each kind are put in a store.
fn check_put(rt: &impl Abort, alloc: Global, store: &mut Store) -> Result<(), Fail> {
    let state = each_kind(alloc)?;
    assert_eq!(rt; restore(store, alloc, state, 7)?, Admit::Fits);
    assert_eq!(rt; store.units(), 12);
    Ok(())
}

/// The store gives a copy of them.
fn check_given(rt: &impl Abort, alloc: Global, store: &Store) -> Result<(), Fail> {
    let copy = store.persistent_copy(alloc)?;
    check_each(rt, alloc, &copy)
}

#[test]
fn a_store_gives_a_copy_of_each_kind(rt: HostRuntime) -> Result<(), Fail> {
    let mut store = empty_store(rt.alloc(), 9, 99, 8, 2)?;
    check_put(&rt, rt.alloc(), &mut store)?;
    check_given(&rt, rt.alloc(), &store)
}

/// The numbers are 1 to 6, and these stand under some of them.
fn check_lent(rt: &impl Abort, objects: &ObjectsRef<'_>) {
    for number in 0..6 {
        assert_eq!(rt; objects.after(number), Some(number + 1));
    }
    assert_eq!(rt; objects.after(6), None);
    assert_eq!(rt; objects.after(u32::MAX), None);
    assert!(rt; objects.at(1).is_class());
    assert_eq!(rt; objects.at(4).length(), Some(3));
    assert!(rt; !objects.at(7).is_object());
}

#[test]
fn objects_are_lent(rt: HostRuntime) -> Result<(), Fail> {
    let objects = each_kind(rt.alloc())?;
    check_lent(&rt, &objects.as_objects());
    Ok(())
}

#[test]
fn a_store_lends_its_persistent_objects(rt: HostRuntime) -> Result<(), Fail> {
    let mut store = empty_store(rt.alloc(), 9, 99, 8, 2)?;
    check_put(&rt, rt.alloc(), &mut store)?;
    check_lent(&rt, &store.persistent_objects());
    Ok(())
}
