//! Tads-objects, each call once.
use std::alloc::Global;
use std::process::Abort;
use std::test::Fail;
use t3_holder::{Holder, NoMemory};
use t3_tadsobj::{PropValue, TadsObject};
use t3_undo::{Cell, Content, Metaclass, Numbers};

/// Sets a property to a number, and hands out what stood there.
fn set(object: &mut TadsObject, number: u16, value: i32) -> Result<Content, NoMemory> {
    object.make_place(Cell::Prop(number))?;
    Ok(object.put(&Cell::Prop(number), Content::Held(Holder::Int(value))))
}

/// Sets property 9, 2 and 9 again, and makes a place for 5.
fn set_three(object: &mut TadsObject) -> Result<(), NoMemory> {
    set(object, 9, 0)?;
    set(object, 2, 2)?;
    set(object, 9, 1)?;
    object.make_place(Cell::Prop(5))
}

/// What that leaves, by rising number.
const RISING: [PropValue; 2] = [
    PropValue {
        number: 2,
        value: Holder::Int(2),
    },
    PropValue {
        number: 9,
        value: Holder::Int(1),
    },
];

/// These are the properties of an object.
fn check_rising(rt: &impl Abort, alloc: Global, object: &TadsObject) -> Result<(), Fail> {
    let props = object.props(alloc)?;
    assert_eq!(rt; props.items(), RISING.as_slice());
    Ok(())
}

#[test]
fn properties_come_by_rising_number(rt: HostRuntime) -> Result<(), Fail> {
    let mut object = TadsObject::new(rt.alloc());
    assert_eq!(rt;
        (object.places(), object.is_class(), object.supers().len()),
        (0, false, 0)
    );
    set_three(&mut object)?;
    check_rising(&rt, rt.alloc(), &object)
}

/// A class with two superclasses, and with places for the properties 1 and 2, which it lacks.
fn class_with_places(alloc: Global) -> Result<TadsObject, NoMemory> {
    let supers = Numbers(Vec::from_slice(alloc, &[3, 1])?);
    let mut object = TadsObject::of(alloc, supers, true);
    object.make_place(Cell::Prop(1))?;
    object.make_place(Cell::Prop(2))?;
    object.make_place(Cell::Prop(1))?;
    Ok(object)
}

/// A copy is a class with the same superclasses, and has no place.
fn check_copied(rt: &impl Abort, copy: &TadsObject) -> Result<(), Fail> {
    assert_eq!(rt; (copy.places(), copy.is_class()), (0, true));
    assert_eq!(rt; copy.supers(), [3, 1].as_slice());
    assert_eq!(rt; copy.get(&Cell::Prop(1)), Content::Absent);
    Ok(())
}

#[test]
fn a_copy_has_no_place_for_an_absent_cell(rt: HostRuntime) -> Result<(), Fail> {
    let object = class_with_places(rt.alloc())?;
    assert_eq!(rt; object.places(), 2);
    let copy = object.copy(rt.alloc())?;
    check_copied(&rt, &copy)
}

/// An object whose property 1 is true, which was 10, and property 2 is 20.
fn with_two_props(alloc: Global) -> Result<TadsObject, NoMemory> {
    let mut object = TadsObject::new(alloc);
    object.set(1, Holder::Int(10))?;
    object.set(2, Holder::Int(20))?;
    object.set(1, Holder::True)?;
    Ok(object)
}

/// Both are there, and so is a place for a third.
fn check_third_place(rt: &impl Abort, object: &mut TadsObject) -> Result<(), Fail> {
    object.make_place(Cell::Prop(3))?;
    assert_eq!(rt; object.places(), 3);
    assert_eq!(rt; object.get(&Cell::Prop(2)), Content::Held(Holder::Int(20)));
    assert_eq!(rt; set(object, 1, 30)?, Content::Held(Holder::True));
    Ok(())
}

#[test]
fn a_property_that_is_set_has_a_place(rt: HostRuntime) -> Result<(), Fail> {
    let mut object = with_two_props(rt.alloc())?;
    check_third_place(&rt, &mut object)?;
    let copy = object.copy(rt.alloc())?;
    assert_eq!(rt; copy.places(), 2, "the third is absent");
    Ok(())
}
