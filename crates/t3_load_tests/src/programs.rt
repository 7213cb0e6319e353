//! The program of an image that breaks no rule.
use crate::images::{GOOD, Parts, program_of};
use std::process::Abort;
use std::test::Fail;
use t3_holder::Holder;
use t3_load::Program;
use t3_store::Persistent;
use t3_undo::Cell;

/// A tads-object with no superclass and no property.
const PLAIN: &[u8] = &[0, 0, 0, 0, 0, 0];

/// Tads-objects below object 1, and below objects 1 and 2.
const BELOW_1: &[u8] = &[1, 0, 0, 0, 0, 0, 1, 0, 0, 0];

const BELOW_BOTH: &[u8] = &[2, 0, 0, 0, 0, 0, 1, 0, 0, 0, 2, 0, 0, 0];

/// A tads-object, a class, whose property 3 is the integer 7.
const WITH_PROP: &[u8] = &[0, 0, 1, 0, 1, 0, 3, 0, 7, 7, 0, 0, 0];

/// An image of four persistent objects and a transient one.
const FIVE: Parts<'static> = Parts {
    things: &[
        (0, false, 9, BELOW_BOTH),
        (0, true, 30, BELOW_1),
        (0, false, 2, PLAIN),
        (0, false, 1, WITH_PROP),
        (0, false, 7, PLAIN),
    ],
    ..GOOD
};

/// The numbers that a program of that image has.
fn check_numbers(rt: &impl Abort, program: &Program) -> Result<(), Fail> {
    assert_eq!(rt; program.entry, 5);
    assert_eq!(rt; program.next, 31);
    assert_eq!(rt; program.fingerprint, [7; 32]);
    assert_eq!(rt; program.kinds.0.len(), 7);
    assert_eq!(rt; program.sets.0.len(), 2);
    Ok(())
}

/// Its persistent objects.
fn check_first(rt: &impl Abort, first: &Persistent) -> Result<(), Fail> {
    assert_eq!(rt; first.get(1, &Cell::Prop(3)), Some(Holder::Int(7)));
    assert_eq!(rt; first.is_class(1), true);
    assert_eq!(rt; first.after(2), Some(7));
    assert_eq!(rt; first.after(9), None);
    Ok(())
}

/// Its transient one.
fn check_passing(rt: &impl Abort, passing: &Persistent) -> Result<(), Fail> {
    assert_eq!(rt; passing.after(0), Some(30));
    assert_eq!(rt; passing.after(30), None);
    Ok(())
}

/// All that is looked at of the program.
fn check_program(rt: &impl Abort, program: &Program) -> Result<(), Fail> {
    check_numbers(rt, program)?;
    check_first(rt, &program.first)?;
    check_passing(rt, &program.passing)
}

#[test]
fn a_program_has_what_its_image_says(rt: HostRuntime) -> Result<(), Fail> {
    let program = program_of(rt.alloc(), &FIVE)?;
    check_program(&rt, &program)
}
