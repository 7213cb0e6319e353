//! What is broken of small maps that were drawn by hand, and of long chains.
ghost use Rattle.t3_store.specs.Value.{new_value, HasFittingLength};

use std::alloc::Global;
use std::process::Abort;
use std::test::Fail;
use t3_holder::Bytes;
use t3_store::{Broken, NewObject, Persistent};
use t3_test_stores::tads;

/// Adds an object.
pub(crate) fn add(objects: &mut Persistent, number: u32, what: NewObject) -> Result<(), Fail>
    requires { HasFittingLength (new_value what) }
{
    if number == 0 || number >= 0x8000_0000 {
        return Err(Fail::from("a number"));
    }
    if objects.kind(number).is_some() {
        return Err(Fail::from("a new number"));
    }
    Ok(objects.add(number, what)?)
}

/// Adds a tads-object with these superclasses.
fn add_tads(
    objects: &mut Persistent,
    alloc: Global,
    number: u32,
    supers: &[u32],
) -> Result<(), Fail> {
    let supers = Vec::from_slice(alloc, supers)?;
    add(objects, number, tads(alloc, supers, false))
}

/// Adds the tads-objects behind a number up to another, each with the one before it as its superclass.
fn add_chain(objects: &mut Persistent, alloc: Global, first: u32, last: u32) -> Result<(), Fail> {
    for above in first..last {
        add_tads(objects, alloc, above + 1, &[above])?;
    }
    Ok(())
}

/// What is broken first of tads-objects with these numbers and superclasses, which are added in this order.
fn first_of(alloc: Global, rows: &[(u32, &[u32])]) -> Result<Option<(u32, Broken)>, Fail> {
    let mut objects = Persistent::new(alloc);
    for (number, supers) in rows {
        add_tads(&mut objects, alloc, *number, supers)?;
    }
    Ok(objects.first_broken(alloc)?)
}

#[test]
fn nothing_is_broken(rt: HostRuntime) -> Result<(), Fail> {
    let alloc = rt.alloc();
    assert_eq!(rt; first_of(alloc, &[])?, None);
    assert_eq!(rt; first_of(alloc, &[(7, &[])])?, None);
    let diamond: [(u32, &[u32]); 4] = [(9, &[4, 2, 4]), (4, &[1]), (2, &[1]), (1, &[])];
    assert_eq!(rt; first_of(alloc, &diamond)?, None);
    Ok(())
}

#[test]
fn the_least_number_of_a_cycle_is_named(rt: HostRuntime) -> Result<(), Fail> {
    let alloc = rt.alloc();
    assert_eq!(rt; first_of(alloc, &[(5, &[5])])?, Some((5, Broken::Cycle)));
    // The cycle with the least number is added last.
    let two: [(u32, &[u32]); 4] = [(9, &[8]), (8, &[9]), (4, &[3]), (3, &[4])];
    assert_eq!(rt; first_of(alloc, &two)?, Some((3, Broken::Cycle)));
    // 1 and 2 have a superclass in the cycle of 3 and 4, and aren't in it.
    let descendants: [(u32, &[u32]); 4] = [(1, &[2]), (2, &[4]), (3, &[4]), (4, &[3])];
    assert_eq!(rt; first_of(alloc, &descendants)?, Some((3, Broken::Cycle)));
    Ok(())
}

#[test]
fn a_missing_superclass_comes_before_cycles(rt: HostRuntime) -> Result<(), Fail> {
    let alloc = rt.alloc();
    let after_a_cycle: [(u32, &[u32]); 2] = [(1, &[1]), (9, &[1, 2])];
    assert_eq!(rt;
        first_of(alloc, &after_a_cycle)?,
        Some((9, Broken::Missing))
    );
    let two: [(u32, &[u32]); 3] = [(9, &[2]), (6, &[3]), (5, &[])];
    assert_eq!(rt; first_of(alloc, &two)?, Some((6, Broken::Missing)));
    // An object that is its own ancestor and lacks a superclass.
    assert_eq!(rt;
        first_of(alloc, &[(4, &[4, 8])])?,
        Some((4, Broken::Missing))
    );
    Ok(())
}

#[test]
fn a_string_is_no_superclass(rt: HostRuntime) -> Result<(), Fail> {
    let mut objects = Persistent::new(rt.alloc());
    check_string(&rt, rt.alloc(), &mut objects)
}

/// A string is whole by itself, and an object that has it as its superclass isn't.
fn check_string(rt: &impl Abort, alloc: Global, objects: &mut Persistent) -> Result<(), Fail> {
    add(objects, 1, NewObject::Text(Bytes(Vec::new(alloc))))?;
    assert_eq!(rt; objects.first_broken(alloc)?, None);
    add_tads(objects, alloc, 2, &[1])?;
    assert_eq!(rt; objects.first_broken(alloc)?, Some((2, Broken::Missing)));
    Ok(())
}

/// What is broken first of a cycle of 12 to 61, of which 7 is a descendant.
fn first_of_a_cycle(alloc: Global) -> Result<Option<(u32, Broken)>, Fail> {
    let mut cycle = Persistent::new(alloc);
    add_cycle(&mut cycle, alloc)?;
    Ok(cycle.first_broken(alloc)?)
}

/// Adds the cycle and its descendant.
fn add_cycle(objects: &mut Persistent, alloc: Global) -> Result<(), Fail> {
    add_tads(objects, alloc, 12, &[61])?;
    add_chain(objects, alloc, 12, 61)?;
    add_tads(objects, alloc, 7, &[61])
}

/// What is broken first of a chain of 1 to 100,000, with one more behind it if that has superclasses.
fn first_of_a_chain(alloc: Global, supers: &[u32]) -> Result<Option<(u32, Broken)>, Fail> {
    let mut chain = Persistent::new(alloc);
    add_long_chain(&mut chain, alloc, supers)?;
    Ok(chain.first_broken(alloc)?)
}

/// Adds the chain, and the one behind it if that has superclasses.
fn add_long_chain(objects: &mut Persistent, alloc: Global, supers: &[u32]) -> Result<(), Fail> {
    add_tads(objects, alloc, 1, &[])?;
    add_chain(objects, alloc, 1, 100_000)?;
    if !supers.is_empty() {
        add_tads(objects, alloc, 100_001, supers)?;
    }
    Ok(())
}

#[test]
fn long_chains_are_walked_once(rt: HostRuntime) -> Result<(), Fail> {
    let alloc = rt.alloc();
    assert_eq!(rt; first_of_a_cycle(alloc)?, Some((12, Broken::Cycle)));
    // A walk of its own for each of these would take minutes.
    assert_eq!(rt; first_of_a_chain(alloc, &[])?, None);
    assert_eq!(rt;
        first_of_a_chain(alloc, &[100_000, 100_002])?,
        Some((100_001, Broken::Missing))
    );
    Ok(())
}
