//! Images that are loaded, whatever their objects are and whatever their entry method takes.
use crate::images::{GOOD, Parts, Thing, program_of, refusal, refusal_with};
use std::alloc::Global;
use std::test::Fail;
use t3_load::LoadRefusal;

/// A tads-object with no superclass and no property.
const PLAIN: &[u8] = &[0, 0, 0, 0, 0, 0];

/// An empty string, and an empty list.
const TEXT: &[u8] = &[0, 0];

const LIST: &[u8] = &[0, 0];

/// A tads-object whose property 3 is the constant string at 7.
const WITH_TEXT: &[u8] = &[0, 0, 1, 0, 0, 0, 3, 0, 8, 7, 0, 0, 0];

/// A tads-object whose property 3 is the text at 7, which is shown when it is evaluated.
const WITH_SHOWN: &[u8] = &[0, 0, 1, 0, 0, 0, 3, 0, 9, 7, 0, 0, 0];

/// Objects of all kinds.
const THINGS: [&[Thing<'static>]; 4] = [
    &[(1, true, 7, TEXT)],
    &[(2, false, 7, LIST)],
    &[(0, false, 8, PLAIN), (0, false, 7, WITH_TEXT)],
    &[(0, false, 7, WITH_SHOWN)],
];

const WITH_METHODS: Parts<'static> = Parts {
    has_methods: true,
    ..GOOD
};

#[test]
fn objects_of_all_kinds_are_loaded(rt: HostRuntime) -> Result<(), Fail> {
    for things in THINGS {
        assert_eq!(rt; refusal_with(rt.alloc(), &GOOD, things)?, None);
    }
    assert_eq!(rt; refusal(rt.alloc(), &WITH_METHODS)?, None);
    Ok(())
}

/// A header that takes an argument, and has 9 as its offset of an exception table, behind five bytes.
const TAKING_AND_CATCHING: &[u8] = &[9, 9, 9, 9, 9, 1, 0, 1, 0, 4, 0, 9, 0, 0, 0];

/// Code whose sixth byte is the entry method's first, where there is one.
const CODES: [&[u8]; 13] = [
    // It takes nothing and has no exception table; it takes one argument, two, or 127.
    &[9, 9, 9, 9, 9, 0, 0, 1, 0, 4, 0, 0, 0, 0, 0],
    &[9, 9, 9, 9, 9, 1, 0, 1, 0, 4, 0, 0, 0, 0, 0],
    &[9, 9, 9, 9, 9, 2, 0, 1, 0, 4, 0, 0, 0, 0, 0],
    &[9, 9, 9, 9, 9, 127, 0, 1, 0, 4, 0, 0, 0, 0, 0],
    // Any number, or two and more.
    &[9, 9, 9, 9, 9, 128, 0, 1, 0, 4, 0, 0, 0, 0, 0],
    &[9, 9, 9, 9, 9, 130, 0, 1, 0, 4, 0, 0, 0, 0, 0],
    // One that may be left out, seven behind one that may not, or 255.
    &[9, 9, 9, 9, 9, 0, 1, 1, 0, 4, 0, 0, 0, 0, 0],
    &[9, 9, 9, 9, 9, 1, 7, 1, 0, 4, 0, 0, 0, 0, 0],
    &[9, 9, 9, 9, 9, 0, 255, 1, 0, 4, 0, 0, 0, 0, 0],
    // An exception table is said to stand where no code is.
    &[9, 9, 9, 9, 9, 0, 0, 1, 0, 4, 0, 0, 2, 0, 0],
    TAKING_AND_CATCHING,
    // The header is cut, or not there.
    &[9, 9, 9, 9, 9, 1, 0, 1, 0, 4, 0, 0, 2, 0],
    &[9, 9, 9, 9, 9],
];

/// Where the entry method of this code stands.
fn entry_of(alloc: Global, code: &[u8]) -> Result<u32, Fail> {
    let program = program_of(alloc, &Parts { code, ..GOOD })?;
    Ok(program.entry)
}

#[test]
fn entry_methods_of_all_kinds_are_loaded(rt: HostRuntime) -> Result<(), Fail> {
    for code in CODES {
        assert_eq!(rt; entry_of(rt.alloc(), code)?, 5);
    }
    Ok(())
}

/// There is no room for its one object.
const FULL: Parts<'static> = Parts {
    objects: 0,
    code: TAKING_AND_CATCHING,
    things: &[(1, false, 7, TEXT)],
    ..GOOD
};

#[test]
fn a_rule_is_told_whatever_the_entry_method_takes(rt: HostRuntime) -> Result<(), Fail> {
    assert_eq!(rt; refusal(rt.alloc(), &FULL)?, Some(LoadRefusal::Full));
    Ok(())
}
