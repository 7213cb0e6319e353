//! Which rule an image breaks first.
use crate::images::{GOOD, Parts, Thing, refusal, refusal_with};
use std::alloc::{AllocError, Global};
use std::process::Abort;
use std::test::Fail;
use t3_load::LoadRefusal;
use t3_pools::PoolRefusal;

/// A tads-object with no superclass and no property.
const PLAIN: &[u8] = &[0, 0, 0, 0, 0, 0];

/// Tads-objects below object 1, and below object 2.
const BELOW_1: &[u8] = &[1, 0, 0, 0, 0, 0, 1, 0, 0, 0];

const BELOW_2: &[u8] = &[1, 0, 0, 0, 0, 0, 2, 0, 0, 0];

/// A tads-object, a class, whose property 3 is the integer 7.
const WITH_PROP: &[u8] = &[0, 0, 1, 0, 1, 0, 3, 0, 7, 7, 0, 0, 0];

/// The string `ab`, and a byte behind it.
const TEXT: &[u8] = &[2, 0, 97, 98, 9];

/// A list of two integers.
const LIST: &[u8] = &[2, 0, 7, 1, 0, 0, 0, 7, 2, 0, 0, 0];

/// A test image, and the rule that it is refused by, if any.
type ImageRow = (Parts<'static>, Option<LoadRefusal>);

/// Each image is refused as its row says.
fn check_images(rt: &impl Abort, alloc: Global, rows: &[ImageRow]) -> Result<(), Fail> {
    for (parts, why) in rows {
        assert_eq!(rt; refusal(alloc, parts)?, *why);
    }
    Ok(())
}

/// Objects, and the rule that an image of them is refused by, if any.
type ObjectsRow = (&'static [Thing<'static>], Option<LoadRefusal>);

/// Each image of these objects is refused as its row says.
fn check_objects(rt: &impl Abort, alloc: Global, rows: &[ObjectsRow]) -> Result<(), Fail> {
    for (things, why) in rows {
        assert_eq!(rt; refusal_with(alloc, &GOOD, things)?, *why);
    }
    Ok(())
}

const TWO_ENTRIES: Parts<'static> = Parts { entries: 2, ..GOOD };

const LONG_HEADER: Parts<'static> = Parts {
    method_size: 11,
    ..GOOD
};

const OTHER_META: Parts<'static> = Parts {
    metas: &[b"list", b"dictionary2/030001"],
    ..GOOD
};

const OTHER_SET: Parts<'static> = Parts {
    sets: &[b"t3vmx"],
    ..GOOD
};

/// Images that break a rule on their tables, and one that breaks none.
const TABLE_RULES: [ImageRow; 8] = [
    (GOOD, None),
    (Parts { entries: 0, ..GOOD }, Some(LoadRefusal::NoEntry)),
    (TWO_ENTRIES, Some(LoadRefusal::TwoEntries)),
    (LONG_HEADER, Some(LoadRefusal::HeaderSizes)),
    (
        Parts {
            exception_size: 9,
            ..GOOD
        },
        Some(LoadRefusal::HeaderSizes),
    ),
    (
        Parts {
            has_pool: false,
            ..GOOD
        },
        Some(LoadRefusal::Pool(PoolRefusal::NoCode)),
    ),
    (OTHER_META, Some(LoadRefusal::Metaclass(1))),
    (OTHER_SET, Some(LoadRefusal::FunctionSet(0))),
];

/// Images that break two rules at once: the earlier one is told.
const TWO_RULES: [ImageRow; 5] = [
    (
        Parts {
            method_size: 11,
            ..TWO_ENTRIES
        },
        Some(LoadRefusal::TwoEntries),
    ),
    (
        Parts {
            has_pool: false,
            ..LONG_HEADER
        },
        Some(LoadRefusal::HeaderSizes),
    ),
    (
        Parts {
            has_pool: false,
            ..OTHER_META
        },
        Some(LoadRefusal::Pool(PoolRefusal::NoCode)),
    ),
    (
        Parts {
            sets: &[b"x"],
            ..OTHER_META
        },
        Some(LoadRefusal::Metaclass(1)),
    ),
    (
        Parts {
            things: &[(0, false, 0, PLAIN)],
            ..OTHER_SET
        },
        Some(LoadRefusal::FunctionSet(0)),
    ),
];

#[test]
fn an_image_breaks_a_rule_on_its_tables(rt: HostRuntime) -> Result<(), Fail> {
    check_images(&rt, rt.alloc(), &TABLE_RULES)?;
    check_images(&rt, rt.alloc(), &TWO_RULES)
}

const OBJECT_RULES: [ObjectsRow; 16] = [
    (&[(0, false, 0, PLAIN)], Some(LoadRefusal::ObjectNumber(0))),
    (
        &[(0, true, 0x8000_0000, PLAIN)],
        Some(LoadRefusal::ObjectNumber(0x8000_0000)),
    ),
    (&[(0, false, 0x7FFF_FFFF, PLAIN)], None),
    (
        &[(0, false, 5, PLAIN), (1, true, 5, TEXT)],
        Some(LoadRefusal::ObjectTwice(5)),
    ),
    (&[(7, false, 5, PLAIN)], Some(LoadRefusal::ObjectData(5))),
    (&[(4, false, 5, PLAIN)], Some(LoadRefusal::ObjectData(5))),
    (
        &[(0, false, 5, &[0, 0, 0, 0, 0])],
        Some(LoadRefusal::ObjectData(5)),
    ),
    (
        &[(0, false, 5, &[2, 0, 0, 0, 0, 0, 1, 0, 0, 0])],
        Some(LoadRefusal::ObjectData(5)),
    ),
    (
        &[(1, false, 5, &[1, 0, 0xFF])],
        Some(LoadRefusal::ObjectData(5)),
    ),
    (
        &[(2, false, 5, &[1, 0, 3, 0, 0, 0, 0])],
        Some(LoadRefusal::ObjectData(5)),
    ),
    (
        &[(2, false, 5, &[1, 0, 13, 0, 0, 0, 0])],
        Some(LoadRefusal::ObjectData(5)),
    ),
    (
        &[(2, false, 5, &[1, 0, 14, 0, 0, 0, 0])],
        Some(LoadRefusal::ObjectData(5)),
    ),
    (&[(3, false, 5, &[9, 0, 1, 0, 15, 1, 0, 0, 0])], None),
    // The first of two is told, and the earlier rule before it.
    (
        &[(0, false, 9, &[]), (0, false, 4, &[])],
        Some(LoadRefusal::ObjectData(9)),
    ),
    (
        &[(0, false, 9, &[]), (0, false, 9, &[])],
        Some(LoadRefusal::ObjectTwice(9)),
    ),
    (
        &[
            (0, false, 9, PLAIN),
            (0, false, 9, PLAIN),
            (0, false, 0, PLAIN),
        ],
        Some(LoadRefusal::ObjectNumber(0)),
    ),
];

#[test]
fn an_object_breaks_a_rule(rt: HostRuntime) -> Result<(), Fail> {
    check_objects(&rt, rt.alloc(), &OBJECT_RULES)
}

const SUPER_RULES: [ObjectsRow; 12] = [
    (
        &[(0, false, 5, BELOW_1)],
        Some(LoadRefusal::SuperMissing(5)),
    ),
    (
        &[(1, false, 1, TEXT), (0, false, 5, BELOW_1)],
        Some(LoadRefusal::SuperMissing(5)),
    ),
    (&[(0, false, 1, PLAIN), (0, false, 5, BELOW_1)], None),
    (&[(0, false, 1, BELOW_1)], Some(LoadRefusal::SuperCycle(1))),
    (
        &[(0, false, 2, BELOW_1), (0, false, 1, BELOW_2)],
        Some(LoadRefusal::SuperCycle(2)),
    ),
    // One below a cycle isn't on it.
    (
        &[
            (0, false, 5, BELOW_1),
            (0, false, 1, BELOW_2),
            (0, false, 2, BELOW_1),
        ],
        Some(LoadRefusal::SuperCycle(1)),
    ),
    (
        &[(0, true, 1, PLAIN), (0, false, 5, BELOW_1)],
        Some(LoadRefusal::TransientSuper(5)),
    ),
    (&[(0, false, 1, PLAIN), (0, true, 5, BELOW_1)], None),
    // A cycle through a transient object is one.
    (
        &[(0, true, 2, BELOW_1), (0, false, 1, BELOW_2)],
        Some(LoadRefusal::SuperCycle(2)),
    ),
    // The earlier rule is told, wherever the objects stand.
    (
        &[(0, false, 1, BELOW_1), (0, false, 5, BELOW_2)],
        Some(LoadRefusal::SuperMissing(5)),
    ),
    (
        &[
            (0, false, 5, BELOW_2),
            (0, true, 2, PLAIN),
            (0, false, 1, BELOW_1),
        ],
        Some(LoadRefusal::SuperCycle(1)),
    ),
    (
        &[(0, false, 5, BELOW_2), (0, false, 4, BELOW_1)],
        Some(LoadRefusal::SuperMissing(5)),
    ),
];

#[test]
fn a_superclass_breaks_a_rule(rt: HostRuntime) -> Result<(), Fail> {
    check_objects(&rt, rt.alloc(), &SUPER_RULES)
}

/// The bytes of a tads-object below that of a number.
fn below(alloc: Global, number: u32) -> Result<Vec<u8>, AllocError> {
    let mut layout = Vec::from_slice(alloc, &[1, 0, 0, 0, 0, 0])?;
    layout.extend_from_slice(&number.to_le_bytes())?;
    Ok(layout)
}

/// The bytes of ten thousand tads-objects from number 1 on, each below the next, the last below 1.
fn long_cycle(alloc: Global) -> Result<Vec<Vec<u8>>, AllocError> {
    let mut layouts = Vec::new(alloc);
    for number in 1..10_001u32 {
        layouts.push(below(alloc, number % 10_000 + 1)?)?;
    }
    Ok(layouts)
}

/// Objects of these bytes from number 1 on, of which every other is transient.
fn numbered(alloc: Global, layouts: &[Vec<u8>]) -> Result<Vec<Thing<'_>>, AllocError> {
    let mut things = Vec::new(alloc);
    let mut number: u32 = 0;
    for layout in layouts {
        number = number.saturating_add(1);
        things.push((0, number % 2 == 0, number, layout.as_slice()))?;
    }
    Ok(things)
}

/// What an image of ten thousand objects of these bytes is refused by.
fn refusal_of_many(alloc: Global, layouts: &[Vec<u8>]) -> Result<Option<LoadRefusal>, Fail> {
    let parts = Parts {
        objects: 10_000,
        ..GOOD
    };
    let things = numbered(alloc, layouts)?;
    refusal_with(alloc, &parts, &things)
}

#[test]
fn a_long_cycle_is_found(rt: HostRuntime) -> Result<(), Fail> {
    let layouts = long_cycle(rt.alloc())?;
    assert_eq!(rt;
        refusal_of_many(rt.alloc(), &layouts)?,
        Some(LoadRefusal::SuperCycle(1))
    );
    Ok(())
}

/// Two objects.
const PAIR: Parts<'static> = Parts {
    things: &[(0, false, 5, PLAIN), (0, true, 4, PLAIN)],
    ..GOOD
};

/// Two elements, two bytes and a property.
const UNITS: Parts<'static> = Parts {
    things: &[
        (2, false, 5, LIST),
        (1, true, 4, TEXT),
        (0, false, 6, WITH_PROP),
    ],
    ..GOOD
};

/// Two objects, of which the first is below itself.
const CYCLE: Parts<'static> = Parts {
    things: &[(0, false, 1, BELOW_1), (0, false, 5, PLAIN)],
    ..GOOD
};

const LIMITS: [ImageRow; 6] = [
    (Parts { objects: 2, ..PAIR }, None),
    (Parts { objects: 1, ..PAIR }, Some(LoadRefusal::Full)),
    (Parts { units: 4, ..UNITS }, None),
    (Parts { units: 3, ..UNITS }, Some(LoadRefusal::Full)),
    (
        Parts {
            objects: 0,
            units: 0,
            ..GOOD
        },
        None,
    ),
    (
        Parts {
            objects: 1,
            ..CYCLE
        },
        Some(LoadRefusal::SuperCycle(1)),
    ),
];

#[test]
fn the_limits_hold_for_all_objects_together(rt: HostRuntime) -> Result<(), Fail> {
    check_images(&rt, rt.alloc(), &LIMITS)
}
