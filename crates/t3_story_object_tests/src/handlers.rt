//! Handlers that catch objects of a class.
use crate::objects::FAMILY;
use std::test::Fail;
use t3_testing::{Row, first_unlike_beside};

/// Object 4 is thrown, whose classes are itself, 2, 3 and 1, in this order.
const CATCHES_CLASSES: [Row; 7] = [
    (
        "call 0 @f / getr0 / builtin_a 1 0 / retnil / f: / method 0 0 2 ~h / a: / pushobj 4 / throw / b: / retnil / c: / pushobj 4 / eq / retval / h: / table 1 / handler ~a ~b 4 ~c",
        "true\n",
    ),
    (
        "call 0 @f / getr0 / builtin_a 1 0 / retnil / f: / method 0 0 2 ~h / a: / pushobj 4 / throw / b: / retnil / c: / pushobj 4 / eq / retval / h: / table 1 / handler ~a ~b 3 ~c",
        "true\n",
    ),
    (
        "call 0 @f / getr0 / builtin_a 1 0 / retnil / f: / method 0 0 2 ~h / a: / pushobj 4 / throw / b: / retnil / c: / pushobj 4 / eq / retval / h: / table 1 / handler ~a ~b 1 ~c",
        "true\n",
    ),
    // A class that it isn't of, alone, and before an entry for any object.
    (
        "call 0 @f / retnil / f: / method 0 0 2 ~h / a: / pushobj 4 / throw / b: / retnil / c: / retnil / h: / table 1 / handler ~a ~b 5 ~c",
        "[unhandled object=4 fault=0]\n",
    ),
    (
        "call 0 @f / getr0 / builtin_a 1 0 / retnil / f: / method 0 0 2 ~h / a: / pushobj 4 / throw / b: / retnil / c: / pushint8 8 / retval / d: / pushint8 7 / retval / h: / table 2 / handler ~a ~b 5 ~c / handler ~a ~b 0 ~d",
        "7\n",
    ),
    // The first entry that fits is taken, though a later one names the object itself.
    (
        "call 0 @f / getr0 / builtin_a 1 0 / retnil / f: / method 0 0 2 ~h / a: / pushobj 4 / throw / b: / retnil / c: / pushint8 8 / retval / d: / pushint8 7 / retval / h: / table 2 / handler ~a ~b 1 ~c / handler ~a ~b 4 ~d",
        "8\n",
    ),
    // The newest method that has a handler for it, though an older one has one as well.
    (
        "call 0 @f / retnil / f: / method 0 0 2 ~h / a: / call 0 @g / getr0 / builtin_a 1 0 / b: / retnil / c: / retnil / h: / table 1 / handler ~a ~b 0 ~c / g: / method 0 0 2 ~i / d: / pushobj 4 / throw / e: / pushint8 6 / retval / i: / table 1 / handler ~d ~e 2 ~e",
        "6\n",
    ),
];

#[test]
fn catches_classes(rt: HostRuntime) -> Result<(), Fail> {
    assert_eq!(rt;
        first_unlike_beside(rt.alloc(), FAMILY, &CATCHES_CLASSES)?,
        None
    );
    Ok(())
}
