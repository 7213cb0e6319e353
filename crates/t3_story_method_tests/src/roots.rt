//! Methods of all objects.
use crate::story::first_unlike;
use std::test::Fail;
use t3_testing::Row;

/// Methods of all objects, also of texts and lists.
const ROOTS: [Row; 6] = [
    (
        "pushobj 1 / objcallprop 1 2 10 / getr0 / call 1 @show / pushobj 2 / objcallprop 1 1 10 / getr0 / call 1 @show / pushobj 99 / objcallprop 1 1 10 / getr0 / call 1 @show / pushobj 1 / pushstr @word / callprop 1 10 / getr0 / call 1 @show / retnil",
        "truenilnilnil\n",
    ),
    (
        "objgetprop 2 11 / getr0 / getprop 42 / getr0 / call 1 @show / objgetprop 1 11 / getr0 / getprop 42 / getr0 / call 1 @show / pushlst @three / getprop 11 / getr0 / getprop 42 / getr0 / call 1 @show / retnil",
        "100\n",
    ),
    // A property of a superclass is one of the object's.
    (
        "pushpropid 2 / objcallprop 1 2 12 / getr0 / call 1 @show / pushpropid 5 / objcallprop 1 2 12 / getr0 / call 1 @show / pushpropid 10 / objcallprop 1 2 12 / getr0 / call 1 @show / retnil",
        "truenilnil\n",
    ),
    (
        "objgetprop 1 16 / getr0 / call 1 @show / objgetprop 2 16 / getr0 / call 1 @show / pushstr @word / getprop 16 / getr0 / call 1 @show / retnil",
        "truenilnil\n",
    ),
    (
        "objgetprop 3 18 / getr0 / call 1 @show / objgetprop 2 18 / getr0 / call 1 @show / trnew1 0 6 / getr0 / getprop 18 / getr0 / call 1 @show / retnil",
        "trueniltrue\n",
    ),
    // Self may be the object whose method runs.
    (
        "objgetprop 2 21 / getr0 / getprop 2 / getr0 / call 1 @show / retnil",
        "12\n",
    ),
];

#[test]
fn has_methods(rt: HostRuntime) -> Result<(), Fail> {
    assert_eq!(rt; first_unlike(rt.alloc(), &ROOTS)?, None);
    Ok(())
}

/// Faults, also of indices that have no method, and of the methods of collections, which are none.
const FAULTS: [Row; 8] = [
    ("objgetprop 2 10", "[unhandled object=4 fault=2]\n"),
    (
        "pushnil / objcallprop 1 2 10",
        "[unhandled object=4 fault=3]\n",
    ),
    (
        "pushnil / objcallprop 1 2 12",
        "[unhandled object=4 fault=3]\n",
    ),
    (
        "pushnil / objcallprop 1 2 16",
        "[unhandled object=4 fault=2]\n",
    ),
    ("objgetprop 2 13", "[unhandled object=4 fault=7]\n"),
    ("objgetprop 2 23", "[unhandled object=4 fault=7]\n"),
    (
        "pushlst @three / getprop 39",
        "[unhandled object=4 fault=7]\n",
    ),
    ("objgetprop 99 16", "[unhandled object=4 fault=20]\n"),
];

#[test]
fn has_faults(rt: HostRuntime) -> Result<(), Fail> {
    assert_eq!(rt; first_unlike(rt.alloc(), &FAULTS)?, None);
    Ok(())
}
