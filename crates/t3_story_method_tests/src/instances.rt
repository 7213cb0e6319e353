//! Instances and clones of objects.
use crate::story::first_unlike;
use std::test::Fail;
use t3_testing::Row;

/// Instances, whose superclass is self, and whose constructor gets all arguments.
const INSTANCES: [Row; 9] = [
    // What is below the arguments stays.
    (
        "pushint8 7 / pushint8 8 / objcallprop 1 2 20 / getr0 / getprop 3 / getr0 / call 1 @show / call 1 @show / retnil",
        "87\n",
    ),
    // No argument is taken for the superclass.
    (
        "pushobj 3 / objcallprop 1 2 20 / getr0 / setlcl1 0 / pushobj 2 / getlcl1 0 / callprop 1 10 / getr0 / call 1 @show / pushobj 3 / getlcl1 0 / callprop 1 10 / getr0 / call 1 @show / getlcl1 0 / getprop 18 / getr0 / call 1 @show / retnil",
        "truenilnil\n",
    ),
    (
        "push_1 / objcallprop 1 2 22 / getr0 / setlcl1 0 / getlcl1 0 / getprop 18 / getr0 / call 1 @show / getlcl1 0 / getprop 3 / getr0 / call 1 @show / retnil",
        "true1\n",
    ),
    // Without a constructor the arguments go.
    (
        "pushint8 7 / push_1 / push_0 / objcallprop 2 1 20 / getr0 / getprop 2 / getr0 / call 1 @show / call 1 @show / retnil",
        "127\n",
    ),
    (
        "objgetprop 1 20 / getr0 / throw",
        "[unhandled object=4 fault=0]\n",
    ),
    // The object is made before its constructor is refused its call, and stays.
    ("objgetprop 2 20", "[unhandled object=5 fault=2]\n"),
    (
        "push_1 / push_1 / objcallprop 2 2 22",
        "[unhandled object=4 fault=2]\n",
    ),
    // A transient object has no persistent instances.
    ("objgetprop 3 20", "[unhandled object=4 fault=22]\n"),
    (
        "objgetprop 3 22 / getr0 / setlcl1 0 / getlcl1 0 / getprop 5 / getr0 / call 1 @show / getlcl1 0 / getprop 18 / getr0 / call 1 @show / retnil",
        "15true\n",
    ),
];

#[test]
fn makes_instances(rt: HostRuntime) -> Result<(), Fail> {
    assert_eq!(rt; first_unlike(rt.alloc(), &INSTANCES)?, None);
    Ok(())
}

/// Clones, for which no constructor is called.
const CLONES: [Row; 5] = [
    (
        "objgetprop 1 21 / getr0 / setlcl1 0 / getlcl1 0 / getprop 2 / getr0 / call 1 @show / getlcl1 0 / getprop 16 / getr0 / call 1 @show / retnil",
        "12true\n",
    ),
    // The original changes no more with it.
    (
        "objgetprop 1 21 / getr0 / setlcl1 0 / pushint8 5 / objsetprop 1 2 / getlcl1 0 / getprop 2 / getr0 / call 1 @show / retnil",
        "12\n",
    ),
    // Of a transient object it is persistent, unless its superclass is transient.
    (
        "objgetprop 3 21 / getr0 / getprop 18 / getr0 / call 1 @show / retnil",
        "nil\n",
    ),
    (
        "objgetprop 3 22 / getr0 / getprop 21",
        "[unhandled object=4 fault=22]\n",
    ),
    (
        "pushnil / objcallprop 1 1 21",
        "[unhandled object=4 fault=2]\n",
    ),
];

#[test]
fn makes_clones(rt: HostRuntime) -> Result<(), Fail> {
    assert_eq!(rt; first_unlike(rt.alloc(), &CLONES)?, None);
    Ok(())
}
