//! Making objects of each kind.
use crate::story::first_unlike_with_values;
use std::test::Fail;
use t3_testing::Row;

/// Making strings.
const MAKES_STRINGS: [Row; 23] = [
    (
        "pushstr @ab / new1 1 1 / getr0 / builtin_a 1 0 / retnil",
        "ab\n",
    ),
    (
        "pushobj 2 / new2 1 1 / getr0 / throw",
        "[unhandled object=6 fault=0]\n",
    ),
    (
        "pushobj 5 / new1 1 1 / getr0 / throw",
        "[unhandled object=6 fault=0]\n",
    ),
    // A transient one.
    (
        "pushobj 2 / trnew1 1 1 / getr0 / throw",
        "[unhandled object=2147483648 fault=0]\n",
    ),
    (
        "pushstr @ab / trnew2 1 1 / getr0 / builtin_a 1 0 / retnil",
        "ab\n",
    ),
    // Only the argument goes.
    (
        "push_1 / pushstr @ab / new1 1 1 / builtin_a 1 0 / retnil",
        "1\n",
    ),
    ("new1 0 1", "[unhandled object=6 fault=2]\n"),
    (
        "pushstr @ab / pushstr @ab / new1 2 1",
        "[unhandled object=6 fault=2]\n",
    ),
    // The count is told before the kind.
    (
        "pushnil / pushobj 99 / trnew2 2 1",
        "[unhandled object=6 fault=2]\n",
    ),
    ("pushnil / new1 1 1", "[unhandled object=6 fault=3]\n"),
    ("pushtrue / new1 1 1", "[unhandled object=6 fault=3]\n"),
    ("push_1 / new1 1 1", "[unhandled object=6 fault=3]\n"),
    (
        "pushlst @items / new1 1 1",
        "[unhandled object=6 fault=3]\n",
    ),
    ("pushobj 3 / new1 1 1", "[unhandled object=6 fault=3]\n"),
    ("pushobj 4 / new1 1 1", "[unhandled object=6 fault=3]\n"),
    ("pushobj 1 / new1 1 1", "[unhandled object=6 fault=3]\n"),
    (
        "new1 0 4 / getr0 / new1 1 1",
        "[unhandled object=7 fault=3]\n",
    ),
    ("pushpropid 3 / new1 1 1", "[unhandled object=6 fault=3]\n"),
    ("pushobj 99 / new1 1 1", "[unhandled object=6 fault=20]\n"),
    (
        "pushstr @broken / new1 1 1",
        "[unhandled object=6 fault=21]\n",
    ),
    (
        "pushstr @cut / trnew1 1 1",
        "[unhandled object=6 fault=21]\n",
    ),
    (
        "pushlst @wrong / new1 1 1",
        "[unhandled object=6 fault=3]\n",
    ),
    ("new1 1 1", "[bad code at=10 why=Underflow]\n"),
];

#[test]
fn makes_strings(rt: HostRuntime) -> Result<(), Fail> {
    assert_eq!(rt; first_unlike_with_values(rt.alloc(), &MAKES_STRINGS)?, None);
    Ok(())
}

/// Making lists.
const MAKES_LISTS: [Row; 9] = [
    (
        "new1 0 2 / getr0 / push_1 / index",
        "[unhandled object=7 fault=6]\n",
    ),
    // The first argument is the topmost.
    (
        "push_0 / push_1 / new1 2 2 / getr0 / dup / push_1 / index / builtin_a 1 0 / pushint8 2 / index / builtin_a 1 0 / retnil",
        "10\n",
    ),
    // Whatever they are.
    (
        "pushobj 99 / pushstr @broken / pushlst @wrong / new1 3 2 / getr0 / throw",
        "[unhandled object=6 fault=0]\n",
    ),
    (
        "push_1 / trnew1 1 2 / getr0 / throw",
        "[unhandled object=2147483648 fault=0]\n",
    ),
    (
        "push_1 / trnew2 1 2 / getr0 / push_1 / index / builtin_a 1 0 / retnil",
        "1\n",
    ),
    (
        "pushint 65530 / setlcl1 0 / loop: / pushstr @ab / declcl 0 / getlcl1 0 / jt @loop / new2 65530 2 / getr0 / pushint 65530 / index / builtin_a 1 0 / retnil",
        "ab\n",
    ),
    (
        "pushint8 7 / push_1 / new1 1 2 / builtin_a 1 0 / retnil",
        "7\n",
    ),
    ("new1 1 2", "[bad code at=10 why=Underflow]\n"),
    ("push_1 / new2 2 2", "[bad code at=11 why=Underflow]\n"),
];

#[test]
fn makes_lists(rt: HostRuntime) -> Result<(), Fail> {
    assert_eq!(rt; first_unlike_with_values(rt.alloc(), &MAKES_LISTS)?, None);
    Ok(())
}

/// Making tables.
const MAKES_TABLES: [Row; 13] = [
    ("new1 0 4 / getr0 / throw", "[unhandled object=6 fault=0]\n"),
    (
        "trnew1 0 4 / getr0 / throw",
        "[unhandled object=2147483648 fault=0]\n",
    ),
    // Two integers, whichever.
    (
        "pushint8 -1 / pushint 70000 / new1 2 4 / getr0 / push_1 / index / builtin_b 1 6 / getr0 / builtin_a 1 0 / retnil",
        "nil\n",
    ),
    (
        "push_1 / push_1 / trnew2 2 4 / getr0 / pushnil / index / builtin_b 1 6 / getr0 / builtin_a 1 0 / retnil",
        "nil\n",
    ),
    ("push_1 / new1 1 4", "[unhandled object=6 fault=2]\n"),
    (
        "push_1 / push_1 / push_1 / new1 3 4",
        "[unhandled object=6 fault=2]\n",
    ),
    ("pushnil / new1 1 4", "[unhandled object=6 fault=2]\n"),
    (
        "pushnil / push_1 / new1 2 4",
        "[unhandled object=6 fault=3]\n",
    ),
    (
        "push_1 / pushnil / new1 2 4",
        "[unhandled object=6 fault=3]\n",
    ),
    (
        "pushstr @ab / push_1 / new1 2 4",
        "[unhandled object=6 fault=3]\n",
    ),
    (
        "push_1 / pushlst @items / new1 2 4",
        "[unhandled object=6 fault=3]\n",
    ),
    // No object is needed.
    (
        "push_1 / pushobj 99 / new1 2 4",
        "[unhandled object=6 fault=3]\n",
    ),
    ("new1 2 4", "[bad code at=10 why=Underflow]\n"),
];

#[test]
fn makes_tables(rt: HostRuntime) -> Result<(), Fail> {
    assert_eq!(rt; first_unlike_with_values(rt.alloc(), &MAKES_TABLES)?, None);
    Ok(())
}

/// Superclasses that are none, and metaclasses that are not there.
const MAKES_OBJECTS: [Row; 18] = [
    ("pushstr @ab / new1 1 0", "[unhandled object=6 fault=3]\n"),
    (
        "pushlst @items / new1 1 0",
        "[unhandled object=6 fault=3]\n",
    ),
    ("pushobj 2 / new1 1 0", "[unhandled object=6 fault=3]\n"),
    ("pushobj 3 / new1 1 0", "[unhandled object=6 fault=3]\n"),
    ("pushobj 4 / new1 1 0", "[unhandled object=6 fault=3]\n"),
    ("pushobj 5 / new1 1 0", "[unhandled object=6 fault=3]\n"),
    (
        "new1 0 4 / getr0 / new1 1 0",
        "[unhandled object=7 fault=3]\n",
    ),
    ("pushtrue / new1 1 0", "[unhandled object=6 fault=3]\n"),
    ("pushobj 5 / trnew1 1 0", "[unhandled object=6 fault=3]\n"),
    ("pushobj 99 / new1 1 0", "[unhandled object=6 fault=20]\n"),
    (
        "pushstr @broken / new1 1 0",
        "[unhandled object=6 fault=3]\n",
    ),
    (
        "pushobj 1 / new1 1 0 / getr0 / throw",
        "[unhandled object=6 fault=0]\n",
    ),
    (
        "pushstr @ab / pushobj 1 / new1 2 0 / getr0 / throw",
        "[unhandled object=6 fault=0]\n",
    ),
    (
        "trnew1 0 0 / getr0 / new1 1 0",
        "[unhandled object=6 fault=22]\n",
    ),
    // Past the table.
    ("new1 0 5", "[unhandled object=6 fault=16]\n"),
    ("pushnil / new2 1 65535", "[unhandled object=6 fault=16]\n"),
    ("pushobj 99 / trnew1 1 5", "[unhandled object=6 fault=16]\n"),
    ("new1 1 5", "[bad code at=10 why=Underflow]\n"),
];

#[test]
fn makes_objects(rt: HostRuntime) -> Result<(), Fail> {
    assert_eq!(rt; first_unlike_with_values(rt.alloc(), &MAKES_OBJECTS)?, None);
    Ok(())
}
