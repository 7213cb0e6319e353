//! Methods of lists, vectors and tables.
use crate::story::first_unlike;
use std::test::Fail;
use t3_testing::Row;

/// Lists, constant ones too.
const LISTS: [Row; 6] = [
    (
        "pushlst @three / getprop 42 / getr0 / call 1 @show / pushint8 11 / pushlst @three / callprop 1 45 / getr0 / call 1 @show / pushint8 13 / pushlst @three / callprop 1 45 / getr0 / call 1 @show / retnil",
        "31nil\n",
    ),
    // A list that is in a list is found by its elements.
    (
        "pushstr @word / new1 1 2 / getr0 / pushlst @pair / callprop 1 45 / getr0 / call 1 @show / retnil",
        "1\n",
    ),
    (
        "push_1 / pushint8 2 / pushlst @three / callprop 2 43 / getr0 / setlcl1 0 / getlcl1 0 / getprop 42 / getr0 / call 1 @show / getlcl1 0 / push_1 / index / call 1 @show / retnil",
        "112\n",
    ),
    // The list itself isn't changed.
    (
        "pushint8 5 / pushlst @three / callprop 1 58 / getr0 / setlcl1 0 / getlcl1 0 / getprop 42 / getr0 / call 1 @show / getlcl1 0 / pushint8 4 / index / call 1 @show / pushlst @three / getprop 42 / getr0 / call 1 @show / retnil",
        "453\n",
    ),
    (
        "pushint8 5 / pushlst 4000 / callprop 1 58",
        "[unhandled object=4 fault=21]\n",
    ),
    (
        "pushlst @three / getprop 44",
        "[unhandled object=4 fault=7]\n",
    ),
];

#[test]
fn has_methods_of_lists(rt: HostRuntime) -> Result<(), Fail> {
    assert_eq!(rt; first_unlike(rt.alloc(), &LISTS)?, None);
    Ok(())
}

/// Vectors.
const VECTORS: [Row; 6] = [
    (
        "pushlst @three / push_0 / new1 2 5 / getr0 / setlcl1 0 / getlcl1 0 / getprop 61 / getr0 / call 1 @show / pushint8 12 / getlcl1 0 / callprop 1 70 / getr0 / call 1 @show / getlcl1 0 / getprop 60 / getr0 / getprop 42 / getr0 / call 1 @show / retnil",
        "323\n",
    ),
    // Its answer is self.
    (
        "pushlst @three / push_0 / new1 2 5 / getr0 / setlcl1 0 / pushint8 5 / getlcl1 0 / callprop 1 80 / getr0 / getprop 61 / getr0 / call 1 @show / getlcl1 0 / pushint8 5 / index / call 1 @show / push_1 / getlcl1 0 / callprop 1 80 / getlcl1 0 / getprop 61 / getr0 / call 1 @show / retnil",
        "5nil1\n",
    ),
    (
        "pushlst @three / push_0 / new1 2 5 / getr0 / setlcl1 0 / push_1 / getlcl1 0 / callprop 1 82 / getr0 / getprop 61 / getr0 / call 1 @show / getlcl1 0 / push_1 / index / call 1 @show / getlcl1 0 / pushint8 2 / index / call 1 @show / retnil",
        "21211\n",
    ),
    (
        "pushlst @three / push_0 / new1 2 5 / getr0 / setlcl1 0 / pushint8 9 / getlcl1 0 / callprop 1 84 / getlcl1 0 / pushint8 4 / index / call 1 @show / retnil",
        "9\n",
    ),
    (
        "pushlst @three / push_0 / new1 2 5 / pushint8 4 / getr0 / callprop 1 82",
        "[unhandled object=5 fault=6]\n",
    ),
    (
        "pushlst @three / push_0 / new1 2 5 / pushint 65536 / getr0 / callprop 1 80",
        "[unhandled object=5 fault=6]\n",
    ),
];

#[test]
fn has_methods_of_vectors(rt: HostRuntime) -> Result<(), Fail> {
    assert_eq!(rt; first_unlike(rt.alloc(), &VECTORS)?, None);
    Ok(())
}

/// Tables.
const TABLES: [Row; 6] = [
    (
        "new1 0 6 / getr0 / setlcl1 0 / pushint8 5 / getlcl1 0 / pushstr @word / setind / disc / pushstr @word / getlcl1 0 / callprop 1 90 / getr0 / call 1 @show / push_1 / getlcl1 0 / callprop 1 90 / getr0 / call 1 @show / getlcl1 0 / getprop 95 / getr0 / call 1 @show / retnil",
        "truenil1\n",
    ),
    // The former value, and nil where there was none.
    (
        "new1 0 6 / getr0 / setlcl1 0 / pushint8 5 / getlcl1 0 / pushstr @word / setind / disc / pushstr @word / getlcl1 0 / callprop 1 91 / getr0 / call 1 @show / pushstr @word / getlcl1 0 / callprop 1 91 / getr0 / call 1 @show / getlcl1 0 / getprop 95 / getr0 / call 1 @show / retnil",
        "5nil0\n",
    ),
    // In the table's order.
    (
        "new1 0 6 / getr0 / setlcl1 0 / pushint8 5 / getlcl1 0 / pushstr @word / setind / disc / pushint8 6 / getlcl1 0 / push_1 / setind / disc / getlcl1 0 / getprop 97 / getr0 / push_1 / index / call 1 @show / getlcl1 0 / getprop 98 / getr0 / pushint8 2 / index / call 1 @show / retnil",
        "wörd6\n",
    ),
    (
        "new1 0 6 / getr0 / setlcl1 0 / getlcl1 0 / getprop 99 / getr0 / call 1 @show / pushint8 3 / getlcl1 0 / callprop 1 100 / getr0 / call 1 @show / getlcl1 0 / getprop 99 / getr0 / call 1 @show / getlcl1 0 / push_1 / index / call 1 @show / retnil",
        "nilnil33\n",
    ),
    (
        "new1 0 6 / pushlst @three / getr0 / callprop 1 90",
        "[unhandled object=5 fault=14]\n",
    ),
    (
        "new1 0 6 / getr0 / getprop 91",
        "[unhandled object=5 fault=2]\n",
    ),
];

#[test]
fn has_methods_of_tables(rt: HostRuntime) -> Result<(), Fail> {
    assert_eq!(rt; first_unlike(rt.alloc(), &TABLES)?, None);
    Ok(())
}
