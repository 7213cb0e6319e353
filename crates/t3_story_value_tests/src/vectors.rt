//! Making vectors.
use crate::story::first_unlike_with_values;
use std::test::Fail;
use t3_testing::Row;

/// Making vectors.
const MAKES_VECTORS: [Row; 41] = [
    (
        "push_0 / new1 1 3 / getr0 / push_1 / index",
        "[unhandled object=7 fault=6]\n",
    ),
    (
        "pushint 65535 / new1 1 3 / getr0 / throw",
        "[unhandled object=6 fault=0]\n",
    ),
    (
        "pushint8 2 / push_0 / new1 2 3 / getr0 / pushint8 2 / index / builtin_b 1 6 / getr0 / builtin_a 1 0 / retnil",
        "nil\n",
    ),
    (
        "pushint8 2 / push_0 / new1 2 3 / getr0 / pushint8 3 / index",
        "[unhandled object=7 fault=6]\n",
    ),
    (
        "pushint 65535 / push_0 / new1 2 3 / getr0 / pushint 65535 / index / builtin_b 1 6 / getr0 / builtin_a 1 0 / retnil",
        "nil\n",
    ),
    (
        "push_0 / push_0 / new1 2 3 / getr0 / push_1 / index",
        "[unhandled object=7 fault=6]\n",
    ),
    // The elements of a list or a vector.
    (
        "pushlst @items / push_0 / new1 2 3 / getr0 / pushint8 2 / index / builtin_a 1 0 / retnil",
        "b\n",
    ),
    (
        "pushobj 3 / push_0 / new1 2 3 / getr0 / push_1 / index / builtin_a 1 0 / retnil",
        "1\n",
    ),
    (
        "pushobj 4 / push_0 / new1 2 3 / getr0 / pushint8 2 / index / builtin_a 1 0 / retnil",
        "true\n",
    ),
    (
        "pushobj 4 / push_0 / new1 2 3 / getr0 / pushint8 3 / index",
        "[unhandled object=7 fault=6]\n",
    ),
    // It is another vector.
    (
        "pushobj 4 / push_0 / new1 2 3 / push_1 / getr0 / push_1 / setind / disc / pushobj 4 / push_1 / index / builtin_a 1 0 / retnil",
        "5\n",
    ),
    (
        "push_0 / trnew1 1 3 / getr0 / throw",
        "[unhandled object=2147483648 fault=0]\n",
    ),
    (
        "pushobj 4 / push_0 / trnew2 2 3 / getr0 / push_1 / index / builtin_a 1 0 / retnil",
        "5\n",
    ),
    ("new1 0 3", "[unhandled object=6 fault=2]\n"),
    (
        "push_0 / push_0 / push_0 / new1 3 3",
        "[unhandled object=6 fault=2]\n",
    ),
    (
        "pushnil / pushnil / pushnil / new2 3 3",
        "[unhandled object=6 fault=2]\n",
    ),
    // The first argument is an integer.
    ("pushnil / new1 1 3", "[unhandled object=6 fault=3]\n"),
    ("pushstr @ab / new1 1 3", "[unhandled object=6 fault=3]\n"),
    (
        "pushlst @items / new1 1 3",
        "[unhandled object=6 fault=3]\n",
    ),
    ("pushobj 4 / new1 1 3", "[unhandled object=6 fault=3]\n"),
    ("pushobj 99 / new1 1 3", "[unhandled object=6 fault=3]\n"),
    // And the second one an integer, a list or a vector.
    (
        "pushnil / push_0 / new1 2 3",
        "[unhandled object=6 fault=3]\n",
    ),
    (
        "pushtrue / push_0 / new1 2 3",
        "[unhandled object=6 fault=3]\n",
    ),
    (
        "pushstr @ab / push_0 / new1 2 3",
        "[unhandled object=6 fault=3]\n",
    ),
    (
        "pushobj 2 / push_0 / new1 2 3",
        "[unhandled object=6 fault=3]\n",
    ),
    (
        "pushobj 1 / push_0 / new1 2 3",
        "[unhandled object=6 fault=3]\n",
    ),
    (
        "new1 0 4 / getr0 / push_0 / new1 2 3",
        "[unhandled object=7 fault=3]\n",
    ),
    (
        "pushenum 1 / push_0 / new1 2 3",
        "[unhandled object=6 fault=3]\n",
    ),
    (
        "pushobj 99 / push_0 / new1 2 3",
        "[unhandled object=6 fault=20]\n",
    ),
    // That an object isn't there is told before the kinds.
    (
        "pushobj 99 / pushnil / new1 2 3",
        "[unhandled object=6 fault=20]\n",
    ),
    (
        "pushobj 99 / pushint8 -1 / new1 2 3",
        "[unhandled object=6 fault=20]\n",
    ),
    ("pushint8 -1 / new1 1 3", "[unhandled object=6 fault=6]\n"),
    ("pushint 65536 / new1 1 3", "[unhandled object=6 fault=6]\n"),
    (
        "pushint8 -1 / push_0 / new1 2 3",
        "[unhandled object=6 fault=6]\n",
    ),
    (
        "pushint 65536 / push_0 / new1 2 3",
        "[unhandled object=6 fault=6]\n",
    ),
    // Kinds before numbers, and numbers before a list is read.
    (
        "pushnil / pushint8 -1 / new1 2 3",
        "[unhandled object=6 fault=3]\n",
    ),
    (
        "pushint8 -1 / pushnil / new1 2 3",
        "[unhandled object=6 fault=3]\n",
    ),
    (
        "pushlst @wrong / pushnil / new1 2 3",
        "[unhandled object=6 fault=3]\n",
    ),
    (
        "pushlst @wrong / pushint8 -1 / new1 2 3",
        "[unhandled object=6 fault=6]\n",
    ),
    (
        "pushlst @wrong / push_0 / new1 2 3",
        "[unhandled object=6 fault=21]\n",
    ),
    ("push_0 / new1 2 3", "[bad code at=11 why=Underflow]\n"),
];

#[test]
fn makes_vectors(rt: HostRuntime) -> Result<(), Fail> {
    assert_eq!(rt; first_unlike_with_values(rt.alloc(), &MAKES_VECTORS)?, None);
    Ok(())
}
