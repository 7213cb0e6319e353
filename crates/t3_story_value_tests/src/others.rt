//! Codes on texts, lists and their objects that take other values.
use crate::story::first_unlike_with_values;
use std::test::Fail;
use t3_testing::Row;

/// Codes that take integers, or functions, alone.
const WANTS_INTEGERS: [Row; 33] = [
    (
        "pushstr @ab / push_1 / sub",
        "[unhandled object=6 fault=3]\n",
    ),
    (
        "pushstr @ab / push_1 / mul",
        "[unhandled object=6 fault=3]\n",
    ),
    (
        "pushstr @ab / push_1 / band",
        "[unhandled object=6 fault=3]\n",
    ),
    (
        "pushstr @ab / push_1 / bor",
        "[unhandled object=6 fault=3]\n",
    ),
    (
        "pushstr @ab / push_1 / xor",
        "[unhandled object=6 fault=3]\n",
    ),
    (
        "pushstr @ab / push_1 / shl",
        "[unhandled object=6 fault=3]\n",
    ),
    (
        "pushstr @ab / push_1 / ashr",
        "[unhandled object=6 fault=3]\n",
    ),
    (
        "pushstr @ab / push_1 / lshr",
        "[unhandled object=6 fault=3]\n",
    ),
    (
        "pushstr @ab / push_1 / div",
        "[unhandled object=6 fault=3]\n",
    ),
    (
        "pushstr @ab / push_1 / mod",
        "[unhandled object=6 fault=3]\n",
    ),
    ("pushlst @items / neg", "[unhandled object=6 fault=3]\n"),
    ("pushlst @items / bnot", "[unhandled object=6 fault=3]\n"),
    ("pushlst @items / inc", "[unhandled object=6 fault=3]\n"),
    ("pushlst @items / dec", "[unhandled object=6 fault=3]\n"),
    (
        "push_1 / pushstr @ab / sub",
        "[unhandled object=6 fault=3]\n",
    ),
    // Nothing is read.
    (
        "pushstr @broken / push_1 / mul",
        "[unhandled object=6 fault=3]\n",
    ),
    ("pushobj 2 / neg", "[unhandled object=6 fault=3]\n"),
    ("pushobj 4 / inc", "[unhandled object=6 fault=3]\n"),
    // In a local.
    (
        "pushstr @ab / setlcl1 0 / inclcl 0",
        "[unhandled object=6 fault=3]\n",
    ),
    (
        "pushlst @items / setlcl1 0 / declcl 0",
        "[unhandled object=6 fault=3]\n",
    ),
    (
        "pushstr @ab / setlcl1 0 / addilcl1 0 1",
        "[unhandled object=6 fault=3]\n",
    ),
    (
        "pushobj 3 / setlcl1 0 / addilcl4 0 1",
        "[unhandled object=6 fault=3]\n",
    ),
    (
        "pushstr @ab / setlcl1 0 / push_1 / subfromlcl 0",
        "[unhandled object=6 fault=3]\n",
    ),
    (
        "onelcl1 0 / pushstr @ab / subfromlcl 0",
        "[unhandled object=6 fault=3]\n",
    ),
    (
        "pushstr @ab / setlcl1 0 / lret 0",
        "[unhandled object=6 fault=3]\n",
    ),
    // What is no function isn't called.
    ("pushstr @ab / ptrcall 0", "[unhandled object=6 fault=3]\n"),
    (
        "pushlst @items / ptrcall 0",
        "[unhandled object=6 fault=3]\n",
    ),
    ("pushobj 2 / ptrcall 0", "[unhandled object=6 fault=3]\n"),
    ("pushobj 99 / ptrcall 0", "[unhandled object=6 fault=3]\n"),
    ("pushnil / ptrcall 0", "[unhandled object=6 fault=3]\n"),
    ("pushfnptr 0 / ptrcall 0", "[unhandled object=6 fault=9]\n"),
    ("ptrcall 0", "[bad code at=10 why=Underflow]\n"),
    (
        "pushstr @ab / ptrcall 1",
        "[bad code at=15 why=Underflow]\n",
    ),
];

#[test]
fn wants_integers(rt: HostRuntime) -> Result<(), Fail> {
    assert_eq!(rt;
        first_unlike_with_values(rt.alloc(), &WANTS_INTEGERS)?,
        None
    );
    Ok(())
}

/// Properties of texts, lists and the like, where no method has them, and throwing them.
const TAKES_OBJECTS: [Row; 27] = [
    (
        "pushstr @ab / getprop 3 / getr0 / builtin_b 1 6 / getr0 / builtin_a 1 0 / pushlst @items / getprop 3 / getr0 / builtin_b 1 6 / getr0 / builtin_a 1 0 / pushobj 2 / getprop 3 / getr0 / builtin_b 1 6 / getr0 / builtin_a 1 0 / pushobj 3 / getprop 3 / getr0 / builtin_b 1 6 / getr0 / builtin_a 1 0 / pushobj 4 / getprop 3 / getr0 / builtin_b 1 6 / getr0 / builtin_a 1 0 / retnil",
        "nilnilnilnilnil\n",
    ),
    // The arguments are dropped.
    (
        "push_1 / pushstr @ab / builtin_b 1 0 / pushstr @ab / callprop 1 3 / getr0 / builtin_b 1 6 / getr0 / builtin_a 1 0 / retnil",
        "nil\n",
    ),
    // Nothing is read.
    (
        "pushstr @broken / getprop 3 / getr0 / builtin_b 1 6 / getr0 / builtin_a 1 0 / retnil",
        "nil\n",
    ),
    (
        "push_1 / pushstr @ab / setprop 3",
        "[unhandled object=6 fault=15]\n",
    ),
    (
        "push_1 / pushlst @items / setprop 3",
        "[unhandled object=6 fault=15]\n",
    ),
    (
        "push_1 / pushobj 2 / setprop 3",
        "[unhandled object=6 fault=15]\n",
    ),
    (
        "push_1 / pushobj 3 / setprop 3",
        "[unhandled object=6 fault=15]\n",
    ),
    (
        "push_1 / pushobj 4 / setprop 3",
        "[unhandled object=6 fault=15]\n",
    ),
    (
        "push_1 / new1 0 4 / getr0 / setprop 3",
        "[unhandled object=7 fault=15]\n",
    ),
    (
        "push_1 / pushstr @broken / setprop 3",
        "[unhandled object=6 fault=15]\n",
    ),
    (
        "pushstr @ab / pushobj 1 / setprop 3 / pushobj 1 / getprop 3 / getr0 / builtin_a 1 0 / retnil",
        "ab\n",
    ),
    (
        "pushlst @items / objsetprop 1 3 / objgetprop 1 3 / getr0 / pushint8 2 / index / builtin_a 1 0 / retnil",
        "b\n",
    ),
    (
        "push_1 / pushnil / setprop 3",
        "[unhandled object=6 fault=1]\n",
    ),
    (
        "push_1 / pushobj 99 / setprop 3",
        "[unhandled object=6 fault=20]\n",
    ),
    ("push_1 / objsetprop 2 3", "[unhandled object=6 fault=15]\n"),
    // What is no property is told first.
    (
        "push_1 / pushobj 99 / pushstr @ab / ptrsetprop",
        "[unhandled object=6 fault=3]\n",
    ),
    (
        "pushobj 1 / pushstr @ab / ptrcallprop 0",
        "[unhandled object=6 fault=3]\n",
    ),
    (
        "pushstr @ab / delegate 0 3",
        "[unhandled object=6 fault=1]\n",
    ),
    ("pushobj 2 / delegate 0 3", "[unhandled object=6 fault=1]\n"),
    ("expinherit 0 3 4", "[unhandled object=6 fault=1]\n"),
    ("pushobj 2 / throw", "[unhandled object=2 fault=0]\n"),
    ("pushobj 4 / throw", "[unhandled object=4 fault=0]\n"),
    // Constants are no references.
    ("pushstr @ab / throw", "[unhandled object=6 fault=1]\n"),
    ("pushlst @items / throw", "[unhandled object=6 fault=1]\n"),
    // No function says texts.
    ("pushstr @ab / sayval", "[unhandled object=6 fault=12]\n"),
    ("say @ab", "[unhandled object=6 fault=12]\n"),
    ("say @broken", "[unhandled object=6 fault=12]\n"),
];

#[test]
fn takes_objects(rt: HostRuntime) -> Result<(), Fail> {
    assert_eq!(rt; first_unlike_with_values(rt.alloc(), &TAKES_OBJECTS)?, None);
    Ok(())
}
