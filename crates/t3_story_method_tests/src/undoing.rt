//! Undoing what methods changed.
use crate::story::first_unlike;
use std::test::Fail;
use t3_testing::Row;

/// Local 0 has a table with the values 5, 6 and 7 under the keys 1, 2 and 3, or a vector of a list's elements.
const PUTS_BACK: [Row; 5] = [
    // An entry comes back where it stood.
    (
        "new1 0 6 / getr0 / setlcl1 0 / pushint8 5 / getlcl1 0 / push_1 / setind / disc / pushint8 6 / getlcl1 0 / pushint8 2 / setind / disc / pushint8 7 / getlcl1 0 / pushint8 3 / setind / disc / builtin_b 0 13 / pushint8 2 / getlcl1 0 / callprop 1 91 / pushint8 9 / getlcl1 0 / pushint8 2 / setind / disc / getlcl1 0 / getprop 98 / getr0 / pushint8 3 / index / call 1 @show / builtin_b 0 14 / getlcl1 0 / getprop 98 / getr0 / pushint8 2 / index / call 1 @show / getlcl1 0 / getprop 98 / getr0 / pushint8 3 / index / call 1 @show / retnil",
        "967\n",
    ),
    (
        "new1 0 6 / getr0 / setlcl1 0 / builtin_b 0 13 / pushint8 3 / getlcl1 0 / callprop 1 100 / builtin_b 0 14 / getlcl1 0 / getprop 99 / getr0 / call 1 @show / retnil",
        "nil\n",
    ),
    (
        "pushlst @three / push_0 / new1 2 5 / getr0 / setlcl1 0 / builtin_b 0 13 / push_1 / getlcl1 0 / callprop 1 82 / push_1 / getlcl1 0 / callprop 1 80 / builtin_b 0 14 / getlcl1 0 / getprop 61 / getr0 / call 1 @show / getlcl1 0 / push_1 / index / call 1 @show / getlcl1 0 / pushint8 2 / index / call 1 @show / retnil",
        "31112\n",
    ),
    (
        "pushlst @three / push_0 / new1 2 5 / getr0 / setlcl1 0 / builtin_b 0 13 / pushint8 9 / getlcl1 0 / callprop 1 84 / pushint8 20 / getlcl1 0 / callprop 1 80 / builtin_b 0 14 / getlcl1 0 / getprop 61 / getr0 / call 1 @show / retnil",
        "3\n",
    ),
    // What a method made is gone, and its number isn't given again.
    (
        "builtin_b 0 13 / objgetprop 1 21 / getr0 / setlcl1 0 / builtin_b 0 14 / objgetprop 1 21 / getr0 / throw",
        "[unhandled object=5 fault=0]\n",
    ),
];

#[test]
fn puts_back(rt: HostRuntime) -> Result<(), Fail> {
    assert_eq!(rt; first_unlike(rt.alloc(), &PUTS_BACK)?, None);
    Ok(())
}
