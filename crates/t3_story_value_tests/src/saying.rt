//! Saying values.
use crate::story::first_unlike_with_values;
use std::test::Fail;
use t3_testing::Row;

/// Saying values together.
const SAYS: [Row; 33] = [
    ("pushstr @ab / builtin_a 1 0 / retnil", "ab\n"),
    (
        "pushobj 2 / builtin_a 1 0 / pushobj 5 / builtin_a 1 0 / retnil",
        "bab\n",
    ),
    // The topmost first.
    ("pushobj 2 / pushstr @ab / builtin_a 2 0 / retnil", "abb\n"),
    (
        "pushint8 -5 / pushtrue / pushnil / pushstr @ab / builtin_a 4 0 / retnil",
        "abtrue-5\n",
    ),
    (
        "pushnil / builtin_a 1 0 / pushstr @empty / builtin_a 1 0 / retnil",
        "",
    ),
    // The register is nil.
    (
        "pushstr @ab / builtin_a 1 0 / getr0 / builtin_b 1 6 / getr0 / builtin_a 1 0 / retnil",
        "abnil\n",
    ),
    (
        "pushint 8364 / builtin_b 1 20 / getr0 / builtin_a 1 0 / retnil",
        "€\n",
    ),
    (
        "pushint8 10 / builtin_b 1 20 / getr0 / builtin_a 1 0 / retnil",
        "\n",
    ),
    (
        "pushlst @items / builtin_a 1 0",
        "[unhandled object=6 fault=3]\n",
    ),
    (
        "pushobj 3 / builtin_a 1 0",
        "[unhandled object=6 fault=3]\n",
    ),
    (
        "pushobj 4 / builtin_a 1 0",
        "[unhandled object=6 fault=3]\n",
    ),
    (
        "pushobj 1 / builtin_a 1 0",
        "[unhandled object=6 fault=3]\n",
    ),
    (
        "new1 0 4 / getr0 / builtin_a 1 0",
        "[unhandled object=7 fault=3]\n",
    ),
    (
        "pushpropid 3 / builtin_a 1 0",
        "[unhandled object=6 fault=3]\n",
    ),
    (
        "pushfnptr 0 / builtin_a 1 0",
        "[unhandled object=6 fault=3]\n",
    ),
    (
        "pushenum 1 / builtin_a 1 0",
        "[unhandled object=6 fault=3]\n",
    ),
    (
        "pushlst @wrong / builtin_a 1 0",
        "[unhandled object=6 fault=3]\n",
    ),
    (
        "pushobj 99 / builtin_a 1 0",
        "[unhandled object=6 fault=20]\n",
    ),
    (
        "pushstr @broken / builtin_a 1 0",
        "[unhandled object=6 fault=21]\n",
    ),
    (
        "pushstr @cut / builtin_a 1 0",
        "[unhandled object=6 fault=21]\n",
    ),
    (
        "pushstr 99999 / builtin_a 1 0",
        "[unhandled object=6 fault=21]\n",
    ),
    // Nothing is said where one value has no text.
    (
        "pushlst @items / pushstr @ab / builtin_a 2 0",
        "[unhandled object=6 fault=3]\n",
    ),
    (
        "pushstr @broken / pushstr @ab / builtin_a 2 0",
        "[unhandled object=6 fault=21]\n",
    ),
    // An object that isn't there is told first, then kinds, and then what can't be read.
    (
        "pushobj 99 / pushlst @items / builtin_a 2 0",
        "[unhandled object=6 fault=20]\n",
    ),
    (
        "pushlst @items / pushobj 99 / builtin_a 2 0",
        "[unhandled object=6 fault=20]\n",
    ),
    (
        "pushobj 99 / pushstr @broken / builtin_a 2 0",
        "[unhandled object=6 fault=20]\n",
    ),
    (
        "pushstr @broken / pushobj 99 / builtin_a 2 0",
        "[unhandled object=6 fault=20]\n",
    ),
    (
        "pushlst @items / pushstr @broken / builtin_a 2 0",
        "[unhandled object=6 fault=3]\n",
    ),
    (
        "pushstr @broken / pushlst @items / builtin_a 2 0",
        "[unhandled object=6 fault=3]\n",
    ),
    (
        "pushobj 99 / pushlst @items / pushstr @broken / builtin_a 3 0",
        "[unhandled object=6 fault=20]\n",
    ),
    (
        "pushstr @ab / builtin_a 0 0",
        "[unhandled object=6 fault=2]\n",
    ),
    // A line of input, of which there is none: nil, and the code ends there.
    ("builtin_a 0 4", "[bad code at=13 why=NoByte]\n"),
    (
        "pushstr @ab / builtin_a 2 0",
        "[bad code at=15 why=Underflow]\n",
    ),
];

#[test]
fn says_values(rt: HostRuntime) -> Result<(), Fail> {
    assert_eq!(rt; first_unlike_with_values(rt.alloc(), &SAYS)?, None);
    Ok(())
}
