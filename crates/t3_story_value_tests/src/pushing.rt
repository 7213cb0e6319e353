//! Pushing constants.
use crate::story::first_unlike_with_values;
use std::test::Fail;
use t3_testing::Row;

/// Pushing constants and what tells nothing of them apart from their kind.
const PUSHES: [Row; 10] = [
    (
        "pushstr @ab / builtin_a 1 0 / pushlst @items / push_1 / index / builtin_a 1 0 / retnil",
        "ab1\n",
    ),
    (
        "pushstr @ab / builtin_b 1 0 / getr0 / builtin_a 1 0 / pushlst @items / builtin_b 1 0 / getr0 / builtin_a 1 0 / retnil",
        "810\n",
    ),
    // Nothing is read, whether it stands there or not.
    (
        "pushstr @broken / disc / pushlst @wrong / disc / pushstr 99999 / disc / pushlst 99999 / disc / retnil",
        "",
    ),
    // Empty ones are true as well.
    (
        "pushstr @empty / boolize / builtin_a 1 0 / pushlst @none / boolize / builtin_a 1 0 / pushstr @broken / not / builtin_b 1 6 / getr0 / builtin_a 1 0 / retnil",
        "truetruenil\n",
    ),
    (
        "pushstr @broken / jt @x / retnil / x: / pushlst @wrong / jf @y / push_1 / builtin_a 1 0 / y: / retnil",
        "1\n",
    ),
    // No value is pushed onto 65,536.
    (
        "loop: / pushstr @ab / jmp @loop",
        "[unhandled object=6 fault=9]\n",
    ),
    (
        "loop: / pushlst @none / jmp @loop",
        "[unhandled object=6 fault=9]\n",
    ),
    // Two locals and 65,533 operands leave room for one more.
    (
        "pushint 65533 / setlcl1 0 / loop: / pushlst @none / declcl 0 / getlcl1 0 / jt @loop / pushstr @ab / builtin_a 1 0 / pushstr @ab / pushstr @ab",
        "ab\n[unhandled object=6 fault=9]\n",
    ),
    (
        "pushint 65533 / setlcl1 0 / loop: / pushlst @none / declcl 0 / getlcl1 0 / jt @loop / pushstr @ab / pushlst @none",
        "[unhandled object=6 fault=9]\n",
    ),
    ("pushstr @ab / retval", ""),
];

#[test]
fn pushes_constants(rt: HostRuntime) -> Result<(), Fail> {
    assert_eq!(rt; first_unlike_with_values(rt.alloc(), &PUSHES)?, None);
    Ok(())
}
