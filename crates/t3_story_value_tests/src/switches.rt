//! Switches over texts and lists.
use crate::story::shown_with_values;
use std::alloc::Global;
use std::test::Fail;

/// A value, a switch, and what is shown: 1, 2 or 3 at `first`, `second` or `other`.
type SwitchRow = (&'static str, &'static str, &'static str);

/// What the jumps of a switch go to.
const BRANCHES: &str =
    "first: / push_1 / builtin_a 1 0 / retnil / second: / pushint8 2 / builtin_a 1 0 / retnil / other: / pushint8 3 / builtin_a 1 0 / retnil";

/// The number of the first row whose switch isn't taken as it says.
fn first_unlike_switch(alloc: Global, rows: &[SwitchRow]) -> Result<Option<usize>, Fail> {
    for (index, (value, switch, want)) in rows.iter().enumerate() {
        let body = format!(in alloc; "{value} / {switch} / {BRANCHES}")?;
        let shown = shown_with_values(alloc, &body)?;
        if shown.as_slice() != want.as_bytes() {
            return Ok(Some(index));
        }
    }
    Ok(None)
}

/// A value, the cases of a switch, and which is taken.
const SWITCHES: [SwitchRow; 23] = [
    // Texts.
    (
        "pushobj 2",
        "switch 2 / case 8 @ab @first / case 8 @b @second / default @other",
        "2\n",
    ),
    (
        "pushstr @again",
        "switch 2 / case 8 @ab @first / case 8 @b @second / default @other",
        "1\n",
    ),
    (
        "pushobj 5",
        "switch 2 / case 8 @ab @first / case 8 @b @second / default @other",
        "1\n",
    ),
    (
        "pushstr @empty",
        "switch 2 / case 8 @ab @first / case 8 @b @second / default @other",
        "3\n",
    ),
    (
        "pushnil",
        "switch 2 / case 8 @ab @first / case 8 @b @second / default @other",
        "3\n",
    ),
    (
        "pushlst @items",
        "switch 2 / case 8 @ab @first / case 8 @b @second / default @other",
        "3\n",
    ),
    (
        "pushobj 99",
        "switch 2 / case 8 @ab @first / case 8 @b @second / default @other",
        "3\n",
    ),
    // A case that is a live string, and one that can't be there.
    (
        "pushstr @b",
        "switch 1 / case 5 2 @first / default @other",
        "1\n",
    ),
    (
        "pushobj 99",
        "switch 1 / case 5 99 @first / default @other",
        "1\n",
    ),
    (
        "pushobj 4",
        "switch 2 / case 5 3 @first / case 5 4 @second / default @other",
        "2\n",
    ),
    // Lists.
    (
        "pushobj 3",
        "switch 2 / case 10 @none @first / case 10 @items @second / default @other",
        "2\n",
    ),
    (
        "pushlst @twin",
        "switch 2 / case 10 @items @first / case 10 @items @second / default @other",
        "1\n",
    ),
    (
        "pushlst @none",
        "switch 2 / case 10 @items @first / case 8 @empty @second / default @other",
        "3\n",
    ),
    // What comes after the case that is taken is not read.
    (
        "pushstr @ab",
        "switch 2 / case 8 @ab @first / case 8 @broken @second / default @other",
        "1\n",
    ),
    (
        "pushstr @ab",
        "switch 2 / case 8 @broken @first / case 8 @ab @second / default @other",
        "[unhandled object=6 fault=21]\n",
    ),
    (
        "pushstr @broken",
        "switch 2 / case 7 1 @first / case 10 @items @second / default @other",
        "3\n",
    ),
    (
        "pushstr @broken",
        "switch 2 / case 8 @ab @first / case 8 @b @second / default @other",
        "[unhandled object=6 fault=21]\n",
    ),
    (
        "pushobj 3",
        "switch 1 / case 10 @wrong @first / default @other",
        "[unhandled object=6 fault=21]\n",
    ),
    (
        "pushstr @ab",
        "switch 1 / case 10 @wrong @first / default @other",
        "3\n",
    ),
    (
        "pushlst @looped",
        "switch 1 / case 10 @looped @first / default @other",
        "[unhandled object=6 fault=13]\n",
    ),
    // The first case takes 65,535 turns, and the second one the last.
    (
        "pushint 65533 / push_0 / new1 2 3 / pushlst @none / getr0 / add / setlcl1 0 / getlcl1 0 / push_1 / add / getlcl1 0 / push_0 / add",
        "switch 2 / case 5 8 @first / case 7 1 @second / default @other",
        "3\n",
    ),
    (
        "pushint 65533 / push_0 / new1 2 3 / pushlst @none / getr0 / add / setlcl1 0 / getlcl1 0 / push_1 / add / getlcl1 0 / push_0 / add",
        "switch 3 / case 5 8 @first / case 7 1 @second / case 7 2 @second / default @other",
        "[unhandled object=10 fault=13]\n",
    ),
    (
        "pushint 65533 / push_0 / new1 2 3 / pushlst @none / getr0 / add / setlcl1 0 / getlcl1 0 / push_1 / add / getlcl1 0 / push_0 / add",
        "switch 3 / case 5 8 @first / case 7 1 @second / case 5 9 @second / default @other",
        "[unhandled object=10 fault=13]\n",
    ),
];

#[test]
fn switches(rt: HostRuntime) -> Result<(), Fail> {
    assert_eq!(rt; first_unlike_switch(rt.alloc(), &SWITCHES)?, None);
    Ok(())
}
