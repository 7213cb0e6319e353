//! Adding to lists, on the stack and in a local.
use crate::story::shown_with_values;
use std::alloc::Global;
use std::test::Fail;

/// A left operand, a right one, what is done with their sum, and what is shown.
type SumRow = (&'static str, &'static str, &'static str, &'static str);

/// The number of the first row whose sum, on the stack or in a local, isn't as it says.
fn first_unlike_sum(alloc: Global, rows: &[SumRow]) -> Result<Option<usize>, Fail> {
    for (index, (left, right, rest, want)) in rows.iter().enumerate() {
        let on_stack = format!(in alloc; "{left} / {right} / add / {rest}")?;
        let in_local = format!(in alloc;
            "{left} / setlcl1 1 / {right} / addtolcl 1 / getlcl1 1 / {rest}"
        )?;
        let first = shown_with_values(alloc, &on_stack)?;
        let second = shown_with_values(alloc, &in_local)?;
        if first.as_slice() != want.as_bytes() || second.as_slice() != want.as_bytes() {
            return Ok(Some(index));
        }
    }
    Ok(None)
}

/// A list and what is added to it.
const ADDS_TO_LISTS: [SumRow; 30] = [
    (
        "pushlst @items",
        "pushlst @items",
        "pushint8 5 / index / builtin_a 1 0 / retnil",
        "b\n",
    ),
    (
        "pushlst @items",
        "pushlst @items",
        "pushint8 7 / index / builtin_a 1 0 / retnil",
        "[unhandled object=7 fault=6]\n",
    ),
    (
        "pushlst @items",
        "pushobj 3",
        "pushint8 4 / index / builtin_a 1 0 / retnil",
        "1\n",
    ),
    (
        "pushobj 3",
        "pushlst @twin",
        "pushint8 5 / index / builtin_a 1 0 / retnil",
        "b\n",
    ),
    // The elements of a vector.
    (
        "pushlst @items",
        "pushobj 4",
        "pushint8 4 / index / builtin_a 1 0 / retnil",
        "5\n",
    ),
    (
        "pushobj 3",
        "pushobj 4",
        "pushint8 5 / index / builtin_a 1 0 / retnil",
        "true\n",
    ),
    (
        "pushlst @items",
        "pushobj 4",
        "pushint8 6 / index / builtin_a 1 0 / retnil",
        "[unhandled object=7 fault=6]\n",
    ),
    // Any other value as one element.
    (
        "pushlst @items",
        "pushstr @ab",
        "pushint8 4 / index / builtin_a 1 0 / retnil",
        "ab\n",
    ),
    (
        "pushlst @items",
        "pushnil",
        "pushint8 4 / index / builtin_b 1 6 / getr0 / builtin_a 1 0 / retnil",
        "nil\n",
    ),
    (
        "pushlst @items",
        "pushnil",
        "pushint8 5 / index / builtin_b 1 6 / getr0 / builtin_a 1 0 / retnil",
        "[unhandled object=7 fault=6]\n",
    ),
    (
        "pushlst @items",
        "pushtrue",
        "pushint8 4 / index / builtin_a 1 0 / retnil",
        "true\n",
    ),
    (
        "pushlst @items",
        "pushobj 2",
        "pushint8 4 / index / builtin_a 1 0 / retnil",
        "b\n",
    ),
    (
        "pushlst @items",
        "pushobj 1",
        "pushint8 4 / index / throw",
        "[unhandled object=1 fault=0]\n",
    ),
    (
        "pushlst @items",
        "new1 0 4 / getr0",
        "pushint8 4 / index / throw",
        "[unhandled object=6 fault=0]\n",
    ),
    (
        "pushlst @items",
        "pushobj 99",
        "pushint8 4 / index / pushobj 99 / eq / builtin_a 1 0 / retnil",
        "true\n",
    ),
    (
        "pushlst @items",
        "pushstr @broken",
        "pushint8 4 / index / builtin_b 1 0 / getr0 / builtin_a 1 0 / retnil",
        "8\n",
    ),
    (
        "pushlst @looped",
        "pushlst @looped",
        "pushint8 2 / index / push_1 / index / builtin_b 1 0 / getr0 / builtin_a 1 0 / retnil",
        "10\n",
    ),
    (
        "pushlst @none",
        "pushlst @none",
        "pushint8 1 / index / builtin_a 1 0 / retnil",
        "[unhandled object=7 fault=6]\n",
    ),
    // A new list.
    (
        "pushlst @items",
        "pushlst @none",
        "throw",
        "[unhandled object=6 fault=0]\n",
    ),
    (
        "pushobj 3",
        "push_1",
        "disc / pushobj 3 / pushint8 4 / index",
        "[unhandled object=7 fault=6]\n",
    ),
    (
        "pushlst @wrong",
        "push_1",
        "builtin_a 1 0 / retnil",
        "[unhandled object=6 fault=21]\n",
    ),
    (
        "pushlst @items",
        "pushlst @wrong",
        "builtin_a 1 0 / retnil",
        "[unhandled object=6 fault=21]\n",
    ),
    (
        "pushlst @wrong",
        "pushobj 99",
        "builtin_a 1 0 / retnil",
        "[unhandled object=6 fault=21]\n",
    ),
    // 65,535 elements.
    (
        "pushlst @none / pushint 65535 / push_0 / new1 2 3 / getr0 / add",
        "pushlst @none",
        "throw",
        "[unhandled object=8 fault=0]\n",
    ),
    (
        "pushlst @none / pushint 65535 / push_0 / new1 2 3 / getr0 / add",
        "pushnil",
        "builtin_a 1 0 / retnil",
        "[unhandled object=8 fault=11]\n",
    ),
    (
        "pushlst @none / pushint 65535 / push_0 / new1 2 3 / getr0 / add",
        "pushobj 3",
        "builtin_a 1 0 / retnil",
        "[unhandled object=8 fault=11]\n",
    ),
    (
        "pushlst @none / pushint 65535 / push_0 / new1 2 3 / getr0 / add",
        "pushobj 4",
        "builtin_a 1 0 / retnil",
        "[unhandled object=8 fault=11]\n",
    ),
    (
        "pushlst @none / pushint 65535 / push_0 / new1 2 3 / getr0 / add",
        "pushobj 99",
        "builtin_a 1 0 / retnil",
        "[unhandled object=8 fault=11]\n",
    ),
    (
        "pushlst @items",
        "pushlst @none / pushint 65535 / push_0 / new1 2 3 / getr0 / add",
        "builtin_a 1 0 / retnil",
        "[unhandled object=8 fault=11]\n",
    ),
    (
        "pushlst @none / pushint 65535 / push_0 / new1 2 3 / getr0 / add",
        "pushlst @wrong",
        "builtin_a 1 0 / retnil",
        "[unhandled object=8 fault=21]\n",
    ),
];

#[test]
fn adds_to_lists(rt: HostRuntime) -> Result<(), Fail> {
    assert_eq!(rt; first_unlike_sum(rt.alloc(), &ADDS_TO_LISTS)?, None);
    Ok(())
}
