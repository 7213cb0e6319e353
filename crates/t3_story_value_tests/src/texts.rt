//! Adding to texts, on the stack and in a local.
use crate::story::{first_unlike_with_values, shown_with_values};
use std::alloc::Global;
use std::test::Fail;
use t3_testing::Row;

/// A left operand, a right one, what is done with their sum, and what is shown.
type SumRow = (&'static str, &'static str, &'static str, &'static str);

/// The number of the first row whose sum, on the stack or in a local, isn't as it says.
fn first_unlike_sum(alloc: Global, rows: &[SumRow]) -> Result<Option<usize>, Fail> {
    for (index, (left, right, rest, want)) in rows.iter().enumerate() {
        let on_stack = format!(in alloc; "{left} / {right} / add / {rest}")?;
        let in_local = format!(in alloc;
            "{left} / setlcl1 1 / {right} / addtolcl 1 / getlcl1 1 / {rest}"
        )?;
        let first = shown_with_values(alloc, &on_stack)?;
        let second = shown_with_values(alloc, &in_local)?;
        if first.as_slice() != want.as_bytes() || second.as_slice() != want.as_bytes() {
            return Ok(Some(index));
        }
    }
    Ok(None)
}

/// A text and what is added to it.
const ADDS_TEXTS: [SumRow; 41] = [
    (
        "pushstr @ab",
        "pushstr @b",
        "builtin_a 1 0 / retnil",
        "abb\n",
    ),
    ("pushobj 2", "pushobj 2", "builtin_a 1 0 / retnil", "bb\n"),
    (
        "pushobj 5",
        "pushstr @ab",
        "builtin_a 1 0 / retnil",
        "abab\n",
    ),
    (
        "pushstr @ab",
        "pushstr @empty",
        "builtin_a 1 0 / retnil",
        "ab\n",
    ),
    (
        "pushstr @ab",
        "pushobj 2",
        "builtin_a 1 0 / retnil",
        "abb\n",
    ),
    ("pushstr @ab", "pushnil", "builtin_a 1 0 / retnil", "ab\n"),
    ("pushobj 2", "pushtrue", "builtin_a 1 0 / retnil", "btrue\n"),
    (
        "pushstr @ab",
        "pushint8 -5",
        "builtin_a 1 0 / retnil",
        "ab-5\n",
    ),
    (
        "pushstr @empty",
        "pushint -2147483648",
        "builtin_a 1 0 / retnil",
        "-2147483648\n",
    ),
    ("pushobj 2", "push_0", "builtin_a 1 0 / retnil", "b0\n"),
    // A new string, and a persistent one, whatever it is made of.
    (
        "pushobj 2",
        "pushnil",
        "throw",
        "[unhandled object=6 fault=0]\n",
    ),
    (
        "pushobj 5",
        "pushstr @ab",
        "throw",
        "[unhandled object=6 fault=0]\n",
    ),
    (
        "pushobj 2",
        "pushstr @ab",
        "disc / pushobj 2 / builtin_a 1 0 / retnil",
        "b\n",
    ),
    (
        "pushstr @ab",
        "pushlst @items",
        "builtin_a 1 0 / retnil",
        "[unhandled object=6 fault=3]\n",
    ),
    (
        "pushstr @ab",
        "pushobj 3",
        "builtin_a 1 0 / retnil",
        "[unhandled object=6 fault=3]\n",
    ),
    (
        "pushstr @ab",
        "pushobj 4",
        "builtin_a 1 0 / retnil",
        "[unhandled object=6 fault=3]\n",
    ),
    (
        "pushstr @ab",
        "new1 0 4 / getr0",
        "builtin_a 1 0 / retnil",
        "[unhandled object=7 fault=3]\n",
    ),
    (
        "pushstr @ab",
        "pushobj 1",
        "builtin_a 1 0 / retnil",
        "[unhandled object=6 fault=3]\n",
    ),
    (
        "pushstr @ab",
        "pushpropid 3",
        "builtin_a 1 0 / retnil",
        "[unhandled object=6 fault=3]\n",
    ),
    (
        "pushstr @ab",
        "pushfnptr 0",
        "builtin_a 1 0 / retnil",
        "[unhandled object=6 fault=3]\n",
    ),
    (
        "pushstr @ab",
        "pushenum 1",
        "builtin_a 1 0 / retnil",
        "[unhandled object=6 fault=3]\n",
    ),
    (
        "pushobj 2",
        "pushlst @items",
        "builtin_a 1 0 / retnil",
        "[unhandled object=6 fault=3]\n",
    ),
    (
        "pushstr @ab",
        "pushobj 99",
        "builtin_a 1 0 / retnil",
        "[unhandled object=6 fault=20]\n",
    ),
    (
        "pushobj 99",
        "pushstr @ab",
        "builtin_a 1 0 / retnil",
        "[unhandled object=6 fault=20]\n",
    ),
    (
        "pushobj 99",
        "pushobj 98",
        "builtin_a 1 0 / retnil",
        "[unhandled object=6 fault=20]\n",
    ),
    // The right one's object isn't needed.
    (
        "pushnil",
        "pushobj 99",
        "builtin_a 1 0 / retnil",
        "[unhandled object=6 fault=3]\n",
    ),
    (
        "pushstr @broken",
        "pushstr @ab",
        "builtin_a 1 0 / retnil",
        "[unhandled object=6 fault=21]\n",
    ),
    (
        "pushstr @ab",
        "pushstr @broken",
        "builtin_a 1 0 / retnil",
        "[unhandled object=6 fault=21]\n",
    ),
    (
        "pushstr @cut",
        "pushnil",
        "builtin_a 1 0 / retnil",
        "[unhandled object=6 fault=21]\n",
    ),
    (
        "pushstr @broken",
        "push_1",
        "builtin_a 1 0 / retnil",
        "[unhandled object=6 fault=21]\n",
    ),
    // Kinds are told before a text is read.
    (
        "pushstr @broken",
        "pushlst @items",
        "builtin_a 1 0 / retnil",
        "[unhandled object=6 fault=3]\n",
    ),
    (
        "pushstr @broken",
        "pushobj 99",
        "builtin_a 1 0 / retnil",
        "[unhandled object=6 fault=20]\n",
    ),
    (
        "pushstr @ab",
        "pushlst @wrong",
        "builtin_a 1 0 / retnil",
        "[unhandled object=6 fault=3]\n",
    ),
    // 65,535 bytes.
    (
        "pushint 65535 / pushint8 97 / builtin_b 2 20 / getr0",
        "pushnil",
        "throw",
        "[unhandled object=7 fault=0]\n",
    ),
    (
        "pushint 65535 / pushint8 97 / builtin_b 2 20 / getr0",
        "pushstr @empty",
        "throw",
        "[unhandled object=7 fault=0]\n",
    ),
    (
        "pushint 65535 / pushint8 97 / builtin_b 2 20 / getr0",
        "pushobj 2",
        "builtin_a 1 0 / retnil",
        "[unhandled object=7 fault=10]\n",
    ),
    (
        "pushint 65535 / pushint8 97 / builtin_b 2 20 / getr0",
        "pushtrue",
        "builtin_a 1 0 / retnil",
        "[unhandled object=7 fault=10]\n",
    ),
    (
        "pushint 65535 / pushint8 97 / builtin_b 2 20 / getr0",
        "push_0",
        "builtin_a 1 0 / retnil",
        "[unhandled object=7 fault=10]\n",
    ),
    (
        "pushstr @b",
        "pushint 65535 / pushint8 97 / builtin_b 2 20 / getr0",
        "builtin_a 1 0 / retnil",
        "[unhandled object=7 fault=10]\n",
    ),
    // What can't be read is told first.
    (
        "pushint 65535 / pushint8 97 / builtin_b 2 20 / getr0",
        "pushstr @broken",
        "builtin_a 1 0 / retnil",
        "[unhandled object=7 fault=21]\n",
    ),
    (
        "pushint 65535 / pushint8 97 / builtin_b 2 20 / getr0",
        "pushlst @items",
        "builtin_a 1 0 / retnil",
        "[unhandled object=7 fault=3]\n",
    ),
];

#[test]
fn adds_texts(rt: HostRuntime) -> Result<(), Fail> {
    assert_eq!(rt; first_unlike_sum(rt.alloc(), &ADDS_TEXTS)?, None);
    Ok(())
}

/// What nothing is added to but integers.
const ADDS_NOTHING: [SumRow; 16] = [
    (
        "pushnil",
        "pushstr @ab",
        "builtin_a 1 0 / retnil",
        "[unhandled object=6 fault=3]\n",
    ),
    (
        "pushtrue",
        "pushstr @ab",
        "builtin_a 1 0 / retnil",
        "[unhandled object=6 fault=3]\n",
    ),
    (
        "push_1",
        "pushstr @ab",
        "builtin_a 1 0 / retnil",
        "[unhandled object=6 fault=3]\n",
    ),
    (
        "pushobj 1",
        "pushstr @ab",
        "builtin_a 1 0 / retnil",
        "[unhandled object=6 fault=3]\n",
    ),
    (
        "pushobj 4",
        "pushstr @ab",
        "builtin_a 1 0 / retnil",
        "[unhandled object=6 fault=3]\n",
    ),
    (
        "new1 0 4 / getr0",
        "pushstr @ab",
        "builtin_a 1 0 / retnil",
        "[unhandled object=7 fault=3]\n",
    ),
    (
        "pushpropid 3",
        "pushstr @ab",
        "builtin_a 1 0 / retnil",
        "[unhandled object=6 fault=3]\n",
    ),
    (
        "pushfnptr 0",
        "pushstr @ab",
        "builtin_a 1 0 / retnil",
        "[unhandled object=6 fault=3]\n",
    ),
    (
        "pushenum 1",
        "pushstr @ab",
        "builtin_a 1 0 / retnil",
        "[unhandled object=6 fault=3]\n",
    ),
    (
        "push_1",
        "pushlst @items",
        "builtin_a 1 0 / retnil",
        "[unhandled object=6 fault=3]\n",
    ),
    (
        "pushobj 4",
        "push_1",
        "builtin_a 1 0 / retnil",
        "[unhandled object=6 fault=3]\n",
    ),
    (
        "pushobj 4",
        "pushlst @wrong",
        "builtin_a 1 0 / retnil",
        "[unhandled object=6 fault=3]\n",
    ),
    (
        "pushnil",
        "pushstr @broken",
        "builtin_a 1 0 / retnil",
        "[unhandled object=6 fault=3]\n",
    ),
    (
        "pushobj 99",
        "push_1",
        "builtin_a 1 0 / retnil",
        "[unhandled object=6 fault=20]\n",
    ),
    (
        "pushobj 99",
        "pushlst @wrong",
        "builtin_a 1 0 / retnil",
        "[unhandled object=6 fault=20]\n",
    ),
    ("pushint8 2", "pushint8 3", "builtin_a 1 0 / retnil", "5\n"),
];

#[test]
fn adds_to_nothing_else(rt: HostRuntime) -> Result<(), Fail> {
    assert_eq!(rt; first_unlike_sum(rt.alloc(), &ADDS_NOTHING)?, None);
    Ok(())
}

/// Operands and locals that are not there.
const ADDS_TO_LOCALS: [Row; 5] = [
    ("pushstr @ab / add", "[bad code at=15 why=Underflow]\n"),
    ("addtolcl 9", "[bad code at=10 why=Underflow]\n"),
    ("pushstr @ab / addtolcl 2", "[bad code at=15 why=Local]\n"),
    (
        "pushstr @broken / addtolcl 2",
        "[bad code at=15 why=Local]\n",
    ),
    (
        "pushstr @ab / setlcl1 0 / pushstr @b / addtolcl 0 / push_1 / addtolcl 0 / getlcl1 0 / builtin_a 1 0 / retnil",
        "abb1\n",
    ),
];

#[test]
fn wants_operands(rt: HostRuntime) -> Result<(), Fail> {
    assert_eq!(rt;
        first_unlike_with_values(rt.alloc(), &ADDS_TO_LOCALS)?,
        None
    );
    Ok(())
}
