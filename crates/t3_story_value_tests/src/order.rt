//! The order of values, by each code that tells it.
use crate::forms::{OperandsRow, first_unlike_of};
use std::test::Fail;

/// Each code that tells whether two operands are so that the left one is less.
const LESS_FORMS: [&str; 4] = [
    "lt / jt @yes",
    "ge / jf @yes",
    "jlt @yes",
    "jge @no / jmp @yes",
];

/// Whether the left value is less: texts by their bytes, and integers by number.
const LESS: [OperandsRow; 15] = [
    ("pushstr @ab", "pushstr @b", "1\n"),
    ("pushstr @b", "pushstr @ab", "0\n"),
    ("pushstr @ab", "pushstr @again", "0\n"),
    ("pushstr @empty", "pushstr @ab", "1\n"),
    ("pushstr @ab", "pushstr @empty", "0\n"),
    ("pushstr @ab", "pushobj 2", "1\n"),
    ("pushobj 2", "pushobj 5", "0\n"),
    ("pushobj 5", "pushobj 2", "1\n"),
    ("pushobj 2", "pushstr @b", "0\n"),
    // The longer of two with one front.
    ("pushstr @ab", "pushstr @ab / pushobj 2 / add", "1\n"),
    ("pushstr @ab / pushobj 2 / add", "pushstr @ab", "0\n"),
    // Bytes from 128 on are above letters.
    ("pushint 233 / builtin_b 1 20 / getr0", "pushobj 2", "0\n"),
    ("pushobj 2", "pushint 233 / builtin_b 1 20 / getr0", "1\n"),
    // Integers by number.
    ("pushint8 -1", "push_0", "1\n"),
    ("push_0", "push_0", "0\n"),
];

#[test]
fn is_less(rt: HostRuntime) -> Result<(), Fail> {
    assert_eq!(rt; first_unlike_of(rt.alloc(), &LESS_FORMS, &LESS)?, None);
    Ok(())
}

/// What has no order.
const LESS_FAULTS: [OperandsRow; 22] = [
    ("pushstr @ab", "pushnil", "[unhandled object=6 fault=3]\n"),
    ("pushnil", "pushstr @ab", "[unhandled object=6 fault=3]\n"),
    ("push_1", "pushstr @ab", "[unhandled object=6 fault=3]\n"),
    ("pushstr @ab", "push_1", "[unhandled object=6 fault=3]\n"),
    (
        "pushstr @ab",
        "pushlst @items",
        "[unhandled object=6 fault=3]\n",
    ),
    (
        "pushlst @items",
        "pushlst @items",
        "[unhandled object=6 fault=3]\n",
    ),
    ("pushobj 3", "pushobj 3", "[unhandled object=6 fault=3]\n"),
    ("pushobj 4", "pushobj 4", "[unhandled object=6 fault=3]\n"),
    ("pushobj 1", "pushobj 1", "[unhandled object=6 fault=3]\n"),
    (
        "new1 0 4 / getr0",
        "push_1",
        "[unhandled object=7 fault=3]\n",
    ),
    ("pushnil", "pushnil", "[unhandled object=6 fault=3]\n"),
    // That an object isn't there is told before the kinds, whichever it is.
    ("pushobj 99", "pushnil", "[unhandled object=6 fault=20]\n"),
    ("pushnil", "pushobj 99", "[unhandled object=6 fault=20]\n"),
    (
        "pushlst @items",
        "pushobj 99",
        "[unhandled object=6 fault=20]\n",
    ),
    (
        "pushstr @broken",
        "pushobj 99",
        "[unhandled object=6 fault=20]\n",
    ),
    (
        "pushobj 99",
        "pushstr @ab",
        "[unhandled object=6 fault=20]\n",
    ),
    // Kinds are told before a text is read.
    (
        "pushstr @broken",
        "pushnil",
        "[unhandled object=6 fault=3]\n",
    ),
    (
        "push_1",
        "pushstr @broken",
        "[unhandled object=6 fault=3]\n",
    ),
    (
        "pushstr @broken",
        "pushlst @wrong",
        "[unhandled object=6 fault=3]\n",
    ),
    (
        "pushstr @broken",
        "pushstr @ab",
        "[unhandled object=6 fault=21]\n",
    ),
    (
        "pushstr @ab",
        "pushstr @broken",
        "[unhandled object=6 fault=21]\n",
    ),
    (
        "pushobj 2",
        "pushstr @cut",
        "[unhandled object=6 fault=21]\n",
    ),
];

#[test]
fn wants_texts_or_integers(rt: HostRuntime) -> Result<(), Fail> {
    assert_eq!(rt;
        first_unlike_of(rt.alloc(), &LESS_FORMS, &LESS_FAULTS)?,
        None
    );
    Ok(())
}

/// Each code that tells whether two operands are so that the left one is greater.
const GREATER_FORMS: [&str; 4] = [
    "gt / jt @yes",
    "le / jf @yes",
    "jgt @yes",
    "jle @no / jmp @yes",
];

/// Whether the left value is greater.
const GREATER: [OperandsRow; 21] = [
    ("pushstr @b", "pushstr @ab", "1\n"),
    ("pushstr @ab", "pushstr @b", "0\n"),
    ("pushstr @ab", "pushstr @again", "0\n"),
    ("pushobj 2", "pushstr @ab", "1\n"),
    ("pushstr @ab", "pushobj 2", "0\n"),
    ("pushstr @ab / pushobj 2 / add", "pushstr @ab", "1\n"),
    ("pushobj 5", "pushobj 2", "0\n"),
    ("push_0", "pushint8 -1", "1\n"),
    ("push_0", "push_0", "0\n"),
    ("pushstr @ab", "push_1", "[unhandled object=6 fault=3]\n"),
    ("pushnil", "pushstr @ab", "[unhandled object=6 fault=3]\n"),
    (
        "pushlst @items",
        "pushlst @items",
        "[unhandled object=6 fault=3]\n",
    ),
    ("pushobj 3", "pushstr @ab", "[unhandled object=6 fault=3]\n"),
    ("pushobj 4", "pushobj 4", "[unhandled object=6 fault=3]\n"),
    ("pushobj 1", "pushobj 1", "[unhandled object=6 fault=3]\n"),
    (
        "pushobj 99",
        "pushlst @items",
        "[unhandled object=6 fault=20]\n",
    ),
    ("push_1", "pushobj 99", "[unhandled object=6 fault=20]\n"),
    (
        "pushstr @broken",
        "pushobj 99",
        "[unhandled object=6 fault=20]\n",
    ),
    (
        "pushstr @broken",
        "pushnil",
        "[unhandled object=6 fault=3]\n",
    ),
    (
        "pushstr @b",
        "pushstr @broken",
        "[unhandled object=6 fault=21]\n",
    ),
    (
        "pushstr @cut",
        "pushobj 2",
        "[unhandled object=6 fault=21]\n",
    ),
];

#[test]
fn is_greater(rt: HostRuntime) -> Result<(), Fail> {
    assert_eq!(rt;
        first_unlike_of(rt.alloc(), &GREATER_FORMS, &GREATER)?,
        None
    );
    Ok(())
}
