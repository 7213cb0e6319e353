//! Whether values are equal, by each code that tells it.
use crate::forms::{OperandsRow, first_unlike_of};
use crate::story::first_unlike_with_values;
use std::test::Fail;
use t3_testing::Row;

/// Each code that tells whether two operands are equal.
const EQUALITIES: [&str; 4] = [
    "eq / jt @yes",
    "ne / jf @yes",
    "je @yes",
    "jne @no / jmp @yes",
];

/// Texts, which are equal by their bytes, wherever they stand.
const EQUAL_TEXTS: [OperandsRow; 17] = [
    ("pushstr @ab", "pushstr @again", "1\n"),
    ("pushstr @b", "pushobj 2", "1\n"),
    ("pushobj 2", "pushobj 2", "1\n"),
    ("pushobj 5", "pushstr @ab", "1\n"),
    ("pushstr @ab", "pushstr @b", "0\n"),
    ("pushstr @empty", "pushstr @empty", "1\n"),
    ("pushstr @empty", "pushobj 2", "0\n"),
    ("pushstr @ab", "pushnil", "0\n"),
    ("push_1", "pushstr @ab", "0\n"),
    // Beside what is no text, no text is read.
    ("pushstr @broken", "pushnil", "0\n"),
    ("pushstr @broken", "pushlst @wrong", "0\n"),
    ("pushobj 99", "pushstr @broken", "0\n"),
    ("pushstr @broken", "pushobj 4", "0\n"),
    (
        "pushstr @broken",
        "pushstr @broken",
        "[unhandled object=6 fault=21]\n",
    ),
    (
        "pushstr @ab",
        "pushstr @cut",
        "[unhandled object=6 fault=21]\n",
    ),
    (
        "pushobj 2",
        "pushstr @broken",
        "[unhandled object=6 fault=21]\n",
    ),
    (
        "pushstr @broken",
        "pushobj 2",
        "[unhandled object=6 fault=21]\n",
    ),
];

#[test]
fn compares_texts(rt: HostRuntime) -> Result<(), Fail> {
    assert_eq!(rt;
        first_unlike_of(rt.alloc(), &EQUALITIES, &EQUAL_TEXTS)?,
        None
    );
    Ok(())
}

/// Lists, which are equal by their elements.
const EQUAL_LISTS: [OperandsRow; 18] = [
    ("pushlst @items", "pushlst @items", "1\n"),
    ("pushlst @items", "pushlst @twin", "1\n"),
    ("pushlst @items", "pushobj 3", "1\n"),
    ("pushobj 3", "pushobj 3", "1\n"),
    ("pushlst @none", "new1 0 2 / getr0", "1\n"),
    ("pushlst @items", "pushlst @none", "0\n"),
    ("pushlst @none", "pushstr @empty", "0\n"),
    ("pushlst @none", "pushnil", "0\n"),
    (
        "pushlst @wrong",
        "pushlst @wrong",
        "[unhandled object=6 fault=21]\n",
    ),
    (
        "pushlst @wrong",
        "pushlst @none",
        "[unhandled object=6 fault=21]\n",
    ),
    (
        "pushobj 3",
        "pushlst @wrong",
        "[unhandled object=6 fault=21]\n",
    ),
    ("pushlst @wrong", "pushobj 4", "0\n"),
    // The first pair that differs tells it, before one that can't be read.
    (
        "pushstr @broken / push_1 / new1 2 2 / getr0",
        "pushstr @broken / push_0 / new1 2 2 / getr0",
        "0\n",
    ),
    (
        "pushstr @broken / push_1 / new1 2 2 / getr0",
        "pushstr @broken / push_1 / new1 2 2 / getr0",
        "[unhandled object=8 fault=21]\n",
    ),
    // A list that holds itself has one element.
    ("pushlst @looped", "pushlst @items", "0\n"),
    (
        "pushlst @looped",
        "pushlst @looped",
        "[unhandled object=6 fault=13]\n",
    ),
    (
        "pushlst @looped / new1 1 2 / getr0",
        "pushlst @looped",
        "[unhandled object=7 fault=13]\n",
    ),
    ("pushstr @b / new1 1 2 / getr0", "pushlst @looped", "0\n"),
];

#[test]
fn compares_lists(rt: HostRuntime) -> Result<(), Fail> {
    assert_eq!(rt;
        first_unlike_of(rt.alloc(), &EQUALITIES, &EQUAL_LISTS)?,
        None
    );
    Ok(())
}

/// Other values, which are equal to themselves alone.
const EQUAL_OTHERS: [OperandsRow; 12] = [
    ("pushobj 4", "pushobj 4", "1\n"),
    ("pushobj 4", "pushobj 4 / push_1 / new1 2 3 / getr0", "0\n"),
    ("pushobj 3", "pushobj 3 / push_1 / new1 2 3 / getr0", "0\n"),
    ("new1 0 4 / getr0", "new1 0 4 / getr0", "0\n"),
    ("new1 0 4 / getr0 / dup", "dup / disc", "1\n"),
    ("pushobj 1", "pushobj 1", "1\n"),
    ("pushobj 1", "pushobj 4", "0\n"),
    // A stale reference too.
    ("pushobj 99", "pushobj 99", "1\n"),
    ("pushobj 99", "pushobj 98", "0\n"),
    ("pushobj 99", "pushnil", "0\n"),
    ("pushnil", "pushnil", "1\n"),
    ("push_1", "pushtrue", "0\n"),
];

#[test]
fn compares_others(rt: HostRuntime) -> Result<(), Fail> {
    assert_eq!(rt;
        first_unlike_of(rt.alloc(), &EQUALITIES, &EQUAL_OTHERS)?,
        None
    );
    Ok(())
}

/// How long a comparison may be.
const TURNS: [Row; 9] = [
    // 65,536 turns.
    (
        "pushlst @none / pushint 65535 / push_0 / new1 2 3 / getr0 / add / dup / eq / builtin_a 1 0 / retnil",
        "true\n",
    ),
    (
        "pushlst @none / pushint 65535 / push_0 / new1 2 3 / getr0 / add / pushlst @none / pushint 65535 / push_0 / new1 2 3 / getr0 / add / ne / builtin_b 1 6 / getr0 / builtin_a 1 0 / retnil",
        "nil\n",
    ),
    // And 65,537.
    (
        "pushlst @none / pushint 65534 / push_0 / new1 2 3 / getr0 / add / pushnil / new1 1 2 / getr0 / new1 1 2 / getr0 / add / dup / eq",
        "[unhandled object=11 fault=13]\n",
    ),
    (
        "pushlst @none / pushint 65534 / push_0 / new1 2 3 / getr0 / add / new1 0 2 / getr0 / new1 1 2 / getr0 / add / dup / eq / builtin_a 1 0 / retnil",
        "true\n",
    ),
    ("pushstr @ab / eq", "[bad code at=15 why=Underflow]\n"),
    ("pushlst @items / jle 2", "[bad code at=15 why=Underflow]\n"),
    (
        "pushstr @ab / pushstr @ab / je -32768",
        "[bad code at=20 why=NoByte]\n",
    ),
    // A fault comes before a target that is none.
    (
        "pushstr @broken / pushstr @ab / je -32768",
        "[unhandled object=6 fault=21]\n",
    ),
    ("pushstr @ab / pushstr @b / je -32768 / retnil", ""),
];

#[test]
fn compares_long_lists(rt: HostRuntime) -> Result<(), Fail> {
    assert_eq!(rt; first_unlike_with_values(rt.alloc(), &TURNS)?, None);
    Ok(())
}
