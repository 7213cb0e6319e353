//! Built-in functions that compare values or copy texts.
use crate::story::shown_with_values;
use std::alloc::Global;
use std::test::Fail;

/// The arguments, the count and the number of a function, and what is shown of the answer.
type CallRow = (&'static str, &'static str, &'static str);

/// The number of the first row whose answer isn't shown as it says.
fn first_unlike_answer(alloc: Global, rows: &[CallRow]) -> Result<Option<usize>, Fail> {
    for (index, (arguments, call, want)) in rows.iter().enumerate() {
        let body = format!(in alloc;
            "{arguments} / builtin_b {call} / getr0 / builtin_a 1 0 / retnil"
        )?;
        let shown = shown_with_values(alloc, &body)?;
        if shown.as_slice() != want.as_bytes() {
            return Ok(Some(index));
        }
    }
    Ok(None)
}

/// `max` and `min`.
const EXTREMES: [CallRow; 39] = [
    ("push_1", "1 18", "1\n"),
    ("push_1 / pushint8 5 / pushint8 -3", "3 18", "5\n"),
    ("push_1 / pushint8 5 / pushint8 -3", "3 19", "-3\n"),
    ("push_1 / push_1", "2 19", "1\n"),
    ("pushstr @ab / pushobj 2", "2 18", "b\n"),
    ("pushobj 2 / pushstr @ab", "2 18", "b\n"),
    ("pushstr @ab / pushobj 2", "2 19", "ab\n"),
    ("pushobj 2 / pushstr @ab", "2 19", "ab\n"),
    ("pushstr @empty / pushstr @b / pushobj 5", "3 18", "b\n"),
    ("pushstr @ab", "1 19", "ab\n"),
    // The first of equals, which is the topmost.
    (
        "pushobj 2 / pushstr @b",
        "2 18 / getr0 / builtin_b 1 0",
        "8\n",
    ),
    (
        "pushstr @b / pushobj 2",
        "2 18 / getr0 / builtin_b 1 0",
        "5\n",
    ),
    (
        "pushstr @b / pushobj 2",
        "2 19 / getr0 / builtin_b 1 0",
        "5\n",
    ),
    (
        "pushobj 2 / pushstr @b",
        "2 19 / getr0 / builtin_b 1 0",
        "8\n",
    ),
    // One text is not compared.
    ("pushstr @broken", "1 18 / getr0 / builtin_b 1 0", "8\n"),
    (
        "push_1 / pushstr @broken",
        "2 18",
        "[unhandled object=6 fault=3]\n",
    ),
    ("push_1", "0 18", "[unhandled object=6 fault=2]\n"),
    ("push_1", "0 19", "[unhandled object=6 fault=2]\n"),
    (
        "push_1 / pushstr @ab",
        "2 18",
        "[unhandled object=6 fault=3]\n",
    ),
    (
        "pushstr @ab / push_1",
        "2 19",
        "[unhandled object=6 fault=3]\n",
    ),
    ("pushnil", "1 18", "[unhandled object=6 fault=3]\n"),
    ("pushtrue", "1 18", "[unhandled object=6 fault=3]\n"),
    ("pushlst @items", "1 18", "[unhandled object=6 fault=3]\n"),
    ("pushobj 3", "1 18", "[unhandled object=6 fault=3]\n"),
    ("pushobj 4", "1 18", "[unhandled object=6 fault=3]\n"),
    ("pushobj 1", "1 18", "[unhandled object=6 fault=3]\n"),
    ("new1 0 4 / getr0", "1 18", "[unhandled object=7 fault=3]\n"),
    ("push_1 / pushnil", "2 19", "[unhandled object=6 fault=3]\n"),
    (
        "pushstr @ab / push_1 / push_1",
        "3 18",
        "[unhandled object=6 fault=3]\n",
    ),
    (
        "push_1 / push_1 / pushstr @ab",
        "3 18",
        "[unhandled object=6 fault=3]\n",
    ),
    ("pushobj 99", "1 18", "[unhandled object=6 fault=20]\n"),
    (
        "pushstr @ab / pushobj 99",
        "2 18",
        "[unhandled object=6 fault=20]\n",
    ),
    (
        "pushnil / pushobj 99",
        "2 19",
        "[unhandled object=6 fault=20]\n",
    ),
    (
        "pushobj 99 / pushnil",
        "2 19",
        "[unhandled object=6 fault=20]\n",
    ),
    (
        "pushobj 99 / pushstr @broken",
        "2 18",
        "[unhandled object=6 fault=20]\n",
    ),
    // Kinds are told before a text is read.
    (
        "pushstr @broken / pushnil",
        "2 18",
        "[unhandled object=6 fault=3]\n",
    ),
    (
        "pushstr @broken / pushstr @ab",
        "2 18",
        "[unhandled object=6 fault=21]\n",
    ),
    (
        "pushstr @ab / pushstr @broken",
        "2 19",
        "[unhandled object=6 fault=21]\n",
    ),
    (
        "pushstr @broken / pushstr @ab / pushstr @b",
        "3 18",
        "[unhandled object=6 fault=21]\n",
    ),
];

#[test]
fn finds_the_greatest_and_the_least(rt: HostRuntime) -> Result<(), Fail> {
    assert_eq!(rt; first_unlike_answer(rt.alloc(), &EXTREMES)?, None);
    Ok(())
}

/// `makeString`.
const COPIES: [CallRow; 48] = [
    ("pushint8 97", "1 20", "a\n"),
    ("pushint8 3 / pushint8 97", "2 20", "aaa\n"),
    ("pushint8 2 / pushstr @ab", "2 20", "abab\n"),
    ("push_1 / pushobj 2", "2 20", "b\n"),
    ("push_0 / pushstr @ab", "2 20", ""),
    ("pushstr @ab", "1 20", "ab\n"),
    ("pushint 8364", "1 20", "€\n"),
    ("pushint8 2 / pushobj 5", "2 20", "abab\n"),
    // Code points at the ends of what characters have.
    (
        "pushint 55295",
        "1 20 / getr0 / throw",
        "[unhandled object=6 fault=0]\n",
    ),
    ("pushint 55296", "1 20", "[unhandled object=6 fault=6]\n"),
    ("pushint 57343", "1 20", "[unhandled object=6 fault=6]\n"),
    (
        "pushint 57344",
        "1 20 / getr0 / throw",
        "[unhandled object=6 fault=0]\n",
    ),
    (
        "pushint 1114111",
        "1 20 / getr0 / throw",
        "[unhandled object=6 fault=0]\n",
    ),
    ("pushint 1114112", "1 20", "[unhandled object=6 fault=6]\n"),
    ("pushint8 -1", "1 20", "[unhandled object=6 fault=6]\n"),
    (
        "push_0",
        "1 20 / getr0 / throw",
        "[unhandled object=6 fault=0]\n",
    ),
    (
        "pushint8 -1 / pushint8 97",
        "2 20",
        "[unhandled object=6 fault=6]\n",
    ),
    (
        "pushint 65536 / pushint8 97",
        "2 20",
        "[unhandled object=6 fault=6]\n",
    ),
    (
        "pushint8 -1 / pushstr @ab",
        "2 20",
        "[unhandled object=6 fault=6]\n",
    ),
    (
        "pushint 65535 / pushint8 97",
        "2 20 / getr0 / throw",
        "[unhandled object=6 fault=0]\n",
    ),
    (
        "pushint 65535 / pushstr @ab",
        "2 20",
        "[unhandled object=6 fault=10]\n",
    ),
    (
        "pushint 32767 / pushstr @ab",
        "2 20 / getr0 / throw",
        "[unhandled object=6 fault=0]\n",
    ),
    (
        "pushint 32768 / pushstr @ab",
        "2 20",
        "[unhandled object=6 fault=10]\n",
    ),
    (
        "pushint 21846 / pushint 8364",
        "2 20",
        "[unhandled object=6 fault=10]\n",
    ),
    ("pushint 65535 / pushstr @empty", "2 20", ""),
    ("pushnil", "1 20", "[unhandled object=6 fault=3]\n"),
    ("pushtrue", "1 20", "[unhandled object=6 fault=3]\n"),
    ("pushlst @items", "1 20", "[unhandled object=6 fault=3]\n"),
    ("pushobj 3", "1 20", "[unhandled object=6 fault=3]\n"),
    ("pushobj 4", "1 20", "[unhandled object=6 fault=3]\n"),
    ("pushobj 1", "1 20", "[unhandled object=6 fault=3]\n"),
    ("new1 0 4 / getr0", "1 20", "[unhandled object=7 fault=3]\n"),
    (
        "pushnil / pushstr @ab",
        "2 20",
        "[unhandled object=6 fault=3]\n",
    ),
    (
        "pushstr @ab / pushint8 97",
        "2 20",
        "[unhandled object=6 fault=3]\n",
    ),
    // Of the count no object is needed.
    (
        "pushobj 99 / pushint8 97",
        "2 20",
        "[unhandled object=6 fault=3]\n",
    ),
    (
        "pushobj 99 / pushstr @ab",
        "2 20",
        "[unhandled object=6 fault=3]\n",
    ),
    ("pushobj 99", "1 20", "[unhandled object=6 fault=20]\n"),
    (
        "pushnil / pushobj 99",
        "2 20",
        "[unhandled object=6 fault=20]\n",
    ),
    // Kinds before numbers, and numbers before a text is read.
    (
        "pushnil / pushint8 -1",
        "2 20",
        "[unhandled object=6 fault=3]\n",
    ),
    (
        "pushint8 -1 / pushnil",
        "2 20",
        "[unhandled object=6 fault=3]\n",
    ),
    ("pushstr @broken", "1 20", "[unhandled object=6 fault=21]\n"),
    (
        "pushnil / pushstr @broken",
        "2 20",
        "[unhandled object=6 fault=3]\n",
    ),
    (
        "pushint8 -1 / pushstr @broken",
        "2 20",
        "[unhandled object=6 fault=6]\n",
    ),
    (
        "push_0 / pushstr @broken",
        "2 20",
        "[unhandled object=6 fault=21]\n",
    ),
    (
        "pushint 65535 / pushstr @broken",
        "2 20",
        "[unhandled object=6 fault=21]\n",
    ),
    ("push_1", "0 20", "[unhandled object=6 fault=2]\n"),
    (
        "push_1 / push_1 / push_1",
        "3 20",
        "[unhandled object=6 fault=2]\n",
    ),
    (
        "pushnil / pushnil / pushobj 99",
        "3 20",
        "[unhandled object=6 fault=2]\n",
    ),
];

#[test]
fn makes_copies(rt: HostRuntime) -> Result<(), Fail> {
    assert_eq!(rt; first_unlike_answer(rt.alloc(), &COPIES)?, None);
    Ok(())
}

/// Functions that are not listed, and arguments that a function doesn't take.
const OTHERS: [CallRow; 8] = [
    ("push_1", "1 1", "[unhandled object=6 fault=8]\n"),
    ("push_1", "1 21", "[unhandled object=6 fault=8]\n"),
    ("push_1", "0 12", "[unhandled object=6 fault=8]\n"),
    ("push_1", "0 15", "[unhandled object=6 fault=2]\n"),
    ("push_1", "1 17", "[unhandled object=6 fault=2]\n"),
    ("push_1", "1 7 / disc", "[bad code at=14 why=Underflow]\n"),
    ("push_1", "2 0", "[bad code at=11 why=Underflow]\n"),
    // The argument goes.
    ("pushint8 7 / push_1", "1 0 / builtin_a 1 0 / retnil", "7\n"),
];

#[test]
fn has_no_others(rt: HostRuntime) -> Result<(), Fail> {
    assert_eq!(rt; first_unlike_answer(rt.alloc(), &OTHERS)?, None);
    Ok(())
}
