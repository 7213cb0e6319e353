//! Built-in functions that tell the kind of a value or make another of it.
use crate::story::shown_with_values;
use std::alloc::Global;
use std::test::Fail;

/// The arguments, the count and the number of a function, and what is shown of the answer.
type CallRow = (&'static str, &'static str, &'static str);

/// The number of the first row whose answer isn't shown as it says.
fn first_unlike_answer(alloc: Global, rows: &[CallRow]) -> Result<Option<usize>, Fail> {
    for (index, (arguments, call, want)) in rows.iter().enumerate() {
        let body = format!(in alloc;
            "{arguments} / builtin_b {call} / getr0 / builtin_a 1 0 / retnil"
        )?;
        let shown = shown_with_values(alloc, &body)?;
        if shown.as_slice() != want.as_bytes() {
            return Ok(Some(index));
        }
    }
    Ok(None)
}

/// `dataType`.
const DATA_TYPES: [CallRow; 18] = [
    ("pushnil", "1 0", "1\n"),
    ("pushtrue", "1 0", "2\n"),
    ("pushobj 1", "1 0", "5\n"),
    ("pushobj 2", "1 0", "5\n"),
    ("pushobj 4", "1 0", "5\n"),
    ("pushobj 99", "1 0", "5\n"),
    ("pushpropid 3", "1 0", "6\n"),
    ("push_1", "1 0", "7\n"),
    ("pushstr @ab", "1 0", "8\n"),
    ("pushstr @broken", "1 0", "8\n"),
    ("pushlst @items", "1 0", "10\n"),
    ("pushlst @wrong", "1 0", "10\n"),
    ("pushfnptr 0", "1 0", "12\n"),
    ("pushenum 1", "1 0", "15\n"),
    // The count is told first.
    ("push_1", "0 0", "[unhandled object=6 fault=2]\n"),
    ("push_1 / push_1", "2 0", "[unhandled object=6 fault=2]\n"),
    (
        "push_1 / push_1 / push_1",
        "3 0",
        "[unhandled object=6 fault=2]\n",
    ),
    ("new1 0 4 / getr0", "1 0", "5\n"),
];

#[test]
fn tells_data_types(rt: HostRuntime) -> Result<(), Fail> {
    assert_eq!(rt; first_unlike_answer(rt.alloc(), &DATA_TYPES)?, None);
    Ok(())
}

/// `toString`.
const TO_STRINGS: [CallRow; 23] = [
    ("pushint8 -5", "1 6", "-5\n"),
    ("pushint -2147483648", "1 6", "-2147483648\n"),
    ("pushstr @ab", "1 6", "ab\n"),
    ("pushobj 2", "1 6", "b\n"),
    ("pushobj 5", "1 6", "ab\n"),
    ("pushnil", "1 6", "nil\n"),
    ("pushtrue", "1 6", "true\n"),
    ("pushlst @items", "1 6", "[unhandled object=6 fault=3]\n"),
    ("pushobj 3", "1 6", "[unhandled object=6 fault=3]\n"),
    ("pushobj 4", "1 6", "[unhandled object=6 fault=3]\n"),
    ("new1 0 4 / getr0", "1 6", "[unhandled object=7 fault=3]\n"),
    ("pushobj 1", "1 6", "[unhandled object=6 fault=3]\n"),
    ("pushpropid 3", "1 6", "[unhandled object=6 fault=3]\n"),
    ("pushfnptr 0", "1 6", "[unhandled object=6 fault=3]\n"),
    ("pushenum 1", "1 6", "[unhandled object=6 fault=3]\n"),
    ("pushlst @wrong", "1 6", "[unhandled object=6 fault=3]\n"),
    ("pushobj 99", "1 6", "[unhandled object=6 fault=20]\n"),
    ("pushstr @broken", "1 6", "[unhandled object=6 fault=21]\n"),
    ("pushstr @cut", "1 6", "[unhandled object=6 fault=21]\n"),
    ("push_1", "0 6", "[unhandled object=6 fault=2]\n"),
    ("push_1 / push_1", "2 6", "[unhandled object=6 fault=2]\n"),
    (
        "pushlst @items / pushobj 99",
        "2 6",
        "[unhandled object=6 fault=2]\n",
    ),
    (
        "push_1 / push_1 / push_1",
        "3 6",
        "[unhandled object=6 fault=2]\n",
    ),
];

#[test]
fn makes_texts(rt: HostRuntime) -> Result<(), Fail> {
    assert_eq!(rt; first_unlike_answer(rt.alloc(), &TO_STRINGS)?, None);
    Ok(())
}

/// `toInteger`.
const TO_INTEGERS: [CallRow; 36] = [
    ("pushint8 -5", "1 7", "-5\n"),
    ("pushnil", "1 7", "0\n"),
    ("pushtrue", "1 7", "1\n"),
    ("pushstr @number", "1 7", "-12\n"),
    ("pushstr @ab", "1 7", "0\n"),
    ("pushobj 2", "1 7", "0\n"),
    ("pushstr @empty", "1 7", "0\n"),
    // Digits as far as they go, and spaces in front.
    (
        "pushstr @empty / push_0 / add / pushint8 7 / add",
        "1 7",
        "7\n",
    ),
    (
        "pushint8 3 / pushint 32 / builtin_b 2 20 / getr0 / pushint8 7 / add",
        "1 7",
        "7\n",
    ),
    (
        "pushint 32 / builtin_b 1 20 / getr0 / pushint8 -7 / add",
        "1 7",
        "-7\n",
    ),
    (
        "pushstr @empty / pushint8 7 / add / pushtrue / add",
        "1 7",
        "7\n",
    ),
    // No space, no sign, and two signs.
    (
        "pushint 9 / builtin_b 1 20 / getr0 / pushint8 7 / add",
        "1 7",
        "0\n",
    ),
    (
        "pushint 43 / builtin_b 1 20 / getr0 / pushint8 7 / add",
        "1 7",
        "0\n",
    ),
    (
        "pushint 45 / builtin_b 1 20 / getr0 / pushint8 -7 / add",
        "1 7",
        "0\n",
    ),
    (
        "pushint 45 / builtin_b 1 20 / getr0 / pushint 32 / builtin_b 1 20 / getr0 / add / pushint8 7 / add",
        "1 7",
        "0\n",
    ),
    ("pushint 45 / builtin_b 1 20 / getr0", "1 7", "0\n"),
    ("pushint 32 / builtin_b 1 20 / getr0", "1 7", "0\n"),
    // The greatest and the least, and one more.
    (
        "pushstr @empty / pushint 2147483647 / add",
        "1 7",
        "2147483647\n",
    ),
    (
        "pushstr @empty / pushint 214748364 / add / pushint8 8 / add",
        "1 7",
        "[unhandled object=8 fault=5]\n",
    ),
    (
        "pushstr @empty / pushint -2147483648 / add",
        "1 7",
        "-2147483648\n",
    ),
    (
        "pushstr @empty / pushint -214748364 / add / pushint8 9 / add",
        "1 7",
        "[unhandled object=8 fault=5]\n",
    ),
    (
        "pushstr @empty / pushint 2147483647 / add / push_0 / add",
        "1 7",
        "[unhandled object=8 fault=5]\n",
    ),
    (
        "pushint8 100 / pushint 48 / builtin_b 2 20 / getr0 / pushint8 7 / add",
        "1 7",
        "7\n",
    ),
    ("pushlst @items", "1 7", "[unhandled object=6 fault=3]\n"),
    ("pushobj 3", "1 7", "[unhandled object=6 fault=3]\n"),
    ("pushobj 4", "1 7", "[unhandled object=6 fault=3]\n"),
    ("new1 0 4 / getr0", "1 7", "[unhandled object=7 fault=3]\n"),
    ("pushobj 1", "1 7", "[unhandled object=6 fault=3]\n"),
    ("pushpropid 3", "1 7", "[unhandled object=6 fault=3]\n"),
    ("pushenum 1", "1 7", "[unhandled object=6 fault=3]\n"),
    ("pushlst @wrong", "1 7", "[unhandled object=6 fault=3]\n"),
    ("pushobj 99", "1 7", "[unhandled object=6 fault=20]\n"),
    ("pushstr @broken", "1 7", "[unhandled object=6 fault=21]\n"),
    ("push_1", "0 7", "[unhandled object=6 fault=2]\n"),
    (
        "push_1 / pushobj 99",
        "2 7",
        "[unhandled object=6 fault=2]\n",
    ),
    (
        "push_1 / push_1 / push_1",
        "3 7",
        "[unhandled object=6 fault=2]\n",
    ),
];

#[test]
fn makes_integers(rt: HostRuntime) -> Result<(), Fail> {
    assert_eq!(rt; first_unlike_answer(rt.alloc(), &TO_INTEGERS)?, None);
    Ok(())
}
