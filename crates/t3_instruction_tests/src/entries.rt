//! The entry method: what it is called with, and what it catches.
use std::alloc::Global;
use std::test::Fail;
use t3_testing::{Row, lines, outcome, written};

/// What stands before the entry method in the source of a story: the entry, a page of code of at most 128 bytes,
/// and the function set for input and output.
const BEFORE: &str =
    "image / block \"ENTP\" 1 / entry @main 10 10 0 0 0 0 - / block \"CPDF\" 1 / pool 1 1 128 / \
                      block \"FNSD\" 1 / function-set \"tads-io/030007\" / block \"CPPG\" 1 / page 1 0 0 / main:";

/// The number of the first row whose entry method, of its line and its body, doesn't show what it says.
fn first_unlike(alloc: Global, rows: &[Row]) -> Result<Option<usize>, Fail> {
    for (index, (method, want)) in rows.iter().enumerate() {
        let source = format!(in alloc; "{BEFORE} / {method} / end 0")?;
        let (_, image) = written(alloc, "asm", &lines(alloc, &source)?)?;
        let (_, shown) = outcome(alloc, &["run", "a.t3"], Some(&image))?;
        if shown.as_slice() != want.as_bytes() {
            return Ok(Some(index));
        }
    }
    Ok(None)
}

/// Entry methods that have to be given none, one or more arguments.
const PARAMETERS: [Row; 9] = [
    ("method 0 0 2 0 / getargc / builtin_a 1 0 / retnil", "0\n"),
    (
        "method 0 0 2 0 / getarg1 0 / retnil",
        "[bad code at=10 why=Argument]\n",
    ),
    ("method 1 0 2 0 / getargc / builtin_a 1 0 / retnil", "1\n"),
    // The one argument is a list: what is added to it is its first element. It has no element of its own.
    (
        "method 1 0 2 0 / getarg1 0 / pushint8 7 / add / push_1 / index / builtin_a 1 0 / retnil",
        "7\n",
    ),
    (
        "method 1 0 2 0 / getarg1 0 / push_1 / index / retnil",
        "[unhandled object=2 fault=6]\n",
    ),
    // It is an object, which is made by the call.
    (
        "method 1 0 2 0 / getarg1 0 / pushobj 1 / eq / builtin_a 1 0 / retnil",
        "true\n",
    ),
    (
        "method 1 0 2 0 / getarg1 1 / retnil",
        "[bad code at=10 why=Argument]\n",
    ),
    // One that wants more gets none, and no list is made.
    ("method 2 0 2 0 / retnil", "[unhandled object=1 fault=2]\n"),
    (
        "method 127 0 2 0 / retnil",
        "[unhandled object=1 fault=2]\n",
    ),
];

#[test]
fn an_entry_gets_an_empty_list_or_nothing(rt: HostRuntime) -> Result<(), Fail> {
    assert_eq!(rt; first_unlike(rt.alloc(), &PARAMETERS)?, None);
    Ok(())
}

/// Entry methods with parameters that may be left out, or that take any number of arguments.
const FURTHER: [Row; 12] = [
    // The list is given where it may be left out.
    ("method 0 0 2 0 1 / getargc / builtin_a 1 0 / retnil", "1\n"),
    (
        "method 0 0 2 0 1 / getarg1 0 / push_1 / index / retnil",
        "[unhandled object=2 fault=6]\n",
    ),
    // What is left out is nil, and isn't counted.
    (
        "method 0 0 2 0 2 / getargc / builtin_a 1 0 / getarg1 1 / not / builtin_a 1 0 / retnil",
        "1true\n",
    ),
    (
        "method 1 0 2 0 1 / getargc / builtin_a 1 0 / getarg1 1 / not / builtin_a 1 0 / retnil",
        "1true\n",
    ),
    (
        "method 1 0 2 0 255 / getargc / builtin_a 1 0 / getarg1 255 / not / builtin_a 1 0 / retnil",
        "1true\n",
    ),
    (
        "method 1 0 2 0 1 / getarg1 2 / retnil",
        "[bad code at=10 why=Argument]\n",
    ),
    (
        "method 2 0 2 0 1 / retnil",
        "[unhandled object=1 fault=2]\n",
    ),
    // Any number, or as many and more.
    ("method 128 0 2 0 / getargc / builtin_a 1 0 / retnil", "1\n"),
    (
        "method 128 0 2 0 / getarg1 0 / push_1 / index / retnil",
        "[unhandled object=2 fault=6]\n",
    ),
    ("method 129 0 2 0 / getargc / builtin_a 1 0 / retnil", "1\n"),
    (
        "method 129 0 2 0 1 / getargc / builtin_a 1 0 / getarg1 1 / not / builtin_a 1 0 / retnil",
        "1true\n",
    ),
    (
        "method 130 0 2 0 / retnil",
        "[unhandled object=1 fault=2]\n",
    ),
];

#[test]
fn an_entry_may_leave_arguments_out_or_take_more(rt: HostRuntime) -> Result<(), Fail> {
    assert_eq!(rt; first_unlike(rt.alloc(), &FURTHER)?, None);
    Ok(())
}

/// Entry methods of so many values that the call has just room for them, or none: the list and what is left out count.
const ROOMS: [Row; 5] = [
    (
        "method 0 65535 2 0 / getargc / builtin_a 1 0 / retnil",
        "0\n",
    ),
    (
        "method 1 65534 2 0 / getargc / builtin_a 1 0 / retnil",
        "1\n",
    ),
    (
        "method 1 65535 2 0 / retnil",
        "[unhandled object=1 fault=9]\n",
    ),
    (
        "method 0 65533 2 0 2 / getargc / builtin_a 1 0 / retnil",
        "1\n",
    ),
    (
        "method 0 65534 2 0 2 / retnil",
        "[unhandled object=1 fault=9]\n",
    ),
];

#[test]
fn an_entry_has_room_for_so_many_values(rt: HostRuntime) -> Result<(), Fail> {
    assert_eq!(rt; first_unlike(rt.alloc(), &ROOMS)?, None);
    Ok(())
}

/// What an entry method catches, and what it doesn't.
const CATCHES: [Row; 7] = [
    (
        "method 0 0 2 ~h / a: / push_1 / push_0 / div / b: / retnil / c: / pushint8 7 / builtin_a 1 0 / retnil / h: / table 1 / handler ~a ~b 0 ~c",
        "7\n",
    ),
    // Its argument stays, and what was thrown is its one operand: the object behind the list.
    (
        "method 1 0 2 ~h / a: / push_1 / push_0 / div / b: / retnil / c: / pushobj 2 / eq / builtin_a 1 0 / getargc / builtin_a 1 0 / retnil / h: / table 1 / handler ~a ~b 0 ~c",
        "true1\n",
    ),
    // What a function throws that it calls.
    (
        "method 0 0 2 ~h / a: / call 0 @f / b: / retnil / c: / pushint8 7 / builtin_a 1 0 / retnil / h: / table 1 / handler ~a ~b 0 ~c / f: / method 0 0 2 0 / push_1 / push_0 / div / retnil",
        "7\n",
    ),
    // A place that isn't covered, and a class that the fault hasn't.
    (
        "method 0 0 2 ~h / push_1 / push_0 / div / a: / retnil / c: / retnil / h: / table 1 / handler ~a ~c 0 ~c",
        "[unhandled object=1 fault=4]\n",
    ),
    (
        "method 0 0 2 ~h / a: / push_1 / push_0 / div / b: / retnil / c: / retnil / h: / table 1 / handler ~a ~b 5 ~c",
        "[unhandled object=1 fault=4]\n",
    ),
    // A fault of the call itself has no method that catches it.
    (
        "method 2 0 2 ~h / a: / retnil / c: / retnil / h: / table 1 / handler ~main ~c 0 ~c",
        "[unhandled object=1 fault=2]\n",
    ),
    // The table isn't whole.
    (
        "method 0 0 2 100 / push_1 / push_0 / div / retnil",
        "[bad code at=0 why=Table]\n",
    ),
];

#[test]
fn an_entry_catches_what_is_thrown(rt: HostRuntime) -> Result<(), Fail> {
    assert_eq!(rt; first_unlike(rt.alloc(), &CATCHES)?, None);
    Ok(())
}
