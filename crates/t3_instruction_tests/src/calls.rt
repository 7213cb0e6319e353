//! Functions that stories call, what they get and give, and what catches what they throw.
use std::test::Fail;
use t3_testing::{Row, first_unlike};

/// Calls and returns: whatever is right of a call, the caller goes on behind it with its own operands.
const CALLS: [Row; 9] = [
    // A function that calls itself: the tenth Fibonacci number.
    (
        "pushint8 10 / call 1 @f / getr0 / builtin_a 1 0 / retnil / f: / method 1 0 3 0 / getarg1 0 / pushint8 2 / jlt @s / getarg1 0 / push_1 / sub / call 1 @f / getr0 / getarg1 0 / pushint8 2 / sub / call 1 @f / getr0 / add / retval / s: / getarg1 0 / retval",
        "55\n",
    ),
    // The first argument is the topmost operand.
    (
        "push_1 / pushint8 5 / call 2 @f / retnil / f: / method 2 0 2 0 / getarg1 0 / builtin_a 1 0 / getarg1 1 / builtin_a 1 0 / retnil",
        "51\n",
    ),
    (
        "push_1 / pushfnptr @f / ptrcall 1 / getr0 / builtin_a 1 0 / retnil / f: / method 1 0 2 0 / getarg1 0 / retval",
        "1\n",
    ),
    // What the caller had below the arguments stays.
    (
        "pushint8 7 / push_1 / call 1 @f / builtin_a 1 0 / retnil / f: / method 1 0 2 0 / retnil",
        "7\n",
    ),
    // Locals begin as nil, at each call.
    (
        "call 0 @f / call 0 @f / getr0 / builtin_a 1 0 / retnil / f: / method 0 1 2 0 / getlcl1 0 / not / push_1 / setlcl1 0 / retval",
        "true\n",
    ),
    // The register has what was returned, and `ret` leaves it.
    (
        "call 0 @f / getr0 / builtin_a 1 0 / retnil / f: / method 0 0 2 0 / pushint8 3 / call 1 @g / ret / g: / method 1 0 1 0 / getarg1 0 / retval",
        "3\n",
    ),
    (
        "call 0 @f / getr0 / not / builtin_a 1 0 / retnil / f: / method 0 0 2 0 / retnil",
        "true\n",
    ),
    // There is no header.
    ("call 0 5000 / retnil", "[bad code at=5000 why=Header]\n"),
    (
        "push_1 / pushfnptr 5000 / ptrcall 1 / retnil",
        "[bad code at=5000 why=Header]\n",
    ),
];

#[test]
fn calls(rt: HostRuntime) -> Result<(), Fail> {
    assert_eq!(rt; first_unlike(rt.alloc(), 0, &CALLS)?, None);
    Ok(())
}

/// How many arguments a function takes.
const COUNTS: [Row; 9] = [
    (
        "call 0 @f / retnil / f: / method 1 0 2 0 / retnil",
        "[unhandled object=1 fault=2]\n",
    ),
    (
        "push_1 / push_1 / call 2 @f / retnil / f: / method 1 0 2 0 / retnil",
        "[unhandled object=1 fault=2]\n",
    ),
    // Any number more.
    (
        "push_1 / pushint8 5 / call 2 @f / pushint8 9 / builtin_a 1 0 / retnil / f: / method 129 0 2 0 / getarg1 0 / builtin_a 1 0 / getarg1 1 / builtin_a 1 0 / getargc / builtin_a 1 0 / retnil",
        "5129\n",
    ),
    (
        "call 0 @f / retnil / f: / method 129 0 2 0 / retnil",
        "[unhandled object=1 fault=2]\n",
    ),
    // One that may be left out: it is nil, and isn't counted.
    (
        "push_1 / call 1 @f / retnil / f: / method 1 0 2 0 1 / getargc / builtin_a 1 0 / getarg1 1 / not / builtin_a 1 0 / getarg1 0 / builtin_a 1 0 / retnil",
        "1true1\n",
    ),
    (
        "push_1 / pushint8 5 / call 2 @f / retnil / f: / method 1 0 2 0 1 / getargc / builtin_a 1 0 / getarg1 1 / builtin_a 1 0 / getarg1 0 / builtin_a 1 0 / retnil",
        "215\n",
    ),
    (
        "call 0 @f / retnil / f: / method 1 0 2 0 1 / retnil",
        "[unhandled object=1 fault=2]\n",
    ),
    (
        "push_1 / push_1 / push_1 / call 3 @f / retnil / f: / method 1 0 2 0 1 / retnil",
        "[unhandled object=1 fault=2]\n",
    ),
    // What is missing of the arguments is told first.
    (
        "push_1 / call 2 @f / retnil / f: / method 1 0 2 0 / retnil",
        "[bad code at=11 why=Underflow]\n",
    ),
];

#[test]
fn counts_arguments(rt: HostRuntime) -> Result<(), Fail> {
    assert_eq!(rt; first_unlike(rt.alloc(), 0, &COUNTS)?, None);
    Ok(())
}

/// What catches an exception, and what doesn't.
const CATCHES: [Row; 8] = [
    // Where it is thrown.
    (
        "call 0 @f / getr0 / builtin_a 1 0 / retnil / f: / method 0 0 2 ~h / a: / push_1 / push_0 / div / b: / retnil / c: / pushint8 7 / retval / h: / table 1 / handler ~a ~b 0 ~c",
        "7\n",
    ),
    // The first place that is covered, and the last.
    (
        "call 0 @f / getr0 / builtin_a 1 0 / retnil / f: / method 0 0 2 ~h / push_1 / push_0 / a: / div / b: / retnil / c: / pushint8 7 / retval / h: / table 1 / handler ~a ~a 0 ~c",
        "7\n",
    ),
    // One place before, and one behind.
    (
        "call 0 @f / retnil / f: / method 0 0 2 ~h / push_1 / a: / push_0 / div / b: / retnil / c: / pushint8 7 / retval / h: / table 2 / handler ~f ~a 0 ~c / handler ~b ~c 0 ~c",
        "[unhandled object=1 fault=4]\n",
    ),
    // Where it called, two calls up.
    (
        "call 0 @f / getr0 / builtin_a 1 0 / retnil / f: / method 0 0 2 ~h / a: / call 0 @g / b: / retnil / c: / pushint8 7 / retval / h: / table 1 / handler ~a ~a 0 ~c / g: / method 0 0 2 0 / call 0 @t / t: / method 0 0 2 0 / pushnil / not / throw",
        "7\n",
    ),
    // No room for a frame more is caught as well.
    (
        "call 0 @f / getr0 / builtin_a 1 0 / retnil / f: / method 0 0 2 ~h / a: / call 0 @t / b: / retnil / c: / pushint8 7 / retval / h: / table 1 / handler ~a ~b 0 ~c / t: / method 0 0 1 0 / call 0 @t / retnil",
        "7\n",
    ),
    // Nothing does.
    (
        "call 0 @f / retnil / f: / method 0 0 2 0 / push_1 / push_0 / div / retnil",
        "[unhandled object=1 fault=4]\n",
    ),
    // The table isn't whole.
    (
        "call 0 @f / retnil / f: / method 0 0 2 60 / push_1 / push_0 / div / retnil",
        "[bad code at=17 why=Table]\n",
    ),
    // The object is the one operand of the method that catches.
    (
        "call 0 @f / retnil / f: / method 0 0 4 ~h / push_1 / push_1 / a: / push_0 / div / b: / retnil / c: / disc / disc / h: / table 1 / handler ~a ~b 0 ~c",
        "[bad code at=33 why=Underflow]\n",
    ),
];

#[test]
fn catches(rt: HostRuntime) -> Result<(), Fail> {
    assert_eq!(rt; first_unlike(rt.alloc(), 0, &CATCHES)?, None);
    Ok(())
}
