//! What catches an exception, and where it goes on.
use crate::cast::{CallRow, first_unlike_call};
use std::test::Fail;

/// Calls the function of the row, and says what it gives.
const CALLS_ROW: &str = "call 0 @f / getr0 / builtin_a 1 0 / retnil";

const UNCAUGHT: &str = "[unhandled object=8 fault=3]\n";

const CATCHES: [CallRow; 22] = [
    // The exception of a fault has a class and the fault's number.
    (
        CALLS_ROW,
        "f: / method 0 0 8 ~t / a: / push_1 / push_0 / div / b: / retnil / h: / getprop 9 / getr0 / retval / t: / table 1 / handler ~a ~b 5 ~h",
        "4\n",
    ),
    // The last place that is covered is that of the sum.
    (
        "call 0 @f / retnil",
        "f: / method 0 0 4 ~t / a: / pushint 2147483647 / push_1 / b: / add / retnil / h: / getprop 9 / getr0 / builtin_a 1 0 / retnil / t: / table 1 / handler ~a ~b 0 ~h",
        "5\n",
    ),
    // Two calls up: the caller in between has an entry for other places, and one for a class that doesn't fit.
    (
        CALLS_ROW,
        "f: / method 0 0 8 ~t / a: / call 0 @g / b: / retnil / h: / getprop 9 / getr0 / retval / t: / table 1 / handler ~a ~a 5 ~h / g: / method 0 0 8 ~u / c: / call 0 @k / d: / retnil / e: / pushint8 8 / retval / u: / table 2 / handler ~d ~e 0 ~e / handler ~c ~c 6 ~e / k: / method 0 0 8 0 / pushnil / neg",
        "3\n",
    ),
    // A call at the first place of several, and at the last.
    (
        CALLS_ROW,
        "f: / method 0 0 8 ~t / a: / call 0 @k / nop / b: / nop / retnil / h: / pushint8 7 / retval / t: / table 1 / handler ~a ~b 0 ~h / k: / method 0 0 8 0 / pushnil / neg",
        "7\n",
    ),
    (
        CALLS_ROW,
        "f: / method 0 0 8 ~t / a: / nop / nop / b: / call 0 @k / retnil / h: / pushint8 7 / retval / t: / table 1 / handler ~a ~b 0 ~h / k: / method 0 0 8 0 / pushnil / neg",
        "7\n",
    ),
    // The call is at 12. One before the first place, one behind the last, and a range that is none.
    (
        CALLS_ROW,
        "f: / method 0 0 8 ~t / nop / nop / call 0 @k / retnil / h: / retnil / t: / table 3 / handler 13 60 0 ~h / handler 0 11 0 ~h / handler 13 11 0 ~h / k: / method 0 0 8 0 / pushnil / neg",
        UNCAUGHT,
    ),
    (
        CALLS_ROW,
        "f: / method 0 0 8 ~t / nop / nop / call 0 @k / retnil / h: / pushint8 7 / retval / t: / table 1 / handler 0 65535 0 ~h / k: / method 0 0 8 0 / pushnil / neg",
        "7\n",
    ),
    // A table without entries catches nothing.
    (
        CALLS_ROW,
        "f: / method 0 0 8 ~t / pushnil / neg / t: / table 0",
        UNCAUGHT,
    ),
    // An object that is no tads-object is its only class.
    (
        CALLS_ROW,
        "f: / method 0 0 8 ~t / a: / pushobj 7 / throw / b: / retnil / h: / pushobj 7 / eq / retval / t: / table 2 / handler ~a ~b 1 ~b / handler ~a ~b 7 ~h",
        "true\n",
    ),
    (
        CALLS_ROW,
        "f: / method 0 0 8 ~t / a: / pushobj 7 / throw / b: / retnil / h: / retnil / t: / table 1 / handler ~a ~b 5 ~h",
        "[unhandled object=7 fault=0]\n",
    ),
    // A table that isn't whole is told where it is reached: in the method itself, in its caller, and not in the
    // caller of one that catches.
    (
        CALLS_ROW,
        "g: / method 0 0 8 2000 / pushnil / neg / f: / method 0 0 8 ~t / a: / call 0 @g / b: / retnil / h: / retnil / t: / table 1 / handler ~a ~b 0 ~h",
        "[bad code at=1024 why=Table]\n",
    ),
    (
        CALLS_ROW,
        "g: / method 0 0 8 2000 / call 0 @k / k: / method 0 0 8 0 / pushnil / neg / f: / method 0 0 8 ~t / a: / call 0 @g / b: / retnil / h: / retnil / t: / table 1 / handler ~a ~b 0 ~h",
        "[bad code at=1024 why=Table]\n",
    ),
    (
        CALLS_ROW,
        "f: / method 0 0 8 2000 / call 0 @g / ret / g: / method 0 0 8 ~t / a: / pushnil / neg / b: / retnil / h: / pushint8 7 / retval / t: / table 1 / handler ~a ~b 0 ~h",
        "7\n",
    ),
    // Its second entry is missing, though the first would catch.
    (
        CALLS_ROW,
        "f: / method 0 0 8 ~t / a: / pushnil / neg / b: / retnil / h: / pushint8 7 / retval / t: / table 2 / handler ~a ~b 0 ~h",
        "[bad code at=1024 why=Table]\n",
    ),
    // It isn't looked at where nothing is thrown.
    (
        CALLS_ROW,
        "f: / method 0 0 8 2000 / pushint8 7 / retval",
        "7\n",
    ),
    // No byte stands at the handler.
    (
        CALLS_ROW,
        "f: / method 0 0 8 ~t / a: / pushnil / neg / b: / retnil / t: / table 1 / handler ~a ~b 0 500",
        "[bad code at=1524 why=NoByte]\n",
    ),
    // What was caught may be thrown on, by no fault. What the handler does wrong is an exception of its own.
    (
        CALLS_ROW,
        "f: / method 0 0 8 ~t / a: / pushnil / neg / b: / retnil / h: / throw / t: / table 1 / handler ~a ~b 0 ~h",
        "[unhandled object=8 fault=0]\n",
    ),
    (
        CALLS_ROW,
        "f: / method 0 0 8 ~t / a: / pushnil / neg / b: / retnil / h: / neg / t: / table 1 / handler ~a ~b 0 ~h",
        "[unhandled object=9 fault=3]\n",
    ),
    // The register stays, and so do the locals and arguments of the method that catches.
    (
        CALLS_ROW,
        "f: / method 0 0 8 ~t / a: / call 0 @k / b: / retnil / h: / getr0 / retval / t: / table 1 / handler ~a ~b 0 ~h / k: / method 0 0 8 0 / pushint8 5 / call 1 @one / pushnil / neg",
        "5\n",
    ),
    (
        "pushint8 4 / call 1 @f / getr0 / builtin_a 1 0 / retnil",
        "f: / method 1 1 8 ~t / pushint8 6 / setlcl1 0 / a: / push_1 / call 1 @k / b: / retnil / h: / getlcl1 0 / getarg1 0 / add / retval / t: / table 1 / handler ~a ~b 0 ~h / k: / method 1 1 8 0 / pushint8 9 / setlcl1 0 / pushnil / neg",
        "10\n",
    ),
    // Self and the object that defines the method are those of the one that catches.
    (
        "objgetprop 4 10 / retnil",
        "method 0 0 8 ~t / a: / objgetprop 1 6 / call 0 @k / b: / retnil / h: / getpropself 3 / getr0 / builtin_a 1 0 / inherit 0 3 / getr0 / builtin_a 1 0 / retnil / t: / table 1 / handler ~a ~b 0 ~h / k: / method 0 0 8 0 / pushnil / neg",
        "130true4333\n",
    ),
    // The caller goes on behind its call, as if nothing had been thrown.
    (
        "pushint8 3 / call 0 @f / getr0 / add / builtin_a 1 0 / retnil",
        "f: / method 0 0 8 ~t / a: / pushnil / neg / b: / retnil / h: / pushint8 4 / retval / t: / table 1 / handler ~a ~b 0 ~h",
        "7\n",
    ),
];

#[test]
fn catches_exceptions(rt: HostRuntime) -> Result<(), Fail> {
    assert_eq!(rt; first_unlike_call(rt.alloc(), &CATCHES)?, None);
    Ok(())
}
