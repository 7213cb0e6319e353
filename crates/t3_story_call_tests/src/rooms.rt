//! How many frames there may be, and how many values they may have.
use crate::cast::{CallRow, first_unlike_call};
use std::test::Fail;

/// Calls the function of the row. Its caller has two values, its locals.
const CALLS_ROW: &str = "call 0 @f / getr0 / builtin_a 1 0 / retnil";

/// The same where values are said by a function that gives its argument.
const SAYS_ROW: &str =
    "pushfnptr @one / builtin_c 1 1 / call 0 @f / getr0 / builtin_a 1 0 / retnil";

const FULL: &str = "[unhandled object=8 fault=9]\n";

/// A call has room where all values, with its arguments and locals and one more, are 65,536 at most.
const ROOMS: [CallRow; 24] = [
    (
        CALLS_ROW,
        "f: / method 0 65533 8 0 / pushint8 5 / retval",
        "5\n",
    ),
    (CALLS_ROW, "f: / method 0 65534 8 0 / retnil", FULL),
    (CALLS_ROW, "f: / method 0 65533 8 0 / push_1 / push_1", FULL),
    // A further call, without locals and with one.
    (
        CALLS_ROW,
        "f: / method 0 65533 8 0 / call 0 @g / ret / g: / method 0 0 8 0 / pushint8 6 / retval",
        "6\n",
    ),
    (
        CALLS_ROW,
        "f: / method 0 65533 8 0 / call 0 @g / g: / method 0 1 8 0 / retnil",
        FULL,
    ),
    // An argument is counted once.
    (
        CALLS_ROW,
        "f: / method 0 65532 8 0 / push_1 / call 1 @one / ret",
        "1\n",
    ),
    (
        CALLS_ROW,
        "f: / method 0 65533 8 0 / push_1 / call 1 @one",
        FULL,
    ),
    // One that is left out is counted.
    (
        CALLS_ROW,
        "f: / method 0 65532 8 0 / call 0 @g / ret / g: / method 0 0 8 0 1 / pushint8 6 / retval",
        "6\n",
    ),
    (
        CALLS_ROW,
        "f: / method 0 65533 8 0 / call 0 @g / g: / method 0 0 8 0 1 / retnil",
        FULL,
    ),
    // And one that is no operand, which is what is said.
    (SAYS_ROW, "f: / method 0 65532 8 0 / say @up / ret", "up\n"),
    (SAYS_ROW, "f: / method 0 65533 8 0 / say @up", FULL),
    (
        SAYS_ROW,
        "f: / method 0 65532 8 0 / push_1 / sayval / ret",
        "1\n",
    ),
    (SAYS_ROW, "f: / method 0 65533 8 0 / push_1 / sayval", FULL),
    (
        SAYS_ROW,
        "f: / method 0 65532 8 0 / objgetprop 4 4 / ret",
        "up\n",
    ),
    (SAYS_ROW, "f: / method 0 65533 8 0 / objgetprop 4 4", FULL),
    // What was popped isn't: a function, an object, and a superclass.
    (
        CALLS_ROW,
        "f: / method 0 65533 8 0 / pushfnptr @g / ptrcall 0 / ret / g: / method 0 0 8 0 / pushint8 6 / retval",
        "6\n",
    ),
    (
        CALLS_ROW,
        "f: / method 0 65533 8 0 / pushobj 4 / getprop 6 / ret",
        "430337\n",
    ),
    (
        CALLS_ROW,
        "method 0 0 8 0 / retnil / f: / method 0 65533 8 0 / pushobj 3 / new1 1 0 / push_1 / retval",
        "1\n",
    ),
    (
        CALLS_ROW,
        "method 0 1 8 0 / retnil / f: / method 0 65533 8 0 / pushobj 3 / new1 1 0",
        "[unhandled object=9 fault=9]\n",
    ),
    // A count that isn't taken is told before that there is no room.
    (
        CALLS_ROW,
        "f: / method 0 65533 8 0 / call 0 @one",
        "[unhandled object=8 fault=2]\n",
    ),
    // The operands of a method that catches go, so there is room for what it catches.
    (
        CALLS_ROW,
        "f: / method 0 65533 8 ~t / a: / push_1 / push_1 / b: / retnil / h: / disc / pushint8 4 / retval / t: / table 1 / handler ~a ~b 0 ~h",
        "4\n",
    ),
    // So many operands there are beside three locals.
    (
        CALLS_ROW,
        "f: / method 0 1 8 ~t / zerolcl1 0 / a: / push_0 / inclcl 0 / b: / jmp @a / h: / getlcl1 0 / retval / t: / table 1 / handler ~a ~b 0 ~h",
        "65533\n",
    ),
    // 4,096 frames: two, and 4,094 more, each of which adds 1 to 13.
    (
        "call 0 @f / objgetprop 1 3 / getr0 / builtin_a 1 0 / retnil",
        "f: / method 0 0 8 ~t / a: / call 0 @g / b: / retnil / h: / retnil / t: / table 1 / handler ~a ~a 0 ~h / g: / method 0 0 8 0 / objgetprop 1 3 / getr0 / inc / objsetprop 1 3 / call 0 @g / retnil",
        "4107\n",
    ),
    // The frames that went have left room for as many once more.
    (
        "call 0 @f / call 0 @f / objgetprop 1 3 / getr0 / builtin_a 1 0 / retnil",
        "f: / method 0 0 8 ~t / a: / call 0 @g / b: / retnil / h: / retnil / t: / table 1 / handler ~a ~a 0 ~h / g: / method 0 0 8 0 / objgetprop 1 3 / getr0 / inc / objsetprop 1 3 / call 0 @g / retnil",
        "8201\n",
    ),
];

#[test]
fn has_room_for_so_much(rt: HostRuntime) -> Result<(), Fail> {
    assert_eq!(rt; first_unlike_call(rt.alloc(), &ROOMS)?, None);
    Ok(())
}
