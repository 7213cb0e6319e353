//! Constructors: object 3 has the method of the row, and object 4 has it by its second superclass.
use crate::cast::{CallRow, first_unlike_call};
use std::test::Fail;

/// Makes an object and throws what the register has then. The first object that is made has the number 8.
const THROWS_MADE: &str = "pushobj 3 / new1 1 0 / getr0 / throw";

const MADE_8: &str = "[unhandled object=8 fault=0]\n";

const CONSTRUCTS: [CallRow; 19] = [
    // Whatever it returns, the register has the object.
    (THROWS_MADE, "method 0 0 8 0 / pushint8 9 / retval", MADE_8),
    (THROWS_MADE, "method 0 0 8 0 / retnil", MADE_8),
    (THROWS_MADE, "method 0 0 8 0 / rettrue", MADE_8),
    (
        THROWS_MADE,
        "method 0 0 8 0 / push_1 / call 1 @one / ret",
        MADE_8,
    ),
    // Also where it has made another one.
    (THROWS_MADE, "method 0 0 8 0 / new1 0 0 / ret", MADE_8),
    // While it is carried out, the register has the object, and self is it.
    (
        "pushobj 3 / new1 1 0 / retnil",
        "method 0 0 8 0 / getr0 / pushself / eq / builtin_a 1 0 / retnil",
        "true\n",
    ),
    // What it sets is set.
    (
        "pushobj 3 / new1 1 0 / getr0 / getprop 3 / getr0 / builtin_a 1 0 / retnil",
        "method 0 0 8 0 / pushint8 6 / setpropself 3 / retnil",
        "6\n",
    ),
    // Object 3 defines it, for one of 4 as well, and behind 3 comes 1.
    (
        "pushobj 3 / new1 1 0 / retnil",
        "method 0 0 8 0 / getpropself 3 / getr0 / builtin_a 1 0 / inherit 0 3 / getr0 / builtin_a 1 0 / retnil",
        "3313\n",
    ),
    (
        "pushobj 4 / new1 1 0 / retnil",
        "method 0 0 8 0 / getpropself 3 / getr0 / builtin_a 1 0 / inherit 0 3 / getr0 / builtin_a 1 0 / retnil",
        "4313\n",
    ),
    // It gets the arguments behind the superclass, and what stands below them stays.
    (
        "pushint8 4 / pushint8 5 / pushint8 7 / pushobj 3 / new1 3 0 / builtin_a 1 0 / retnil",
        "method 2 0 8 0 / getarg1 0 / builtin_a 1 0 / getarg1 1 / builtin_a 1 0 / retnil",
        "754\n",
    ),
    (
        "pushint8 4 / pushint8 5 / pushint8 7 / pushobj 4 / trnew2 3 0 / builtin_a 1 0 / retnil",
        "method 129 0 8 0 / getargc / builtin_a 1 0 / getarg1 1 / builtin_a 1 0 / retnil",
        "254\n",
    ),
    (
        "pushobj 3 / trnew1 1 0 / getr0 / throw",
        "method 0 0 8 0 / retnil",
        "[unhandled object=2147483648 fault=0]\n",
    ),
    // Where it isn't called, the object was made before the exception, is in the register, and stays.
    (
        THROWS_MADE,
        "method 1 0 8 0 / retnil",
        "[unhandled object=9 fault=2]\n",
    ),
    (
        "call 0 @f",
        "method 1 0 8 0 / retnil / f: / method 0 0 8 ~t / a: / pushobj 3 / new1 1 0 / b: / retnil / h: / getr0 / throw / t: / table 1 / handler ~a ~b 0 ~h",
        MADE_8,
    ),
    (
        "pushobj 6 / new1 1 0",
        "",
        "[bad code at=5000 why=Header]\n",
    ),
    // Where it throws, the register is as it has left it, and the object stays: the next one is 9.
    (
        "call 0 @f",
        "method 0 0 8 0 / pushint8 5 / call 1 @one / pushobj 5 / throw / f: / method 0 0 8 ~t / a: / pushobj 3 / new1 1 0 / b: / retnil / h: / getr0 / builtin_a 1 0 / new1 0 0 / getr0 / throw / t: / table 1 / handler ~a ~b 0 ~h",
        "5\n[unhandled object=9 fault=0]\n",
    ),
    // What it catches itself doesn't matter.
    (
        THROWS_MADE,
        "method 0 0 8 ~t / a: / pushnil / neg / b: / retnil / h: / retval / t: / table 1 / handler ~a ~b 5 ~h",
        MADE_8,
    ),
    // A function that it calls gives what it returns.
    (
        "pushobj 3 / new1 1 0 / retnil",
        "method 0 0 8 0 / pushint8 5 / call 1 @one / getr0 / builtin_a 1 0 / retnil",
        "5\n",
    ),
    // Nothing that is called by the property gives an object but where one is made.
    (
        "objgetprop 4 8 / getr0 / builtin_a 1 0 / retnil",
        "method 0 0 8 0 / pushint8 5 / retval",
        "5\n",
    ),
];

#[test]
fn constructs(rt: HostRuntime) -> Result<(), Fail> {
    assert_eq!(rt; first_unlike_call(rt.alloc(), &CONSTRUCTS)?, None);
    Ok(())
}
