//! Instructions on values, one kind after another: plain cases, ends, faults, and the order in which they
//! are tested.
use std::test::Fail;
use t3_testing::{Row, first_unlike};

/// Each code that pushes a value: what has no text is compared.
const PUSHES_VALUES: [Row; 6] = [
    (
        "push_0 / builtin_a 1 0 / push_1 / builtin_a 1 0 / pushint8 -128 / builtin_a 1 0 / pushint -2147483648 / builtin_a 1 0 / pushint 2147483647 / builtin_a 1 0 / retnil",
        "01-128-21474836482147483647\n",
    ),
    (
        "pushnil / builtin_a 1 0 / pushtrue / builtin_a 1 0 / retnil",
        "true\n",
    ),
    // A property, a function and an enum are themselves.
    (
        "pushpropid 3 / pushpropid 3 / eq / builtin_a 1 0 / pushfnptr 5 / pushfnptr 5 / eq / builtin_a 1 0 / pushenum 7 / pushenum 7 / eq / builtin_a 1 0 / retnil",
        "truetruetrue\n",
    ),
    // And of one number they are not one another.
    (
        "pushpropid 3 / pushenum 3 / ne / builtin_a 1 0 / pushfnptr 3 / pushenum 3 / ne / builtin_a 1 0 / push_1 / pushenum 1 / ne / builtin_a 1 0 / retnil",
        "truetruetrue\n",
    ),
    // A property can not be said.
    (
        "pushpropid 3 / builtin_a 1 0",
        "[unhandled object=1 fault=3]\n",
    ),
    // A reference is pushed whether its object is there or not.
    ("pushobj 1 / retnil", ""),
];

#[test]
fn pushes_values(rt: HostRuntime) -> Result<(), Fail> {
    assert_eq!(rt; first_unlike(rt.alloc(), 0, &PUSHES_VALUES)?, None);
    Ok(())
}

/// Computing of one operand: the plain case, the ends, and what is no integer.
const COMPUTES_OF_ONE: [Row; 10] = [
    (
        "pushint8 5 / neg / builtin_a 1 0 / pushint8 5 / bnot / builtin_a 1 0 / pushint -2147483648 / bnot / builtin_a 1 0 / push_0 / inc / builtin_a 1 0 / push_0 / dec / builtin_a 1 0 / retnil",
        "-5-621474836471-1\n",
    ),
    // The least has no negative.
    (
        "pushint -2147483648 / neg",
        "[unhandled object=1 fault=5]\n",
    ),
    ("pushint 2147483647 / inc", "[unhandled object=1 fault=5]\n"),
    (
        "pushint -2147483648 / dec",
        "[unhandled object=1 fault=5]\n",
    ),
    ("pushnil / neg", "[unhandled object=1 fault=3]\n"),
    ("pushtrue / bnot", "[unhandled object=1 fault=3]\n"),
    ("pushenum 1 / inc", "[unhandled object=1 fault=3]\n"),
    (
        "push_0 / not / builtin_a 1 0 / push_1 / not / builtin_a 1 0 / pushnil / boolize / builtin_a 1 0 / pushenum 0 / boolize / builtin_a 1 0 / retnil",
        "truetrue\n",
    ),
    ("neg", "[bad code at=10 why=Underflow]\n"),
    ("boolize", "[bad code at=10 why=Underflow]\n"),
];

#[test]
fn computes_of_one(rt: HostRuntime) -> Result<(), Fail> {
    assert_eq!(rt; first_unlike(rt.alloc(), 0, &COMPUTES_OF_ONE)?, None);
    Ok(())
}

/// Computing of two operands.
const COMPUTES_OF_TWO: [Row; 15] = [
    (
        "pushint8 7 / pushint8 -2 / add / builtin_a 1 0 / pushint8 7 / pushint8 -2 / sub / builtin_a 1 0 / pushint8 7 / pushint8 -2 / mul / builtin_a 1 0 / retnil",
        "59-14\n",
    ),
    // A quotient is cut towards 0, and the rest has the sign of the left one.
    (
        "pushint8 7 / pushint8 -2 / div / builtin_a 1 0 / pushint8 -7 / pushint8 2 / div / builtin_a 1 0 / pushint8 -7 / pushint8 2 / mod / builtin_a 1 0 / pushint8 7 / pushint8 -2 / mod / builtin_a 1 0 / retnil",
        "-3-3-11\n",
    ),
    (
        "pushint8 7 / pushint8 -2 / mod / builtin_a 1 0 / pushint -2147483648 / pushint8 -1 / mod / builtin_a 1 0 / retnil",
        "10\n",
    ),
    (
        "pushint8 12 / pushint8 10 / band / builtin_a 1 0 / pushint8 12 / pushint8 10 / bor / builtin_a 1 0 / pushint8 12 / pushint8 10 / xor / builtin_a 1 0 / retnil",
        "8146\n",
    ),
    (
        "push_1 / pushint8 31 / shl / builtin_a 1 0 / pushint8 -8 / push_1 / ashr / builtin_a 1 0 / pushint8 -1 / pushint8 31 / lshr / builtin_a 1 0 / retnil",
        "-2147483648-41\n",
    ),
    (
        "pushint -2147483648 / pushint8 -1 / div",
        "[unhandled object=1 fault=5]\n",
    ),
    ("push_1 / push_0 / div", "[unhandled object=1 fault=4]\n"),
    ("push_1 / push_0 / mod", "[unhandled object=1 fault=4]\n"),
    (
        "push_1 / pushint8 32 / shl",
        "[unhandled object=1 fault=6]\n",
    ),
    (
        "push_1 / pushint8 -1 / ashr",
        "[unhandled object=1 fault=6]\n",
    ),
    // The kind is tested before the number.
    ("pushnil / push_0 / div", "[unhandled object=1 fault=3]\n"),
    (
        "pushnil / pushint8 32 / lshr",
        "[unhandled object=1 fault=3]\n",
    ),
    ("push_1 / pushtrue / add", "[unhandled object=1 fault=3]\n"),
    (
        "pushint -2147483648 / pushint -2147483648 / mul",
        "[unhandled object=1 fault=5]\n",
    ),
    ("push_1 / xor", "[bad code at=11 why=Underflow]\n"),
];

#[test]
fn computes_of_two(rt: HostRuntime) -> Result<(), Fail> {
    assert_eq!(rt; first_unlike(rt.alloc(), 0, &COMPUTES_OF_TWO)?, None);
    Ok(())
}

/// Comparing two operands.
const COMPARES: [Row; 8] = [
    (
        "pushint8 -1 / push_0 / lt / builtin_a 1 0 / push_0 / push_0 / lt / builtin_a 1 0 / push_0 / pushint8 -1 / lt / builtin_a 1 0 / retnil",
        "true\n",
    ),
    (
        "pushint8 -1 / push_0 / le / builtin_a 1 0 / push_0 / push_0 / le / builtin_a 1 0 / push_0 / pushint8 -1 / le / builtin_a 1 0 / retnil",
        "truetrue\n",
    ),
    (
        "pushint8 -1 / push_0 / gt / builtin_a 1 0 / push_0 / push_0 / gt / builtin_a 1 0 / push_0 / pushint8 -1 / gt / builtin_a 1 0 / retnil",
        "true\n",
    ),
    (
        "pushint8 -1 / push_0 / ge / builtin_a 1 0 / push_0 / push_0 / ge / builtin_a 1 0 / push_0 / pushint8 -1 / ge / builtin_a 1 0 / retnil",
        "truetrue\n",
    ),
    (
        "push_1 / push_1 / eq / builtin_a 1 0 / push_1 / push_0 / ne / builtin_a 1 0 / pushnil / pushnil / eq / builtin_a 1 0 / push_0 / pushnil / eq / builtin_a 1 0 / retnil",
        "truetruetrue\n",
    ),
    ("push_0 / pushnil / lt", "[unhandled object=1 fault=3]\n"),
    ("pushtrue / pushtrue / ge", "[unhandled object=1 fault=3]\n"),
    ("push_0 / eq", "[bad code at=11 why=Underflow]\n"),
];

#[test]
fn compares(rt: HostRuntime) -> Result<(), Fail> {
    assert_eq!(rt; first_unlike(rt.alloc(), 0, &COMPARES)?, None);
    Ok(())
}

/// The stack, the register, and what a method has got.
const MOVES_VALUES: [Row; 13] = [
    ("pushint8 5 / dup / add / builtin_a 1 0 / retnil", "10\n"),
    (
        "pushint8 5 / push_1 / swap / sub / builtin_a 1 0 / retnil",
        "-4\n",
    ),
    (
        "pushint8 5 / push_0 / disc / builtin_a 1 0 / push_1 / push_0 / push_0 / disc1 2 / builtin_a 1 0 / pushint8 9 / disc1 0 / builtin_a 1 0 / retnil",
        "519\n",
    ),
    // A function has neither self nor arguments.
    (
        "pushself / builtin_a 1 0 / getargc / builtin_a 1 0 / retnil",
        "0\n",
    ),
    // The register begins as nil, and is nil where a value was said.
    (
        "getr0 / not / builtin_a 1 0 / getr0 / not / builtin_a 1 0 / retnil",
        "truetrue\n",
    ),
    ("dup", "[bad code at=10 why=Underflow]\n"),
    ("push_1 / swap", "[bad code at=11 why=Underflow]\n"),
    ("disc", "[bad code at=10 why=Underflow]\n"),
    ("push_1 / disc1 2", "[bad code at=11 why=Underflow]\n"),
    ("getarg1 0", "[bad code at=10 why=Argument]\n"),
    ("getarg2 0", "[bad code at=10 why=Argument]\n"),
    ("getlcl1 0", "[bad code at=10 why=Local]\n"),
    ("getlcl2 0", "[bad code at=10 why=Local]\n"),
];

#[test]
fn moves_values(rt: HostRuntime) -> Result<(), Fail> {
    assert_eq!(rt; first_unlike(rt.alloc(), 0, &MOVES_VALUES)?, None);
    Ok(())
}

/// Locals: two, which are numbered from 0.
const KEEPS_VARIABLES: [Row; 14] = [
    // They begin as nil.
    (
        "getlcl1 0 / not / builtin_a 1 0 / getlcl2 1 / not / builtin_a 1 0 / retnil",
        "truetrue\n",
    ),
    (
        "pushint8 5 / setlcl1 0 / push_1 / setlcl2 1 / getlcl1 0 / builtin_a 1 0 / getlcl1 1 / builtin_a 1 0 / retnil",
        "51\n",
    ),
    (
        "zerolcl1 0 / inclcl 0 / inclcl 0 / getlcl1 0 / builtin_a 1 0 / declcl 0 / getlcl1 0 / builtin_a 1 0 / retnil",
        "21\n",
    ),
    (
        "onelcl1 1 / addilcl1 1 -3 / getlcl1 1 / builtin_a 1 0 / addilcl4 1 1000000 / getlcl2 1 / builtin_a 1 0 / retnil",
        "-2999998\n",
    ),
    (
        "onelcl2 0 / pushint8 9 / addtolcl 0 / getlcl1 0 / builtin_a 1 0 / push_1 / subfromlcl 0 / getlcl1 0 / builtin_a 1 0 / retnil",
        "109\n",
    ),
    (
        "onelcl1 0 / nillcl1 0 / getlcl1 0 / not / builtin_a 1 0 / onelcl1 1 / nillcl2 1 / getlcl1 1 / not / builtin_a 1 0 / zerolcl2 1 / getlcl1 1 / builtin_a 1 0 / retnil",
        "truetrue0\n",
    ),
    (
        "pushint 2147483647 / setlcl1 0 / inclcl 0",
        "[unhandled object=1 fault=5]\n",
    ),
    (
        "zerolcl1 0 / pushint -2147483648 / subfromlcl 0",
        "[unhandled object=1 fault=5]\n",
    ),
    // Nil is no integer.
    ("addilcl1 0 1", "[unhandled object=1 fault=3]\n"),
    ("push_1 / addtolcl 0", "[unhandled object=1 fault=3]\n"),
    // What is missing is told before a fault.
    ("addilcl4 2 1", "[bad code at=10 why=Local]\n"),
    ("addtolcl 2", "[bad code at=10 why=Underflow]\n"),
    ("push_1 / setlcl1 2", "[bad code at=11 why=Local]\n"),
    ("push_1 / setarg1 0", "[bad code at=11 why=Argument]\n"),
];

#[test]
fn keeps_variables(rt: HostRuntime) -> Result<(), Fail> {
    assert_eq!(rt; first_unlike(rt.alloc(), 2, &KEEPS_VARIABLES)?, None);
    Ok(())
}
