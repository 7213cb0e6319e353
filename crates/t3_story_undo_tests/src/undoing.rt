//! What an undo puts back, and what it leaves.
use crate::story::first_unlike;
use std::test::Fail;
use t3_testing::Row;

/// What the functions answer, and how many arguments they take.
const ANSWERS: [Row; 8] = [
    // No savepoint is held.
    ("builtin_a 0 14 / getr0 / call 1 @show / retnil", "nil\n"),
    // A savepoint answers nil, and its undo true, after which none is held.
    (
        "pushtrue / builtin_a 1 6 / builtin_a 0 13 / getr0 / call 1 @show / builtin_a 0 14 / getr0 / call 1 @show / builtin_a 0 14 / getr0 / call 1 @show / retnil",
        "niltruenil\n",
    ),
    // Operands stay as they are.
    (
        "pushint8 7 / builtin_a 0 13 / builtin_a 0 14 / call 1 @show / retnil",
        "7\n",
    ),
    // The set may be named by an instruction's second byte.
    (
        "builtin1 0 13 0 / builtin1 0 14 0 / getr0 / call 1 @show / retnil",
        "true\n",
    ),
    (
        "push_1 / builtin_a 1 13 / retnil",
        "[unhandled object=4 fault=2]\n",
    ),
    (
        "push_1 / builtin_a 1 14 / retnil",
        "[unhandled object=4 fault=2]\n",
    ),
    // A fault makes no savepoint, and undoes none.
    (
        "push_1 / call 0 @f / builtin_a 0 14 / getr0 / call 1 @show / retnil / f: / method 0 0 4 ~t / a: / push_1 / builtin_a 1 13 / b: / retnil / h: / retnil / t: / table 1 / handler ~a ~b 0 ~h",
        "nil\n",
    ),
    (
        "builtin_a 0 13 / call 0 @f / builtin_a 0 14 / getr0 / call 1 @show / retnil / f: / method 0 0 4 ~t / a: / push_1 / builtin_a 1 14 / b: / retnil / h: / retnil / t: / table 1 / handler ~a ~b 0 ~h",
        "true\n",
    ),
];

#[test]
fn answers(rt: HostRuntime) -> Result<(), Fail> {
    assert_eq!(rt; first_unlike(rt.alloc(), &[], &ANSWERS)?, None);
    Ok(())
}

/// What changed since comes back as it was, each kind of it.
const PUTS_BACK: [Row; 9] = [
    // A property that was there, and one that wasn't.
    (
        "builtin_a 0 13 / pushint8 11 / objsetprop 1 3 / pushint8 12 / objsetprop 1 4 / builtin_a 0 14 / objgetprop 1 3 / getr0 / call 1 @show / objgetprop 1 4 / getr0 / call 1 @show / retnil",
        "10nil\n",
    ),
    // Two savepoints: each undo goes one back.
    (
        "builtin_a 0 13 / pushint8 11 / objsetprop 1 3 / builtin_a 0 13 / pushint8 12 / objsetprop 1 3 / builtin_a 0 14 / objgetprop 1 3 / getr0 / call 1 @show / builtin_a 0 14 / objgetprop 1 3 / getr0 / call 1 @show / builtin_a 0 14 / getr0 / call 1 @show / retnil",
        "1110nil\n",
    ),
    // Changed twice since, it comes back as it was at the savepoint.
    (
        "pushint8 9 / objsetprop 1 3 / builtin_a 0 13 / pushint8 11 / objsetprop 1 3 / pushint8 12 / objsetprop 1 3 / builtin_a 0 14 / objgetprop 1 3 / getr0 / call 1 @show / retnil",
        "9\n",
    ),
    // Changed behind an undo, it stays so.
    (
        "builtin_a 0 13 / builtin_a 0 14 / pushint8 11 / objsetprop 1 3 / builtin_a 0 14 / objgetprop 1 3 / getr0 / call 1 @show / retnil",
        "11\n",
    ),
    // An inherited property is covered by one of the object's own, and isn't any more.
    (
        "pushint8 5 / objsetprop 1 6 / pushobj 1 / new1 1 0 / getr0 / setlcl1 0 / builtin_a 0 13 / pushint8 6 / getlcl1 0 / setprop 6 / getlcl1 0 / getprop 6 / getr0 / call 1 @show / builtin_a 0 14 / getlcl1 0 / getprop 6 / getr0 / call 1 @show / retnil",
        "65\n",
    ),
    // An element of a vector, and those that it got.
    (
        "push_1 / push_1 / new1 2 3 / getr0 / setlcl1 0 / builtin_a 0 13 / pushint8 8 / getlcl1 0 / push_1 / setind / disc / pushint8 9 / getlcl1 0 / pushint8 3 / setind / disc / getlcl1 0 / pushint8 3 / index / call 1 @show / builtin_a 0 14 / getlcl1 0 / push_1 / index / call 1 @show / getlcl1 0 / pushint8 3 / index / retnil",
        "9nil\n[unhandled object=7 fault=6]\n",
    ),
    // An entry of a table that was there, and one that wasn't.
    (
        "new1 0 4 / getr0 / setlcl1 0 / pushint8 5 / getlcl1 0 / pushtrue / setind / disc / builtin_a 0 13 / pushint8 6 / getlcl1 0 / pushtrue / setind / disc / pushint8 7 / getlcl1 0 / pushnil / setind / disc / getlcl1 0 / pushnil / index / call 1 @show / builtin_a 0 14 / getlcl1 0 / pushtrue / index / call 1 @show / getlcl1 0 / pushnil / index / call 1 @show / retnil",
        "75nil\n",
    ),
    // An entry under a text, which is taken by its bytes.
    (
        "pushint8 65 / builtin_a 1 20 / getr0 / setlcl1 1 / new1 0 4 / getr0 / setlcl1 0 / builtin_a 0 13 / pushint8 6 / getlcl1 0 / getlcl1 1 / setind / disc / getlcl1 0 / getlcl1 1 / index / call 1 @show / builtin_a 0 14 / getlcl1 0 / getlcl1 1 / index / call 1 @show / retnil",
        "6nil\n",
    ),
    // A property of an object that was made before, in an object that was made before.
    (
        "new1 0 0 / getr0 / objsetprop 3 5 / builtin_a 0 13 / pushint8 7 / objgetprop 3 5 / getr0 / setprop 4 / pushnil / objsetprop 3 5 / builtin_a 0 14 / objgetprop 3 5 / getr0 / getprop 4 / getr0 / call 1 @show / retnil",
        "nil\n",
    ),
];

#[test]
fn puts_back(rt: HostRuntime) -> Result<(), Fail> {
    assert_eq!(rt; first_unlike(rt.alloc(), &[], &PUTS_BACK)?, None);
    Ok(())
}

/// What an undo leaves: frames, transient objects, the say function and the numbers of objects.
const LEAVES: [Row; 7] = [
    (
        "pushint8 7 / setlcl1 0 / builtin_a 0 13 / pushint8 8 / setlcl1 0 / builtin_a 0 14 / getlcl1 0 / call 1 @show / retnil",
        "8\n",
    ),
    (
        "trnew1 0 0 / getr0 / setlcl1 0 / builtin_a 0 13 / pushint8 8 / getlcl1 0 / setprop 3 / builtin_a 0 14 / getlcl1 0 / getprop 3 / getr0 / call 1 @show / retnil",
        "8\n",
    ),
    // A transient object that was made since is there, and so is what it has.
    (
        "builtin_a 0 13 / trnew1 0 0 / getr0 / setlcl1 0 / pushint8 8 / getlcl1 0 / setprop 3 / builtin_a 0 14 / getlcl1 0 / getprop 3 / getr0 / call 1 @show / retnil",
        "8\n",
    ),
    // A transient vector and a transient table.
    (
        "push_1 / push_1 / trnew1 2 3 / getr0 / setlcl1 0 / builtin_a 0 13 / pushint8 8 / getlcl1 0 / push_1 / setind / disc / builtin_a 0 14 / getlcl1 0 / push_1 / index / call 1 @show / retnil",
        "8\n",
    ),
    (
        "trnew1 0 4 / getr0 / setlcl1 0 / builtin_a 0 13 / pushint8 8 / getlcl1 0 / push_1 / setind / disc / builtin_a 0 14 / getlcl1 0 / push_1 / index / call 1 @show / retnil",
        "8\n",
    ),
    // The function by which values are said was set since.
    (
        "builtin_a 0 13 / pushfnptr @s / builtin_c 1 1 / builtin_a 0 14 / pushint8 5 / sayval / retnil / s: / method 1 0 4 0 / getarg1 0 / call 1 @show / pushint8 6 / call 1 @show / retnil",
        "56\n",
    ),
    // No number is given twice: object 4 went, and the exception is object 5.
    (
        "builtin_a 0 13 / new1 0 0 / builtin_a 0 14 / push_1 / throw",
        "[unhandled object=5 fault=1]\n",
    ),
];

#[test]
fn leaves(rt: HostRuntime) -> Result<(), Fail> {
    assert_eq!(rt; first_unlike(rt.alloc(), &[], &LEAVES)?, None);
    Ok(())
}

/// Objects that were made since are gone, wherever they are referred to.
const TAKES_AWAY: [Row; 7] = [
    // By a local.
    (
        "builtin_a 0 13 / new1 0 0 / getr0 / setlcl1 0 / builtin_a 0 14 / getlcl1 0 / getprop 3 / retnil",
        "[unhandled object=5 fault=20]\n",
    ),
    // By a transient object.
    (
        "trnew1 0 0 / getr0 / setlcl1 0 / builtin_a 0 13 / new1 0 0 / getr0 / getlcl1 0 / setprop 3 / builtin_a 0 14 / getlcl1 0 / getprop 3 / getr0 / getprop 4 / retnil",
        "[unhandled object=5 fault=20]\n",
    ),
    // By self, in a constructor that makes the undo.
    (
        "builtin_a 0 13 / push_1 / pushobj 2 / new1 2 0 / retnil",
        "[unhandled object=5 fault=20]\n",
    ),
    // By what a constructor gives that made the undo.
    (
        "builtin_a 0 13 / pushobj 2 / new1 1 0 / getr0 / getprop 3 / retnil",
        "[unhandled object=5 fault=20]\n",
    ),
    // As the superclass of one that is to be made.
    (
        "builtin_a 0 13 / new1 0 0 / getr0 / setlcl1 0 / builtin_a 0 14 / getlcl1 0 / new1 1 0 / retnil",
        "[unhandled object=5 fault=20]\n",
    ),
    // As what is thrown.
    (
        "builtin_a 0 13 / new1 0 0 / getr0 / setlcl1 0 / builtin_a 0 14 / getlcl1 0 / throw",
        "[unhandled object=5 fault=20]\n",
    ),
    // As a text that is to be said.
    (
        "builtin_a 0 13 / pushint8 65 / builtin_a 1 20 / getr0 / setlcl1 0 / builtin_a 0 14 / getlcl1 0 / builtin_b 1 0 / retnil",
        "[unhandled object=5 fault=20]\n",
    ),
];

#[test]
fn takes_away(rt: HostRuntime) -> Result<(), Fail> {
    assert_eq!(rt; first_unlike(rt.alloc(), &[], &TAKES_AWAY)?, None);
    Ok(())
}

/// Savepoints are made and undone wherever code runs.
const ANYWHERE: [Row; 5] = [
    // In functions that are called.
    (
        "call 0 @save / pushint8 11 / objsetprop 1 3 / call 0 @back / getr0 / call 1 @show / objgetprop 1 3 / getr0 / call 1 @show / retnil",
        "true10\n",
    ),
    // In a function whose caller goes on with the locals that it had.
    (
        "pushint8 7 / setlcl1 0 / builtin_a 0 13 / call 0 @f / getlcl1 0 / call 1 @show / retnil / f: / method 0 1 4 0 / pushint8 8 / setlcl1 0 / builtin_a 0 14 / getlcl1 0 / call 1 @show / retnil",
        "87\n",
    ),
    // In a constructor: what self had at the savepoint comes back.
    (
        "pushobj 3 / new1 1 0 / getr0 / getprop 4 / getr0 / call 1 @show / retnil",
        "4\n",
    ),
    // In a handler: the exception that it was given is gone.
    (
        "builtin_a 0 13 / call 0 @f / retnil / f: / method 0 0 4 ~t / push_1 / a: / throw / h: / builtin_a 0 14 / getr0 / call 1 @show / getprop 3 / retnil / t: / table 1 / handler ~a ~a 0 ~h",
        "true\n[unhandled object=6 fault=20]\n",
    ),
    // A savepoint in a handler has the exception.
    (
        "call 0 @f / retnil / f: / method 0 1 4 ~t / push_1 / a: / throw / h: / setlcl1 0 / builtin_a 0 13 / pushint8 3 / getlcl1 0 / setprop 4 / builtin_a 0 14 / getlcl1 0 / getprop 4 / getr0 / call 1 @show / retnil / t: / table 1 / handler ~a ~a 0 ~h",
        "nil\n",
    ),
];

#[test]
fn undoes_anywhere(rt: HostRuntime) -> Result<(), Fail> {
    assert_eq!(rt; first_unlike(rt.alloc(), &[], &ANYWHERE)?, None);
    Ok(())
}
