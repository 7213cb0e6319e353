//! Instructions that make objects and throw them, and the exceptions that faults make.
use crate::objects::FAMILY;
use std::alloc::Global;
use std::test::Fail;
use t3_testing::{Row, first_unlike_beside, shown_beside};

/// The lines of symbols, a method's body, and what its run shows.
type SymbolRow = (&'static str, &'static str, &'static str);

/// The number of the first row whose body doesn't show what it says, beside the objects and these symbols.
fn first_unlike_named(alloc: Global, rows: &[SymbolRow]) -> Result<Option<usize>, Fail> {
    for (index, (symbols, body, want)) in rows.iter().enumerate() {
        let blocks = format!(in alloc; "{FAMILY} / block \"SYMD\" 1 / {symbols}")?;
        let shown = shown_beside(alloc, &blocks, body)?;
        if shown.as_slice() != want.as_bytes() {
            return Ok(Some(index));
        }
    }
    Ok(None)
}

/// Making objects.
const MAKES: [Row; 17] = [
    // The number of the new object is thrown: the first is one past the image's, and of transient objects 2 to the power 31.
    (
        "new1 0 0 / getr0 / throw",
        "[unhandled object=10 fault=0]\n",
    ),
    (
        "trnew1 0 0 / getr0 / throw",
        "[unhandled object=2147483648 fault=0]\n",
    ),
    // Each half counts for itself.
    (
        "trnew1 0 0 / new1 0 0 / new2 0 0 / trnew2 0 0 / getr0 / throw",
        "[unhandled object=2147483649 fault=0]\n",
    ),
    // A superclass, or nil.
    (
        "pushobj 4 / new1 1 0 / getr0 / getprop 3 / getr0 / builtin_a 1 0 / pushobj 4 / trnew2 1 0 / getr0 / getprop 4 / getr0 / builtin_a 1 0 / pushnil / new2 1 0 / getr0 / getprop 3 / getr0 / not / builtin_a 1 0 / pushnil / trnew1 1 0 / getr0 / getprop 3 / getr0 / not / builtin_a 1 0 / retnil",
        "2334truetrue\n",
    ),
    // Further arguments are dropped.
    (
        "pushint8 7 / push_1 / pushobj 99 / pushobj 4 / new1 3 0 / getr0 / getprop 3 / getr0 / builtin_a 1 0 / builtin_a 1 0 / retnil",
        "237\n",
    ),
    // A property of its own, and one that its superclass gets later.
    (
        "pushobj 4 / new1 1 0 / getr0 / setlcl1 0 / pushint8 5 / getlcl1 0 / setprop 3 / pushint8 6 / objsetprop 1 5 / getlcl1 0 / getprop 3 / getr0 / builtin_a 1 0 / objgetprop 4 3 / getr0 / builtin_a 1 0 / getlcl1 0 / getprop 5 / getr0 / builtin_a 1 0 / retnil",
        "5236\n",
    ),
    ("push_1 / new1 1 0", "[unhandled object=10 fault=3]\n"),
    (
        "pushobj 99 / trnew1 1 0",
        "[unhandled object=10 fault=20]\n",
    ),
    // A persistent object has no transient superclass.
    ("pushobj 9 / new1 1 0", "[unhandled object=10 fault=22]\n"),
    (
        "trnew1 0 0 / getr0 / new2 1 0",
        "[unhandled object=10 fault=22]\n",
    ),
    (
        "pushobj 9 / trnew1 1 0 / getr0 / throw",
        "[unhandled object=2147483648 fault=0]\n",
    ),
    // Of a root-object, of a collection, and past the table.
    ("new1 0 1", "[unhandled object=10 fault=16]\n"),
    ("push_1 / trnew1 1 2", "[unhandled object=10 fault=16]\n"),
    ("new2 0 4", "[unhandled object=10 fault=16]\n"),
    // A string is made of one argument.
    ("new1 0 3", "[unhandled object=10 fault=2]\n"),
    (
        "push_1 / push_1 / trnew2 2 3",
        "[unhandled object=10 fault=2]\n",
    ),
    ("new1 1 0", "[bad code at=10 why=Underflow]\n"),
];

#[test]
fn makes_objects(rt: HostRuntime) -> Result<(), Fail> {
    assert_eq!(rt; first_unlike_beside(rt.alloc(), FAMILY, &MAKES)?, None);
    Ok(())
}

/// Throwing an object.
const THROWS: [Row; 4] = [
    ("pushobj 4 / throw", "[unhandled object=4 fault=0]\n"),
    ("pushobj 99 / throw", "[unhandled object=10 fault=20]\n"),
    ("pushnil / throw", "[unhandled object=10 fault=1]\n"),
    ("throw", "[bad code at=10 why=Underflow]\n"),
];

#[test]
fn throws_objects(rt: HostRuntime) -> Result<(), Fail> {
    assert_eq!(rt; first_unlike_beside(rt.alloc(), FAMILY, &THROWS)?, None);
    Ok(())
}

/// Symbols, code that makes an object, and what is shown: the constructor is the entry method, which makes an object in
/// its turn, until there is room for no frame more after 4,096 objects.
const CONSTRUCTS: [SymbolRow; 8] = [
    (
        "symbol 6 7 \"Constructor\"",
        "pushobj 7 / new1 1 0",
        "[unhandled object=4106 fault=9]\n",
    ),
    // One that is inherited. Transient objects have numbers of their own.
    (
        "symbol 6 7 \"Constructor\"",
        "pushobj 8 / trnew2 1 0",
        "[unhandled object=10 fault=9]\n",
    ),
    // A bad superclass is told first.
    (
        "symbol 6 7 \"Constructor\"",
        "pushobj 9 / new1 1 0",
        "[unhandled object=10 fault=22]\n",
    ),
    // A value stands before the code, or the property isn't found.
    (
        "symbol 6 7 \"Constructor\"",
        "push_1 / objsetprop 8 7 / pushobj 8 / new1 1 0 / pushobj 4 / new1 1 0 / new1 0 0 / getr0 / throw",
        "[unhandled object=12 fault=0]\n",
    ),
    (
        "symbol 6 2 \"Constructor\"",
        "pushint8 7 / push_1 / pushobj 4 / new1 2 0 / getr0 / getprop 2 / getr0 / builtin_a 1 0 / builtin_a 1 0 / retnil",
        "427\n",
    ),
    (
        "symbol 6 6 \"Constructor\"",
        "pushobj 7 / new1 1 0 / getr0 / throw",
        "[unhandled object=10 fault=0]\n",
    ),
    // A symbol that names no property.
    (
        "symbol 5 7 \"Constructor\"",
        "pushobj 7 / new1 1 0 / getr0 / throw",
        "[unhandled object=10 fault=0]\n",
    ),
    // A property is the low two bytes, and the first symbol of a name counts.
    (
        "symbol 6 65543 \"Constructor\" / symbol 6 2 \"Constructor\"",
        "pushobj 7 / new1 1 0",
        "[unhandled object=4106 fault=9]\n",
    ),
];

#[test]
fn wants_constructors(rt: HostRuntime) -> Result<(), Fail> {
    assert_eq!(rt; first_unlike_named(rt.alloc(), &CONSTRUCTS)?, None);
    Ok(())
}

/// Symbols, code with a fault, and what is shown: the exception is the next persistent object.
const MAKES_EXCEPTIONS: [SymbolRow; 6] = [
    (
        "",
        "new1 0 0 / trnew1 0 0 / pushnil / throw",
        "[unhandled object=11 fault=1]\n",
    ),
    (
        "symbol 5 1 \"RuntimeError\" / symbol 6 2 \"errno_\"",
        "new1 0 0 / pushnil / throw",
        "[unhandled object=11 fault=1]\n",
    ),
    // Objects that can't be its superclass: one that isn't there, the exception itself, and a transient one.
    (
        "symbol 5 99 \"RuntimeError\"",
        "pushnil / throw",
        "[unhandled object=10 fault=1]\n",
    ),
    (
        "symbol 5 10 \"RuntimeError\" / symbol 6 0 \"errno_\"",
        "pushnil / throw",
        "[unhandled object=10 fault=1]\n",
    ),
    (
        "symbol 5 9 \"RuntimeError\"",
        "pushnil / throw",
        "[unhandled object=10 fault=1]\n",
    ),
    // Symbols of other types.
    (
        "symbol 6 1 \"RuntimeError\" / symbol 5 2 \"errno_\"",
        "pushnil / throw",
        "[unhandled object=10 fault=1]\n",
    ),
];

#[test]
fn makes_exceptions(rt: HostRuntime) -> Result<(), Fail> {
    assert_eq!(rt; first_unlike_named(rt.alloc(), &MAKES_EXCEPTIONS)?, None);
    Ok(())
}
