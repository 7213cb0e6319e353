//! Instructions on objects: properties that are searched, evaluated and set, and references among other values.
use std::test::Fail;
use t3_testing::{Row, first_unlike_beside};

/// Objects: 4 has the superclasses 2 and 3, which both have 1. 5 and 6 have both 2 and its
/// superclass 1, in either order. 7 has a text that is said and code, which 8 inherits, and 9 is transient and has
/// such code too. The next persistent object is 10.
pub(crate) const FAMILY: &str = "block \"OBJS\" 1 / objects 0 0 / \
    object 1 / u2 0 / u2 4 / u2 1 / u2 2 / hold 7 12 / u2 3 / hold 7 13 / u2 4 / hold 7 14 / u2 5 / hold 7 15 / \
    object 2 / u2 1 / u2 2 / u2 1 / u4 1 / u2 2 / hold 7 22 / u2 3 / hold 7 23 / \
    object 3 / u2 1 / u2 3 / u2 1 / u4 1 / u2 2 / hold 7 32 / u2 3 / hold 7 33 / u2 4 / hold 7 34 / \
    object 4 / u2 2 / u2 1 / u2 0 / u4 2 / u4 3 / u2 2 / hold 7 42 / \
    object 5 / u2 2 / u2 0 / u2 0 / u4 2 / u4 1 / \
    object 6 / u2 2 / u2 0 / u2 0 / u4 1 / u4 2 / \
    object 7 / u2 0 / u2 2 / u2 0 / u2 6 / hold 9 0 / u2 7 / hold 11 0 / \
    object 8 / u2 1 / u2 0 / u2 0 / u4 7 / \
    block \"OBJS\" 1 / objects 0 2 / object 9 / u2 0 / u2 1 / u2 0 / u2 7 / hold 11 0";

/// Searching a property in the order of an object's superclasses.
const FINDS: [Row; 2] = [
    // In the object, in its first superclass, in its last one, in a class that both have, and nowhere.
    (
        "objgetprop 4 2 / getr0 / builtin_a 1 0 / objgetprop 4 3 / getr0 / builtin_a 1 0 / objgetprop 4 4 / getr0 / builtin_a 1 0 / objgetprop 4 5 / getr0 / builtin_a 1 0 / objgetprop 4 9 / getr0 / not / builtin_a 1 0 / retnil",
        "42233415true\n",
    ),
    // A class stands behind each of its subclasses, whichever superclass is named first.
    (
        "objgetprop 5 2 / getr0 / builtin_a 1 0 / objgetprop 5 4 / getr0 / builtin_a 1 0 / objgetprop 6 2 / getr0 / builtin_a 1 0 / objgetprop 6 4 / getr0 / builtin_a 1 0 / retnil",
        "22142214\n",
    ),
];

#[test]
fn finds_properties(rt: HostRuntime) -> Result<(), Fail> {
    assert_eq!(rt; first_unlike_beside(rt.alloc(), FAMILY, &FINDS)?, None);
    Ok(())
}

/// Evaluating a property of an operand.
const EVALUATES_OPERANDS: [Row; 14] = [
    // Only the object and the property are taken.
    (
        "pushint8 7 / pushobj 4 / getprop 3 / getr0 / builtin_a 1 0 / pushobj 4 / callprop 0 4 / getr0 / builtin_a 1 0 / pushobj 4 / pushpropid 5 / ptrcallprop 0 / getr0 / builtin_a 1 0 / builtin_a 1 0 / retnil",
        "2334157\n",
    ),
    // Of an absent property the register is nil, and the arguments are dropped.
    (
        "pushint8 7 / objgetprop 4 2 / pushobj 4 / getprop 9 / getr0 / not / builtin_a 1 0 / push_1 / objgetprop 4 2 / pushobj 4 / callprop 1 9 / getr0 / not / builtin_a 1 0 / push_1 / push_1 / objgetprop 4 2 / pushobj 4 / pushpropid 9 / ptrcallprop 2 / getr0 / not / builtin_a 1 0 / builtin_a 1 0 / retnil",
        "truetruetrue7\n",
    ),
    ("pushobj 99 / getprop 2", "[unhandled object=10 fault=20]\n"),
    ("pushnil / getprop 7", "[unhandled object=10 fault=1]\n"),
    (
        "pushpropid 2 / getprop 2",
        "[unhandled object=10 fault=1]\n",
    ),
    (
        "pushnil / pushpropid 2 / ptrcallprop 0",
        "[unhandled object=10 fault=1]\n",
    ),
    ("getprop 2", "[bad code at=10 why=Underflow]\n"),
    // A value takes no arguments.
    (
        "push_1 / pushobj 4 / callprop 1 2",
        "[unhandled object=10 fault=2]\n",
    ),
    // The object is the topmost.
    (
        "pushobj 4 / push_1 / callprop 1 2",
        "[unhandled object=10 fault=1]\n",
    ),
    (
        "pushobj 4 / callprop 1 2",
        "[bad code at=15 why=Underflow]\n",
    ),
    (
        "push_1 / pushobj 4 / pushpropid 2 / ptrcallprop 1",
        "[unhandled object=10 fault=2]\n",
    ),
    // What is no property is told before the object.
    (
        "pushobj 99 / push_1 / ptrcallprop 0",
        "[unhandled object=10 fault=3]\n",
    ),
    (
        "pushobj 99 / pushpropid 2 / ptrcallprop 0",
        "[unhandled object=10 fault=20]\n",
    ),
    (
        "pushpropid 2 / ptrcallprop 0",
        "[bad code at=13 why=Underflow]\n",
    ),
];

#[test]
fn evaluates_of_operands(rt: HostRuntime) -> Result<(), Fail> {
    assert_eq!(rt;
        first_unlike_beside(rt.alloc(), FAMILY, &EVALUATES_OPERANDS)?,
        None
    );
    Ok(())
}

/// Evaluating a property of an object that is named, or that another method is taken from.
const EVALUATES_OBJECTS: [Row; 13] = [
    (
        "pushint8 7 / objgetprop 4 3 / getr0 / builtin_a 1 0 / objcallprop 0 4 4 / getr0 / builtin_a 1 0 / expinherit 0 3 4 / getr0 / builtin_a 1 0 / pushobj 4 / delegate 0 4 / getr0 / builtin_a 1 0 / builtin_a 1 0 / retnil",
        "233423347\n",
    ),
    // An absent property.
    (
        "pushint8 7 / objgetprop 4 2 / objgetprop 4 9 / getr0 / not / builtin_a 1 0 / push_1 / objgetprop 4 2 / objcallprop 1 4 9 / getr0 / not / builtin_a 1 0 / push_1 / objgetprop 4 2 / expinherit 1 9 4 / getr0 / not / builtin_a 1 0 / push_1 / objgetprop 4 2 / pushobj 4 / delegate 1 9 / getr0 / not / builtin_a 1 0 / builtin_a 1 0 / retnil",
        "truetruetruetrue7\n",
    ),
    // Without the object no code is found that would be called.
    (
        "push_1 / objcallprop 1 99 7",
        "[unhandled object=10 fault=20]\n",
    ),
    (
        "push_1 / objcallprop 1 4 2",
        "[unhandled object=10 fault=2]\n",
    ),
    ("objcallprop 1 4 2", "[bad code at=10 why=Underflow]\n"),
    ("expinherit 0 2 99", "[unhandled object=10 fault=20]\n"),
    (
        "push_1 / expinherit 1 2 4",
        "[unhandled object=10 fault=2]\n",
    ),
    ("expinherit 1 2 4", "[bad code at=10 why=Underflow]\n"),
    (
        "pushobj 99 / delegate 0 2",
        "[unhandled object=10 fault=20]\n",
    ),
    ("push_1 / delegate 0 2", "[unhandled object=10 fault=1]\n"),
    ("pushnil / delegate 0 2", "[unhandled object=10 fault=1]\n"),
    (
        "push_1 / pushobj 4 / delegate 1 2",
        "[unhandled object=10 fault=2]\n",
    ),
    (
        "pushobj 4 / delegate 1 2",
        "[bad code at=15 why=Underflow]\n",
    ),
];

#[test]
fn evaluates_of_objects(rt: HostRuntime) -> Result<(), Fail> {
    assert_eq!(rt;
        first_unlike_beside(rt.alloc(), FAMILY, &EVALUATES_OBJECTS)?,
        None
    );
    Ok(())
}

/// Properties of self, which is nil in a function.
const USES_SELF: [Row; 10] = [
    ("getpropself 2", "[unhandled object=10 fault=1]\n"),
    (
        "push_1 / callpropself 1 2",
        "[unhandled object=10 fault=1]\n",
    ),
    ("callpropself 1 2", "[bad code at=10 why=Underflow]\n"),
    (
        "pushpropid 2 / ptrcallpropself 0",
        "[unhandled object=10 fault=1]\n",
    ),
    // What is no property is told first.
    (
        "pushnil / ptrcallpropself 0",
        "[unhandled object=10 fault=3]\n",
    ),
    ("ptrcallpropself 0", "[bad code at=10 why=Underflow]\n"),
    ("inherit 0 2", "[unhandled object=10 fault=1]\n"),
    ("inherit 1 2", "[bad code at=10 why=Underflow]\n"),
    ("push_1 / setpropself 2", "[unhandled object=10 fault=1]\n"),
    ("setpropself 2", "[bad code at=10 why=Underflow]\n"),
];

#[test]
fn has_no_self(rt: HostRuntime) -> Result<(), Fail> {
    assert_eq!(rt; first_unlike_beside(rt.alloc(), FAMILY, &USES_SELF)?, None);
    Ok(())
}

/// Setting properties.
const SETS: [Row; 14] = [
    // The superclass keeps its own, and the register stays.
    (
        "pushint8 7 / objgetprop 4 2 / pushint8 5 / pushobj 4 / setprop 3 / getr0 / builtin_a 1 0 / objgetprop 4 3 / getr0 / builtin_a 1 0 / objgetprop 2 3 / getr0 / builtin_a 1 0 / builtin_a 1 0 / retnil",
        "425237\n",
    ),
    // Properties that were absent.
    (
        "push_1 / pushobj 4 / setprop 9 / pushint8 2 / pushobj 4 / pushpropid 10 / ptrsetprop / pushint8 3 / objsetprop 4 11 / objgetprop 4 9 / getr0 / builtin_a 1 0 / objgetprop 4 10 / getr0 / builtin_a 1 0 / objgetprop 4 11 / getr0 / builtin_a 1 0 / objgetprop 3 9 / getr0 / not / builtin_a 1 0 / retnil",
        "123true\n",
    ),
    // What a superclass gets is found, until nil stands before it.
    (
        "pushint8 5 / objsetprop 1 5 / objgetprop 4 5 / getr0 / builtin_a 1 0 / pushnil / objsetprop 4 5 / objgetprop 4 5 / getr0 / not / builtin_a 1 0 / objgetprop 1 5 / getr0 / builtin_a 1 0 / retnil",
        "5true5\n",
    ),
    // Any value can be set, a reference to no object too.
    (
        "pushobj 99 / objsetprop 4 9 / objgetprop 4 9 / getr0 / pushobj 99 / eq / builtin_a 1 0 / retnil",
        "true\n",
    ),
    (
        "push_1 / pushobj 99 / setprop 3",
        "[unhandled object=10 fault=20]\n",
    ),
    (
        "pushobj 4 / push_1 / setprop 3",
        "[unhandled object=10 fault=1]\n",
    ),
    (
        "push_1 / pushnil / setprop 3",
        "[unhandled object=10 fault=1]\n",
    ),
    ("pushobj 4 / setprop 3", "[bad code at=15 why=Underflow]\n"),
    (
        "push_1 / pushobj 99 / pushnil / ptrsetprop",
        "[unhandled object=10 fault=3]\n",
    ),
    (
        "push_1 / pushobj 99 / pushpropid 3 / ptrsetprop",
        "[unhandled object=10 fault=20]\n",
    ),
    (
        "push_1 / pushnil / pushpropid 3 / ptrsetprop",
        "[unhandled object=10 fault=1]\n",
    ),
    (
        "pushobj 4 / pushpropid 3 / ptrsetprop",
        "[bad code at=18 why=Underflow]\n",
    ),
    (
        "push_1 / objsetprop 99 3",
        "[unhandled object=10 fault=20]\n",
    ),
    ("objsetprop 4 3", "[bad code at=10 why=Underflow]\n"),
];

#[test]
fn sets_properties(rt: HostRuntime) -> Result<(), Fail> {
    assert_eq!(rt; first_unlike_beside(rt.alloc(), FAMILY, &SETS)?, None);
    Ok(())
}

/// Values that are said or called, of the object or inherited. No function says texts, and nothing is called yet.
const SAYS_OR_CALLS: [Row; 17] = [
    ("objgetprop 7 6", "[unhandled object=10 fault=12]\n"),
    // A text takes no arguments.
    (
        "push_1 / objcallprop 1 7 6",
        "[unhandled object=10 fault=2]\n",
    ),
    // A text that is inherited.
    ("pushobj 8 / getprop 6", "[unhandled object=10 fault=12]\n"),
    (
        "push_1 / pushobj 8 / callprop 1 6",
        "[unhandled object=10 fault=2]\n",
    ),
    (
        "pushobj 8 / delegate 0 6",
        "[unhandled object=10 fault=12]\n",
    ),
    ("expinherit 0 6 8", "[unhandled object=10 fault=12]\n"),
    ("objgetprop 7 7", "[unhandled object=10 fault=9]\n"),
    ("pushobj 9 / getprop 7", "[unhandled object=10 fault=9]\n"),
    (
        "push_1 / objcallprop 1 8 7",
        "[unhandled object=10 fault=2]\n",
    ),
    (
        "push_1 / pushobj 8 / callprop 1 7",
        "[unhandled object=10 fault=2]\n",
    ),
    (
        "pushobj 8 / pushpropid 7 / ptrcallprop 0",
        "[unhandled object=10 fault=9]\n",
    ),
    ("expinherit 0 7 8", "[unhandled object=10 fault=9]\n"),
    (
        "pushobj 8 / delegate 0 7",
        "[unhandled object=10 fault=9]\n",
    ),
    // A value that is set stands before what would be called.
    (
        "push_1 / objsetprop 8 7 / objgetprop 8 7 / getr0 / builtin_a 1 0 / retnil",
        "1\n",
    ),
    ("say 0", "[unhandled object=10 fault=12]\n"),
    ("push_1 / sayval", "[unhandled object=10 fault=12]\n"),
    ("sayval", "[bad code at=10 why=Underflow]\n"),
];

#[test]
fn says_or_calls(rt: HostRuntime) -> Result<(), Fail> {
    assert_eq!(rt;
        first_unlike_beside(rt.alloc(), FAMILY, &SAYS_OR_CALLS)?,
        None
    );
    Ok(())
}

/// Operations on references.
const TAKES_REFERENCES: [Row; 15] = [
    // They are equal by their numbers, and no integer is.
    (
        "pushobj 4 / pushobj 4 / eq / builtin_a 1 0 / pushobj 4 / pushobj 3 / ne / builtin_a 1 0 / pushobj 99 / pushobj 99 / eq / builtin_a 1 0 / pushobj 99 / pushobj 98 / eq / builtin_a 1 0 / pushobj 4 / pushint8 4 / eq / builtin_a 1 0 / pushobj 99 / boolize / builtin_a 1 0 / retnil",
        "truetruetruetrue\n",
    ),
    // They have no order. That an object isn't there is told first.
    (
        "pushobj 99 / push_1 / lt",
        "[unhandled object=10 fault=20]\n",
    ),
    (
        "pushobj 4 / pushobj 3 / le",
        "[unhandled object=10 fault=3]\n",
    ),
    (
        "push_1 / pushobj 99 / jgt 2",
        "[unhandled object=10 fault=20]\n",
    ),
    // What is added to is told first, and the other one's object isn't needed.
    (
        "pushobj 99 / push_1 / add",
        "[unhandled object=10 fault=20]\n",
    ),
    (
        "push_1 / pushobj 99 / add",
        "[unhandled object=10 fault=3]\n",
    ),
    (
        "pushobj 4 / push_1 / add",
        "[unhandled object=10 fault=3]\n",
    ),
    (
        "pushobj 99 / setlcl1 0 / push_1 / addtolcl 0",
        "[unhandled object=10 fault=20]\n",
    ),
    (
        "onelcl1 0 / pushobj 99 / addtolcl 0",
        "[unhandled object=10 fault=3]\n",
    ),
    // Where integers are wanted, no object is needed.
    (
        "pushobj 99 / push_1 / sub",
        "[unhandled object=10 fault=3]\n",
    ),
    ("pushobj 99 / neg", "[unhandled object=10 fault=3]\n"),
    ("pushobj 99 / inc", "[unhandled object=10 fault=3]\n"),
    // Nothing is said where one value has no text.
    (
        "pushint8 5 / pushobj 99 / pushint8 6 / builtin_a 3 0",
        "[unhandled object=10 fault=20]\n",
    ),
    (
        "pushobj 4 / builtin_a 1 0",
        "[unhandled object=10 fault=3]\n",
    ),
    (
        "pushobj 99 / pushpropid 3 / builtin_a 2 0",
        "[unhandled object=10 fault=20]\n",
    ),
];

#[test]
fn takes_references(rt: HostRuntime) -> Result<(), Fail> {
    assert_eq!(rt;
        first_unlike_beside(rt.alloc(), FAMILY, &TAKES_REFERENCES)?,
        None
    );
    Ok(())
}
