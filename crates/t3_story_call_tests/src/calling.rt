//! Each code that calls or evaluates, with each kind of value that it may find, and each count of arguments.
use crate::cast::{CallRow, first_unlike_call, shown_of};
use std::alloc::{AllocError, Global};
use std::test::Fail;

/// The method of the row is called for object 4, and is defined by object 2.
const CALLS_ROW: &str = "objgetprop 4 10 / retnil";

// ---- what is found

/// How a property P of object 4 is evaluated by each code that needs no self.
const OF_OBJECTS: [&str; 5] = [
    "pushobj 4 / getprop P",
    "pushobj 4 / callprop 0 P",
    "pushobj 4 / pushpropid P / ptrcallprop 0",
    "objgetprop 4 P",
    "objcallprop 0 4 P",
];

/// Nil, which is 2, and the number of object 4; the text that is said; an element of the list; what the method
/// says and gives; and that there is no 7.
const FOUND_IN_4: &str = "true43(up)61430337true\n";

/// The same of self, which is object 4, by each code that needs one, in a method that object 2 defines, and what
/// it shows.
const OF_SELF: [(&str, &str); 6] = [
    ("getpropself P", FOUND_IN_4),
    ("callpropself 0 P", FOUND_IN_4),
    ("pushpropid P / ptrcallpropself 0", FOUND_IN_4),
    // Behind object 2 come 3 and 1.
    ("inherit 0 P", "true33(up)61430true8true\n"),
    // In object 3, and then in 1.
    ("expinherit 0 P 3", "true33(up)61430true8true\n"),
    // In object 2, and then in 1. Self stays, and so does what stands behind object 2 in its order.
    ("pushobj 2 / delegate 0 P", "true23(up)61430337true\n"),
];

/// Evaluates the properties: `E3` stands for the code with property 3. Before what is nil or isn't there comes what
/// isn't nil.
const EVALUATES: &str =
    "pushfnptr @says / builtin_c 1 1 / E3 / getr0 / E2 / getr0 / not / builtin_a 2 0 / E4 / \
    E5 / getr0 / push_1 / index / builtin_a 1 0 / E6 / getr0 / builtin_a 1 0 / E3 / E7 / getr0 / not / builtin_a 1 0 / retnil";

/// The same with a code in its place.
fn evaluating(alloc: Global, code: &str) -> Result<String, AllocError> {
    let mut body = String::from_str(alloc, EVALUATES)?;
    for property in 2..8 {
        let place = format!(in alloc; "E{property}")?;
        let number = format!(in alloc; "{property}")?;
        let coded = code.replace(alloc, "P", number.as_str())?;
        body = body.replace(alloc, place.as_str(), coded.as_str())?;
    }
    Ok(body)
}

#[test]
fn finds_each_kind_of_value(rt: HostRuntime) -> Result<(), Fail> {
    let alloc = rt.alloc();
    for code in OF_OBJECTS {
        let body = evaluating(alloc, code)?;
        let shown = shown_of(alloc, body.as_str(), "", &[])?;
        assert_eq!(rt; shown.as_slice(), FOUND_IN_4.as_bytes(), "{code}");
    }
    for (code, want) in OF_SELF {
        let body = evaluating(alloc, code)?;
        let method = format!(in alloc; "method 0 0 8 0 / {body}")?;
        let shown = shown_of(alloc, CALLS_ROW, method.as_str(), &[])?;
        assert_eq!(rt; shown.as_slice(), want.as_bytes(), "{code}");
    }
    Ok(())
}

// ---- counts of arguments

/// Codes that call the property P, or the function L, with N arguments, and whether they need a self.
const CALLS: [(&str, bool); 10] = [
    ("call N L", false),
    ("pushfnptr L / ptrcall N", false),
    ("pushobj 4 / callprop N P", false),
    ("pushobj 4 / pushpropid P / ptrcallprop N", false),
    ("objcallprop N 4 P", false),
    ("callpropself N P", true),
    ("pushpropid P / ptrcallpropself N", true),
    ("inherit N P", true),
    ("expinherit N P 3", true),
    ("pushobj 2 / delegate N P", true),
];

/// A count of arguments.
const REFUSED: &str = "[unhandled object=8 fault=2]\n";

/// How many arguments, of which the operands are 7, 6, 5 and 4, the topmost first; a property and a function that
/// gets them; and what that gives, and which operand is the topmost then. The first takes one argument and gives it, the
/// second any number from one on, and the third one or two, of which it gives the second.
const COUNTS: [(&str, &str, &str, &str); 10] = [
    ("0", "11", "@one", REFUSED),
    ("1", "11", "@one", "76\n"),
    ("2", "11", "@one", REFUSED),
    ("0", "12", "@some", REFUSED),
    ("1", "12", "@some", "76\n"),
    ("3", "12", "@some", "74\n"),
    ("0", "13", "@maybe", REFUSED),
    ("1", "13", "@maybe", "6\n"),
    ("2", "13", "@maybe", "65\n"),
    ("3", "13", "@maybe", REFUSED),
];

/// What a code shows with so many arguments.
fn shown_with(
    alloc: Global,
    code: &str,
    of_self: bool,
    count: &str,
    property: &str,
    function: &str,
) -> Result<Vec<u8>, Fail> {
    let counted = code.replace(alloc, "N", count)?;
    let named = counted.replace(alloc, "P", property)?;
    let coded = named.replace(alloc, "L", function)?;
    let body = format!(in alloc;
        "pushint8 4 / pushint8 5 / pushint8 6 / pushint8 7 / {coded} / getr0 / builtin_a 1 0 / builtin_a 1 0 / retnil"
    )?;
    if of_self {
        let method = format!(in alloc; "method 0 0 8 0 / {body}")?;
        return shown_of(alloc, CALLS_ROW, method.as_str(), &[]);
    }
    shown_of(alloc, body.as_str(), "", &[])
}

#[test]
fn counts_arguments_by_each_code(rt: HostRuntime) -> Result<(), Fail> {
    for (code, of_self) in CALLS {
        for (count, property, function, want) in COUNTS {
            let shown = shown_with(rt.alloc(), code, of_self, count, property, function)?;
            assert_eq!(rt;
                shown.as_slice(),
                want.as_bytes(),
                "{code} {count} {property}"
            );
        }
    }
    Ok(())
}

// ---- what else calls and returns come to

const FRAMES: [CallRow; 20] = [
    // Codes without a count call with none.
    ("pushobj 4 / getprop 11", "", REFUSED),
    ("objgetprop 4 11", "", REFUSED),
    (CALLS_ROW, "method 0 0 8 0 / getpropself 11", REFUSED),
    // A value takes no argument, whatever it is.
    ("push_1 / objcallprop 1 4 2", "", REFUSED),
    ("push_1 / objcallprop 1 4 4", "", REFUSED),
    ("push_1 / objcallprop 1 4 5", "", REFUSED),
    (
        CALLS_ROW,
        "method 0 0 8 0 / push_1 / callpropself 1 3",
        REFUSED,
    ),
    (
        CALLS_ROW,
        "method 0 0 8 0 / push_1 / pushpropid 3 / ptrcallpropself 1",
        REFUSED,
    ),
    (CALLS_ROW, "method 0 0 8 0 / push_1 / inherit 1 3", REFUSED),
    // A property that isn't there takes any arguments, and what stands below them stays.
    (
        "pushint8 5 / push_1 / push_1 / objcallprop 2 4 7 / getr0 / not / builtin_a 2 0 / retnil",
        "",
        "true5\n",
    ),
    (
        "pushint8 5 / push_1 / pushobj 4 / pushpropid 7 / ptrcallprop 1 / getr0 / not / builtin_a 2 0 / retnil",
        "",
        "true5\n",
    ),
    (
        CALLS_ROW,
        "method 0 0 8 0 / pushint8 5 / push_1 / inherit 1 7 / getr0 / not / builtin_a 2 0 / retnil",
        "true5\n",
    ),
    // A function has no self, though its caller has one.
    (
        CALLS_ROW,
        "method 0 0 8 0 / call 0 @f / retnil / f: / method 0 0 8 0 / pushself / not / builtin_a 1 0 / inherit 0 3",
        "true\n[unhandled object=8 fault=1]\n",
    ),
    // Nothing stands behind an object that isn't in the order of self: 6 defines the method, and 4 is self.
    (
        CALLS_ROW,
        "method 128 0 8 0 / getargc / jt @f / push_1 / expinherit 1 10 6 / ret / f: / getpropself 3 / inherit 0 3 / getr0 / not / builtin_a 1 0 / retnil",
        "true\n",
    ),
    // Each code that returns, to a caller.
    (
        "call 0 @f / getr0 / builtin_a 1 0 / call 0 @g / getr0 / builtin_a 1 0 / call 0 @g / call 0 @h / getr0 / not / builtin_a 1 0 / call 0 @f / call 0 @i / getr0 / builtin_a 1 0 / retnil",
        "f: / method 0 0 8 0 / pushint8 3 / retval / g: / method 0 0 8 0 / rettrue / h: / method 0 0 8 0 / retnil / i: / method 0 0 8 0 / push_1 / ret",
        "3truetrue3\n",
    ),
    // How many arguments were given, and the third of three to five.
    (
        "push_1 / call 1 @row / pushint8 4 / pushint8 5 / pushint8 6 / pushint8 7 / call 4 @row / retnil",
        "method 129 0 8 0 2 / getargc / builtin_a 1 0 / getarg1 2 / builtin_a 1 0 / retnil",
        "145\n",
    ),
    (
        "push_1 / call 1 @row",
        "method 129 0 8 0 2 / getarg1 3",
        "[bad code at=1034 why=Argument]\n",
    ),
    // An argument that was left out can be set, and isn't given by that.
    (
        "push_1 / call 1 @row / retnil",
        "method 1 0 8 0 1 / pushint8 9 / setarg1 1 / getarg1 1 / getargc / builtin_a 2 0 / retnil",
        "19\n",
    ),
    // Neither a caller's locals nor its arguments are the callee's.
    (
        "onelcl1 1 / push_1 / call 1 @row / getlcl1 1 / builtin_a 1 0 / retnil",
        "method 1 0 8 0 / getlcl1 0",
        "[bad code at=1034 why=Local]\n",
    ),
    (
        "onelcl1 1 / push_0 / call 1 @row / getlcl1 1 / builtin_a 1 0 / retnil",
        "method 1 2 8 0 / zerolcl1 1 / pushint8 5 / setarg1 0 / retnil",
        "1\n",
    ),
];

#[test]
fn keeps_frames_apart(rt: HostRuntime) -> Result<(), Fail> {
    assert_eq!(rt; first_unlike_call(rt.alloc(), &FRAMES)?, None);
    Ok(())
}
