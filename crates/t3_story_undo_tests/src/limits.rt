//! How many savepoints and records are kept, by the options of a run.
use crate::story::{first_unlike, shown};
use std::alloc::Global;
use std::test::Fail;
use t3_testing::Row;

/// Two savepoints with a change each, and two undos.
const TWICE: &str =
    "builtin_a 0 13 / pushint8 11 / objsetprop 1 3 / builtin_a 0 13 / pushint8 12 / objsetprop 1 3 / \
                     builtin_a 0 14 / getr0 / call 1 @show / objgetprop 1 3 / getr0 / call 1 @show / \
                     builtin_a 0 14 / getr0 / call 1 @show / objgetprop 1 3 / getr0 / call 1 @show / retnil";

/// A savepoint, changes of three properties and an undo.
const THRICE: &str =
    "builtin_a 0 13 / pushint8 11 / objsetprop 1 3 / pushint8 12 / objsetprop 1 4 / \
                      pushint8 13 / objsetprop 1 5 / builtin_a 0 14 / getr0 / call 1 @show / \
                      objgetprop 1 3 / getr0 / call 1 @show / objgetprop 1 4 / getr0 / call 1 @show / \
                      objgetprop 1 5 / getr0 / call 1 @show / retnil";

/// A savepoint and changes of three properties; a further savepoint, a change, and two undos.
const AND_AGAIN: &str =
    "builtin_a 0 13 / pushint8 11 / objsetprop 1 3 / pushint8 12 / objsetprop 1 4 / \
                         pushint8 13 / objsetprop 1 5 / builtin_a 0 13 / pushint8 14 / objsetprop 1 3 / \
                         builtin_a 0 14 / getr0 / call 1 @show / objgetprop 1 3 / getr0 / call 1 @show / \
                         builtin_a 0 14 / getr0 / call 1 @show / objgetprop 1 3 / getr0 / call 1 @show / retnil";

/// 1,025 savepoints, at each of which a property is one more; as many undos as there are, which are counted; and what
/// the property is then.
const MANY: &str =
    "zerolcl1 0 / loop: / builtin_a 0 13 / inclcl 0 / getlcl1 0 / objsetprop 1 3 / getlcl1 0 / \
                    pushint 1025 / jlt @loop / zerolcl1 0 / each: / builtin_a 0 14 / getr0 / jf @done / \
                    inclcl 0 / jmp @each / done: / getlcl1 0 / call 1 @show / objgetprop 1 3 / getr0 / \
                    call 1 @show / retnil";

/// 128 savepoints, with a change of each of the 512 elements of a vector behind each, which are 65,536 changes; then the
/// undos are counted.
const FILLS: &str =
    "pushint 512 / pushint 512 / new1 2 3 / getr0 / setlcl1 0 / zerolcl1 1 / loop: / getlcl1 1 / \
                     pushint 512 / mod / jt @on / builtin_a 0 13 / on: / push_1 / getlcl1 0 / getlcl1 1 / \
                     pushint 512 / mod / inc / setind / disc / inclcl 1 / getlcl1 1 / pushint 65536 / jlt @loop / \
                     zerolcl1 1 / each: / builtin_a 0 14 / getr0 / jf @done / inclcl 1 / jmp @each / done: / \
                     getlcl1 1 / call 1 @show / retnil";

/// The same with a change more behind the newest savepoint.
const OVERFILLS: &str =
    "pushint 512 / pushint 512 / new1 2 3 / getr0 / setlcl1 0 / zerolcl1 1 / loop: / getlcl1 1 / \
                         pushint 512 / mod / jt @on / builtin_a 0 13 / on: / push_1 / getlcl1 0 / getlcl1 1 / \
                         pushint 512 / mod / inc / setind / disc / inclcl 1 / getlcl1 1 / pushint 65536 / jlt @loop / \
                         push_1 / objsetprop 1 3 / zerolcl1 1 / each: / builtin_a 0 14 / getr0 / jf @done / \
                         inclcl 1 / jmp @each / done: / getlcl1 1 / call 1 @show / retnil";

/// Where no option says it, 128 savepoints are held, and 65,536 records.
const DEFAULTS: [Row; 4] = [
    (TWICE, "true11true10\n"),
    (MANY, "128897\n"),
    (FILLS, "128\n"),
    (OVERFILLS, "127\n"),
];

#[test]
fn keeps_as_many_as_are_usual(rt: HostRuntime) -> Result<(), Fail> {
    assert_eq!(rt; first_unlike(rt.alloc(), &[], &DEFAULTS)?, None);
    Ok(())
}

/// The two options of a run, a story's body, and what it shows.
type Limited = (&'static str, &'static str, &'static str, &'static str);

const LIMITS: [Limited; 17] = [
    ("--savepoints=2", "--records=2", TWICE, "true11true10\n"),
    // The oldest goes.
    ("--savepoints=1", "--records=2", TWICE, "true11nil11\n"),
    // One record leaves room for no other, so the savepoint that has it goes.
    ("--savepoints=2", "--records=1", TWICE, "true11nil11\n"),
    ("--records=1", "--savepoints=1", TWICE, "true11nil11\n"),
    ("--records=3", "--savepoints=1", THRICE, "true10nilnil\n"),
    // The one that is held outgrows the journal, and goes too: the changes stay.
    ("--records=2", "--savepoints=1", THRICE, "nil111213\n"),
    ("--records=1", "--savepoints=1", THRICE, "nil111213\n"),
    ("--records=1", "--savepoints=1024", THRICE, "nil111213\n"),
    // Behind that a savepoint is held again, and one alone.
    (
        "--records=2",
        "--savepoints=128",
        AND_AGAIN,
        "true11nil11\n",
    ),
    ("--records=1", "--savepoints=1", AND_AGAIN, "true11nil11\n"),
    ("--records=4", "--savepoints=2", AND_AGAIN, "true11true10\n"),
    // The bounds of both options.
    ("--records=1048576", "--savepoints=1", MANY, "11024\n"),
    ("--records=1048576", "--savepoints=1024", MANY, "10241\n"),
    ("--records=1", "--savepoints=1024", MANY, "11024\n"),
    ("--records=1024", "--savepoints=1024", MANY, "10241\n"),
    ("--records=1000", "--savepoints=1024", MANY, "100025\n"),
    ("--records=65537", "--savepoints=128", OVERFILLS, "128\n"),
];

fn is_as_limited(alloc: Global, row: Limited) -> Result<bool, Fail> {
    let (first, second, body, want) = row;
    let got = shown(alloc, &[first, second], body)?;
    Ok(got.as_slice() == want.as_bytes())
}

#[test]
fn keeps_as_many_as_it_is_told(rt: HostRuntime) -> Result<(), Fail> {
    for row in LIMITS {
        assert!(rt; is_as_limited(rt.alloc(), row)?, "{}", row.3);
    }
    Ok(())
}
