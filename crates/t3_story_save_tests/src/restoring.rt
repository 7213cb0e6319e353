//! What a restore puts back, and what it leaves.
use crate::story::{first_unlike, run_in, shown_twice, story};
use std::test::Fail;
use t3_cli::Status;
use t3_io::SureDepot;
use t3_testing::Row;

/// Within one run.
const RESTORES: [Row; 11] = [
    // The state's properties come back; what refers to a transient object is saved as nil, and no savepoint is held.
    (
        "pushint8 5 / objsetprop 1 3 / trnew1 0 0 / getr0 / objsetprop 1 4 / pushstr @name / builtin_a 1 15 / pushint8 6 / objsetprop 1 3 / builtin_a 0 13 / pushstr @name / builtin_a 1 16 / objgetprop 1 3 / getr0 / builtin_b 1 0 / objgetprop 1 4 / getr0 / builtin_a 1 6 / getr0 / builtin_b 1 0 / builtin_a 0 14 / getr0 / builtin_a 1 6 / getr0 / builtin_b 1 0 / retnil",
        "5nilnil\n",
    ),
    // The answer is nil.
    (
        "pushstr @name / builtin_a 1 15 / pushstr @name / builtin_a 1 16 / getr0 / call 1 @show / retnil",
        "nil\n",
    ),
    // A property that was set since is gone.
    (
        "pushstr @name / builtin_a 1 15 / pushint8 6 / objsetprop 1 3 / pushstr @name / builtin_a 1 16 / objgetprop 1 3 / getr0 / call 1 @show / retnil",
        "nil\n",
    ),
    // An object that was made since is gone, wherever it is referred to.
    (
        "pushstr @name / builtin_a 1 15 / new1 0 0 / getr0 / setlcl1 0 / pushstr @name / builtin_a 1 16 / getlcl1 0 / getprop 3 / retnil",
        "[unhandled object=4 fault=20]\n",
    ),
    // One that was given up by an undo is there again.
    (
        "builtin_a 0 13 / new1 0 0 / getr0 / setlcl1 0 / pushint8 7 / getlcl1 0 / setprop 3 / pushstr @name / builtin_a 1 15 / builtin_a 0 14 / pushstr @name / builtin_a 1 16 / getlcl1 0 / getprop 3 / getr0 / call 1 @show / retnil",
        "7\n",
    ),
    // Locals and transient objects stay as they are.
    (
        "trnew1 0 0 / getr0 / setlcl1 0 / pushstr @name / builtin_a 1 15 / pushint8 7 / getlcl1 0 / setprop 3 / pushint8 8 / setlcl1 1 / pushstr @name / builtin_a 1 16 / getlcl1 0 / getprop 3 / getr0 / call 1 @show / getlcl1 1 / call 1 @show / retnil",
        "78\n",
    ),
    // Numbers that were given since aren't given again.
    (
        "pushstr @name / builtin_a 1 15 / new1 0 0 / new1 0 0 / pushstr @name / builtin_a 1 16 / push_1 / push_0 / div",
        "[unhandled object=5 fault=4]\n",
    ),
    // In a function that is called, whose caller goes on.
    (
        "pushint8 5 / objsetprop 1 3 / pushstr @name / builtin_a 1 15 / pushint8 6 / objsetprop 1 3 / call 0 @f / objgetprop 1 3 / getr0 / call 1 @show / retnil / f: / method 0 0 4 0 / pushstr @name / builtin_a 1 16 / retnil",
        "5\n",
    ),
    // Of a file that is no state nothing is restored, and savepoints are held as before.
    (
        "pushint8 6 / objsetprop 1 3 / builtin_a 0 13 / pushint8 7 / objsetprop 1 3 / call 0 @f / objgetprop 1 3 / getr0 / call 1 @show / builtin_a 0 14 / getr0 / call 1 @show / objgetprop 1 3 / getr0 / call 1 @show / retnil / f: / method 0 0 4 ~t / pushstr @image / a: / builtin_a 1 16 / retnil / h: / disc / retnil / t: / table 1 / handler ~a ~a 0 ~h",
        "7true6\n",
    ),
    // A table's entry under a transient object isn't saved, and a value that is one is saved as nil.
    (
        "new1 0 2 / getr0 / objsetprop 1 3 / trnew1 0 0 / getr0 / setlcl1 0 / pushint8 5 / objgetprop 1 3 / getr0 / getlcl1 0 / setind / disc / getlcl1 0 / objgetprop 1 3 / getr0 / push_1 / setind / disc / pushstr @name / builtin_a 1 15 / pushstr @name / builtin_a 1 16 / objgetprop 1 3 / getr0 / getprop 105 / getr0 / call 1 @show / objgetprop 1 3 / getr0 / push_1 / index / call 1 @show / retnil",
        "1nil\n",
    ),
    // In a constructor, whose self is gone then.
    (
        "pushstr @name / builtin_a 1 15 / pushstr @name / pushobj 2 / new1 2 0 / retnil",
        "[unhandled object=4 fault=20]\n",
    ),
];

#[test]
fn restores(rt: HostRuntime) -> Result<(), Fail> {
    assert_eq!(rt; first_unlike(rt.alloc(), &RESTORES)?, None);
    Ok(())
}

/// A line of input is kept in a property and saved; the next run has none, and restores it.
#[test]
fn restores_what_another_run_saved(rt: HostRuntime) -> Result<(), Fail> {
    let body =
        "builtin_b 0 4 / getr0 / jf @next / getr0 / objsetprop 1 3 / pushstr @name / builtin_a 1 15 / retnil / \
                next: / pushstr @name / builtin_a 1 16 / objgetprop 1 3 / getr0 / call 1 @show / retnil";
    let (first, second) = shown_twice(rt.alloc(), body, b"hello\n")?;
    assert_eq!(rt; first.as_slice(), b"".as_slice());
    assert_eq!(rt; second.as_slice(), b"hello\n".as_slice());
    Ok(())
}

/// The numbers that the state had given aren't given again either: the line is object 3, and two more were made.
#[test]
fn goes_on_behind_the_numbers_of_the_state(rt: HostRuntime) -> Result<(), Fail> {
    let body =
        "builtin_b 0 4 / getr0 / jf @next / new1 0 0 / new1 0 0 / pushstr @name / builtin_a 1 15 / retnil / \
                next: / pushstr @name / builtin_a 1 16 / push_1 / push_0 / div";
    let (_, second) = shown_twice(rt.alloc(), body, b"x\n")?;
    assert_eq!(rt;
        second.as_slice(),
        b"[unhandled object=6 fault=4]\n".as_slice()
    );
    Ok(())
}

/// A state with two vectors of 65,535 elements has no room beside 63 transient ones.
#[test]
fn fills_the_store(rt: HostRuntime) -> Result<(), Fail> {
    let body =
        "builtin_b 0 4 / getr0 / jf @next / pushint 65535 / push_0 / new1 2 1 / pushint 65535 / push_0 / \
                new1 2 1 / pushstr @name / builtin_a 1 15 / retnil / next: / pushint8 63 / setlcl1 0 / again: / \
                pushint 65535 / push_0 / trnew1 2 1 / declcl 0 / getlcl1 0 / jt @again / pushstr @name / \
                builtin_a 1 16 / retnil";
    let (first, second) = shown_twice(rt.alloc(), body, b"x\n")?;
    assert_eq!(rt; first.as_slice(), b"".as_slice());
    assert_eq!(rt; second.as_slice(), b"[store full]\n".as_slice());
    Ok(())
}

/// A state is of its image alone.
#[test]
fn refuses_another_images_state(rt: HostRuntime) -> Result<(), Fail> {
    let alloc = rt.alloc();
    let mut depot = SureDepot::new(alloc);
    depot.keep(
        b"a.t3",
        &story(alloc, "pushstr @name / builtin_a 1 15 / retnil")?,
    )?;
    let (saved, _) = run_in(alloc, &mut depot, b"")?;
    assert_eq!(rt; saved, Status::Done);
    depot.keep(
        b"a.t3",
        &story(alloc, "pushstr @name / builtin_a 1 16 / retnil")?,
    )?;
    let (status, shown) = run_in(alloc, &mut depot, b"")?;
    assert_eq!(rt;
        shown.as_slice(),
        b"[unhandled object=3 fault=19]\n".as_slice()
    );
    assert_eq!(rt; status, Status::Unhandled);
    Ok(())
}
