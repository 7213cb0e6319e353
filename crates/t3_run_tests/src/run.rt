//! Stories that are run.
use std::alloc::Global;
use std::process::Abort;
use std::test::Fail;
use t3_cli::Status;
use t3_testing::{ENTRY, FUNCTIONS, METHOD, POOL, SAYS_42, code_image, outcome};

/// The status and what is shown of `run a.t3` with these options.
pub(crate) fn ran(alloc: Global, file: &[u8], options: &[&str]) -> Result<(Status, Vec<u8>), Fail> {
    let mut words = Vec::new(alloc);
    words.push("run")?;
    words.push("a.t3")?;
    words.extend_from_slice(options)?;
    outcome(alloc, &words, Some(file))
}

/// The same of a story with the function set for input and output, and a method of this body.
fn story(alloc: Global, body: &[u8], options: &[&str]) -> Result<(Status, Vec<u8>), Fail> {
    ran(
        alloc,
        &code_image(alloc, &[ENTRY, POOL, FUNCTIONS], METHOD, body)?,
        options,
    )
}

/// Options, what is shown of a story that says 42, and the status.
type OptionRow = (&'static [&'static str], &'static str, Status);

const STEPS: [OptionRow; 5] = [
    (&[], "42\n", Status::Done),
    (&["--steps=4"], "42\n", Status::Done),
    (&["--steps=3"], "42\n[step limit]\n", Status::StepLimit),
    (&["--steps=2"], "[step limit]\n", Status::StepLimit),
    (&["--steps=4294967295"], "42\n", Status::Done),
];

fn check_options(rt: &impl Abort, alloc: Global, row: &OptionRow) -> Result<(), Fail> {
    let (options, want, status) = *row;
    let (got, shown) = story(alloc, SAYS_42, options)?;
    assert_eq!(rt; shown.as_slice(), want.as_bytes());
    assert_eq!(rt; got, status);
    Ok(())
}

#[test]
fn says_a_number(rt: HostRuntime) -> Result<(), Fail> {
    for row in &STEPS {
        check_options(&rt, rt.alloc(), row)?;
    }
    Ok(())
}

/// A method's body, what is shown of a run, and the status.
type Row = (&'static [u8], &'static str, Status);

fn check_story(rt: &impl Abort, alloc: Global, row: &Row) -> Result<(), Fail> {
    let (body, want, status) = *row;
    let (got, shown) = story(alloc, body, &[])?;
    assert_eq!(rt; shown.as_slice(), want.as_bytes(), "{body:?}");
    assert_eq!(rt; got, status, "{body:?}");
    Ok(())
}

fn check_stories(rt: &impl Abort, alloc: Global, rows: &[Row]) -> Result<(), Fail> {
    for row in rows {
        check_story(rt, alloc, row)?;
    }
    Ok(())
}

const FAULTS: [Row; 5] = [
    (
        b"\x04\xFF\xFF\xFF\x7F\x02\x22\x51",
        "[unhandled object=1 fault=5]\n",
        Status::Unhandled,
    ),
    (
        b"\x04\x00\x00\x00\x80\x02\x23\x51",
        "[unhandled object=1 fault=5]\n",
        Status::Unhandled,
    ),
    (
        b"\x08\x02\x22\x51",
        "[unhandled object=1 fault=3]\n",
        Status::Unhandled,
    ),
    (
        b"\xB1\x00\x00",
        "[unhandled object=1 fault=2]\n",
        Status::Unhandled,
    ),
    (
        b"\x02\xB1\x01\x05",
        "[unhandled object=1 fault=8]\n",
        Status::Unhandled,
    ),
];

#[test]
fn ends_by_faults(rt: HostRuntime) -> Result<(), Fail> {
    check_stories(&rt, rt.alloc(), &FAULTS)
}

const BAD_CODE: [Row; 9] = [
    (b"\x22", "[bad code at=10 why=Underflow]\n", Status::BadCode),
    (
        b"\x02\x22",
        "[bad code at=11 why=Underflow]\n",
        Status::BadCode,
    ),
    (
        b"\xB1\x01\x00",
        "[bad code at=10 why=Underflow]\n",
        Status::BadCode,
    ),
    (
        b"\xB1\x01\x05",
        "[bad code at=10 why=Underflow]\n",
        Status::BadCode,
    ),
    (
        b"\xB1\x00\x04",
        "[bad code at=13 why=NoByte]\n",
        Status::BadCode,
    ),
    (b"\xFF", "[bad code at=10 why=Opcode]\n", Status::BadCode),
    (b"\x03", "[bad code at=10 why=Operand]\n", Status::BadCode),
    (
        b"\x91\x64\x00",
        "[bad code at=111 why=NoByte]\n",
        Status::BadCode,
    ),
    (
        b"\x91\x9C\xFF",
        "[bad code at=10 why=NoByte]\n",
        Status::BadCode,
    ),
];

#[test]
fn ends_by_bad_code(rt: HostRuntime) -> Result<(), Fail> {
    check_stories(&rt, rt.alloc(), &BAD_CODE)
}

const SAYINGS: [Row; 7] = [
    // 7 less -2, then the sum of that and 1.
    (
        b"\x03\x07\x03\xFE\x23\x02\x22\xB1\x01\x00\x51",
        "10\n",
        Status::Done,
    ),
    // Nil, true and -1 at once, the topmost first.
    (
        b"\x03\xFF\x09\x08\xB1\x03\x00\x51",
        "true-1\n",
        Status::Done,
    ),
    // A jump over a return.
    (b"\x91\x03\x00\x51\x02\xB1\x01\x00\x51", "1\n", Status::Done),
    // True jumps, and 0 doesn't.
    (
        b"\x09\x92\x03\x00\x51\x01\x92\x05\x00\x02\xB1\x01\x00\x51",
        "1\n",
        Status::Done,
    ),
    // Nil jumps where false is wanted.
    (
        b"\x08\x93\x03\x00\x51\xF2\x03\x05\xB1\x01\x00\x54",
        "5\n",
        Status::Done,
    ),
    // What is dropped isn't said.
    (b"\x03\x05\x03\x06\x89\xB1\x01\x00\x52", "5\n", Status::Done),
    (b"\x51", "", Status::Done),
];

#[test]
fn computes_says_and_jumps(rt: HostRuntime) -> Result<(), Fail> {
    check_stories(&rt, rt.alloc(), &SAYINGS)
}

/// An endless loop comes to its limit, and so does one that fills the stack, before it is full.
const LIMITED: [(&[u8], &[&str], &str, Status); 3] = [
    (
        b"\xF2\x91\xFE\xFF",
        &["--steps=1000"],
        "[step limit]\n",
        Status::StepLimit,
    ),
    (
        b"\x02\x91\xFE\xFF",
        &[],
        "[unhandled object=1 fault=9]\n",
        Status::Unhandled,
    ),
    (
        b"\x02\x91\xFE\xFF",
        &["--steps=131073"],
        "[step limit]\n",
        Status::StepLimit,
    ),
];

/// What comes of a body with options.
fn check_limited(
    rt: &impl Abort,
    alloc: Global,
    body: &[u8],
    options: &[&str],
    want: (&str, Status),
) -> Result<(), Fail> {
    let (got, shown) = story(alloc, body, options)?;
    assert_eq!(rt; shown.as_slice(), want.0.as_bytes());
    assert_eq!(rt; got, want.1);
    Ok(())
}

#[test]
fn endless_loops_come_to_a_limit(rt: HostRuntime) -> Result<(), Fail> {
    for (body, options, want, status) in LIMITED {
        check_limited(&rt, rt.alloc(), body, options, (want, status))?;
    }
    Ok(())
}

/// A method's body that says how many arguments it has, and one that divides by 0.
const COUNTS_ARGUMENTS: &[u8] = b"\x87\xB1\x01\x00\x51";

const DIVIDES: &[u8] = b"\x02\x01\x2A\x51";

type EntryRow = (&'static [u8], &'static [u8], &'static str, Status);

/// Headers of entry methods, bodies, and what comes of a run: the methods take one argument, perhaps one, any
/// number, none and two, and the last has a table that isn't there.
const ENTRIES: [EntryRow; 7] = [
    (
        b"\x01\x00\x00\x00\x02\x00\x00\x00\x00\x00",
        COUNTS_ARGUMENTS,
        "1\n",
        Status::Done,
    ),
    (
        b"\x00\x01\x00\x00\x02\x00\x00\x00\x00\x00",
        COUNTS_ARGUMENTS,
        "1\n",
        Status::Done,
    ),
    (
        b"\x80\x00\x00\x00\x02\x00\x00\x00\x00\x00",
        COUNTS_ARGUMENTS,
        "1\n",
        Status::Done,
    ),
    (METHOD, COUNTS_ARGUMENTS, "0\n", Status::Done),
    (
        b"\x02\x00\x00\x00\x02\x00\x00\x00\x00\x00",
        COUNTS_ARGUMENTS,
        "[unhandled object=1 fault=2]\n",
        Status::Unhandled,
    ),
    (
        b"\x00\x00\x00\x00\x02\x00\x00\x01\x00\x00",
        COUNTS_ARGUMENTS,
        "0\n",
        Status::Done,
    ),
    (
        b"\x00\x00\x00\x00\x02\x00\x00\x01\x00\x00",
        DIVIDES,
        "[bad code at=0 why=Table]\n",
        Status::BadCode,
    ),
];

fn check_entry(rt: &impl Abort, alloc: Global, row: &EntryRow) -> Result<(), Fail> {
    let (method_header, body, want, status) = *row;
    let file = code_image(alloc, &[ENTRY, POOL, FUNCTIONS], method_header, body)?;
    let (got, shown) = ran(alloc, &file, &[])?;
    assert_eq!(rt; shown.as_slice(), want.as_bytes());
    assert_eq!(rt; got, status);
    Ok(())
}

#[test]
fn an_entry_may_take_an_argument_and_catch(rt: HostRuntime) -> Result<(), Fail> {
    for row in &ENTRIES {
        check_entry(&rt, rt.alloc(), row)?;
    }
    Ok(())
}

#[test]
fn no_header_at_the_entry_is_bad_code(rt: HostRuntime) -> Result<(), Fail> {
    let alloc = rt.alloc();
    let entry =
        b"ENTP\x10\x00\x00\x00\x01\x00\x05\x00\x00\x00\x0A\x00\x0A\x00\x00\x00\x00\x00\x00\x00\x00\x00";
    let (status, shown) = ran(
        alloc,
        &code_image(alloc, &[entry, POOL], METHOD, b"\x51")?,
        &[],
    )?;
    assert_eq!(rt;
        shown.as_slice(),
        b"[bad code at=5 why=Header]\n".as_slice()
    );
    assert_eq!(rt; status, Status::BadCode);
    Ok(())
}
