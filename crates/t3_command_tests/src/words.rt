//! Words that are no command.
use crate::devices::check_outcome;
use std::alloc::Global;
use std::process::Abort;
use std::test::Fail;
use t3_cli::Status;
use t3_testing::outcome;

const USAGE: &str = "usage: t3 check or show or list or run or rewrite or asm or drill\n";

const OTHER: [&[&str]; 25] = [
    &[],
    &["check"],
    &["check", "a.t3", "b.t3"],
    &["check", "-a.t3"],
    &["check", "folder/a.t3"],
    &["--help"],
    &["run", "a.t3", "--steps=007"],
    &["run", "a.t3", "--steps=7", "--steps=7"],
    &["run", "a.t3", "--steps=7", "7"],
    &["run", "--steps=7", "a.t3"],
    &["run", "a.t3", "--width=0"],
    &["run", "a.t3", "--width=1001"],
    &["run", "a.t3", "--width=079"],
    &["run", "a.t3", "--width"],
    &["run", "a.t3", "--width=79", "--steps=7", "--width=79"],
    &["run", "a.t3", "--records=0"],
    &["run", "a.t3", "--records=1048577"],
    &["run", "a.t3", "--savepoints=0"],
    &["run", "a.t3", "--savepoints=1025"],
    &["run", "a.t3", "--savepoints=2", "--savepoints=2"],
    &["run", "a.t3", "--records"],
    &["check", "a.t3", "--width=79"],
    &["show", "a.t3", "--steps=7"],
    &["show", "a.t3", "b.t3"],
    &["show"],
];

#[test]
fn other_words_show_the_usage(rt: HostRuntime) -> Result<(), Fail> {
    for words in OTHER {
        check_outcome(&rt, rt.alloc(), words, None, USAGE, Status::Usage)?;
    }
    assert_eq!(rt; Status::Usage.code(), 1);
    Ok(())
}

/// The options of a run come in any order.
const RUNS: [&[&str]; 7] = [
    &["run", "a.t3", "--records=1", "--savepoints=1"],
    &["run", "a.t3", "--savepoints=1024", "--records=1048576"],
    &[
        "run",
        "a.t3",
        "--width=9",
        "--savepoints=9",
        "--steps=9",
        "--records=9",
    ],
    &["run", "a.t3", "--width=1", "--steps=1"],
    &["run", "a.t3", "--steps=4294967295", "--width=1000"],
    &["run", "a.t3", "--width=1000"],
    &["run", "a.t3"],
];

/// These words ask for a file that isn't there.
fn check_absent(rt: &impl Abort, alloc: Global, words: &[&str]) -> Result<(), Fail> {
    let (status, _) = outcome(alloc, words, None)?;
    assert_eq!(rt; status, Status::Absent);
    Ok(())
}

#[test]
fn a_run_takes_its_options(rt: HostRuntime) -> Result<(), Fail> {
    for words in RUNS {
        check_absent(&rt, rt.alloc(), words)?;
    }
    Ok(())
}
