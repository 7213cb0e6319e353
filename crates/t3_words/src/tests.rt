//! Which words are which command.
use crate::number::number_within;
use crate::{Command, RunOptions};
use std::alloc::{AllocError, Global};
use std::test::Fail;

/// The words as the program gets them.
fn owned(alloc: Global, words: &[&str]) -> Result<Vec<String>, AllocError> {
    let mut all = Vec::new(alloc);
    for word in words {
        all.push(String::from_str(alloc, word)?)?;
    }
    Ok(all)
}

/// A run of `a.t3` with these options.
fn run(steps: u32, records: u32, savepoints: u32, width: u16) -> Command<'static> {
    let options = RunOptions {
        steps,
        records,
        savepoints,
        width,
    };
    Command::Run {
        image: "a.t3",
        options,
    }
}

#[test]
fn each_verb_is_a_command(rt: HostRuntime) -> Result<(), Fail> {
    let (image, source, out) = ("a.t3", "a.t3s", "b.t3");
    let rows: [(&[&str], Command, &str, &str); 10] = [
        (&["check", "a.t3"], Command::Check { image }, "a.t3", "a.t3"),
        (&["show", "a.t3"], Command::Show { image }, "a.t3", "a.t3"),
        (
            &["run", "a.t3"],
            run(100_000_000, 65_536, 128, 79),
            "a.t3",
            "a.t3",
        ),
        (
            &["rewrite", "a.t3", "b.t3"],
            Command::Rewrite {
                image,
                out,
                mask: None,
            },
            "a.t3",
            "b.t3",
        ),
        (
            &["rewrite", "a.t3", "b.t3", "--mask=0"],
            Command::Rewrite {
                image,
                out,
                mask: Some(0),
            },
            "a.t3",
            "b.t3",
        ),
        (
            &["rewrite", "a.t3", "b.t3", "--mask=255"],
            Command::Rewrite {
                image,
                out,
                mask: Some(255),
            },
            "a.t3",
            "b.t3",
        ),
        (
            &["list", "a.t3", "b.t3"],
            Command::List { image, out },
            "a.t3",
            "b.t3",
        ),
        (
            &["asm", "a.t3s", "b.t3"],
            Command::Asm { source, out },
            "a.t3s",
            "b.t3",
        ),
        (&["drill", "0"], Command::Drill { number: 0 }, "", ""),
        (&["drill", "200"], Command::Drill { number: 200 }, "", ""),
    ];
    for (words, command, file, put) in rows {
        assert_eq!(rt;
            Command::parse(&owned(rt.alloc(), words)?),
            Some(command),
            "{words:?}"
        );
        assert_eq!(rt; command.file(), file, "{words:?}");
        assert_eq!(rt; command.out(), put, "{words:?}");
    }
    Ok(())
}

#[test]
fn a_run_that_is_told_nothing_has_the_defaults(rt: HostRuntime) -> Result<(), Fail> {
    let options = RunOptions::defaults();
    let command = Command::Run {
        image: "a.t3",
        options,
    };
    assert_eq!(rt;
        Command::parse(&owned(rt.alloc(), &["run", "a.t3"])?),
        Some(command)
    );
    Ok(())
}

#[test]
fn a_run_takes_its_options_in_any_order(rt: HostRuntime) -> Result<(), Fail> {
    let rows: [(&[&str], Command); 8] = [
        (&["run", "a.t3", "--steps=1"], run(1, 65_536, 128, 79)),
        (
            &["run", "a.t3", "--steps=4294967295"],
            run(4_294_967_295, 65_536, 128, 79),
        ),
        (
            &["run", "a.t3", "--records=1"],
            run(100_000_000, 1, 128, 79),
        ),
        (
            &["run", "a.t3", "--records=1048576"],
            run(100_000_000, 1_048_576, 128, 79),
        ),
        (
            &["run", "a.t3", "--savepoints=1024", "--width=1"],
            run(100_000_000, 65_536, 1024, 1),
        ),
        (
            &["run", "a.t3", "--savepoints=1", "--width=1000"],
            run(100_000_000, 65_536, 1, 1000),
        ),
        (
            &[
                "run",
                "a.t3",
                "--width=6",
                "--savepoints=7",
                "--steps=8",
                "--records=9",
            ],
            run(8, 9, 7, 6),
        ),
        (
            &[
                "run",
                "a.t3",
                "--records=9",
                "--steps=8",
                "--savepoints=7",
                "--width=6",
            ],
            run(8, 9, 7, 6),
        ),
    ];
    for (words, command) in rows {
        assert_eq!(rt;
            Command::parse(&owned(rt.alloc(), words)?),
            Some(command),
            "{words:?}"
        );
    }
    Ok(())
}

#[test]
fn other_words_are_no_command(rt: HostRuntime) -> Result<(), Fail> {
    let rows: [&[&str]; 44] = [
        &[],
        &["--help"],
        &["Check", "a.t3"],
        &["check"],
        &["check", "a.t3", "b.t3"],
        &["check", "-a.t3"],
        &["check", ""],
        &["check", "folder/a.t3"],
        &["check", "a.t3", "--width=79"],
        &["show"],
        &["show", "a.t3", "--steps=7"],
        &["run"],
        &["run", "--steps=7", "a.t3"],
        &["run", "a.t3", "7"],
        &["run", "a.t3", "--steps"],
        &["run", "a.t3", "--steps="],
        &["run", "a.t3", "--steps=0"],
        &["run", "a.t3", "--steps=+5"],
        &["run", "a.t3", "--steps=007"],
        &["run", "a.t3", "--steps=4294967296"],
        &["run", "a.t3", "--steps=7", "--steps=7"],
        &["run", "a.t3", "--records=0"],
        &["run", "a.t3", "--records=1048577"],
        &["run", "a.t3", "--savepoints=0"],
        &["run", "a.t3", "--savepoints=1025"],
        &["run", "a.t3", "--savepoints=2", "--savepoints=2"],
        &["run", "a.t3", "--width=0"],
        &["run", "a.t3", "--width=1001"],
        &["run", "a.t3", "--width=79", "--steps=7", "--width=79"],
        &["run", "a.t3", "--mask=0"],
        &["rewrite", "a.t3"],
        &["rewrite", "a.t3", "--mask=0", "b.t3"],
        &["rewrite", "a.t3", "b.t3", "--mask=256"],
        &["rewrite", "a.t3", "b.t3", "--mask=00"],
        &["rewrite", "a.t3", "b.t3", "--mask=1", "--mask=1"],
        &["list", "a.t3"],
        &["asm", "a.t3s", "b.t3", "c.t3"],
        &["drill"],
        &["drill", "201"],
        &["drill", "01"],
        &["drill", "-1"],
        &["drill", ""],
        &["drill", "1", "--steps=3"],
        &["drill", "1", "2"],
    ];
    for words in rows {
        assert_eq!(rt;
            Command::parse(&owned(rt.alloc(), words)?),
            None,
            "{words:?}"
        );
    }
    Ok(())
}

#[test]
fn a_number_has_no_sign_and_no_leading_zero(rt: HostRuntime) -> Result<(), Fail> {
    let rows: [(&str, Option<u32>); 16] = [
        ("0", Some(0)),
        ("1", Some(1)),
        ("42", Some(42)),
        ("4294967295", Some(4_294_967_295)),
        ("4294967296", None),
        ("99999999999999999999", None),
        ("", None),
        ("00", None),
        ("007", None),
        ("+5", None),
        ("-1", None),
        ("-0", None),
        ("1 ", None),
        ("0x10", None),
        ("a", None),
        ("ff", None),
    ];
    for (text, number) in rows {
        assert_eq!(rt; number_within(text, 0, u32::MAX), number, "{text}");
    }
    assert_eq!(rt; number_within("6", 7, 8), None);
    assert_eq!(rt; number_within("9", 7, 8), None);
    Ok(())
}
