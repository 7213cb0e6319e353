//! Drills: sums and ends that a model apart from this program gives.
use std::test::Fail;
use t3_cli::Status;
use t3_testing::outcome;

#[test]
fn drills(rt: HostRuntime) -> Result<(), Fail> {
    let rows: [(&str, &str); 4] = [
        ("0", "0\ndrill actions=0 steps=196 held=0 records=0\n"),
        (
            "1",
            "2716\ndrill actions=1000 steps=2051 held=14 records=160\n",
        ),
        (
            "20",
            "2436\ndrill actions=20000 steps=37574 held=126 records=1333\n",
        ),
        (
            "200",
            "2592\ndrill actions=200000 steps=375234 held=64 records=711\n",
        ),
    ];
    for (number, want) in &rows {
        let (status, shown) = outcome(rt.alloc(), &["drill", *number], None)?;
        assert_eq!(rt; shown.as_slice(), want.as_bytes());
        assert_eq!(rt; status, Status::Done);
    }
    Ok(())
}

/// A drill has one number, from 0 to 200 and without leading zeros.
#[test]
fn has_no_other_numbers(rt: HostRuntime) -> Result<(), Fail> {
    let rows: [&[&str]; 5] = [
        &["drill"],
        &["drill", "201"],
        &["drill", "01"],
        &["drill", "1", "2"],
        &["drill", "1", "--steps=5"],
    ];
    for words in &rows {
        let (status, _) = outcome(rt.alloc(), words, None)?;
        assert_eq!(rt; status, Status::Usage);
    }
    Ok(())
}
