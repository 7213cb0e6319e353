//! Words that show a line or two and put nothing, over devices that fail at their k-th call.
ghost use Rattle.std.specs.Prelude.{◌≡◌, IfOk};
ghost use Rattle.t3_io.specs.Failing.{no_calls};

use crate::devices::{depot_of, status_over};
use std::alloc::Global;
use std::process::Abort;
use std::test::Fail;
use t3_cli::Status;
use t3_io::{MemoryConsole, MemoryDepot};
use t3_testing::{END, image};

/// A depot whose calls of these numbers fail. The file `a.t3` is an image without blocks, `b.t3` is
/// none, and `b.t3s` is a source with a bad line.
fn depot_with(alloc: Global, failing: &[u32]) -> Result<MemoryDepot, Fail>
    ensures { IfOk result (λ depot. depot.calls ≡ no_calls failing.now) }
{
    let image = image(alloc, &[END])?;
    let mut depot = depot_of(alloc, failing, &image, &[0x55; 79])?;
    depot.keep(b"b.t3s", b"image\nfrob\n")?;
    Ok(depot)
}

/// The status and what is shown over devices of which no call has failed.
fn outcome_over(
    alloc: Global,
    words: &[&str],
    depot: &mut MemoryDepot,
    console: &mut MemoryConsole,
) -> Result<(Status, Vec<u8>), Fail>
    requires depot { depot.old.calls.faults ≡ 0 }
    requires console { console.old.calls.faults ≡ 0 }
{
    let status = status_over(alloc, words, depot, console)?;
    Ok((status, Vec::from_slice(alloc, console.shown())?))
}

/// The status and what is shown where the calls of these numbers fail.
fn outcome_with(
    alloc: Global,
    words: &[&str],
    depot_calls: &[u32],
    console_calls: &[u32],
) -> Result<(Status, Vec<u8>), Fail> {
    let mut depot = depot_with(alloc, depot_calls)?;
    let mut console = MemoryConsole::new(alloc, b"", console_calls)?;
    outcome_over(alloc, words, &mut depot, &mut console)
}

const USAGE: &str = "usage: t3 check or show or list or run or rewrite or asm or drill\n";

/// Words, how many calls the depot and the console get, what the calls of the console show but the last, what the last
/// shows, and the status.
type Row = (
    &'static [&'static str],
    u32,
    u32,
    &'static str,
    &'static str,
    Status,
);

/// A file that is there is read in two calls, and one that isn't in one.
const ROWS: [Row; 7] = [
    (&[], 0, 1, "", USAGE, Status::Usage),
    (&["frob", "a.t3"], 0, 1, "", USAGE, Status::Usage),
    (&["run", "x.t3"], 1, 1, "", "absent x.t3\n", Status::Absent),
    (
        &["check", "b.t3"],
        2,
        1,
        "",
        "refused Signature at 0\n",
        Status::ImageRefused,
    ),
    (
        &["asm", "b.t3s", "c.t3"],
        2,
        1,
        "",
        "refused line 2 Word\n",
        Status::SourceRefused,
    ),
    (
        &["run", "a.t3"],
        2,
        1,
        "",
        "load refused NoEntry\n",
        Status::LoadRefused,
    ),
    (
        &["drill", "0"],
        0,
        2,
        "0\n",
        "drill actions=0 steps=196 held=0 records=0\n",
        Status::Done,
    ),
];

/// Whether a text is made of these two, one behind the other.
fn is_both(text: &[u8], first: &str, second: &str) -> bool {
    match text.strip_prefix(first.as_bytes()) {
        Some(rest) => rest == second.as_bytes(),
        None => false,
    }
}

/// The words of a row show and answer what it says where no call that they make is to fail.
fn check_whole(
    rt: &impl Abort,
    alloc: Global,
    row: &Row,
    depot_calls: &[u32],
    console_calls: &[u32],
) -> Result<(), Fail> {
    let (words, _, _, first, last, want) = *row;
    let (status, shown) = outcome_with(alloc, words, depot_calls, console_calls)?;
    assert!(rt; is_both(&shown, first, last));
    assert_eq!(rt; status, want);
    Ok(())
}

/// Where a call of the depot fails, nothing is shown.
fn check_depot_fault(
    rt: &impl Abort,
    alloc: Global,
    words: &[&str],
    call: u32,
) -> Result<(), Fail> {
    let (status, shown) = outcome_with(alloc, words, &[call], &[])?;
    assert_eq!(rt; shown.as_slice(), b"".as_slice(), "{call}");
    assert_eq!(rt; status, Status::DepotFault, "{call}");
    Ok(())
}

#[test]
fn stops_where_the_depot_fails(rt: HostRuntime) -> Result<(), Fail> {
    for row in &ROWS {
        let (words, calls, _, _, _, _) = *row;
        for call in 0..calls {
            check_depot_fault(&rt, rt.alloc(), words, call)?;
        }
        check_whole(&rt, rt.alloc(), row, &[calls], &[])?;
    }
    Ok(())
}

/// Where a call of the console fails, what the calls before it show is shown.
fn check_console_fault(
    rt: &impl Abort,
    alloc: Global,
    words: &[&str],
    call: u32,
    before: &str,
) -> Result<(), Fail> {
    let (status, shown) = outcome_with(alloc, words, &[], &[call])?;
    assert_eq!(rt; shown.as_slice(), before.as_bytes(), "{call}");
    assert_eq!(rt; status, Status::ConsoleFault, "{call}");
    Ok(())
}

#[test]
fn stops_where_the_console_fails(rt: HostRuntime) -> Result<(), Fail> {
    for row in &ROWS {
        let (words, _, calls, first, _, _) = *row;
        for call in 0..calls {
            let before = if call == 0 { "" } else { first };
            check_console_fault(&rt, rt.alloc(), words, call, before)?;
        }
        check_whole(&rt, rt.alloc(), row, &[], &[calls])?;
    }
    Ok(())
}
