//! Devices in memory that fail at calls of chosen numbers, and what words leave over them.
ghost use Rattle.std.specs.Prelude.{◌≡◌, IfOk};
ghost use Rattle.t3_io.specs.Failing.{no_calls};

use std::alloc::{AllocError, Global};
use std::process::Abort;
use std::test::Fail;
use t3_cli::{Status, t3_main};
use t3_io::{MemoryConsole, MemoryDepot};
use t3_testing::{outcome, owned};

/// What words show with this file as `a.t3`, if there is one, and how they end.
pub(crate) fn check_outcome(
    rt: &impl Abort,
    alloc: Global,
    words: &[&str],
    file: Option<&[u8]>,
    want: &str,
    status: Status,
) -> Result<(), Fail> {
    let (got, shown) = outcome(alloc, words, file)?;
    assert_eq!(rt; shown.as_slice(), want.as_bytes(), "{want}");
    assert_eq!(rt; got, status, "{want}");
    Ok(())
}

/// A depot whose calls of these numbers fail, with these bytes as `a.t3`, and those as `b.t3`.
pub(crate) fn depot_of(
    alloc: Global,
    failing: &[u32],
    first: &[u8],
    second: &[u8],
) -> Result<MemoryDepot, Fail>
    ensures { IfOk result (λ depot. depot.calls ≡ no_calls failing.now) }
{
    let mut depot = MemoryDepot::new(alloc, failing)?;
    depot.keep(b"a.t3", first)?;
    depot.keep(b"b.t3", second)?;
    Ok(depot)
}

/// How words end over devices of which no call has failed.
pub(crate) fn status_over(
    alloc: Global,
    words: &[&str],
    depot: &mut MemoryDepot,
    console: &mut MemoryConsole,
) -> Result<Status, Fail>
    requires depot { depot.old.calls.faults ≡ 0 }
    requires console { console.old.calls.faults ≡ 0 }
{
    let words = owned(alloc, words)?;
    Ok(t3_main(alloc, &words, depot, console))
}

/// What words left: what was shown, `a.t3` and `b.t3`.
#[derive(Drop)]
pub(crate) struct Left {
    pub(crate) status: Status,
    pub(crate) shown: Vec<u8>,
    pub(crate) read: Option<Vec<u8>>,
    pub(crate) put: Option<Vec<u8>>,
}

fn copied(alloc: Global, file: Option<&[u8]>) -> Result<Option<Vec<u8>>, AllocError> {
    match file {
        Some(bytes) => Ok(Some(Vec::from_slice(alloc, bytes)?)),
        None => Ok(None),
    }
}

/// What stands in devices over which words ended so.
fn left_in(
    alloc: Global,
    status: Status,
    depot: &MemoryDepot,
    console: &MemoryConsole,
) -> Result<Left, Fail> {
    Ok(Left {
        status,
        shown: Vec::from_slice(alloc, console.shown())?,
        read: copied(alloc, depot.file(b"a.t3"))?,
        put: copied(alloc, depot.file(b"b.t3"))?,
    })
}

/// What words leave over devices of which no call has failed.
fn left_over(
    alloc: Global,
    words: &[&str],
    depot: &mut MemoryDepot,
    console: &mut MemoryConsole,
) -> Result<Left, Fail>
    requires depot { depot.old.calls.faults ≡ 0 }
    requires console { console.old.calls.faults ≡ 0 }
{
    let status = status_over(alloc, words, depot, console)?;
    left_in(alloc, status, depot, console)
}

/// What words leave with this file as `a.t3` and `old` as `b.t3`, where these calls fail.
pub(crate) fn left_by(
    alloc: Global,
    words: &[&str],
    file: &[u8],
    depot_calls: &[u32],
    console_calls: &[u32],
) -> Result<Left, Fail> {
    let mut depot = depot_of(alloc, depot_calls, file, b"old")?;
    let mut console = MemoryConsole::new(alloc, b"", console_calls)?;
    left_over(alloc, words, &mut depot, &mut console)
}

/// Calls that fail, of the depot and of the console, of which 9 is never made; the status; whether
/// the line is shown; and how many halves of the file are put.
pub(crate) type Stop = (u32, u32, Status, bool, u32);

/// A file is read by two calls; then one is put, and the line shown.
pub(crate) const STOPS: [Stop; 6] = [
    (0, 9, Status::DepotFault, false, 0),
    (1, 9, Status::DepotFault, false, 0),
    (2, 9, Status::DepotFault, false, 1),
    (3, 9, Status::Done, true, 2),
    (9, 0, Status::ConsoleFault, false, 2),
    (9, 1, Status::Done, true, 2),
];

/// What stands where so many halves of a file are put.
pub(crate) fn halves_of(file: &[u8], halves: u32) -> &[u8] {
    match halves {
        0 => b"old",
        1 => &file[..file.len() / 2],
        _ => file,
    }
}
