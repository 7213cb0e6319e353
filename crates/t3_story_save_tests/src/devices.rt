//! A run that saves and restores over devices of which the k-th call fails.
use crate::story::story;
use std::alloc::Global;
use std::test::Fail;
use t3_cli::{Status, t3_main};
use t3_io::{MemoryConsole, MemoryDepot};
use t3_testing::owned;

/// Says a line, saves, changes what was saved, restores it, and says it.
const BODY: &str =
    "pushint8 5 / objsetprop 1 3 / pushstr @line / builtin_b 1 0 / pushstr @name / builtin_a 1 15 / \
                    pushint8 6 / objsetprop 1 3 / pushstr @name / builtin_a 1 16 / objgetprop 1 3 / getr0 / \
                    builtin_b 1 0 / retnil";

/// The status, what is shown and whether a state is there, where the calls of these numbers fail.
fn outcome_with(
    alloc: Global,
    depot_calls: &[u32],
    console_calls: &[u32],
) -> Result<(Status, Vec<u8>, bool), Fail> {
    let mut depot = MemoryDepot::new(alloc, depot_calls)?;
    depot.keep(b"a.t3", &story(alloc, BODY)?)?;
    let mut console = MemoryConsole::new(alloc, b"", console_calls)?;
    let status = t3_main(
        alloc,
        &owned(alloc, &["run", "a.t3"])?,
        &mut depot,
        &mut console,
    );
    let is_saved = depot.file(b"s.sav").is_some();
    Ok((status, Vec::from_slice(alloc, console.shown())?, is_saved))
}

/// The image is read in two calls, the state is put in one, and read in two.
#[test]
fn stops_where_the_depot_fails(rt: HostRuntime) -> Result<(), Fail> {
    let rows: [(u32, Status, &str); 6] = [
        (0, Status::DepotFault, ""),
        (1, Status::DepotFault, ""),
        (2, Status::DepotFault, "a\n"),
        (3, Status::DepotFault, "a\n"),
        (4, Status::DepotFault, "a\n"),
        (5, Status::Done, "a\n5\n"),
    ];
    for (call, want, text) in &rows {
        let (status, shown, _) = outcome_with(rt.alloc(), &[*call], &[])?;
        assert_eq!(rt; shown.as_slice(), text.as_bytes(), "{call}");
        assert_eq!(rt; status, *want, "{call}");
    }
    Ok(())
}

/// What was said is shown before the state is put: where it can't be, none is.
#[test]
fn stops_where_the_console_fails(rt: HostRuntime) -> Result<(), Fail> {
    let rows: [(u32, Status, &str, bool); 3] = [
        (0, Status::ConsoleFault, "", false),
        (1, Status::ConsoleFault, "a\n", true),
        (2, Status::Done, "a\n5\n", true),
    ];
    for (call, want, text, is_there) in &rows {
        let (status, shown, is_saved) = outcome_with(rt.alloc(), &[], &[*call])?;
        assert_eq!(rt; shown.as_slice(), text.as_bytes(), "{call}");
        assert_eq!(rt; status, *want, "{call}");
        assert_eq!(rt; is_saved, *is_there, "{call}");
    }
    Ok(())
}
