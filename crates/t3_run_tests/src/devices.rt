//! Commands over devices that fail at their k-th call.
use std::alloc::Global;
use std::test::Fail;
use t3_cli::{Status, t3_main};
use t3_io::{MemoryConsole, MemoryDepot};
use t3_testing::{ENTRY, FUNCTIONS, METHOD, POOL, code_image, owned};

/// A method's body that says 1, then 2, and then divides nothing: it ends by an opcode that there isn't.
const SAYS_TWICE: &[u8] = b"\x02\xB1\x01\x00\x03\x02\xB1\x01\x00\xFF";

/// The status and what is shown, where the calls of these numbers fail.
fn outcome_with(
    alloc: Global,
    command: &str,
    depot_calls: &[u32],
    console_calls: &[u32],
) -> Result<(Status, Vec<u8>), Fail> {
    let file = code_image(alloc, &[ENTRY, POOL, FUNCTIONS], METHOD, SAYS_TWICE)?;
    let mut depot = MemoryDepot::new(alloc, depot_calls)?;
    depot.keep(b"a.t3", &file)?;
    let mut console = MemoryConsole::new(alloc, b"", console_calls)?;
    let words = owned(alloc, &[command, "a.t3"])?;
    let status = t3_main(alloc, &words, &mut depot, &mut console);
    Ok((status, Vec::from_slice(alloc, console.shown())?))
}

const BLOCKS: &str = "ENTP at=69 size=16 flags=1 code=0\n\
                      CPDF at=95 size=10 flags=1 pool=1 count=1 page=64\n\
                      FNSD at=115 size=17 flags=1 entries=1\n\
                      CPPG at=142 size=27 flags=1 pool=1 index=0 mask=0\n\
                      EOF  at=179 size=0 flags=0\n\
                      ok blocks=5 bytes=189\n";

/// The console fails at its k-th call, for k from 0 until none is left to fail: `check` and `show` show
/// their text at once, and so does a `run` that asks for no line and says little.
#[test]
fn stops_where_the_console_fails(rt: HostRuntime) -> Result<(), Fail> {
    let rows: [(&str, u32, Status, &str); 6] = [
        ("check", 0, Status::ConsoleFault, ""),
        ("check", 1, Status::Done, "ok blocks=5 bytes=189\n"),
        ("show", 0, Status::ConsoleFault, ""),
        ("show", 1, Status::Done, BLOCKS),
        ("run", 0, Status::ConsoleFault, ""),
        (
            "run",
            1,
            Status::BadCode,
            "12\n[bad code at=19 why=Opcode]\n",
        ),
    ];
    for (command, call, status, want) in &rows {
        let (got, shown) = outcome_with(rt.alloc(), command, &[], &[*call])?;
        assert_eq!(rt; shown.as_slice(), want.as_bytes(), "{command} {call}");
        assert_eq!(rt; got, *status, "{command} {call}");
    }
    Ok(())
}

/// The depot is read twice, and nothing is shown before it is.
#[test]
fn stops_where_the_depot_fails(rt: HostRuntime) -> Result<(), Fail> {
    for command in ["check", "show", "run"] {
        for call in 0..2 {
            let (status, shown) = outcome_with(rt.alloc(), command, &[call], &[])?;
            assert_eq!(rt; shown.as_slice(), b"".as_slice(), "{command} {call}");
            assert_eq!(rt; status, Status::DepotFault, "{command} {call}");
        }
        let (status, _) = outcome_with(rt.alloc(), command, &[2], &[])?;
        assert_ne!(rt; status, Status::DepotFault, "{command}");
    }
    Ok(())
}
