//! A story that a player goes through, and takes moves back in.
use std::alloc::Global;
use std::test::Fail;
use t3_cli::{Status, t3_main};
use t3_io::{MemoryConsole, MemoryDepot};
use t3_testing::{lines, owned, played, written};

/// The source of `examples/cave.t3s`, without its comments.
const CAVE: &str = "image / block \"ENTP\" 1 / entry @main 10 10 0 0 0 0 - / block \"CPDF\" 1 / \
                    pool 1 1 256 / block \"CPDF\" 1 / pool 2 1 128 / block \"MCLD\" 1 / \
                    metaclass \"tads-object/030005\" 2 - / block \"FNSD\" 1 / \
                    function-set \"tads-gen/030008\" / function-set \"tads-io/030007\" / block \"CPPG\" 1 / \
                    page 2 0 255 / prompt: / text \"\\n>\" / sundo: / text \"undo\" / se: / text \"e\" / \
                    sw: / text \"w\" / what: / text \"What?\" / none: / text \"No more undo.\" / nowall: / \
                    text \"A wall.\" / cave: / text \"Cave\" / hall: / text \"Hall\" / tower: / \
                    text \"Tower\" / \
                    block \"OBJS\" 1 / \
                    objects 0 0 / object 1 / u2 0 / u2 2 / u2 0 / u2 2 / hold 8 @cave / u2 3 / hold 5 2 / \
                    object 2 / u2 0 / u2 3 / u2 0 / u2 2 / hold 8 @hall / u2 3 / hold 5 3 / u2 4 / hold 5 1 / \
                    object 3 / u2 0 / u2 2 / u2 0 / u2 2 / hold 8 @tower / u2 4 / hold 5 2 / object 4 / \
                    u2 0 / u2 1 / u2 0 / u2 5 / hold 5 1 / block \"CPPG\" 1 / page 1 0 255 / main: / \
                    method 0 1 4 0 / call 0 @look / loop: / pushstr @prompt / builtin_b 1 0 / builtin_b 0 4 / \
                    getr0 / setlcl1 0 / getlcl1 0 / jf @done / getlcl1 0 / pushstr @sundo / je @back / \
                    getlcl1 0 / pushstr @se / je @east / getlcl1 0 / pushstr @sw / je @west / pushstr @what / \
                    builtin_b 1 0 / jmp @loop / east: / pushpropid 3 / call 1 @move / jmp @loop / west: / \
                    pushpropid 4 / call 1 @move / jmp @loop / back: / builtin_a 0 14 / getr0 / jt @undone / \
                    pushstr @none / builtin_b 1 0 / jmp @loop / undone: / call 0 @look / jmp @loop / done: / \
                    retnil / move: / method 1 1 4 0 / builtin_a 0 13 / objgetprop 4 5 / getr0 / getarg1 0 / \
                    ptrcallprop 0 / getr0 / setlcl1 0 / getlcl1 0 / jf @wall / getlcl1 0 / objsetprop 4 5 / \
                    call 0 @look / retnil / wall: / pushstr @nowall / builtin_b 1 0 / retnil / look: / \
                    method 0 0 4 0 / objgetprop 4 5 / getr0 / getprop 2 / getr0 / builtin_b 1 0 / retnil / \
                    end 0";

#[test]
fn a_player_takes_moves_back(rt: HostRuntime) -> Result<(), Fail> {
    let alloc = rt.alloc();
    let (_, image) = written(alloc, "asm", &lines(alloc, CAVE)?)?;
    let rows: [(&[&str], &[u8], &str); 4] = [
        (
            &[],
            b"e\ne\ne\nundo\nundo\nundo\nundo\nw\nlook\n",
            "Cave\n>Hall\n>Tower\n>A wall.\n>Tower\n>Hall\n>Cave\n>No more undo.\n>A wall.\n>What?\n>",
        ),
        // Only the last move can be taken back.
        (
            &["--savepoints=1"],
            b"e\ne\nundo\nundo\n",
            "Cave\n>Hall\n>Tower\n>Hall\n>No more undo.\n>",
        ),
        (
            &["--records=1"],
            b"e\ne\nundo\nundo",
            "Cave\n>Hall\n>Tower\n>Hall\n>No more undo.\n>",
        ),
        // A move that leads nowhere is one, too.
        (
            &[],
            b"w\r\nundo\r\nundo\r\n",
            "Cave\n>A wall.\n>Cave\n>No more undo.\n>",
        ),
    ];
    for (options, input, want) in &rows {
        let (status, shown) = played(alloc, &image, options, input)?;
        assert_eq!(rt; shown.as_slice(), want.as_bytes());
        assert_eq!(rt; status, Status::Done);
    }
    Ok(())
}

const LINES: &[u8] = b"e\ne\ne\nundo\nundo\nundo\nundo\nw\nlook\n";

/// What is shown before each of these lines, and before the one that isn't there.
const SHOWN: [&str; 10] = [
    "Cave\n>",
    "Hall\n>",
    "Tower\n>",
    "A wall.\n>",
    "Tower\n>",
    "Hall\n>",
    "Cave\n>",
    "No more undo.\n>",
    "A wall.\n>",
    "What?\n>",
];

/// The status and what is shown of these lines, where the calls of these numbers fail.
fn played_with(
    alloc: Global,
    depot_calls: &[u32],
    console_calls: &[u32],
) -> Result<(Status, Vec<u8>), Fail> {
    let (_, image) = written(alloc, "asm", &lines(alloc, CAVE)?)?;
    let mut depot = MemoryDepot::new(alloc, depot_calls)?;
    depot.keep(b"a.t3", &image)?;
    let mut console = MemoryConsole::new(alloc, LINES, console_calls)?;
    let words = owned(alloc, &["run", "a.t3"])?;
    let status = t3_main(alloc, &words, &mut depot, &mut console);
    Ok((status, Vec::from_slice(alloc, console.shown())?))
}

/// So many of the texts, one behind the other.
fn shown_first(alloc: Global, count: usize) -> Result<Vec<u8>, Fail> {
    let mut text = Vec::new(alloc);
    for part in SHOWN.iter().take(count) {
        text.extend_from_slice(part.as_bytes())?;
    }
    Ok(text)
}

/// The image is read in two calls, and nothing is shown before.
#[test]
fn stops_where_the_depot_fails(rt: HostRuntime) -> Result<(), Fail> {
    for call in 0..2 {
        let (status, shown) = played_with(rt.alloc(), &[call], &[])?;
        assert_eq!(rt; shown.as_slice(), b"".as_slice());
        assert_eq!(rt; status, Status::DepotFault);
    }
    let (status, shown) = played_with(rt.alloc(), &[2], &[])?;
    assert_eq!(rt; shown, shown_first(rt.alloc(), 10)?);
    assert_eq!(rt; status, Status::Done);
    Ok(())
}

/// A text is shown in one call. All lines are read in one, behind the first text, and another behind the last finds none.
#[test]
fn stops_where_the_console_fails(rt: HostRuntime) -> Result<(), Fail> {
    let rows: [(u32, usize); 12] = [
        (0, 0),
        (1, 1),
        (2, 1),
        (3, 2),
        (4, 3),
        (5, 4),
        (6, 5),
        (7, 6),
        (8, 7),
        (9, 8),
        (10, 9),
        (11, 10),
    ];
    for (call, count) in &rows {
        let (status, shown) = played_with(rt.alloc(), &[], &[*call])?;
        assert_eq!(rt; shown, shown_first(rt.alloc(), *count)?, "{call}");
        assert_eq!(rt; status, Status::ConsoleFault, "{call}");
    }
    let (status, shown) = played_with(rt.alloc(), &[], &[12])?;
    assert_eq!(rt; shown, shown_first(rt.alloc(), 10)?);
    assert_eq!(rt; status, Status::Done);
    Ok(())
}
