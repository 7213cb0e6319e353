//! A story that a player goes through, saves, restores and restarts.
use std::alloc::Global;
use std::test::Fail;
use t3_cli::{Status, t3_main};
use t3_io::{SureConsole, SureDepot};
use t3_testing::{lines, owned, written};

/// The source of `examples/saves.t3s`, without its comments.
const SAVES: &str =
    "image / block \"ENTP\" 1 / entry @main 10 10 0 0 0 0 - / block \"CPDF\" 1 / pool 1 1 512 / \
     block \"CPDF\" 1 / pool 2 1 256 / block \"MCLD\" 1 / metaclass \"tads-object/030005\" 2 - / \
     block \"FNSD\" 1 / function-set \"tads-gen/030008\" / function-set \"tads-io/030007\" / \
     block \"CPPG\" 1 / page 2 0 255 / prompt: / text \"\\n>\" / sundo: / text \"undo\" / se: / \
     text \"e\" / sw: / text \"w\" / ssave: / text \"save\" / srestore: / text \"restore\" / \
     srestart: / text \"restart\" / file: / text \"s.sav\" / saved: / text \"Saved.\" / nothing: / \
     text \"Nothing to restore.\" / what: / text \"What?\" / none: / text \"No more undo.\" / \
     nowall: / text \"A wall.\" / cave: / text \"Cave\" / hall: / text \"Hall\" / tower: / \
     text \"Tower\" / block \"OBJS\" 1 / objects 0 0 / object 1 / u2 0 / u2 2 / u2 0 / u2 2 / \
     hold 8 @cave / u2 3 / hold 5 2 / object 2 / u2 0 / u2 3 / u2 0 / u2 2 / hold 8 @hall / \
     u2 3 / hold 5 3 / u2 4 / hold 5 1 / object 3 / u2 0 / u2 2 / u2 0 / u2 2 / \
     hold 8 @tower / u2 4 / hold 5 2 / object 4 / u2 0 / u2 1 / u2 0 / u2 5 / hold 5 1 / \
     block \"CPPG\" 1 / page 1 0 255 / main: / method 0 1 4 0 / call 0 @look / loop: / \
     pushstr @prompt / builtin_b 1 0 / builtin_b 0 4 / getr0 / setlcl1 0 / getlcl1 0 / \
     jf @done / getlcl1 0 / pushstr @sundo / je @back / getlcl1 0 / pushstr @ssave / \
     je @save / getlcl1 0 / pushstr @srestore / je @restore / getlcl1 0 / \
     pushstr @srestart / je @restart / getlcl1 0 / pushstr @se / je @east / getlcl1 0 / \
     pushstr @sw / je @west / pushstr @what / builtin_b 1 0 / jmp @loop / east: / \
     pushpropid 3 / call 1 @move / jmp @loop / west: / pushpropid 4 / call 1 @move / \
     jmp @loop / back: / builtin_a 0 14 / getr0 / jt @undone / pushstr @none / \
     builtin_b 1 0 / jmp @loop / undone: / call 0 @look / jmp @loop / save: / \
     pushstr @file / builtin_a 1 15 / pushstr @saved / builtin_b 1 0 / jmp @loop / \
     restore: / call 0 @try / getr0 / jt @undone / pushstr @nothing / builtin_b 1 0 / \
     jmp @loop / restart: / builtin_a 0 17 / jmp @undone / done: / retnil / try: / \
     method 0 0 4 ~handlers / pushstr @file / tried: / builtin_a 1 16 / rettrue / failed: / \
     disc / retnil / handlers: / table 1 / handler ~tried ~tried 0 ~failed / move: / \
     method 1 1 4 0 / builtin_a 0 13 / objgetprop 4 5 / getr0 / getarg1 0 / ptrcallprop 0 / \
     getr0 / setlcl1 0 / getlcl1 0 / jf @wall / getlcl1 0 / objsetprop 4 5 / call 0 @look / \
     retnil / wall: / pushstr @nowall / builtin_b 1 0 / retnil / look: / method 0 0 4 0 / \
     objgetprop 4 5 / getr0 / getprop 2 / getr0 / builtin_b 1 0 / retnil / end 0";

/// The status and what is shown where the story of a depot is run with this input.
fn played_in(
    alloc: Global,
    depot: &mut SureDepot,
    input: &[u8],
) -> Result<(Status, Vec<u8>), Fail> {
    let mut console = SureConsole::new(alloc, input)?;
    let words = owned(alloc, &["run", "a.t3"])?;
    let status = t3_main(alloc, &words, depot, &mut console);
    Ok((status, Vec::from_slice(alloc, console.shown())?))
}

/// What a player sees who comes back: the second of the runs begins anew, and restores what the first saved.
#[test]
fn a_player_comes_back(rt: HostRuntime) -> Result<(), Fail> {
    let alloc = rt.alloc();
    let (_, image) = written(alloc, "asm", &lines(alloc, SAVES)?)?;
    let mut depot = SureDepot::new(alloc);
    depot.keep(b"a.t3", &image)?;
    let rows: [(&[u8], &str); 2] = [
        (
            b"restore\ne\nsave\ne\nw\ne\nrestore\nundo\nw\nundo\nrestart\nundo\n",
            "Cave\n>Nothing to restore.\n>Hall\n>Saved.\n>Tower\n>Hall\n>Tower\n>Hall\n>No more undo.\n\
             >Cave\n>Hall\n>Cave\n>No more undo.\n>",
        ),
        (b"restore\ne\n", "Cave\n>Hall\n>Tower\n>"),
    ];
    for (input, want) in &rows {
        let (status, shown) = played_in(alloc, &mut depot, input)?;
        assert_eq!(rt; shown.as_slice(), want.as_bytes());
        assert_eq!(rt; status, Status::Done);
    }
    Ok(())
}
