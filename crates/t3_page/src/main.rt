//! Shows its input laid out on lines of 79 columns: the page over the real streams, said in pieces of 100
//! bytes. `bench/page` times it.
#![tactic(auto)]

ghost use Rattle.std.specs.Prelude.{◌-◌, ◌^◌, ◌<◌};
ghost use Rattle.t3_io.specs.Cause.{MovesFaults};

use std::alloc::Global;
use std::process::ExitCode;
use t3_console::Page;
use t3_holder::NoMemory;
use t3_io::{Console, DeviceRefusal, StdConsole};

const WIDTH: u16 = 79;

const PIECE: usize = 100;
/// So much of the input is taken at once: whole pieces.
const TAKEN: usize = 656 * PIECE;

fn main(rt: HostRuntime) -> ExitCode {
    let mut console = StdConsole::new(&rt);
    match lay_out(rt.alloc(), &mut console) {
        Ok(()) => ExitCode::SUCCESS,
        Err(_) => ExitCode::FAILURE,
    }
}

/// Shows all of the input on its lines, and ends the last one.
fn lay_out<C: Console>(alloc: Global, console: &mut C) -> Result<(), DeviceRefusal>
    requires { C.faults console.old < 2 ^ 64 - 1 }
    ensures { MovesFaults (C.faults console.old) (C.faults console.new) result }
{
    let mut page = Page::new(alloc, WIDTH);
    let mut taken = Vec::new(alloc);
    taken.resize(TAKEN, 0)?;
    let mut out = Vec::new(alloc);
    for _turn in 0..u64::MAX {
        let count = console.read(&mut taken)?;
        if count == 0 {
            break;
        }
        say_in_pieces(&mut page, &taken[..count], &mut out)?;
        show(console, &out)?;
        out.clear();
    }
    page.close(&mut out)?;
    show(console, &out)
}

fn say_in_pieces(page: &mut Page, text: &[u8], out: &mut Vec<u8>) -> Result<(), NoMemory> {
    for piece in text.chunks(PIECE) {
        page.say(piece, out)?;
    }
    Ok(())
}

/// Shows a text whole.
fn show<C: Console>(console: &mut C, text: &[u8]) -> Result<(), DeviceRefusal>
    requires { C.faults console.old < 2 ^ 64 - 1 }
    ensures { MovesFaults (C.faults console.old) (C.faults console.new) result }
{
    let mut at = 0;
    while at < text.len() {
        at += console.write(&text[at..])?;
    }
    Ok(())
}
