//! Shows the lines of its input, each in brackets: the reader of lines over the real streams, which tell
//! no contract what they give and take.
#![tactic(auto)]

ghost use Rattle.std.specs.Prelude.{◌-◌, ◌^◌, ◌<◌};
ghost use Rattle.t3_io.specs.Cause.{MovesFaults};

use std::alloc::Global;
use std::process::ExitCode;
use t3_io::{Console, DeviceRefusal, StdConsole};
use t3_lines::{LineReader, WantedLine};

fn main(rt: HostRuntime) -> ExitCode {
    let mut console = StdConsole::new(&rt);
    match show_lines(rt.alloc(), &mut console) {
        Ok(()) => ExitCode::SUCCESS,
        Err(_) => ExitCode::FAILURE,
    }
}

/// Shows each line until the input ends.
fn show_lines<C: Console>(alloc: Global, console: &mut C) -> Result<(), DeviceRefusal>
    requires { C.faults console.old < 2 ^ 64 - 1 }
    ensures { MovesFaults (C.faults console.old) (C.faults console.new) result }
{
    let mut lines = LineReader::new(alloc);
    for _turn in 0..u64::MAX {
        match lines.next_line(console)? {
            WantedLine::Line(line) => show_line(console, &line.0)?,
            WantedLine::EndOfInput | WantedLine::PastLimit => return Ok(()),
        }
    }
    Ok(())
}

/// Shows a line in brackets.
fn show_line<C: Console>(console: &mut C, line: &[u8]) -> Result<(), DeviceRefusal>
    requires { C.faults console.old < 2 ^ 64 - 1 }
    ensures { MovesFaults (C.faults console.old) (C.faults console.new) result }
{
    show(console, b"[")?;
    show(console, line)?;
    show(console, b"]\n")
}

/// Shows a text whole.
fn show<C: Console>(console: &mut C, text: &[u8]) -> Result<(), DeviceRefusal>
    requires { C.faults console.old < 2 ^ 64 - 1 }
    ensures { MovesFaults (C.faults console.old) (C.faults console.new) result }
{
    let mut at = 0;
    while at < text.len() {
        at += console.write(&text[at..])?;
    }
    Ok(())
}
