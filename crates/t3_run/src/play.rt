//! The steps of a run, and what comes of each.
ghost use Rattle.std.specs.Prelude.{◌≡◌, ◌<◌, ◌-◌, ◌^◌, [], List, ℕ};
ghost use Rattle.t3_console.specs.Page.{page_after};
ghost use Rattle.t3_interp.specs.Machine.{initial};
ghost use Rattle.t3_run.specs.Cause.{MovesDepotFaults, MovesConsoleFaults};
ghost use Rattle.t3_run.specs.Running.{outside, end_at, IsRun};
ghost use Rattle.t3_run.specs.Inner.Playing.{HasEnded};

use crate::end_lines::end_line;
use crate::refusal::RunRefusal;
use crate::screen::Screen;
use crate::stop::{RunEnd, Stop};
use crate::turn::{Turn, make_turn};
use std::alloc::Global;
use t3_interp::Machine;
use t3_io::{Console, Depot};
use t3_lines::LineReader;
use t3_load::Program;

/// Runs a program by at most so many steps: shows what it says on lines of a width, gives it the console's
/// lines of input and the depot's files when it wants them, puts its saved states into files, and shows how it
/// stopped. Gives why it stopped, and how many steps were made and savepoints and changes are held then.
///
/// Input is taken only while a line is wanted that the bytes taken so far don't end, at most 16,777,216 bytes
/// in all, and what comes before was shown then. Of a file that is wanted at most 268,435,457 bytes are read.
/// After a refusal a prefix of what the run shows was shown, and the files are those after some of its puts, but
/// for one that may be as a failed put leaves it where the depot faulted.
pub fn run<D: Depot, C: Console>(
    alloc: Global,
    program: Program,
    steps: u32,
    width: u16,
    depot: &mut D,
    console: &mut C,
) -> Result<RunEnd, RunRefusal>
    requires width { 0 < width }
    requires depot { D.faults depot.old < 2 ^ 64 - 1 }
    requires console { C.faults console.old < 2 ^ 64 - 1 }
    ensures run { IsRun program steps width (outside (D.files depot.old) (C.session console.old))
        (outside (D.files depot.new) (C.session console.new)) result }
    ensures depot { MovesDepotFaults (D.faults depot.old) (D.faults depot.new) result }
    ensures console { MovesConsoleFaults (C.faults console.old) (C.faults console.new) result }
{
    let machine = Machine::start(alloc, program)?;
    let mut screen = Screen::new(alloc, width);
    let (machine, stop) = play(alloc, machine, steps, &mut screen, depot, console)?;
    let line = end_line(alloc, stop)?;
    match screen.close(line.as_str(), console) {
        Ok(()) => Ok(run_end(&machine, stop)),
        Err(refusal) => Err(RunRefusal::of_console(refusal)),
    }
}

/// How a run ends whose machine has come so far.
fn run_end(machine: &Machine, stop: Stop) -> RunEnd
    ensures { result ≡ end_at stop machine.now.state }
{
    RunEnd {
        stop,
        steps: machine.steps(),
        held: machine.held(),
        records: machine.records(),
    }
}

/// Makes the steps, and does what they tell.
#[inline(never)]
fn play<D: Depot, C: Console>(
    alloc: Global,
    mut machine: Machine,
    steps: u32,
    screen: &mut Screen,
    depot: &mut D,
    console: &mut C,
) -> Result<(Machine, Stop), RunRefusal>
    requires depot { D.faults depot.old < 2 ^ 64 - 1 }
    requires console { C.faults console.old < 2 ^ 64 - 1 }
    requires begun { machine.state ≡ initial machine.program }
    requires page { screen.old.page ≡ page_after screen.old.page.width [] }
    requires out { screen.old.out.items ≡ [] }
    ensures ended { HasEnded (record {
      program = machine.program;
      steps = steps;
      width = screen.old.page.width;
      before = outside (D.files depot.old) (C.session console.old);
    })
        screen.new (outside (D.files depot.new) (C.session console.new)) result }
    ensures depot { MovesDepotFaults (D.faults depot.old) (D.faults depot.new) result }
    ensures console { MovesConsoleFaults (C.faults console.old) (C.faults console.new) result }
{
    let mut lines = LineReader::new(alloc);
    let mut left = steps;
    while left > 0 {
        let (next, made, event) = machine.go(left)?;
        left -= made;
        match make_turn(alloc, next, event, screen, &mut lines, depot, console)? {
            Turn::Goes(next) => machine = next,
            Turn::Stops(last, stop) => return Ok((last, stop)),
        }
    }
    Ok((machine, Stop::NoStep))
}
