//! What a run does of what a step told.
ghost use Rattle.std.specs.Prelude.{◌≡◌, ◌≢◌, ◌+◌, ◌<◌, ◌-◌, ◌^◌, [], List, ℕ, Option, IfOk};
ghost use Rattle.std.specs.Option.{option_map};
ghost use Rattle.std.specs.Vec.{vec_items};
ghost use Rattle.t3_holder.specs.FileName.{IsFileName};
ghost use Rattle.t3_io.specs.Cause.{MovesFaults};
ghost use Rattle.t3_io.specs.Files.{Files};
ghost use Rattle.t3_io.specs.Session.{Session};
ghost use Rattle.t3_lines.specs.Reader.{ReaderValue};
ghost use Rattle.t3_interp.specs.declared.event.Event.TheVariants as events;
ghost use Rattle.t3_interp.specs.declared.event.Input.TheVariants as inputs;
ghost use Rattle.t3_interp.specs.declared.event.Want.TheVariants.{Line, Stored, File};
ghost use Rattle.t3_interp.specs.Step.{IsWanted};
ghost use Rattle.t3_interp.specs.Wanting.{WantsOn, HasFrame, IsNamed};
ghost use Rattle.t3_run.specs.Cause.{depot_refusal, console_refusal, IsDepotFault, IsFault, IsNoDepotFault, MovesDepotFaults, MovesConsoleFaults};
ghost use Rattle.t3_run.specs.Run.{file_input as input_of_file};
ghost use Rattle.t3_run.specs.Running.{outside};
ghost use Rattle.t3_run.specs.Inner.Playing.{Play, HasPlayed, IsPageOf, EventLeft, AskLeft, world_of, HasTurned, HasFinished, IsFinished, told_as};

use crate::refusal::RunRefusal;
use crate::screen::Screen;
use crate::stop::Stop;
use std::alloc::Global;
use t3_files::read_file;
use t3_holder::{Bytes, NoMemory};
use t3_interp::{Event, Input, Machine};
use t3_io::{Console, Depot, DeviceRefusal};
use t3_lines::{LineReader, WantedLine};

/// What comes of a turn.
#[derive(Drop)]
pub(crate) enum Turn {
    /// The run goes on.
    Goes(Machine),
    /// It has stopped.
    Stops(Machine, Stop),
}

/// Does what the last step told.
pub(crate) fn make_turn<D: Depot, C: Console>(
    alloc: Global,
    machine: Machine,
    event: Event,
    screen: &mut Screen,
    lines: &mut LineReader,
    depot: &mut D,
    console: &mut C,
) -> Result<Turn, RunRefusal>
    requires depot { D.faults depot.old < 2 ^ 64 - 1 }
    requires console { C.faults console.old < 2 ^ 64 - 1 }
    requires wants { WantsOn machine.program machine.state.steps event machine.state }
    requires named { IsNamed event }
    requires few { machine.state.steps < 2 ^ 40 }
    ensures turned { (play : Play) (left : ℕ) (text : List ℕ) → IsPageOf play screen.old text
        → machine.program ≡ play.program → machine.state.steps + left ≡ play.steps
        → HasPlayed play (EventLeft play left event (world_of machine.state text lines.old.given))
        lines.old.given screen.old.out.items lines.old
        (outside (D.files depot.old) (C.session console.old))
        → HasTurned IsDepotFault play left screen.new lines.new
        (outside (D.files depot.new) (C.session console.new)) result }
    ensures depot { MovesDepotFaults (D.faults depot.old) (D.faults depot.new) result }
    ensures console { MovesConsoleFaults (C.faults console.old) (C.faults console.new) result }
{
    match event {
        Event::Went => Ok(Turn::Goes(machine)),
        Event::Said(text) => on_console(say(machine, &text.0, screen, console)),
        Event::WantLine => on_console(ask(machine, screen, lines, console)),
        Event::WantPut(name, bytes) => match screen.flush(console) {
            Ok(()) => on_depot(store_file(machine, &name.0, &bytes.0, depot)),
            Err(refusal) => Err(RunRefusal::of_console(refusal)),
        },
        Event::WantGet(name) => on_depot(give_file(alloc, machine, &name.0, depot)),
        Event::Ended(end) => Ok(Turn::Stops(machine, Stop::Ends(end))),
    }
}

/// What a turn came to over the console, as of a run.
fn on_console(answer: Result<Turn, DeviceRefusal>) -> Result<Turn, RunRefusal>
    ensures { result ≡ told_as console_refusal answer }
{
    match answer {
        Ok(turn) => Ok(turn),
        Err(refusal) => Err(RunRefusal::of_console(refusal)),
    }
}

/// The same over the depot.
fn on_depot(answer: Result<Turn, DeviceRefusal>) -> Result<Turn, RunRefusal>
    ensures { result ≡ told_as depot_refusal answer }
{
    match answer {
        Ok(turn) => Ok(turn),
        Err(refusal) => Err(RunRefusal::of_depot(refusal)),
    }
}

/// Says a text.
fn say<C: Console>(
    machine: Machine,
    text: &[u8],
    screen: &mut Screen,
    console: &mut C,
) -> Result<Turn, DeviceRefusal>
    requires faults { C.faults console.old < 2 ^ 64 - 1 }
    requires wants { WantsOn machine.program machine.state.steps (events.Said text.now) machine.state }
    ensures turned { (play : Play) (left : ℕ) (said : List ℕ) (reader : ReaderValue) (files : Option Files)
        → IsPageOf play screen.old said
        → machine.program ≡ play.program → machine.state.steps + left ≡ play.steps
        → HasPlayed play (EventLeft play left (events.Said text.now) (world_of machine.state said reader.given))
        reader.given screen.old.out.items reader (outside files (C.session console.old))
        → HasTurned IsNoDepotFault play left screen.new reader (outside files (C.session console.new)) result }
    ensures cause { MovesFaults (C.faults console.old) (C.faults console.new) result }
{
    screen.say(text, console)?;
    Ok(Turn::Goes(machine))
}

/// Shows the rest of what was said, and gives the instruction that waits the next line of input.
fn ask<C: Console>(
    machine: Machine,
    screen: &mut Screen,
    lines: &mut LineReader,
    console: &mut C,
) -> Result<Turn, DeviceRefusal>
    requires faults { C.faults console.old < 2 ^ 64 - 1 }
    requires wants { WantsOn machine.program machine.state.steps events.WantLine machine.state }
    requires few { machine.state.steps < 2 ^ 40 }
    ensures turned { (play : Play) (left : ℕ) (text : List ℕ) (files : Option Files) → IsPageOf play screen.old text
        → machine.program ≡ play.program → machine.state.steps + left ≡ play.steps
        → HasPlayed play (EventLeft play left events.WantLine (world_of machine.state text lines.old.given))
        lines.old.given screen.old.out.items lines.old (outside files (C.session console.old))
        → HasTurned IsNoDepotFault play left screen.new lines.new (outside files (C.session console.new)) result }
    ensures cause { MovesFaults (C.faults console.old) (C.faults console.new) result }
{
    screen.rest(console)?;
    give_line(machine, lines, console)
}

/// Gives the instruction that waits the next line of input.
fn give_line<C: Console>(
    machine: Machine,
    lines: &mut LineReader,
    console: &mut C,
) -> Result<Turn, DeviceRefusal>
    requires faults { C.faults console.old < 2 ^ 64 - 1 }
    requires wants { machine.state.wants ≡ Line }
    requires frame { HasFrame machine.state.frames }
    requires few { machine.state.steps < 2 ^ 40 }
    ensures finished { (play : Play) (left : ℕ) (files : Option Files) → machine.program ≡ play.program
        → machine.state.steps + left ≡ play.steps
        → HasPlayed play (AskLeft play left (world_of machine.state [] lines.old.given))
        lines.old.given [] lines.old (outside files (C.session console.old))
        → HasFinished IsNoDepotFault play left [] lines.new (outside files (C.session console.new)) result }
    ensures cause { MovesFaults (C.faults console.old) (C.faults console.new) result }
{
    match lines.next_line(console)? {
        WantedLine::Line(line) => Ok(finish(machine, Input::Line(line))?),
        WantedLine::EndOfInput => Ok(finish(machine, Input::EndOfInput)?),
        WantedLine::PastLimit => Ok(Turn::Stops(machine, Stop::NoLine)),
    }
}

/// Puts a file, and tells the instruction that waits that it is stored.
fn store_file<D: Depot>(
    machine: Machine,
    name: &[u8],
    bytes: &[u8],
    depot: &mut D,
) -> Result<Turn, DeviceRefusal>
    requires name { IsFileName name.now }
    requires faults { D.faults depot.old < 2 ^ 64 - 1 }
    requires wants { machine.state.wants ≡ Stored }
    requires frame { HasFrame machine.state.frames }
    requires few { machine.state.steps < 2 ^ 40 }
    ensures finished { (play : Play) (left : ℕ) (text : List ℕ) (reader : ReaderValue) (session : Option Session)
        → machine.program ≡ play.program → machine.state.steps + left ≡ play.steps
        → HasPlayed play (EventLeft play left (events.WantPut name.now bytes.now)
        (world_of machine.state text reader.given)) reader.given [] reader (outside (D.files depot.old) session)
        → HasFinished IsFault play left text reader (outside (D.files depot.new) session) result }
    ensures cause { MovesFaults (D.faults depot.old) (D.faults depot.new) result }
{
    depot.put(name, bytes)?;
    Ok(finish(machine, Input::Stored)?)
}

/// Gives the instruction that waits the file of a name, or tells it that there is none.
fn give_file<D: Depot>(
    alloc: Global,
    machine: Machine,
    name: &[u8],
    depot: &mut D,
) -> Result<Turn, DeviceRefusal>
    requires name { IsFileName name.now }
    requires faults { D.faults depot.old < 2 ^ 64 - 1 }
    requires wants { machine.state.wants ≡ File }
    requires frame { HasFrame machine.state.frames }
    requires few { machine.state.steps < 2 ^ 40 }
    ensures turned { (play : Play) (left : ℕ) (text : List ℕ) (screen : Screen) (reader : ReaderValue) (session : Option Session)
        → IsPageOf play screen text → machine.program ≡ play.program → machine.state.steps + left ≡ play.steps
        → HasPlayed play (EventLeft play left (events.WantGet name.now) (world_of machine.state text reader.given))
        reader.given screen.out.items reader (outside (D.files depot.old) session)
        → HasTurned IsFault play left screen reader (outside (D.files depot.new) session) result }
    ensures cause { MovesFaults (D.faults depot.old) (D.faults depot.new) result }
{
    let input = file_input(read_file(alloc, name, depot)?);
    Ok(finish(machine, input)?)
}

/// The bytes of a file, or that there is none, as the instruction that waits is told.
fn file_input(found: Option<Vec<u8>>) -> Input
    ensures { result ≡ input_of_file (option_map vec_items found) }
{
    match found {
        Some(bytes) => Input::File(Bytes(bytes)),
        None => Input::NoFile,
    }
}

/// Finishes the instruction that waits.
fn finish(machine: Machine, input: Input) -> Result<Turn, NoMemory>
    requires wants { IsWanted machine.state.wants input }
    requires waits { input ≢ inputs.Go }
    requires frame { HasFrame machine.state.frames }
    requires few { machine.state.steps < 2 ^ 40 }
    ensures { IfOk result (IsFinished machine input) }
{
    let (machine, event) = machine.step(input)?;
    match event {
        Event::Ended(end) => Ok(Turn::Stops(machine, Stop::Ends(end))),
        _ => Ok(Turn::Goes(machine)),
    }
}
