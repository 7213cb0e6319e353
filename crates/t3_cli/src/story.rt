//! CarriesOutCommand out the story that an image is.
ghost use Rattle.std.specs.Prelude.{◌≡◌, ◌≢◌, ◌<◌, ◌-◌, ◌^◌};
ghost use Rattle.t3_load.specs.Loading.{Loads};
ghost use Rattle.t3_cli.specs.Outcome.{IsRunOutcome, fingerprint_of, run_limits, status_of as status_by};
ghost use Rattle.t3_cli.specs.Lines.{load_line};
ghost use Rattle.t3_cli.specs.Top.{CountsFaults};
ghost use Rattle.t3_words.specs.Command.{AreWithin, options_value};
ghost use Rattle.t3_cli.specs.Inner.Showing.{ShowsOrWants};
ghost use Rattle.t3_cli.specs.Inner.Following.{FollowsSome, IsProgramOutcome, IsClosed};

use crate::console::answer;
use crate::images::read::DigestedImage;
use crate::lines;
use crate::status::Status;
use std::alloc::Global;
use t3_interp::End;
use t3_io::{Console, Depot};
use t3_load::{LoadRefusal, Program, load};
use t3_run::{RunEnd, RunRefusal, Stop, run};
use t3_store::StoreLimits;
use t3_words::RunOptions;

/// How many objects a story has at most.
const OBJECTS: u32 = 1_048_576;

/// How many units its objects count at most.
const UNITS: u32 = 4_194_304;

/// Runs an image, and shows what it says and how it ends; of a drill of so many actions a line besides.
pub(crate) fn launch<D: Depot, C: Console>(
    alloc: Global,
    digested: DigestedImage,
    options: RunOptions,
    actions: Option<u32>,
    depot: &mut D,
    console: &mut C,
) -> Status
    requires fingerprint { digested.digest ≡ fingerprint_of digested.image }
    requires within { AreWithin (options_value options) }
    requires depot { D.faults depot.old < 2 ^ 64 - 1 }
    requires console { C.faults console.old < 2 ^ 64 - 1 }
    ensures follows { FollowsSome (IsRunOutcome (options_value options) actions digested.image)
        (D.files depot.old) (D.files depot.new) (C.session console.old) (C.session console.new)
        result }
    ensures depot { CountsFaults (result ≡ Status.DepotFault)
        (D.faults depot.old) (D.faults depot.new) }
    ensures console { CountsFaults (result ≡ Status.ConsoleFault)
        (C.faults console.old) (C.faults console.new) }
{
    match program_of(alloc, digested, options) {
        Ok(program) => play(alloc, program, options, actions, depot, console),
        Err(why) => unloaded(alloc, why, console),
    }
}

/// The program of an image, which isn't kept while it runs.
fn program_of(
    alloc: Global,
    digested: DigestedImage,
    options: RunOptions,
) -> Result<Program, LoadRefusal>
    requires { AreWithin (options_value options) }
    ensures { Loads digested.image.blocks digested.digest (run_limits (options_value options))
        result }
{
    let limits = StoreLimits {
        objects: OBJECTS,
        units: UNITS,
        records: options.records,
        savepoints: options.savepoints,
    };
    load(alloc, &digested.image, digested.digest, limits)
}

/// Shows why no program was made, unless that was for want of memory.
fn unloaded<C: Console>(alloc: Global, why: LoadRefusal, console: &mut C) -> Status
    requires { C.faults console.old < 2 ^ 64 - 1 }
    ensures wants { why ≡ LoadRefusal.NoMemory
        → (result ≡ Status.NoMemory) × (C.session console.new ≡ C.session console.old) }
    ensures shown { why ≢ LoadRefusal.NoMemory → ShowsOrWants (C.session console.old)
        (C.session console.new) (load_line why) Status.LoadRefused result }
    ensures console { CountsFaults (result ≡ Status.ConsoleFault)
        (C.faults console.old) (C.faults console.new) }
    ensures no_depot { result ≢ Status.DepotFault }
{
    match why {
        LoadRefusal::NoMemory => Status::NoMemory,
        _ => answer(
            console,
            lines::load_refused(alloc, why),
            Status::LoadRefused,
        ),
    }
}

/// Runs a program, and answers the status of how it stopped, or that of the failure.
fn play<D: Depot, C: Console>(
    alloc: Global,
    program: Program,
    options: RunOptions,
    actions: Option<u32>,
    depot: &mut D,
    console: &mut C,
) -> Status
    requires width { 0 < options.width }
    requires depot { D.faults depot.old < 2 ^ 64 - 1 }
    requires console { C.faults console.old < 2 ^ 64 - 1 }
    ensures follows { FollowsSome (IsProgramOutcome program (options_value options) actions)
        (D.files depot.old) (D.files depot.new) (C.session console.old) (C.session console.new)
        result }
    ensures depot { CountsFaults (result ≡ Status.DepotFault)
        (D.faults depot.old) (D.faults depot.new) }
    ensures console { CountsFaults (result ≡ Status.ConsoleFault)
        (C.faults console.old) (C.faults console.new) }
{
    match run(alloc, program, options.steps, options.width, depot, console) {
        Ok(end) => closed(alloc, end, actions, console),
        Err(RunRefusal::DepotFault) => Status::DepotFault,
        Err(RunRefusal::ConsoleFault) => Status::ConsoleFault,
        Err(RunRefusal::NoMemory) => Status::NoMemory,
    }
}

/// The status of a run that ended so. Of a drill of so many actions a line is shown.
fn closed<C: Console>(alloc: Global, end: RunEnd, actions: Option<u32>, console: &mut C) -> Status
    requires { C.faults console.old < 2 ^ 64 - 1 }
    ensures closed { IsClosed (C.session console.old) (C.session console.new) actions end result }
    ensures console { CountsFaults (result ≡ Status.ConsoleFault)
        (C.faults console.old) (C.faults console.new) }
    ensures no_depot { result ≢ Status.DepotFault }
{
    let status = status_of(end.stop);
    match actions {
        Some(actions) => answer(console, lines::drill(alloc, actions, end), status),
        None => status,
    }
}

/// The status of a run that stopped so.
fn status_of(stop: Stop) -> Status
    ensures status { result ≡ status_by stop }
    ensures whole { (result ≢ Status.DepotFault) × (result ≢ Status.ConsoleFault) }
{
    match stop {
        Stop::Ends(End::Returned) => Status::Done,
        Stop::Ends(End::Unhandled { .. }) => Status::Unhandled,
        Stop::Ends(End::BadCode { .. }) => Status::BadCode,
        Stop::Ends(End::StoreFull) => Status::StoreFull,
        Stop::NoStep => Status::StepLimit,
        Stop::NoLine => Status::InputLimit,
    }
}
