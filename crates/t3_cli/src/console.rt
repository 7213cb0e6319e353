//! Shows text on a console, and makes the status of how that went.
ghost use Rattle.std.specs.Prelude.{◌≡◌, ◌<◌, ◌-◌, ◌^◌, ◌⊎◌, string_bytes};
ghost use Rattle.t3_cli.specs.Top.{IsShown};
ghost use Rattle.t3_cli.specs.Inner.Showing.{AnswersLine};

use crate::status::Status;
use std::alloc::AllocError;
use t3_io::{Console, DeviceRefusal};
use t3_run::show;

/// Shows a line, if there was memory for it, and answers the status that goes with it, or that of the
/// failure.
pub(crate) fn answer<C: Console>(
    console: &mut C,
    line: Result<String, AllocError>,
    status: Status,
) -> Status
    requires { C.faults console.old < 2 ^ 64 - 1 }
    ensures shown { AnswersLine string_bytes (C.session console.old) (C.session console.new) line
        status result }
    ensures fault { result ≡ Status.ConsoleFault → (C.faults console.old < C.faults console.new) ⊎
        (status ≡ Status.ConsoleFault) }
    ensures rise { (result ≡ Status.ConsoleFault) ⊎ (C.faults console.new ≡ C.faults console.old) }
    ensures no_depot { result ≡ Status.DepotFault → status ≡ Status.DepotFault }
{
    match line {
        Ok(line) => end_with(console, line.as_str(), status),
        Err(AllocError) => Status::NoMemory,
    }
}

/// Shows a line, and answers the status that goes with it, or that of the console's failure.
pub(crate) fn end_with<C: Console>(console: &mut C, line: &str, status: Status) -> Status
    requires { C.faults console.old < 2 ^ 64 - 1 }
    ensures shown { IsShown (C.session console.old) (C.session console.new) line.now status result }
    ensures fault { result ≡ Status.ConsoleFault → (C.faults console.old < C.faults console.new) ⊎
        (status ≡ Status.ConsoleFault) }
    ensures rise { (result ≡ Status.ConsoleFault) ⊎ (C.faults console.new ≡ C.faults console.old) }
    ensures no_depot { result ≡ Status.DepotFault → status ≡ Status.DepotFault }
{
    match show(console, line.as_bytes()) {
        Ok(()) => status,
        Err(DeviceRefusal::Fault) => Status::ConsoleFault,
        Err(DeviceRefusal::NoMemory) => Status::NoMemory,
    }
}
