//! CarriesOutCommand commands out.
ghost use Rattle.std.specs.Prelude.{◌≡◌, ◌≢◌, ◌<◌, ◌-◌, ◌^◌, Some, IfSome};
ghost use Rattle.t3_words.specs.Command.{command_value, IsWellFormed};
ghost use Rattle.t3_cli.specs.Top.{CountsFaults, CutsShort, MovesSome};
ghost use Rattle.t3_cli.specs.Inner.Following.{Answers, CarriesOutCommand, CountsConsole, CountsDepot, FailsBy, ShowsNoImage};

use crate::commands::run::{run_drill, run_image};
use crate::commands::show::{check_image, show_image};
use crate::commands::write::{assemble_source, list_image, rewrite};
use crate::console::answer;
use crate::images::no_image::NoImage;
use crate::lines;
use crate::status::Status;
use std::alloc::Global;
use t3_io::{Console, Depot, DeviceRefusal};
use t3_words::Command;

/// CarriesOutCommand a command out, or shows why it has no image.
pub(crate) fn carry_out<D: Depot, C: Console>(
    alloc: Global,
    command: Command,
    depot: &mut D,
    console: &mut C,
) -> Status
    requires names { IsWellFormed (command_value command) }
    requires depot { D.faults depot.old < 2 ^ 64 - 1 }
    requires console { C.faults console.old < 2 ^ 64 - 1 }
    ensures answers { IfSome (D.files depot.old) (λ files.
        Answers (Some (command_value command.entry)) files (C.session console.old) result (D.files depot.new) (C.session console.new)) }
    ensures moved { MovesSome (C.session console.old) (C.session console.new) }
    ensures no_usage { result ≢ Status.Usage }
    ensures depot { CountsFaults (result ≡ Status.DepotFault)
        (D.faults depot.old) (D.faults depot.new) }
    ensures console { CountsFaults (result ≡ Status.ConsoleFault)
        (C.faults console.old) (C.faults console.new) }
{
    match act(alloc, command, depot, console) {
        Ok(status) => status,
        Err(why) => show_no_image(alloc, command.file(), why, console),
    }
}

/// Reads the command's image or source, or makes its image, and does with it what the command does.
fn act<D: Depot, C: Console>(
    alloc: Global,
    command: Command,
    depot: &mut D,
    console: &mut C,
) -> Result<Status, NoImage>
    requires names { IsWellFormed (command_value command) }
    requires depot { D.faults depot.old < 2 ^ 64 - 1 }
    requires console { C.faults console.old < 2 ^ 64 - 1 }
    ensures carries { CarriesOutCommand (command_value command.entry)
        (D.files depot.old) (D.files depot.new) (C.session console.old) (C.session console.new)
        result }
    ensures depot { CountsDepot (D.faults depot.old) (D.faults depot.new) result }
    ensures console { CountsConsole (C.faults console.old) (C.faults console.new) result }
{
    match command {
        Command::Check { image } => check_image(alloc, image, depot, console),
        Command::Show { image } => show_image(alloc, image, depot, console),
        Command::Run { image, options } => run_image(alloc, image, options, depot, console),
        Command::Rewrite { image, out, mask } => rewrite(alloc, image, out, mask, depot, console),
        Command::List { image, out } => list_image(alloc, image, out, depot, console),
        Command::Asm { source, out } => assemble_source(alloc, source, out, depot, console),
        Command::Drill { number } => run_drill(alloc, number, depot, console),
    }
}

/// Shows why a command has no image, whose file was to be read under this name, unless a device failed or
/// memory was wanting.
fn show_no_image<C: Console>(alloc: Global, name: &str, why: NoImage, console: &mut C) -> Status
    requires { C.faults console.old < 2 ^ 64 - 1 }
    ensures shown { ShowsNoImage name.now why (C.session console.old) (C.session console.new)
        result }
    ensures depot { FailsBy why result }
    ensures console { CountsFaults (result ≡ Status.ConsoleFault)
        (C.faults console.old) (C.faults console.new) }
{
    match why {
        NoImage::Absent => answer(console, lines::absent(alloc, name), Status::Absent),
        NoImage::Refused { place, why } => {
            answer(
                console,
                lines::refused(alloc, place, why),
                Status::ImageRefused,
            )
        }
        NoImage::BadLine { line, why } => {
            answer(
                console,
                lines::bad_line(alloc, line, why),
                Status::SourceRefused,
            )
        }
        NoImage::Failed(refusal) => depot_status(refusal),
    }
}

/// The status of a depot's fault, or of want of memory.
pub(super) fn depot_status(refusal: DeviceRefusal) -> Status
    ensures cut { CutsShort result }
    ensures fault { refusal ≡ DeviceRefusal.Fault → result ≡ Status.DepotFault }
    ensures wants { refusal ≡ DeviceRefusal.NoMemory → result ≡ Status.NoMemory }
{
    match refusal {
        DeviceRefusal::Fault => Status::DepotFault,
        DeviceRefusal::NoMemory => Status::NoMemory,
    }
}
