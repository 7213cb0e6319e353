//! The commands that run an image.
ghost use Rattle.std.specs.Prelude.{◌<◌, ◌≤◌, ◌-◌, ◌^◌};
ghost use Rattle.t3_holder.specs.FileName.{IsFileName};
ghost use Rattle.t3_words.specs.Command.{AreWithin, Drill as DrillOf, Run as RunOf, options_value};
ghost use Rattle.t3_cli.specs.Inner.Following.{CarriesOutCommand, CountsConsole, CountsDepot};

use crate::images::made::made_image;
use crate::images::no_image::NoImage;
use crate::images::read::read_digested;
use crate::status::Status;
use crate::story::launch;
use std::alloc::Global;
use t3_drill::drill_actions;
use t3_io::{Console, Depot};
use t3_words::RunOptions;

/// Runs a file's image.
pub(super) fn run_image<D: Depot, C: Console>(
    alloc: Global,
    image: &str,
    options: RunOptions,
    depot: &mut D,
    console: &mut C,
) -> Result<Status, NoImage>
    requires name { IsFileName image.now }
    requires within { AreWithin (options_value options) }
    requires depot { D.faults depot.old < 2 ^ 64 - 1 }
    requires console { C.faults console.old < 2 ^ 64 - 1 }
    ensures carries { CarriesOutCommand (RunOf image.now (options_value options))
        (D.files depot.old) (D.files depot.new) (C.session console.old) (C.session console.new)
        result }
    ensures depot { CountsDepot (D.faults depot.old) (D.faults depot.new) result }
    ensures console { CountsConsole (C.faults console.old) (C.faults console.new) result }
{
    let read = read_digested(alloc, image.as_bytes(), depot)?;
    Ok(launch(alloc, read, options, None, depot, console))
}

/// Runs the image that is made for a number, and shows what its run came to.
pub(super) fn run_drill<D: Depot, C: Console>(
    alloc: Global,
    number: u8,
    depot: &mut D,
    console: &mut C,
) -> Result<Status, NoImage>
    requires number { number ≤ 200 }
    requires depot { D.faults depot.old < 2 ^ 64 - 1 }
    requires console { C.faults console.old < 2 ^ 64 - 1 }
    ensures carries { CarriesOutCommand (DrillOf number)
        (D.files depot.old) (D.files depot.new) (C.session console.old) (C.session console.new)
        result }
    ensures depot { CountsDepot (D.faults depot.old) (D.faults depot.new) result }
    ensures console { CountsConsole (C.faults console.old) (C.faults console.new) result }
{
    let made = made_image(alloc, number)?;
    let actions = Some(drill_actions(number));
    Ok(launch(alloc, made, RunOptions::defaults(), actions, depot, console))
}
