//! The commands that show what an image is.
ghost use Rattle.std.specs.Prelude.{◌<◌, ◌-◌, ◌^◌};
ghost use Rattle.t3_holder.specs.FileName.{IsFileName};
ghost use Rattle.t3_words.specs.Command.{Check as Checking, Show as ShowingBlocks};
ghost use Rattle.t3_cli.specs.Inner.Following.{CarriesOutCommand, CountsConsole, CountsDepot};

use crate::console::answer;
use crate::images::image_lines::{check_line, image_lines};
use crate::images::no_image::NoImage;
use crate::images::read::{count_image, read_image};
use crate::status::Status;
use std::alloc::Global;
use t3_io::{Console, Depot};

/// Shows how many blocks and bytes a file's image has.
pub(super) fn check_image<D: Depot, C: Console>(
    alloc: Global,
    image: &str,
    depot: &mut D,
    console: &mut C,
) -> Result<Status, NoImage>
    requires name { IsFileName image.now }
    requires depot { D.faults depot.old < 2 ^ 64 - 1 }
    requires console { C.faults console.old < 2 ^ 64 - 1 }
    ensures carries { CarriesOutCommand (Checking image.now)
        (D.files depot.old) (D.files depot.new) (C.session console.old) (C.session console.new)
        result }
    ensures depot { CountsDepot (D.faults depot.old) (D.faults depot.new) result }
    ensures console { CountsConsole (C.faults console.old) (C.faults console.new) result }
{
    let totals = count_image(alloc, image.as_bytes(), depot)?;
    Ok(answer(console, check_line(alloc, totals), Status::Done))
}

/// Shows a line for each block of a file's image, and the line of the whole.
pub(super) fn show_image<D: Depot, C: Console>(
    alloc: Global,
    image: &str,
    depot: &mut D,
    console: &mut C,
) -> Result<Status, NoImage>
    requires name { IsFileName image.now }
    requires depot { D.faults depot.old < 2 ^ 64 - 1 }
    requires console { C.faults console.old < 2 ^ 64 - 1 }
    ensures carries { CarriesOutCommand (ShowingBlocks image.now)
        (D.files depot.old) (D.files depot.new) (C.session console.old) (C.session console.new)
        result }
    ensures depot { CountsDepot (D.faults depot.old) (D.faults depot.new) result }
    ensures console { CountsConsole (C.faults console.old) (C.faults console.new) result }
{
    let read = read_image(alloc, image.as_bytes(), depot)?;
    Ok(answer(console, image_lines(alloc, &read), Status::Done))
}
