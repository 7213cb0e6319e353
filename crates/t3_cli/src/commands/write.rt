//! The commands that put what is written of an image.
ghost use Rattle.std.specs.Prelude.{◌≡◌, ◌<◌, ◌-◌, ◌^◌, ℕ, List, IfOk};
ghost use Rattle.t3_holder.specs.FileName.{IsFileName};
ghost use Rattle.t3_words.specs.Command.{Asm as Assembling, Listing as ListingImage, Rewrite as Rewriting};
ghost use Rattle.t3_cli.specs.Outcome.{putting};
ghost use Rattle.t3_cli.specs.Top.{CountsFaults};
ghost use Rattle.t3_cli.specs.Inner.Following.{CarriesOutCommand, CountsConsole, CountsDepot, Follows};

use crate::commands::carry::depot_status;
use crate::console::answer;
use crate::images::no_image::NoImage;
use crate::images::put::put_text;
use crate::images::read::read_image;
use crate::images::rewrite::rewrite_image;
use crate::images::source::read_source;
use crate::lines;
use crate::status::Status;
use std::alloc::Global;
use t3_asm::list;
use t3_holder::NoMemory;
use t3_image_write::write_image;
use t3_io::{Console, Depot};

/// Puts a file's image as it is written anew, its pages under the mask where one is given.
pub(super) fn rewrite<D: Depot, C: Console>(
    alloc: Global,
    image: &str,
    out: &str,
    mask: Option<u8>,
    depot: &mut D,
    console: &mut C,
) -> Result<Status, NoImage>
    requires name { IsFileName image.now }
    requires out { IsFileName out.now }
    requires depot { D.faults depot.old < 2 ^ 64 - 1 }
    requires console { C.faults console.old < 2 ^ 64 - 1 }
    ensures carries { CarriesOutCommand (Rewriting image.now out.now mask)
        (D.files depot.old) (D.files depot.new) (C.session console.old) (C.session console.new)
        result }
    ensures depot { CountsDepot (D.faults depot.old) (D.faults depot.new) result }
    ensures console { CountsConsole (C.faults console.old) (C.faults console.new) result }
{
    let text = rewrite_image(alloc, image.as_bytes(), depot, mask)?;
    Ok(put_and_show(alloc, out, Ok(text), depot, console))
}

/// Puts the source that a file's image is listed as.
pub(super) fn list_image<D: Depot, C: Console>(
    alloc: Global,
    image: &str,
    out: &str,
    depot: &mut D,
    console: &mut C,
) -> Result<Status, NoImage>
    requires name { IsFileName image.now }
    requires out { IsFileName out.now }
    requires depot { D.faults depot.old < 2 ^ 64 - 1 }
    requires console { C.faults console.old < 2 ^ 64 - 1 }
    ensures carries { CarriesOutCommand (ListingImage image.now out.now)
        (D.files depot.old) (D.files depot.new) (C.session console.old) (C.session console.new)
        result }
    ensures depot { CountsDepot (D.faults depot.old) (D.faults depot.new) result }
    ensures console { CountsConsole (C.faults console.old) (C.faults console.new) result }
{
    let read = read_image(alloc, image.as_bytes(), depot)?;
    let text = list(alloc, &read);
    Ok(put_and_show(alloc, out, text, depot, console))
}

/// Puts the image that a source says.
pub(super) fn assemble_source<D: Depot, C: Console>(
    alloc: Global,
    source: &str,
    out: &str,
    depot: &mut D,
    console: &mut C,
) -> Result<Status, NoImage>
    requires name { IsFileName source.now }
    requires out { IsFileName out.now }
    requires depot { D.faults depot.old < 2 ^ 64 - 1 }
    requires console { C.faults console.old < 2 ^ 64 - 1 }
    ensures carries { CarriesOutCommand (Assembling source.now out.now)
        (D.files depot.old) (D.files depot.new) (C.session console.old) (C.session console.new)
        result }
    ensures depot { CountsDepot (D.faults depot.old) (D.faults depot.new) result }
    ensures console { CountsConsole (C.faults console.old) (C.faults console.new) result }
{
    let image = read_source(alloc, source.as_bytes(), depot)?;
    let text = write_image(alloc, &image);
    Ok(put_and_show(alloc, out, text, depot, console))
}

/// Puts a text, if there was memory for it, and shows how many bytes that were.
fn put_and_show<D: Depot, C: Console>(
    alloc: Global,
    out: &str,
    text: Result<Vec<u8>, NoMemory>,
    depot: &mut D,
    console: &mut C,
) -> Status
    requires out { IsFileName out.now }
    requires depot { D.faults depot.old < 2 ^ 64 - 1 }
    requires console { C.faults console.old < 2 ^ 64 - 1 }
    ensures follows { (bytes : List ℕ) → IfOk text (λ t. t.items ≡ bytes)
        → Follows (putting out.now bytes) (D.files depot.old) (D.files depot.new)
        (C.session console.old) (C.session console.new) result }
    ensures depot { CountsFaults (result ≡ Status.DepotFault)
        (D.faults depot.old) (D.faults depot.new) }
    ensures console { CountsFaults (result ≡ Status.ConsoleFault)
        (C.faults console.old) (C.faults console.new) }
{
    match put_text(out, text, depot) {
        Ok(size) => answer(console, lines::put(alloc, size), Status::Done),
        Err(refusal) => depot_status(refusal),
    }
}
