//! Writes an image anew while it is read.
ghost use Rattle.std.specs.Prelude.{◌≡◌, ◌<◌, ◌-◌, ◌^◌};
ghost use Rattle.t3_holder.specs.FileName.{IsFileName};
ghost use Rattle.t3_words.specs.Input.{ImageFile};
ghost use Rattle.t3_cli.specs.Inner.NoImage.{CountsReading};
ghost use Rattle.t3_cli.specs.Inner.Reading.{ReadsImage, IsRewritten};

use crate::images::no_image::NoImage;
use crate::images::read::read_pieces;
use crate::images::sink::NoDigest;
use std::alloc::Global;
use std::marker::Brand;
use t3_files::{PIECE, zeroed};
use t3_image_read::Reader;
use t3_image_write::{Masking, Rewriter, rewritten_text};
use t3_io::Depot;

/// Reads a file as [`read_image`](super::read::read_image) does, but gives what is written of the image that
/// it begins with, its pages under the mask where one is given.
pub(crate) fn rewrite_image<D: Depot>(
    alloc: Global,
    name: &[u8],
    depot: &mut D,
    mask: Option<u8>,
) -> Result<Vec<u8>, NoImage>
    requires name { IsFileName name.now }
    requires faults { D.faults depot.old < 2 ^ 64 - 1 }
    ensures read { ReadsImage (IsRewritten mask) (ImageFile name.now) (D.files depot.old) result }
    ensures files { D.files depot.new ≡ D.files depot.old }
    ensures cause { CountsReading (D.faults depot.old) (D.faults depot.new) result }
{
    rewrite_under::<D, Brand>(alloc, name, depot, mask)
}

fn rewrite_under<D: Depot, M: Masking>(
    alloc: Global,
    name: &[u8],
    depot: &mut D,
    mask: Option<u8>,
) -> Result<Vec<u8>, NoImage>
    requires mask { mask ≡ M.mask }
    requires name { IsFileName name.now }
    requires faults { D.faults depot.old < 2 ^ 64 - 1 }
    ensures read { ReadsImage (IsRewritten mask) (ImageFile name.now) (D.files depot.old) result }
    ensures files { D.files depot.new ≡ D.files depot.old }
    ensures cause { CountsReading (D.faults depot.old) (D.faults depot.new) result }
{
    let mut reader = Reader::with_sink(alloc, Rewriter::<M>::new(alloc, mask)?);
    let mut buf = zeroed(alloc, PIECE)?;
    read_pieces(name, depot, &mut reader, &mut NoDigest, &mut buf)?;
    let parts = reader.into_parts()?;
    Ok(rewritten_text(alloc, parts)?)
}
