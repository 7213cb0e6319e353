//! Reads an image's file, piece by piece.
ghost use Rattle.std.specs.Prelude.{◌≡◌, ◌<◌, ◌-◌, ◌^◌, [], length, IfOk};
ghost use Rattle.t3_holder.specs.FileName.{IsFileName};
ghost use Rattle.t3_image_read.specs.ImageText.{text};
ghost use Rattle.t3_image_read.specs.Reader.{Taking};
ghost use Rattle.t3_words.specs.Input.{ImageFile};
ghost use Rattle.t3_cli.specs.Inner.NoImage.{CountsReading};
ghost use Rattle.t3_cli.specs.Inner.Reading.{ReadsImage, ReadsPieces, IsImage, IsDigested, HasTotals, IsFed, HoldsRead, taken_of};

use crate::images::no_image::NoImage;
use crate::images::sink::{NoDigest, PieceSink};
use sha2::{Digest, Sha256};
use std::alloc::Global;
use t3_files::{PIECE, READ_LIMIT, read_piece, zeroed};
use t3_image_read::{
    BlockSink, Fed, Image, ImageChecker, ImageReader, ReadRefusal, Reader, Totals,
};
use t3_io::{Depot, Got};

/// An image, and the digest of its bytes.
#[derive(Debug, Drop)]
pub(crate) struct DigestedImage {
    pub(crate) image: Image,
    pub(crate) digest: [u8; 32],
}

/// Reads a file from its start to its end, or to the limit, and gives the image that it begins with.
pub(crate) fn read_image<D: Depot>(
    alloc: Global,
    name: &[u8],
    depot: &mut D,
) -> Result<Image, NoImage>
    requires name { IsFileName name.now }
    requires faults { D.faults depot.old < 2 ^ 64 - 1 }
    ensures read { ReadsImage IsImage (ImageFile name.now) (D.files depot.old) result }
    ensures files { D.files depot.new ≡ D.files depot.old }
    ensures cause { CountsReading (D.faults depot.old) (D.faults depot.new) result }
{
    read_whole(alloc, name, depot, &mut NoDigest)
}

/// Reads a file as [`read_image`] does, and digests the bytes of the image meanwhile.
pub(crate) fn read_digested<D: Depot>(
    alloc: Global,
    name: &[u8],
    depot: &mut D,
) -> Result<DigestedImage, NoImage>
    requires name { IsFileName name.now }
    requires faults { D.faults depot.old < 2 ^ 64 - 1 }
    ensures read { ReadsImage IsDigested (ImageFile name.now) (D.files depot.old) result }
    ensures files { D.files depot.new ≡ D.files depot.old }
    ensures cause { CountsReading (D.faults depot.old) (D.faults depot.new) result }
{
    let mut hasher = Sha256::new();
    let image = read_whole(alloc, name, depot, &mut hasher)?;
    Ok(DigestedImage {
        image,
        digest: hasher.finalize(),
    })
}

/// Reads a file as [`read_image`] does, but counts what the image has that it begins with, and keeps none of it.
pub(crate) fn count_image<D: Depot>(
    alloc: Global,
    name: &[u8],
    depot: &mut D,
) -> Result<Totals, NoImage>
    requires name { IsFileName name.now }
    requires faults { D.faults depot.old < 2 ^ 64 - 1 }
    ensures read { ReadsImage HasTotals (ImageFile name.now) (D.files depot.old) result }
    ensures files { D.files depot.new ≡ D.files depot.old }
    ensures cause { CountsReading (D.faults depot.old) (D.faults depot.new) result }
{
    let mut reader = ImageChecker::new(alloc);
    let mut buf = zeroed(alloc, PIECE)?;
    read_pieces(name, depot, &mut reader, &mut NoDigest, &mut buf)?;
    Ok(reader.totals()?)
}

/// Reads a file, and gives the image that it begins with. The sink gets the bytes of that image.
fn read_whole<D: Depot, P: PieceSink>(
    alloc: Global,
    name: &[u8],
    depot: &mut D,
    sink: &mut P,
) -> Result<Image, NoImage>
    requires name { IsFileName name.now }
    requires faults { D.faults depot.old < 2 ^ 64 - 1 }
    requires fresh { P.has_taken sink.old [] }
    ensures read { ReadsImage IsImage (ImageFile name.now) (D.files depot.old) result }
    ensures taken { IfOk result (λ image. P.has_taken sink.new (text image)) }
    ensures files { D.files depot.new ≡ D.files depot.old }
    ensures cause { CountsReading (D.faults depot.old) (D.faults depot.new) result }
{
    let mut reader = ImageReader::new(alloc);
    let mut buf = zeroed(alloc, PIECE)?;
    read_pieces(name, depot, &mut reader, sink, &mut buf)?;
    Ok(reader.finish()?)
}

/// Feeds the pieces of a file, each at most as long as the buffer. A reader that has its image, or has
/// refused, takes nothing of those that follow. The sink gets the bytes that the reader takes.
pub(super) fn read_pieces<D: Depot, S: BlockSink, P: PieceSink>(
    name: &[u8],
    depot: &mut D,
    reader: &mut Reader<S>,
    sink: &mut P,
    buf: &mut [u8],
) -> Result<(), NoImage>
    requires name { IsFileName name.now }
    requires faults { D.faults depot.old < 2 ^ 64 - 1 }
    requires start { reader.old ≡ Taking [] }
    requires fresh { P.has_taken sink.old [] }
    requires room { 0 < length buf.old }
    ensures read { ReadsPieces (D.files depot.old) name.now reader.new result }
    ensures taken { IfOk result (λ _. HoldsRead P.has_taken reader.new sink.new) }
    ensures files { D.files depot.new ≡ D.files depot.old }
    ensures cause { CountsReading (D.faults depot.old) (D.faults depot.new) result }
{
    let mut at = 0;
    while at < READ_LIMIT {
        let want = buf.len().min((READ_LIMIT - at) as usize);
        match read_piece(depot, name, at, buf, want)? {
            Got::Absent => return Err(NoImage::Absent),
            Got::Count(0) => return Ok(()),
            Got::Count(count) => {
                feed(reader, sink, &buf[..count]);
                at += count as u64;
            }
        }
    }
    Ok(())
}

/// Feeds a piece. What the reader answers is told again when it is done with.
fn feed<S: BlockSink, P: PieceSink>(reader: &mut Reader<S>, sink: &mut P, piece: &[u8])
    ensures fed { IsFed reader.old piece.now reader.new }
    ensures taken { HoldsRead P.has_taken reader.old sink.old
        → HoldsRead P.has_taken reader.new sink.new }
{
    let answer = reader.feed(piece);
    sink.take(taken(piece, answer));
}

/// The bytes of a piece that a reader took.
fn taken(piece: &[u8], answer: Result<Fed, ReadRefusal>) -> &[u8]
    ensures { result.now ≡ taken_of piece.now answer }
{
    match answer {
        Ok(Fed::More) => piece,
        Ok(Fed::Done { used }) => piece.get(..used).unwrap_or(piece),
        Err(_) => &[],
    }
}
