//! Reads a source's file, and assembles what it says.
ghost use Rattle.std.specs.Prelude.{◌≡◌, ◌<◌, ◌-◌, ◌^◌};
ghost use Rattle.t3_holder.specs.FileName.{IsFileName};
ghost use Rattle.t3_words.specs.Input.{SourceFile};
ghost use Rattle.t3_cli.specs.Inner.NoImage.{CountsReading};
ghost use Rattle.t3_cli.specs.Inner.Reading.{ReadsImage, IsImage, IsAssembled};

use crate::images::no_image::NoImage;
use std::alloc::Global;
use t3_asm::{AsmRefusal, AsmWhy, assemble};
use t3_asm_line::lines_few;
use t3_files::read_file;
use t3_image_read::Image;
use t3_io::{Depot, DeviceRefusal};

/// How many bytes a source has at most.
const SOURCE_LIMIT: usize = 268_435_456;

/// Reads a source from its start to its end, or to the limit, and gives the image that it says.
pub(crate) fn read_source<D: Depot>(
    alloc: Global,
    name: &[u8],
    depot: &mut D,
) -> Result<Image, NoImage>
    requires name { IsFileName name.now }
    requires faults { D.faults depot.old < 2 ^ 64 - 1 }
    ensures read { ReadsImage IsImage (SourceFile name.now) (D.files depot.old) result }
    ensures files { D.files depot.new ≡ D.files depot.old }
    ensures cause { CountsReading (D.faults depot.old) (D.faults depot.new) result }
{
    match read_file(alloc, name, depot)? {
        Some(text) => assembled(alloc, &text),
        None => Err(NoImage::Absent),
    }
}

/// The image that bytes say as a source, or their bad line.
fn assembled(alloc: Global, text: &[u8]) -> Result<Image, NoImage>
    ensures { IsAssembled text.now result }
{
    if text.len() > SOURCE_LIMIT {
        return Err(NoImage::BadLine {
            line: 0,
            why: AsmWhy::TooLong,
        });
    }
    lines_few();
    match assemble(alloc, text) {
        Ok(image) => Ok(image),
        Err(
            AsmRefusal {
                why: AsmWhy::NoMemory,
                ..
            },
        ) => Err(NoImage::Failed(DeviceRefusal::NoMemory)),
        Err(AsmRefusal { line, why }) => Err(NoImage::BadLine { line, why }),
    }
}
