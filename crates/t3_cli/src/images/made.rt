//! Makes the image of a drill.
ghost use Rattle.std.specs.Prelude.{◌≤◌, IfOk};
ghost use Rattle.t3_drill.specs.Drill.{drill_image as image_of_drill};
ghost use Rattle.t3_cli.specs.Inner.Reading.{IsDigested};

use crate::images::read::DigestedImage;
use sha2::{Digest, Sha256};
use std::alloc::Global;
use t3_drill::drill_image;
use t3_holder::NoMemory;
use t3_image_write::write_image;

/// The image that is made for a number, with the digest of its bytes.
pub(crate) fn made_image(alloc: Global, number: u8) -> Result<DigestedImage, NoMemory>
    requires { number ≤ 200 }
    ensures { IfOk result (IsDigested (image_of_drill number)) }
{
    let image = drill_image(alloc, number)?;
    let mut hasher = Sha256::new();
    hasher.update(&write_image(alloc, &image)?);
    Ok(DigestedImage {
        image,
        digest: hasher.finalize(),
    })
}
