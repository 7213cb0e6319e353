//! Why a command has no image.
ghost use Rattle.std.specs.Prelude.{◌≡◌};
ghost use Rattle.t3_cli.specs.Inner.NoImage.{no_image_of};
ghost use Rattle.t3_cli.specs.declared.images.no_image.NoImage.TheVariants.{Failed};
ghost use Rattle.t3_io.specs.declared.refusal.DeviceRefusal.TheVariants.{NoMemory as Wanting};

use std::alloc::AllocError;
use t3_asm::AsmWhy;
use t3_holder::NoMemory;
use t3_image_read::{ReadRefusal, ReadWhy};
use t3_io::DeviceRefusal;

/// Why no image was read, assembled or made.
#[derive(Debug, Drop)]
pub(crate) enum NoImage {
    /// There is no such file.
    Absent,
    /// The file is no image, by this rule and at this place.
    Refused { place: u32, why: ReadWhy },
    /// The source breaks this rule at this line, or at 0 where it is too long.
    BadLine { line: u32, why: AsmWhy },
    /// The depot failed, or memory was wanting.
    Failed(DeviceRefusal),
}

impl From<DeviceRefusal> for NoImage {
    ghost from_gives = { λ refusal e. e ≡ Failed refusal };

    fn from(refusal: DeviceRefusal) -> NoImage {
        NoImage::Failed(refusal)
    }
}

impl From<ReadRefusal> for NoImage {
    ghost from_gives = { λ refusal e. e ≡ no_image_of refusal };

    fn from(refusal: ReadRefusal) -> NoImage {
        match refusal {
            ReadRefusal::At { place, why } => NoImage::Refused { place, why },
            ReadRefusal::NoMemory => NoImage::Failed(DeviceRefusal::NoMemory),
        }
    }
}

impl From<NoMemory> for NoImage {
    ghost from_gives = { λ _ e. e ≡ Failed Wanting };

    fn from(_error: NoMemory) -> NoImage {
        NoImage::Failed(DeviceRefusal::NoMemory)
    }
}

impl From<AllocError> for NoImage {
    ghost from_gives = { λ _ e. e ≡ Failed Wanting };

    fn from(_error: AllocError) -> NoImage {
        NoImage::Failed(DeviceRefusal::NoMemory)
    }
}
