//! The objects that stand in an image, all blocks taken as one list.
ghost use Rattle.std.specs.Prelude.{◌≡◌, ◌==◌, ◌++◌, ◌<◌, ◌^◌, IfOk, OnOk, map};
ghost use Rattle.std.specs.Int.{bit_at};
ghost use Rattle.t3_load.specs.Statics.{statics_in, static_in};
ghost use Rattle.t3_load.specs.Inner.Objects.{static_of};

use std::alloc::Global;
use t3_blocks::{Block, Static};
use t3_holder::NoMemory;
use t3_image_read::PlacedBlock;

/// An object as it stands in an image.
#[derive(Clone, Copy, Debug)]
pub(crate) struct StaticObject<'a> {
    pub(crate) number: u32,
    /// The index of its metaclass in the image's table.
    pub(crate) metaclass: u16,
    pub(crate) transient: bool,
    pub(crate) bytes: &'a [u8],
}

/// The objects of all blocks, in order.
pub(crate) fn statics(
    alloc: Global,
    blocks: &[PlacedBlock],
) -> Result<Vec<StaticObject<'_>>, NoMemory>
    ensures { IfOk result (λ statics. map static_of statics.items ≡ statics_in blocks.now) }
{
    let mut statics = Vec::new(alloc);
    for placed in blocks {
        if let Block::Objects {
            metaclass,
            flags,
            objects,
        } = &placed.block
        {
            append(&mut statics, *metaclass, *flags, &objects.0)?;
        }
    }
    Ok(statics)
}

/// Appends the objects of a block.
fn append<'a>(
    statics: &mut Vec<StaticObject<'a>>,
    metaclass: u16,
    flags: u16,
    objects: &'a [Static],
) -> Result<(), NoMemory>
    ensures { OnOk result (map static_of statics.new.items
        ≡ map static_of statics.old.items ++ map (static_in metaclass flags) objects.now) }
{
    for object in objects {
        statics.push(StaticObject {
            number: object.number,
            metaclass,
            transient: is_transient(flags),
            bytes: &object.bytes.0,
        })?;
    }
    Ok(())
}

/// Whether the objects of a block of these flags are transient.
fn is_transient(flags: u16) -> bool
    ensures { result ≡ (bit_at flags 1 == 1) }
{
    flags >> 1 & 1 == 1
}
