//! The image of a drill.
ghost use Rattle.std.specs.Prelude.{◌≡◌, ◌≤◌, IfOk};
ghost use Rattle.t3_drill.specs.Drill.{drill_image as drill_image_of};

use crate::code::code;
use crate::front::front;
use crate::pages::{append_pages, page_count};
use std::alloc::Global;
use t3_holder::NoMemory;
use t3_image_read::{Head, Image, Placed};

/// The image of the drill of a number, which is valid.
pub fn drill_image(alloc: Global, number: u8) -> Result<Image, NoMemory>
    requires { number ≤ 200 }
    ensures { IfOk result (λ image. image ≡ drill_image_of number) }
{
    let code = code(alloc, number)?;
    let mut blocks = front(alloc, page_count(&code))?;
    append_pages(alloc, &code, &mut blocks)?;
    Ok(Image {
        head: Head {
            reserved: [0; 32],
            stamp: [b' '; 24],
        },
        blocks: Placed(blocks),
        eof_flags: 0,
    })
}
