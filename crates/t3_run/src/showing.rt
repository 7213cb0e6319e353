//! Shows text on a console.
ghost use Rattle.std.specs.Prelude.{◌<◌, ◌-◌, ◌^◌};
ghost use Rattle.t3_io.specs.Cause.{MovesFaults};
ghost use Rattle.t3_run.specs.Showing.{ShowsAll};

use t3_io::{Console, DeviceRefusal};

/// Shows a text whole, piece by piece as the console takes it. After a refusal a prefix of it was shown.
pub fn show<C: Console>(console: &mut C, text: &[u8]) -> Result<(), DeviceRefusal>
    requires { C.faults console.old < 2 ^ 64 - 1 }
    ensures shown { ShowsAll (C.session console.old) (C.session console.new) text.now result }
    ensures cause { MovesFaults (C.faults console.old) (C.faults console.new) result }
{
    let mut at = 0;
    while at < text.len() {
        at += console.write(&text[at..])?;
    }
    Ok(())
}
