//! Puts the text that a command makes.
ghost use Rattle.std.specs.Prelude.{◌≡◌, ◌<◌, ◌-◌, ◌^◌, ℕ, List, IfOk};
ghost use Rattle.t3_holder.specs.FileName.{IsFileName};
ghost use Rattle.t3_io.specs.Cause.{MovesFaults};
ghost use Rattle.t3_cli.specs.Inner.Following.{PutsSized};

use t3_holder::NoMemory;
use t3_io::{Depot, DeviceRefusal};

/// Puts a text, if there was memory for it, and gives how many bytes that were.
pub(crate) fn put_text<D: Depot>(
    out: &str,
    text: Result<Vec<u8>, NoMemory>,
    depot: &mut D,
) -> Result<usize, DeviceRefusal>
    requires out { IsFileName out.now }
    requires depot { D.faults depot.old < 2 ^ 64 - 1 }
    ensures puts { (bytes : List ℕ) → IfOk text (λ t. t.items ≡ bytes)
        → PutsSized (D.files depot.old) (D.files depot.new) out.now bytes result }
    ensures cause { MovesFaults (D.faults depot.old) (D.faults depot.new) result }
{
    let text = text?;
    depot.put(out.as_bytes(), &text)?;
    Ok(text.len())
}
