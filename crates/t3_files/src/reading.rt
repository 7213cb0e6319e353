//! Reads files piece by piece.
ghost use Rattle.std.specs.List.{All};
ghost use Rattle.std.specs.Prelude.{◌≡◌, ◌≤◌, ◌<◌, ◌-◌, ◌^◌, [], length, IfOk};
ghost use Rattle.t3_holder.specs.FileName.{IsFileName};
ghost use Rattle.t3_io.specs.Cause.{MovesFaults};
ghost use Rattle.t3_io.specs.Reading.{IsAtMost};
ghost use Rattle.t3_files.specs.Reading.{ReadsFile, GivesPiece};

use std::alloc::{AllocError, Global};
use t3_io::{Depot, DeviceRefusal, Got};

/// A file is read up to so many bytes: one more than an image or a saved state has.
pub const READ_LIMIT: u64 = 268_435_457;

/// How many bytes are asked for at once.
pub const PIECE: usize = 1 << 18;

/// Reads a file from its start to its end, or to the limit, and gives its bytes. None where there is no such file.
pub fn read_file<D: Depot>(
    alloc: Global,
    name: &[u8],
    depot: &mut D,
) -> Result<Option<Vec<u8>>, DeviceRefusal>
    requires name { IsFileName name.now }
    requires faults { D.faults depot.old < 2 ^ 64 - 1 }
    ensures read { ReadsFile (D.files depot.old) name.now result }
    ensures files { D.files depot.new ≡ D.files depot.old }
    ensures cause { MovesFaults (D.faults depot.old) (D.faults depot.new) result }
{
    let mut buf = zeroed(alloc, PIECE)?;
    read_into(name, depot, Vec::new(alloc), &mut buf)
}

/// Reads a file piece by piece, each at most as long as the buffer, into a text.
fn read_into<D: Depot>(
    name: &[u8],
    depot: &mut D,
    mut text: Vec<u8>,
    buf: &mut [u8],
) -> Result<Option<Vec<u8>>, DeviceRefusal>
    requires name { IsFileName name.now }
    requires faults { D.faults depot.old < 2 ^ 64 - 1 }
    requires fresh { text.items ≡ [] }
    requires room { 0 < length buf.old }
    ensures read { ReadsFile (D.files depot.old) name.now result }
    ensures files { D.files depot.new ≡ D.files depot.old }
    ensures cause { MovesFaults (D.faults depot.old) (D.faults depot.new) result }
{
    let mut at = 0;
    while at < READ_LIMIT {
        let want = buf.len().min((READ_LIMIT - at) as usize);
        match read_piece(depot, name, at, buf, want)? {
            Got::Absent => return Ok(None),
            Got::Count(0) => return Ok(Some(text)),
            Got::Count(count) => {
                text.extend_from_slice(&buf[..count])?;
                at += count as u64;
            }
        }
    }
    Ok(Some(text))
}

/// Reads at most so many bytes into the first bytes of the buffer.
pub fn read_piece<D: Depot>(
    depot: &mut D,
    name: &[u8],
    at: u64,
    buf: &mut [u8],
    want: usize,
) -> Result<Got, DeviceRefusal>
    requires name { IsFileName name.now }
    requires faults { D.faults depot.old < 2 ^ 64 - 1 }
    requires some { 0 < want }
    requires room { want ≤ length buf.old }
    ensures piece { GivesPiece (D.files depot.old) name.now at want buf.new result }
    ensures count { IfOk result (IsAtMost want) }
    ensures files { D.files depot.new ≡ D.files depot.old }
    ensures cause { MovesFaults (D.faults depot.old) (D.faults depot.new) result }
{
    depot.read_at(name, at, &mut buf[..want])
}

/// So many bytes of 0.
pub fn zeroed(alloc: Global, size: usize) -> Result<Vec<u8>, AllocError>
    ensures size { IfOk result (λ buf. length buf.items ≡ size) }
    ensures zeros { IfOk result (λ buf. All (λ byte. byte ≡ 0) buf.items) }
{
    vec![in alloc; 0; size]
}
