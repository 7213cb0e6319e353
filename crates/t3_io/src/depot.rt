ghost use Rattle.std.specs.Prelude.{◌≡◌, ◌-◌, ◌^◌, ◌<◌, ℕ, Option, length, IfOk};
ghost use Rattle.t3_holder.specs.FileName.{IsFileName};
ghost use Rattle.t3_io.specs.Files.{Files};
ghost use Rattle.t3_io.specs.Cause.{MovesFaults};
ghost use Rattle.t3_io.specs.Reading.{Reads, IsAtMost};
ghost use Rattle.t3_io.specs.Putting.{PutsFile};

use crate::refusal::DeviceRefusal;

/// What a read of a file gave.
#[derive(Clone, Copy, Debug, PartialEq, Eq, Hash)]
pub enum Got {
    /// There is no file of that name.
    Absent,
    /// So many bytes of the file are now the first bytes of the buffer.
    Count(usize),
}

/// Files under names, as of a folder.
///
/// A name is 1 to 64 ASCII letters, digits, `.`, `_` and `-`, and begins with neither `.` nor `-`. No
/// call is made once 2^64 - 1 faults have happened.
pub trait Depot {
    /// The files by their names, where the device tells them.
    ghost files: { Self → Option Files };

    /// How many faults have happened. It never falls.
    ghost faults: { Self → ℕ };

    /// Reads bytes of a file, from the place `at` on, into the first bytes of `buf`.
    ///
    /// `Absent` exactly where the file isn't there. Else the count is at most the length of `buf`, and
    /// for a `buf` that isn't empty it is 0 exactly where the file ends at or before `at`. The bytes of
    /// `buf` past the count may be anything afterwards. No file changes.
    fn read_at(&mut self, name: &[u8], at: u64, buf: &mut [u8]) -> Result<Got, DeviceRefusal>
        requires name { IsFileName name.now }
        requires faults { faults self.old < 2 ^ 64 - 1 }
        ensures read { Reads (files self.old) name.now at buf.new result }
        ensures count { IfOk result (IsAtMost (length buf.old)) }
        ensures files { files self.new ≡ files self.old }
        ensures cause { MovesFaults (faults self.old) (faults self.new) result };

    /// Sets one file to these bytes, and changes no other.
    ///
    /// After `Fault` the file is as before, or absent, or has a prefix of the bytes. After `NoMemory` it
    /// is as before. The other files stay in every case.
    fn put(&mut self, name: &[u8], bytes: &[u8]) -> Result<(), DeviceRefusal>
        requires name { IsFileName name.now }
        requires faults { faults self.old < 2 ^ 64 - 1 }
        ensures put { PutsFile (files self.old) (files self.new) name.now bytes.now result }
        ensures cause { MovesFaults (faults self.old) (faults self.new) result };
}
