ghost use Rattle.std.specs.Prelude.{◌-◌, ◌^◌, ◌<◌, ◌≤◌, ℕ, Option, length, IfOk};
ghost use Rattle.t3_io.specs.Cause.{MovesFaults};
ghost use Rattle.t3_io.specs.Session.{Session, ShowsPiece, TakesPiece, IsProgress};

use crate::refusal::DeviceRefusal;

/// A stream of input and a stream of output, as of a terminal.
///
/// No call is made once 2^64 - 1 faults have happened.
pub trait Console {
    /// The input that is left, all that was shown, and of each read that was answered, oldest first, how
    /// many bytes either had before it. A device tells all three or none.
    ghost session: { Self → Option Session };

    /// How many faults have happened. It never falls.
    ghost faults: { Self → ℕ };

    /// Takes bytes of the input, which are then the first bytes of `buf`, so many as the count says.
    ///
    /// The count is at most the length of `buf`, and for a `buf` that isn't empty it is 0 only at the end
    /// of the input. The bytes of `buf` past the count may be anything afterwards, and after a refusal all
    /// of them. A refusal takes nothing, and isn't among the reads that were answered. What was shown
    /// stays.
    fn read(&mut self, buf: &mut [u8]) -> Result<usize, DeviceRefusal>
        requires { faults self.old < 2 ^ 64 - 1 }
        ensures taken { TakesPiece (session self.old) (session self.new) buf.new result }
        ensures count { IfOk result (λ count. count ≤ length buf.old) }
        ensures cause { MovesFaults (faults self.old) (faults self.new) result };

    /// Shows the first bytes of a piece, so many as the count says.
    ///
    /// The count is at most the piece's length, and at least 1 for a piece that isn't empty. A refusal
    /// shows nothing. The input stays, and so do the reads that were answered.
    fn write(&mut self, piece: &[u8]) -> Result<usize, DeviceRefusal>
        requires { faults self.old < 2 ^ 64 - 1 }
        ensures shown { ShowsPiece (session self.old) (session self.new) piece.now result }
        ensures count { IfOk result (IsProgress (length piece.now)) }
        ensures cause { MovesFaults (faults self.old) (faults self.new) result };
}
