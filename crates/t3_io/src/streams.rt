//! The standard streams of the process.
ghost use Rattle.std.specs.Prelude.{◌≡◌, length, IfOk};
ghost use Rattle.t3_io.specs.Session.{IsProgress};

use crate::console::Console;
use crate::folder::{counted, read_some};
use crate::refusal::DeviceRefusal;
use std::io::{self, ErrorKind};
use std::marker::Model;

/// Standard input and standard output. Contracts see the count of faults, and no content. Making
/// one takes no memory. A write that takes nothing of a piece counts as a fault.
#[derive(Drop)]
pub struct StdConsole<'r, R: Input + Print> {
    rt: &'r R,
    faults: u64,
}

impl<'r, R: Input + Print> Model for StdConsole<'r, R> {
    ghost use Rattle.std.specs.Prelude.{ℕ};

    ghost Value = { ℕ };

    ghost view = { λ c. c.faults };
}

impl<'r, R: Input + Print> StdConsole<'r, R> {
    /// The streams of the process, with no fault so far.
    pub fn new(rt: &'r R) -> StdConsole<'r, R>
        ensures { result ≡ 0 }
    {
        StdConsole { rt, faults: 0 }
    }
}

impl<'r, R: Input + Print> Console for StdConsole<'r, R> {
    ghost use Rattle.std.specs.Prelude.{None};

    ghost session = { λ _. None };

    ghost faults = { λ c. c };

    /// One read of the process's input, which takes no byte that it doesn't give.
    fn read(&mut self, buf: &mut [u8]) -> Result<usize, DeviceRefusal> {
        let answer = read_some(&mut self.rt.reader(), buf);
        counted(&mut self.faults, answer)
    }

    fn write(&mut self, piece: &[u8]) -> Result<usize, DeviceRefusal> {
        let answer = write_some(self.rt, piece);
        counted(&mut self.faults, answer)
    }
}

/// One write, begun again where a signal interrupts it.
fn write_some<R: Print>(rt: &R, piece: &[u8]) -> io::Result<usize>
    ensures { IfOk result (IsProgress (length piece.now)) }
{
    for _ in 0..u64::MAX {
        match rt.write_some(piece) {
            Err(error) if error.kind() == ErrorKind::Interrupted => {}
            Ok(0) if !piece.is_empty() => return Err(ErrorKind::WriteZero.into()),
            answer => return answer,
        }
    }
    Err(ErrorKind::Interrupted.into())
}
