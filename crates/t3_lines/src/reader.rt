//! The reader as its callers see it.
ghost use Rattle.std.specs.Prelude.{◌≡◌, ◌-◌, ◌^◌, ◌<◌, ◌≤◌, ℕ, List, Option, Some, length, IfOk};
ghost use Rattle.t3_io.specs.Cause.{MovesFaults};
ghost use Rattle.t3_lines.specs.Lines.{limit, wanted_line};
ghost use Rattle.t3_io.specs.Session.{Session};
ghost use Rattle.t3_lines.specs.Reader.{ReaderValue, new_reader, IsInputOf, IsReading, Takes, AsksFor, CountsLine, IsText, IsAtEnd};

use crate::line::{WantedLine, readable, without_return};
use crate::taking::take_line_end;
use std::alloc::Global;
use std::marker::Model;
use t3_io::{Console, DeviceRefusal};

/// Gives the lines of a console's input, one at a time.
///
/// Contracts see all the bytes that it has taken, how many lines it has given, and whether it has come to
/// the input's end. It keeps what it has taken: 16,777,216 bytes at most.
#[derive(Drop)]
pub struct LineReader {
    alloc: Global,
    taken: Vec<u8>,
    /// Where the next line begins.
    start: usize,
    given: usize,
    is_ended: bool,
}

impl Model for LineReader {
    ghost use Rattle.t3_lines.specs.Reader.{ReaderValue};
    ghost use Rattle.t3_lines.specs.Inner.Sound.{IsSound};

    ghost Value = { ReaderValue };

    ghost view = { λ r. record { taken = r.taken.items; given = r.given; is_ended = r.is_ended } };

    ghost invariant = { λ r. IsSound r.taken.items r.start r.given r.is_ended };
}

impl LineReader {
    /// A reader that has taken nothing. It takes no memory.
    pub fn new(alloc: Global) -> LineReader
        ensures { result ≡ new_reader }
    {
        LineReader {
            alloc,
            taken: Vec::new(alloc),
            start: 0,
            given: 0,
            is_ended: false,
        }
    }

    /// Gives the next line, and takes bytes of the console's input only while those that were taken don't
    /// end it.
    ///
    /// Once a read has given nothing the console isn't read again. After a refusal no line is given, and
    /// what was taken up to it is kept, so that the call can be made again.
    pub fn next_line<C: Console>(&mut self, console: &mut C) -> Result<WantedLine, DeviceRefusal>
        requires { C.faults console.old < 2 ^ 64 - 1 }
        ensures line { IfOk result (λ line. (input : List ℕ) → IsInputOf self.new input
            → line ≡ wanted_line input self.old.given) }
        ensures text { IfOk result IsText }
        ensures at_end { IfOk result (IsAtEnd self.new) }
        ensures given { CountsLine self.old.given self.new.given result }
        ensures takes { Takes self.old self.new (C.session console.old) (C.session console.new) }
        ensures limit { length self.new.taken ≤ limit }
        ensures cause { MovesFaults (C.faults console.old) (C.faults console.new) result }
    {
        let end = take_line_end(&mut self.taken, self.start, &mut self.is_ended, console)?;
        let (line, next) = match end {
            Some(end) => (without_return(&self.taken[self.start..end]), end + 1),
            None if !self.is_ended => return Ok(WantedLine::PastLimit),
            None if self.start == self.taken.len() => return Ok(WantedLine::EndOfInput),
            None => (&self.taken[self.start..], self.taken.len()),
        };
        let line = readable(self.alloc, line)?;
        self.start = next;
        self.given += 1;
        Ok(WantedLine::Line(line))
    }
}

/// All calls of a reader give the lines of one input: an input whose first bytes the reader has taken after
/// a call is one whose first bytes it had taken before. Where the console tells what it has left, that input
/// is what was taken, and then what is left; and each read of it was made while the line was wanted that comes
/// after those that were given, and before what was taken ended it.
pub fn one_input()
    ensures earlier { (old new : ReaderValue) (before after : Option Session) (input : List ℕ)
        → Takes old new before after → IsInputOf new input → IsInputOf old input }
    ensures reading { (old new : ReaderValue) (before after : Session) (input : List ℕ)
        → Takes old new (Some before) (Some after) → IsReading input old before
        → IsReading input new after }
    ensures asked { (old new : ReaderValue) (before after : Session) (input : List ℕ)
        → Takes old new (Some before) (Some after) → IsReading input old before
        → AsksFor input old.given before after }
    ensures told { (reader : ReaderValue) (session : Session) (input : List ℕ)
        → IsReading input reader session → IsInputOf reader input }
{}
