//! Devices that keep all in memory and fault at the calls that they are told to fail at.
ghost use Rattle.std.specs.Prelude.{◌≡◌, ◌-◌, ◌^◌, ◌<◌, ◌≤◌, Some, length, IfOk, OnOk, OnErr};
ghost use Rattle.std.specs.Option.{option_copied};
ghost use Rattle.std.specs.FinMap as map;
ghost use Rattle.t3_holder.specs.FileName.{IsFileName};
ghost use Rattle.t3_io.specs.Cause.{MovesFaults};
ghost use Rattle.t3_io.specs.Reading.{Reads, IsAtMost};
ghost use Rattle.t3_io.specs.Putting.{PutsFile};
ghost use Rattle.t3_io.specs.Session.{new_session, ShowsPiece, TakesPiece, IsProgress};
ghost use Rattle.t3_io.specs.Failing.{no_calls, Counts, LeavesHalf};

use crate::console::Console;
use crate::contents::{KeptFiles, KeptSession};
use crate::depot::{Depot, Got};
use crate::refusal::DeviceRefusal;
use crate::schedule::Schedule;
use std::alloc::Global;
use std::marker::Model;
use t3_holder::NoMemory;

/// Files in memory, whose `read_at` and `put` fault at chosen calls. Both are counted together, from 0,
/// whatever they answer. Contracts see the files, which calls to come are to fail, and how many have failed.
#[derive(Drop)]
pub struct MemoryDepot {
    files: KeptFiles,
    calls: Schedule,
}

impl Model for MemoryDepot {
    ghost use Rattle.t3_io.specs.Failing.{FailingDepot, depot_code};

    ghost Value = { FailingDepot };

    ghost coded = { depot_code };

    ghost view = { λ d. record { files = d.files; calls = d.calls } };
}

impl MemoryDepot {
    /// A depot without files, whose calls of these numbers are to fail, in whatever order they stand.
    pub fn new(alloc: Global, failing: &[u32]) -> Result<MemoryDepot, NoMemory>
        ensures { IfOk result
            (λ depot. depot ≡ record { files = map.empty; calls = no_calls failing.now }) }
    {
        Ok(MemoryDepot {
            files: KeptFiles::new(alloc),
            calls: Schedule::new(alloc, failing)?,
        })
    }

    /// Sets one file to these bytes, and changes no other. It never faults, and isn't counted among the
    /// calls. After a refusal nothing has changed.
    pub fn keep(&mut self, name: &[u8], bytes: &[u8]) -> Result<(), NoMemory>
        requires { IsFileName name.now }
        ensures ok { OnOk result
            (self.new ≡ record self.old { files = map.insert self.old.files name.now bytes.now }) }
        ensures err { OnErr result (self.new ≡ self.old) }
    {
        self.files.keep(name, bytes)
    }

    /// The bytes of a file, and `None` exactly where there is no file of that name.
    pub fn file(&self, name: &[u8]) -> Option<&[u8]>
        ensures { option_copied result ≡ map.get self.now.files name.now }
    {
        self.files.file(name)
    }
}

impl Depot for MemoryDepot {
    ghost files = { λ d. Some d.files };

    ghost faults = { λ d. d.calls.faults };

    fn read_at(&mut self, name: &[u8], at: u64, buf: &mut [u8]) -> Result<Got, DeviceRefusal>
        requires name { IsFileName name.now }
        requires faults { self.old.calls.faults < 2 ^ 64 - 1 }
        ensures read { Reads (Some self.old.files) name.now at buf.new result }
        ensures count { IfOk result (IsAtMost (length buf.old)) }
        ensures files { self.new.files ≡ self.old.files }
        ensures cause { MovesFaults self.old.calls.faults self.new.calls.faults result }
        ensures counts { Counts self.old.calls self.new.calls result }
    {
        if self.calls.next_fails() {
            return Err(DeviceRefusal::Fault);
        }
        Ok(self.files.read_at(name, at, buf))
    }

    /// Where it is to fail, the file has the first half of the bytes afterwards, so that a caller that
    /// takes a fault for a success is found out, unless there are no bytes. Where that half finds no
    /// memory nothing changes.
    fn put(&mut self, name: &[u8], bytes: &[u8]) -> Result<(), DeviceRefusal>
        requires name { IsFileName name.now }
        requires faults { self.old.calls.faults < 2 ^ 64 - 1 }
        ensures put { PutsFile (Some self.old.files) (Some self.new.files) name.now bytes.now result }
        ensures cause { MovesFaults self.old.calls.faults self.new.calls.faults result }
        ensures counts { Counts self.old.calls self.new.calls result }
        ensures half { LeavesHalf self.old.files self.new.files name.now bytes.now result }
    {
        if self.calls.next_fails() {
            let _ = self.files.keep(name, &bytes[..bytes.len() / 2]);
            return Err(DeviceRefusal::Fault);
        }
        self.files.keep(name, bytes)?;
        Ok(())
    }
}

/// Input and output in memory, whose `read` and `write` fault at chosen calls. Both are counted together,
/// from 0, whatever they answer. Contracts see the session, which calls to come are to fail, and how many
/// have failed.
#[derive(Drop)]
pub struct MemoryConsole {
    kept: KeptSession,
    calls: Schedule,
}

impl Model for MemoryConsole {
    ghost use Rattle.t3_io.specs.Failing.{FailingConsole};

    ghost Value = { FailingConsole };

    ghost view = { λ c. record { session = c.kept; calls = c.calls } };
}

impl MemoryConsole {
    /// A console with this input, on which nothing was shown. Its calls of these numbers are to fail, in
    /// whatever order they stand.
    pub fn new(alloc: Global, input: &[u8], failing: &[u32]) -> Result<MemoryConsole, NoMemory>
        ensures { IfOk result (λ console. console
            ≡ record { session = new_session input.now; calls = no_calls failing.now }) }
    {
        Ok(MemoryConsole {
            kept: KeptSession::new(alloc, input)?,
            calls: Schedule::new(alloc, failing)?,
        })
    }

    /// All that was shown.
    pub fn shown(&self) -> &[u8]
        ensures { result.now ≡ self.now.session.shown }
    {
        self.kept.shown()
    }
}

impl Console for MemoryConsole {
    ghost session = { λ c. Some c.session };

    ghost faults = { λ c. c.calls.faults };

    fn read(&mut self, buf: &mut [u8]) -> Result<usize, DeviceRefusal>
        requires { self.old.calls.faults < 2 ^ 64 - 1 }
        ensures taken { TakesPiece (Some self.old.session) (Some self.new.session) buf.new result }
        ensures count { IfOk result (λ count. count ≤ length buf.old) }
        ensures cause { MovesFaults self.old.calls.faults self.new.calls.faults result }
        ensures counts { Counts self.old.calls self.new.calls result }
    {
        if self.calls.next_fails() {
            return Err(DeviceRefusal::Fault);
        }
        Ok(self.kept.take(buf)?)
    }

    fn write(&mut self, piece: &[u8]) -> Result<usize, DeviceRefusal>
        requires { self.old.calls.faults < 2 ^ 64 - 1 }
        ensures shown { ShowsPiece (Some self.old.session) (Some self.new.session) piece.now result }
        ensures count { IfOk result (IsProgress (length piece.now)) }
        ensures cause { MovesFaults self.old.calls.faults self.new.calls.faults result }
        ensures counts { Counts self.old.calls self.new.calls result }
    {
        if self.calls.next_fails() {
            return Err(DeviceRefusal::Fault);
        }
        self.kept.show(piece)?;
        Ok(piece.len())
    }
}
