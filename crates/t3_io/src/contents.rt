//! What the devices in memory keep: files, or a session.
ghost use Rattle.std.specs.Prelude.{◌≡◌, ◌≤◌, Some, length, IfOk, OnErr, OnOk};
ghost use Rattle.std.specs.Option.{option_copied};
ghost use Rattle.std.specs.FinMap as map;
ghost use Rattle.t3_io.specs.Reading.{Copies, ReadsFile, IsAtMost};
ghost use Rattle.t3_io.specs.Session.{new_session, after_showing, TakesInput};

use crate::depot::Got;
use std::alloc::Global;
use std::collections::BTreeMap;
use std::marker::Model;
use t3_holder::NoMemory;

/// Files in memory, which contracts see as the map from names to bytes.
#[derive(Drop)]
pub(crate) struct KeptFiles {
    alloc: Global,
    files: BTreeMap<Vec<u8>, Vec<u8>>,
}

impl Model for KeptFiles {
    ghost use Rattle.std.specs.Coded.{coded_ℕ, coded_list};
    ghost use Rattle.std.specs.FinMap as map;
    ghost use Rattle.t3_io.specs.Files.{Files};
    ghost use Rattle.t3_io.specs.Inner.Kept.{kept_files};

    ghost Value = { Files };

    ghost coded = { map.code (coded_list coded_ℕ) (coded_list coded_ℕ) };

    ghost view = { λ d. kept_files d.files };
}

impl KeptFiles {
    pub(crate) fn new(alloc: Global) -> KeptFiles
        ensures { result ≡ map.empty }
    {
        KeptFiles {
            alloc,
            files: BTreeMap::new(alloc),
        }
    }

    pub(crate) fn keep(&mut self, name: &[u8], bytes: &[u8]) -> Result<(), NoMemory>
        ensures ok { OnOk result (self.new ≡ map.insert self.old name.now bytes.now) }
        ensures err { OnErr result (self.new ≡ self.old) }
    {
        let name = Vec::from_slice(self.alloc, name)?;
        let bytes = Vec::from_slice(self.alloc, bytes)?;
        self.files.insert(name, bytes)?;
        Ok(())
    }

    pub(crate) fn file(&self, name: &[u8]) -> Option<&[u8]>
        ensures { option_copied result ≡ map.get self.now name.now }
    {
        match self.files.get(name) {
            Some(bytes) => Some(bytes.as_slice()),
            None => None,
        }
    }

    pub(crate) fn read_at(&self, name: &[u8], at: u64, buf: &mut [u8]) -> Got
        ensures read { ReadsFile (map.get self.now name.now) at buf.new result }
        ensures count { IsAtMost (length buf.old) result }
    {
        match self.file(name) {
            None => Got::Absent,
            Some(bytes) => Got::Count(copy_from(bytes, at, buf)),
        }
    }
}

/// Copies bytes of a file, from a place on, into the first bytes of the buffer, and says how many.
fn copy_from(file: &[u8], at: u64, buf: &mut [u8]) -> usize
    ensures { Copies file.now at buf.new result }
{
    let start = file.len().min(at as usize);
    let rest = &file[start..];
    let count = rest.len().min(buf.len());
    buf[..count].copy_from_slice(&rest[..count]);
    count
}

/// The input and the output of a console in memory.
#[derive(Drop)]
pub(crate) struct KeptSession {
    input: Vec<u8>,
    /// How many bytes of the input are taken.
    taken: usize,
    output: Vec<u8>,
    /// Of each read, how many bytes of the input were left before it, and how many were shown.
    asked: Vec<(usize, usize)>,
}

impl Model for KeptSession {
    ghost use Rattle.std.specs.Prelude.{drop};
    ghost use Rattle.t3_io.specs.Session.{Session};

    ghost Value = { Session };

    ghost view = { λ c. record {
      left = drop c.taken c.input.items;
      shown = c.output.items;
      asked = c.asked.items;
    } };
}

impl KeptSession {
    pub(crate) fn new(alloc: Global, input: &[u8]) -> Result<KeptSession, NoMemory>
        ensures { IfOk result (λ kept. kept ≡ new_session input.now) }
    {
        Ok(KeptSession {
            input: Vec::from_slice(alloc, input)?,
            taken: 0,
            output: Vec::new(alloc),
            asked: Vec::new(alloc),
        })
    }

    /// Takes so many bytes of the input as there are and the buffer has room for.
    pub(crate) fn take(&mut self, buf: &mut [u8]) -> Result<usize, NoMemory>
        ensures taken { IfOk result (λ count. TakesInput self.old (Some self.new) buf.new count) }
        ensures count { IfOk result (λ count. count ≤ length buf.old) }
        ensures err { OnErr result (self.new ≡ self.old) }
    {
        let left = self.input.len().saturating_sub(self.taken);
        self.asked.push((left, self.output.len()))?;
        let count = copy_from(&self.input, self.taken as u64, buf);
        self.taken += count;
        Ok(count)
    }

    /// Shows a piece whole, or nothing of it.
    pub(crate) fn show(&mut self, piece: &[u8]) -> Result<(), NoMemory>
        ensures ok { OnOk result (self.new ≡ after_showing self.old piece.now) }
        ensures err { OnErr result (self.new ≡ self.old) }
    {
        self.output.extend_from_slice(piece)?;
        Ok(())
    }

    pub(crate) fn shown(&self) -> &[u8]
        ensures { result.now ≡ self.now.shown }
    {
        self.output.as_slice()
    }
}
