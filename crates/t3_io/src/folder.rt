//! Files of the present folder.
ghost use Rattle.std.specs.Prelude.{◌≡◌, ◌-◌, ◌^◌, ◌<◌, ◌≤◌, length, IfOk, IfErr};
ghost use Rattle.t3_io.specs.Cause.{MovesFaults};
ghost use Rattle.t3_io.specs.Reading.{IsAtMost};

use crate::depot::{Depot, Got};
use crate::refusal::DeviceRefusal;
use std::fs::{File, OpenFile, OpenOptions};
use std::io::{self, ErrorKind, Read, Seek, SeekFrom, Write};
use std::marker::Model;
use std::rt::Files;

/// The files of the present folder, as the system has them. Contracts see the count of faults, and
/// no content. Making one takes no memory.
#[derive(Drop)]
pub struct FolderDepot<'r, R: Files> {
    rt: &'r R,
    faults: u64,
}

impl<'r, R: Files> Model for FolderDepot<'r, R> {
    ghost use Rattle.std.specs.Prelude.{ℕ};

    ghost Value = { ℕ };

    ghost view = { λ d. d.faults };
}

impl<'r, R: Files> FolderDepot<'r, R> {
    /// The present folder, with no fault so far.
    pub fn new(rt: &'r R) -> FolderDepot<'r, R>
        ensures { result ≡ 0 }
    {
        FolderDepot { rt, faults: 0 }
    }
}

impl<'r, R: Files> Depot for FolderDepot<'r, R> {
    ghost use Rattle.std.specs.Prelude.{None};

    ghost files = { λ _. None };

    ghost faults = { λ d. d };

    fn read_at(&mut self, name: &[u8], at: u64, buf: &mut [u8]) -> Result<Got, DeviceRefusal> {
        let answer = read_file(self.rt, name, at, buf);
        counted(&mut self.faults, answer)
    }

    fn put(&mut self, name: &[u8], bytes: &[u8]) -> Result<(), DeviceRefusal> {
        let opened = open_to_write(self.rt, name);
        let file = counted(&mut self.faults, opened)?;
        let written = write_file(self.rt, name, file, bytes);
        all_counted(&mut self.faults, written)
    }
}

/// Counts an error of the system as a fault, unless it is want of memory.
pub(crate) fn counted<T>(faults: &mut u64, answer: io::Result<T>) -> Result<T, DeviceRefusal>
    requires { faults.old < 2 ^ 64 - 1 }
    ensures value { IfOk result (λ value. answer ≡ Ok value) }
    ensures cause { MovesFaults faults.old faults.new result }
{
    match answer {
        Err(error) if error.kind() == ErrorKind::OutOfMemory => Err(DeviceRefusal::NoMemory),
        answer => all_counted(faults, answer),
    }
}

/// Counts each error of the system as a fault, want of memory too.
fn all_counted<T>(faults: &mut u64, answer: io::Result<T>) -> Result<T, DeviceRefusal>
    requires { faults.old < 2 ^ 64 - 1 }
    ensures value { IfOk result (λ value. answer ≡ Ok value) }
    ensures cause { MovesFaults faults.old faults.new result }
    ensures counted { IfErr result (λ refusal. refusal ≡ DeviceRefusal.Fault) }
{
    match answer {
        Ok(value) => Ok(value),
        Err(_) => {
            *faults += 1;
            Err(DeviceRefusal::Fault)
        }
    }
}

/// The name as the system takes it.
fn path_of(name: &[u8]) -> io::Result<&str> {
    match str::from_utf8(name) {
        Ok(path) => Ok(path),
        Err(_) => Err(ErrorKind::InvalidInput.into()),
    }
}

/// Opens the file that is there, if there is one. It is as before, whatever the answer is.
fn open_to_write<R: Files>(rt: &R, name: &[u8]) -> io::Result<Option<R::File>> {
    match OpenOptions::new().write(true).open(rt, path_of(name)?) {
        Ok(file) => Ok(Some(file)),
        Err(error) if error.kind() == ErrorKind::NotFound => Ok(None),
        Err(error) => Err(error),
    }
}

/// Writes the file that is there, emptied first, or a new one. After an error it may have a prefix
/// of the bytes.
fn write_file<R: Files>(
    rt: &R,
    name: &[u8],
    there: Option<R::File>,
    bytes: &[u8],
) -> io::Result<()> {
    let mut file = match there {
        Some(file) => {
            file.set_len(0)?;
            file
        }
        None => File::create(rt, path_of(name)?)?,
    };
    file.write_all(bytes)
}

/// Reads from a file that is opened for this one read. Only a file that isn't there is `Absent`.
fn read_file<R: Files>(rt: &R, name: &[u8], at: u64, buf: &mut [u8]) -> io::Result<Got>
    ensures { IfOk result (IsAtMost (length buf.old)) }
{
    let path = path_of(name)?;
    let mut file = match File::open(rt, path) {
        Ok(file) => file,
        Err(error) if error.kind() == ErrorKind::NotFound => return Ok(Got::Absent),
        Err(error) => return Err(error),
    };
    file.seek(SeekFrom::Start(at))?;
    Ok(Got::Count(read_some(&mut file, buf)?))
}

/// One read, begun again where a signal interrupts it.
pub(crate) fn read_some<F: Read>(file: &mut F, buf: &mut [u8]) -> io::Result<usize>
    ensures { IfOk result (λ count. count ≤ length buf.old) }
{
    for _ in 0..u64::MAX {
        match file.read(buf) {
            Err(error) if error.kind() == ErrorKind::Interrupted => {}
            answer => return answer,
        }
    }
    Err(ErrorKind::Interrupted.into())
}
