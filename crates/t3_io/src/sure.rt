//! Devices that keep all in memory and never fault.
ghost use Rattle.std.specs.Prelude.{◌≡◌, IfOk, OnOk, OnErr};
ghost use Rattle.std.specs.Option.{option_copied};
ghost use Rattle.std.specs.FinMap as map;
ghost use Rattle.t3_holder.specs.FileName.{IsFileName};
ghost use Rattle.t3_io.specs.Session.{new_session};

use crate::console::Console;
use crate::contents::{KeptFiles, KeptSession};
use crate::depot::{Depot, Got};
use crate::refusal::DeviceRefusal;
use std::alloc::Global;
use std::marker::Model;
use t3_holder::NoMemory;

/// Files in memory, which contracts see as the map from names to bytes. No call of it ever faults.
#[derive(Drop)]
pub struct SureDepot {
    files: KeptFiles,
}

impl Model for SureDepot {
    ghost use Rattle.std.specs.Coded.{coded_ℕ, coded_list};
    ghost use Rattle.std.specs.FinMap as map;
    ghost use Rattle.t3_io.specs.Files.{Files};

    ghost Value = { Files };

    ghost coded = { map.code (coded_list coded_ℕ) (coded_list coded_ℕ) };

    ghost view = { λ d. d.files };
}

impl SureDepot {
    /// A depot without files. It takes no memory.
    pub fn new(alloc: Global) -> SureDepot
        ensures { result ≡ map.empty }
    {
        SureDepot {
            files: KeptFiles::new(alloc),
        }
    }

    /// Sets one file to these bytes, and changes no other. After a refusal nothing has changed.
    pub fn keep(&mut self, name: &[u8], bytes: &[u8]) -> Result<(), NoMemory>
        requires { IsFileName name.now }
        ensures ok { OnOk result (self.new ≡ map.insert self.old name.now bytes.now) }
        ensures err { OnErr result (self.new ≡ self.old) }
    {
        self.files.keep(name, bytes)
    }

    /// The bytes of a file, and `None` exactly where there is no file of that name.
    pub fn file(&self, name: &[u8]) -> Option<&[u8]>
        ensures { option_copied result ≡ map.get self.now name.now }
    {
        self.files.file(name)
    }
}

impl Depot for SureDepot {
    ghost use Rattle.std.specs.Prelude.{Some};

    ghost files = { λ d. Some d };

    ghost faults = { λ _. 0 };

    fn read_at(&mut self, name: &[u8], at: u64, buf: &mut [u8]) -> Result<Got, DeviceRefusal> {
        Ok(self.files.read_at(name, at, buf))
    }

    fn put(&mut self, name: &[u8], bytes: &[u8]) -> Result<(), DeviceRefusal> {
        self.files.keep(name, bytes)?;
        Ok(())
    }
}

/// Input and output in memory. No call of it ever faults.
#[derive(Drop)]
pub struct SureConsole {
    kept: KeptSession,
}

impl Model for SureConsole {
    ghost use Rattle.t3_io.specs.Session.{Session};

    ghost Value = { Session };

    ghost view = { λ c. c.kept };
}

impl SureConsole {
    /// A console with this input, on which nothing was shown.
    pub fn new(alloc: Global, input: &[u8]) -> Result<SureConsole, NoMemory>
        ensures { IfOk result (λ console. console ≡ new_session input.now) }
    {
        Ok(SureConsole {
            kept: KeptSession::new(alloc, input)?,
        })
    }

    /// All that was shown.
    pub fn shown(&self) -> &[u8]
        ensures { result.now ≡ self.now.shown }
    {
        self.kept.shown()
    }
}

impl Console for SureConsole {
    ghost use Rattle.std.specs.Prelude.{Some};

    ghost session = { λ c. Some c };

    ghost faults = { λ _. 0 };

    fn read(&mut self, buf: &mut [u8]) -> Result<usize, DeviceRefusal> {
        Ok(self.kept.take(buf)?)
    }

    fn write(&mut self, piece: &[u8]) -> Result<usize, DeviceRefusal> {
        self.kept.show(piece)?;
        Ok(piece.len())
    }
}
