//! The page of a run, and what it has put out.
ghost use Rattle.std.specs.Prelude.{◌≡◌, ◌<◌, ◌-◌, ◌^◌, ◌++◌, [], List, ℕ, IfOk, string_bytes};
ghost use Rattle.t3_io.specs.Cause.{MovesFaults};
ghost use Rattle.t3_console.specs.Page.{page_after, HasTaken};
ghost use Rattle.t3_console.specs.Output.{said_out, rest_out, close_out};
ghost use Rattle.t3_run.specs.Showing.{ShowsAll};
ghost use Rattle.t3_run.specs.Inner.Playing.{PutsOn};

use crate::showing::show;
use std::alloc::Global;
use t3_console::Page;
use t3_io::{Console, DeviceRefusal};

/// So many bytes that were put out are shown at once, so that a story that says much in small texts calls the
/// console seldom.
const ENOUGH: usize = 4096;

/// The page on which a run says its texts, and what it has put out that isn't shown yet.
#[derive(Drop)]
pub(crate) struct Screen {
    pub(crate) page: Page,
    pub(crate) out: Vec<u8>,
}

impl Screen {
    /// A page that has taken nothing. It takes no memory.
    pub(crate) fn new(alloc: Global, width: u16) -> Screen
        requires { 0 < width }
        ensures page { result.page ≡ page_after width [] }
        ensures out { result.out.items ≡ [] }
    {
        Screen {
            page: Page::new(alloc, width),
            out: Vec::new(alloc),
        }
    }

    /// Says a text. What it puts out may be kept until more is.
    pub(crate) fn say<C: Console>(
        &mut self,
        text: &[u8],
        console: &mut C,
    ) -> Result<(), DeviceRefusal>
        requires { C.faults console.old < 2 ^ 64 - 1 }
        ensures put { (taken : List ℕ) → HasTaken self.old.page taken
            → PutsOn (C.session console.old) (C.session console.new) self.old
            (said_out self.old.page.width taken text.now) self.new result }
        ensures page { IfOk result (λ _. (taken : List ℕ) → HasTaken self.old.page taken
            → HasTaken self.new.page (taken ++ text.now)
            × (self.new.page.width ≡ self.old.page.width)) }
        ensures cause { MovesFaults (C.faults console.old) (C.faults console.new) result }
    {
        self.page.say(text, &mut self.out)?;
        if self.out.len() < ENOUGH {
            return Ok(());
        }
        self.flush(console)
    }

    /// Shows all of what was said, and begins the page anew.
    pub(crate) fn rest<C: Console>(&mut self, console: &mut C) -> Result<(), DeviceRefusal>
        requires { C.faults console.old < 2 ^ 64 - 1 }
        ensures put { (taken : List ℕ) → HasTaken self.old.page taken
            → PutsOn (C.session console.old) (C.session console.new) self.old
            (rest_out self.old.page.width taken) self.new result }
        ensures out { IfOk result (λ _. self.new.out.items ≡ []) }
        ensures page { IfOk result (λ _. (taken : List ℕ) → HasTaken self.old.page taken
            → HasTaken self.new.page [] × (self.new.page.width ≡ self.old.page.width)) }
        ensures cause { MovesFaults (C.faults console.old) (C.faults console.new) result }
    {
        self.page.rest(&mut self.out)?;
        self.flush(console)
    }

    /// Shows all of what was said, with its last line ended, and a line behind it.
    pub(crate) fn close<C: Console>(
        &mut self,
        line: &str,
        console: &mut C,
    ) -> Result<(), DeviceRefusal>
        requires { C.faults console.old < 2 ^ 64 - 1 }
        ensures put { (taken : List ℕ) → HasTaken self.old.page taken
            → PutsOn (C.session console.old) (C.session console.new) self.old
            (close_out self.old.page.width taken ++ line.now) self.new result }
        ensures out { IfOk result (λ _. self.new.out.items ≡ []) }
        ensures cause { MovesFaults (C.faults console.old) (C.faults console.new) result }
    {
        self.page.close(&mut self.out)?;
        self.out.extend_from_slice(line.as_bytes())?;
        self.flush(console)
    }

    /// Shows what was put out.
    pub(crate) fn flush<C: Console>(&mut self, console: &mut C) -> Result<(), DeviceRefusal>
        requires { C.faults console.old < 2 ^ 64 - 1 }
        ensures shown { ShowsAll (C.session console.old) (C.session console.new)
            self.old.out.items result }
        ensures out { IfOk result (λ _. self.new.out.items ≡ []) }
        ensures page { self.new.page ≡ self.old.page }
        ensures cause { MovesFaults (C.faults console.old) (C.faults console.new) result }
    {
        show(console, &self.out)?;
        self.out.clear();
        Ok(())
    }
}
