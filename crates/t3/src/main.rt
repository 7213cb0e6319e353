//! `t3`: checks, shows, lists, runs, rewrites and assembles images of the T3 virtual machine.
//!
//! All that the program does is [`t3_main`], over the files of the present folder and the standard
//! streams. The crates of tests over [`t3_main`] (`t3_command_tests`, `t3_run_tests` and their like)
//! call it over devices in memory.
#![tactic(auto)]

use std::env;
use std::io::{self, ErrorKind};
use std::process::ExitCode;
use t3_cli::{Status, t3_main};
use t3_io::{FolderDepot, StdConsole};

fn main(rt: HostRuntime) -> ExitCode {
    let status = match words(&rt) {
        Ok(words) => call(&rt, &words),
        Err(error) => match Status::of_words_error(error.kind()) {
            Some(status) => status,
            None => call(&rt, &[]),
        },
    };
    ExitCode::from(status.code())
}

/// The words after the program's name.
fn words(rt: &HostRuntime) -> io::Result<Vec<String>> {
    let words = env::args(rt)?.skip(1).collect::<Vec<String>>(rt.alloc());
    words.map_err(|_| ErrorKind::OutOfMemory.into())
}

/// Carries the words out over the files of the present folder and the standard streams.
fn call(rt: &HostRuntime, words: &[String]) -> Status {
    let mut depot = FolderDepot::new(rt);
    let mut console = StdConsole::new(rt);
    t3_main(rt.alloc(), words, &mut depot, &mut console)
}
