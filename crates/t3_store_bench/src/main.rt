//! Makes and changes as many objects of a store as its words say, and says what stands then. `bench/store` and
//! `bench/undo` time it.
//!
//! ```text
//! objects N        N tads-objects without anything
//! overwrite N K    N tads-objects with a property, which is then set K times, of one object after the other
//! table N K        a table of N keys, of which each is found, taken away and set again, K times
//! keys N           a table in which N keys are set and taken away, one after the other, with room for 1,000 records
//! savepoint N K    N tads-objects, and K savepoints with nothing behind them
//! undo N K R       N tads-objects, and R times a savepoint, K changes and an undo
//! worlds           32 vectors of 65,535 elements, 1,024 savepoints, and as many undos
//! ```
#![tactic(auto)]

mod objects;
mod runs;

use std::process::ExitCode;
use std::{env, io};

fn main(rt: HostRuntime) -> ExitCode {
    match carry_out(&rt) {
        Ok(()) => ExitCode::SUCCESS,
        Err(_) => ExitCode::FAILURE,
    }
}

/// Does what the words say.
fn carry_out(rt: &HostRuntime) -> io::Result<()> {
    let mut words = env::args(rt)?.skip(1);
    let name = words.next();
    let count = number(words.next());
    let turns = number(words.next());
    let rounds = number(words.next());
    let stands = match name.as_deref() {
        Some("objects") => runs::objects(rt.alloc(), count),
        Some("overwrite") => runs::overwrite(rt.alloc(), count, turns),
        Some("table") => runs::table(rt.alloc(), count, turns),
        Some("keys") => runs::keys(rt.alloc(), count),
        Some("savepoint") => runs::savepoint(rt.alloc(), count, turns),
        Some("undo") => runs::undo(rt.alloc(), count, turns, rounds),
        Some("worlds") => runs::worlds(rt.alloc()),
        _ => Err(runs::Failure),
    };
    match stands {
        Ok(stands) => println!(rt;
            "objects={} units={} held={} records={} next={}",
            stands.objects, stands.units, stands.held, stands.records, stands.next
        ),
        Err(runs::Failure) => Err(io::ErrorKind::InvalidInput.into()),
    }
}

/// The number that a word says, or 0.
fn number(word: Option<String>) -> u32 {
    match word {
        Some(word) => word.parse::<u32>().unwrap_or(0),
        None => 0,
    }
}
