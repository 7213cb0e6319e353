//! The random runs, each with a room of limits.

use crate::fixture::empty_store;
use crate::random_runs::{OBJECTS, agree};
use crate::saved_states::{Saved, save, step_or_state};
use crate::whole_copies::Whole;
use std::alloc::Global;
use std::test::Fail;
use t3_store::{Store, StoreLimits};

/// How many units there may be in the runs.
const UNITS: u32 = 10;

/// What room a store's journal has, and how many runs of how many steps are made with it.
#[derive(Clone, Copy)]
struct Room {
    records: u32,
    savepoints: u32,
    runs: u32,
    steps: u32,
    /// Whether most undos and states that would be put back are savepoints instead, so that many are held.
    keeps: bool,
}

impl Room {
    /// A store without objects that has the room.
    fn store(self, alloc: Global) -> Result<Store, Fail> {
        if self.records == 0 || self.records > 1_048_576 {
            return Err(Fail::from("a limit of records"));
        }
        if self.savepoints == 0 || self.savepoints > 1_024 {
            return Err(Fail::from("a limit of savepoints"));
        }
        let store = empty_store(alloc, OBJECTS, UNITS, self.records, self.savepoints)?;
        Ok(store)
    }

    fn limits(self) -> StoreLimits {
        StoreLimits {
            objects: OBJECTS,
            units: UNITS,
            records: self.records,
            savepoints: self.savepoints,
        }
    }

    /// What a roll says with this room.
    fn roll(self, roll: u32) -> u32 {
        let ends = matches!(roll % 12, 1 | 11);
        if self.keeps && ends && roll / 12 % 8 > 0 {
            return roll - roll % 12;
        }
        roll
    }
}

/// Few records and savepoints, a record alone, more savepoints than records, and many savepoints.
const ROOMS: [Room; 4] = [
    Room {
        records: 4,
        savepoints: 3,
        runs: 500,
        steps: 60,
        keeps: false,
    },
    Room {
        records: 1,
        savepoints: 2,
        runs: 300,
        steps: 60,
        keeps: false,
    },
    Room {
        records: 2,
        savepoints: 9,
        runs: 30,
        steps: 200,
        keeps: true,
    },
    Room {
        records: 40,
        savepoints: 20,
        runs: 30,
        steps: 200,
        keeps: true,
    },
];

/// One run of random steps, after each of which both say the same.
fn agrees_all_along(alloc: Global, seed: u32, room: Room) -> Result<bool, Fail> {
    let mut store = room.store(alloc)?;
    let mut whole = Whole::start(alloc, room.limits());
    agrees_in_steps(&mut store, &mut whole, alloc, seed, room)
}

/// Whether both say the same after each step.
fn agrees_in_steps(
    store: &mut Store,
    whole: &mut Whole,
    alloc: Global,
    seed: u32,
    room: Room,
) -> Result<bool, Fail> {
    let mut saved = save(store, whole, alloc)?;
    let mut state = seed;
    for _ in 0..room.steps {
        state = state.wrapping_mul(1_664_525).wrapping_add(1_013_904_223);
        let roll = room.roll(state >> 8);
        if !agrees_after(store, whole, &mut saved, alloc, roll)? {
            return Ok(false);
        }
    }
    Ok(true)
}

/// Whether both say the same after a step.
fn agrees_after(
    store: &mut Store,
    whole: &mut Whole,
    saved: &mut Saved,
    alloc: Global,
    roll: u32,
) -> Result<bool, Fail> {
    if !step_or_state(store, whole, saved, alloc, roll)? {
        return Ok(false);
    }
    agree(store, whole, alloc)
}

/// Whether both say the same all along in each run with this room.
fn agrees_with(alloc: Global, room: Room) -> Result<bool, Fail> {
    for seed in 0..room.runs {
        if !agrees_all_along(alloc, seed, room)? {
            return Ok(false);
        }
    }
    Ok(true)
}

#[test]
fn random_runs_are_those_of_whole_copies(rt: HostRuntime) -> Result<(), Fail> {
    for room in ROOMS {
        assert!(rt;
            agrees_with(rt.alloc(), room)?,
            "with {} records",
            room.records
        );
    }
    Ok(())
}
