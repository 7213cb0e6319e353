//! The journal beside a plain one, which is a list of savepoints with a list of records each, by calls
//! that look as if they were drawn.
ghost use Rattle.std.specs.Prelude.{◌<◌};

use crate::orders::drawn;
use std::alloc::Global;
use std::test::Fail;
use t3_holder::{Holder, NoMemory};
use t3_undo::{Cell, Content, Journal, Kept};

/// More savepoints than a run makes.
const MARKS: u64 = 1_000_000;

/// What stood in a property of an object, and the stamp of its place.
#[derive(Clone, Copy)]
struct Record {
    number: u32,
    property: u16,
    old: i32,
    stamp: u64,
}

/// A savepoint with its records, the oldest first.
#[derive(Drop)]
struct Savepoint {
    serial: u64,
    next: u32,
    records: Vec<Record>,
}

/// The plain journal: its savepoints, the oldest first.
#[derive(Drop)]
struct Plain {
    savepoints: Vec<Savepoint>,
    made: u64,
    record_limit: usize,
    savepoint_limit: usize,
}

impl Plain {
    fn records(&self) -> usize {
        let mut sum: usize = 0;
        for savepoint in &self.savepoints {
            sum = sum.saturating_add(savepoint.records.len());
        }
        sum
    }

    /// Whether the newest savepoint is newer than the object and has no record of the property.
    fn is_due(&self, record: Record) -> bool {
        match self.savepoints.last() {
            Some(newest) => {
                record.number < newest.next
                    && !newest.records.iter().any(|other| {
                        other.number == record.number && other.property == record.property
                    })
            }
            None => false,
        }
    }

    fn mark(&mut self, alloc: Global, next: u32) -> Result<(), NoMemory> {
        if self.savepoints.len() > 0 && self.savepoints.len() >= self.savepoint_limit {
            let _oldest = self.savepoints.remove(0);
        }
        self.made = self.made.saturating_add(1);
        self.savepoints.push(Savepoint {
            serial: self.made,
            next,
            records: Vec::new(alloc),
        })?;
        Ok(())
    }

    /// Whether the record was added.
    fn note(&mut self, record: Record) -> Result<bool, NoMemory> {
        if !self.is_due(record) {
            return Ok(false);
        }
        for _ in 0..self.savepoint_limit {
            if self.savepoints.len() > 0 && self.records() >= self.record_limit {
                let _oldest = self.savepoints.remove(0);
            }
        }
        match self.savepoints.len().checked_sub(1) {
            Some(newest) => {
                self.savepoints[newest].records.push(record)?;
                Ok(true)
            }
            None => Ok(false),
        }
    }

    fn take_kept(&mut self) -> Option<Record> {
        match self.savepoints.len().checked_sub(1) {
            Some(newest) => self.savepoints[newest].records.pop(),
            None => None,
        }
    }

    fn take_mark(&mut self) -> Option<u32> {
        match self.savepoints.pop() {
            Some(savepoint) => Some(savepoint.next),
            None => None,
        }
    }

    fn serial_for(&self, number: u32) -> Option<u64> {
        match self.savepoints.last() {
            Some(newest) => (number < newest.next).then_some(newest.serial),
            None => None,
        }
    }
}

/// Whether this is the record.
fn is_same(kept: &Kept, record: Record) -> bool {
    kept.number == record.number
        && kept.cell == Cell::Prop(record.property)
        && kept.old == content_of(record)
        && kept.stamp == record.stamp
}

fn content_of(record: Record) -> Content {
    Content::Held(Holder::Int(record.old))
}

/// A savepoint, on both sides.
fn mark(
    journal: &mut Journal,
    plain: &mut Plain,
    alloc: Global,
    next: u32,
) -> Result<(), NoMemory> {
    if journal.marks() < MARKS {
        journal.mark(next);
        plain.mark(alloc, next)?;
    }
    Ok(())
}

/// A savepoint and a record that is added without a search. Whether both gave the same answer.
fn mark_and_note(
    journal: &mut Journal,
    plain: &mut Plain,
    alloc: Global,
    next: u32,
    record: Record,
) -> Result<bool, NoMemory> {
    if journal.marks() >= MARKS {
        return Ok(false);
    }
    journal.mark(next);
    plain.mark(alloc, next)?;
    let cell = Cell::Prop(record.property);
    let added = journal.note_fresh(record.number, cell, content_of(record), record.stamp);
    Ok(plain.note(record)? == added)
}

/// Takes the newest record, or ends a savepoint that has none. Whether both gave the same.
fn take(journal: &mut Journal, plain: &mut Plain) -> bool {
    match journal.take_kept() {
        Some(kept) => match plain.take_kept() {
            Some(record) => is_same(&kept, record),
            None => false,
        },
        None => plain.take_kept().is_none() && journal.take_mark() == plain.take_mark(),
    }
}

/// One call, or two, of both. Whether they gave the same answer.
fn step(
    journal: &mut Journal,
    plain: &mut Plain,
    alloc: Global,
    seed: &mut u32,
) -> Result<bool, NoMemory> {
    let mut record = Record {
        number: drawn(seed, 5),
        property: u16::try_from(drawn(seed, 3)).unwrap_or(0),
        old: i32::try_from(drawn(seed, 1000)).unwrap_or(0),
        stamp: 0,
    };
    let next = drawn(seed, 6);
    match drawn(seed, 16) {
        0 | 1 => mark(journal, plain, alloc, next)?,
        2 | 3 => {
            record.stamp = u64::from(drawn(seed, 1000));
            return mark_and_note(journal, plain, alloc, next, record);
        }
        4..=7 => return Ok(take(journal, plain)),
        8 => {
            if drawn(seed, 16) == 0 {
                journal.clear();
                plain.savepoints.clear();
            }
        }
        _ => {
            journal.note(
                record.number,
                Cell::Prop(record.property),
                content_of(record),
            );
            plain.note(record)?;
        }
    }
    Ok(true)
}

/// Whether both tell the same.
fn agree(journal: &Journal, plain: &Plain) -> bool {
    let (next, serial) = match plain.savepoints.last() {
        Some(newest) => (Some(newest.next), Some(newest.serial)),
        None => (None, None),
    };
    journal.held() as usize == plain.savepoints.len()
        && journal.records() as usize == plain.records()
        && journal.marks() == plain.made
        && journal.newest_next() == next
        && journal.newest_serial() == serial
        && journal.serial_for(1) == plain.serial_for(1)
        && journal.serial_for(3) == plain.serial_for(3)
}

/// One run, after each step of which both tell the same.
fn agree_all_along(
    alloc: Global,
    records: u32,
    savepoints: u32,
    first_seed: u32,
) -> Result<bool, NoMemory>
    requires records { 0 < records }
    requires savepoints { 0 < savepoints }
{
    let mut journal = Journal::start(alloc, records, savepoints)?;
    let mut plain = Plain {
        savepoints: Vec::new(alloc),
        made: 0,
        record_limit: records as usize,
        savepoint_limit: savepoints as usize,
    };
    let mut seed = first_seed;
    for _ in 0..200 {
        if !step(&mut journal, &mut plain, alloc, &mut seed)? || !agree(&journal, &plain) {
            return Ok(false);
        }
    }
    Ok(true)
}

#[test]
fn drawn_calls_are_those_of_plain_lists(rt: HostRuntime) -> Result<(), Fail> {
    for seed in 0..500u32 {
        let records = 1 + seed % 6;
        let savepoints = 1 + seed / 6 % 4;
        let same = agree_all_along(rt.alloc(), records, savepoints, seed)?;
        assert!(rt;
            same,
            "with {records} records and {savepoints} savepoints, in run {seed}"
        );
    }
    Ok(())
}
