ghost use Rattle.std.specs.Prelude.{◌≡◌, ◌+◌, ◌-◌, ◌^◌, ◌<◌, ◌≤◌, [], ◌∷◌, false, length, take, drop, None, IfOk, option_map};
ghost use Rattle.t3_undo.specs.Content.{shown};
ghost use Rattle.t3_undo.specs.Objects.{is_noted};
ghost use Rattle.t3_undo.specs.Journal.{total, old_of, note_in, is_added, newest_next, newest_serial, oldest_serial, serial_for, newest_records, newest_record, but_newest_record, HaveDistinctCells};

use crate::cell::Cell;
use crate::content::Content;
use crate::kept::Kept;
use crate::newest::{newest_next, newest_serial, oldest_serial, serial_for};
use crate::rings::{
    Marks, Records, add_mark, note_fresh_record, note_record, take_mark, take_record,
};
use circular_buffer::HeapCircularBuffer;
use std::alloc::Global;
use std::marker::Model;
use t3_holder::NoMemory;

/// Savepoints, and of each what was changed first since: a record a cell, with what stood there before.
/// A savepoint's serial is how many had been made with it. A record keeps the stamp of the cell's place,
/// by which a caller tells without a search whether the newest savepoint has one.
///
/// There are as many savepoints at most as the one limit says, and as many records of all savepoints
/// together as the other says. All memory is taken by [`Journal::start`]; where a limit is reached, the
/// oldest savepoints go. Contracts see the newest savepoint first, and the newest record first.
#[derive(Drop)]
pub struct Journal {
    marks: Marks,
    records: Records,
    made: u64,
    mark_limit: u32,
    record_limit: u32,
}

impl Model for Journal {
    ghost use Rattle.t3_undo.specs.Journal.{Held, coded_held};

    ghost Value = { Held };

    ghost coded = { coded_held };

    ghost use Rattle.t3_undo.specs.Inner.Rings.{segments_of, IsJournal};

    ghost view = { λ j. record {
      segments = segments_of j.marks.items j.records.items;
      marks = j.made;
      record_limit = j.record_limit;
      mark_limit = j.mark_limit;
    } };

    ghost invariant = { λ j. IsJournal j.marks j.records j.made j.mark_limit j.record_limit };
}

impl Journal {
    /// A journal without savepoints. All its room is taken here.
    pub fn start(alloc: Global, records: u32, savepoints: u32) -> Result<Journal, NoMemory>
        requires records { 0 < records }
        requires savepoints { 0 < savepoints }
        ensures { IfOk result (λ journal. journal
            ≡ record {
              segments = [];
              marks = 0;
              record_limit = records;
              mark_limit =
                  savepoints;
            }) }
    {
        Ok(Journal {
            marks: HeapCircularBuffer::with_capacity(alloc, savepoints as usize)?,
            records: HeapCircularBuffer::with_capacity(alloc, records as usize)?,
            made: 0,
            mark_limit: savepoints,
            record_limit: records,
        })
    }

    /// Adds a savepoint, at which `next` is the number of the next object. Where there are as many as the
    /// limit says, the oldest goes first.
    pub fn mark(&mut self, next: u32)
        requires { self.old.marks < 2 ^ 63 }
        ensures { self.new ≡ record self.old {
          segments = record { serial = self.old.marks + 1; next = next; records = [] }
              ∷ take (self.old.mark_limit - 1) self.old.segments;
          marks = self.old.marks + 1;
        } }
    {
        self.made += 1;
        add_mark(
            &mut self.marks,
            &mut self.records,
            self.mark_limit,
            self.made,
            next,
        );
    }

    /// Adds a record of what stood in a cell before a change, where one is due: a savepoint is held, the
    /// object is older than the newest, and that one has no record of the cell. While there are as many
    /// records as the limit says, the oldest savepoint goes first, with its records; where none is left,
    /// nothing is recorded. The record's stamp is 0: this is for a caller whose places have no stamps.
    #[inline(always)]
    pub fn note(&mut self, number: u32, cell: Cell, old: Content)
        ensures { self.new ≡ record self.old {
          segments = note_in self.old.record_limit
              (record { number = number; cell = cell; old = shown old; stamp = 0 })
              self.old.segments;
        } }
    {
        // Mostly none is held, and then a caller pays for a test alone.
        if !self.marks.is_empty() {
            note_record(
                &mut self.marks,
                &mut self.records,
                self.record_limit,
                Kept {
                    number,
                    cell,
                    old,
                    stamp: 0,
                },
            );
        }
    }

    /// Does what [`Journal::note`] does without a search: the newest savepoint, if one is held, has no
    /// record of the cell. The record keeps the stamp. True exactly where it was added.
    pub fn note_fresh(&mut self, number: u32, cell: Cell, old: Content, stamp: u64) -> bool
        requires { is_noted number cell (newest_records self.old.segments) ≡ false }
        ensures journal { self.new ≡ record self.old {
          segments = note_in self.old.record_limit
              (record { number = number; cell = cell; old = shown old; stamp = stamp })
              self.old.segments;
        } }
        ensures added { result ≡ is_added self.old.record_limit
            (record { number = number; cell = cell; old = shown old; stamp = stamp })
            self.old.segments }
    {
        note_fresh_record(
            &mut self.marks,
            &mut self.records,
            self.record_limit,
            Kept {
                number,
                cell,
                old,
                stamp,
            },
        )
    }

    /// The serial of the newest savepoint. `None` exactly where none is held.
    pub fn newest_serial(&self) -> Option<u64>
        ensures { result ≡ newest_serial self.now.segments }
    {
        newest_serial(&self.marks, &self.records)
    }

    /// The serial of the oldest savepoint. `None` exactly where none is held. There were 2^63 at most.
    pub fn oldest_serial(&self) -> Option<u64>
        ensures serial { result ≡ oldest_serial self.now.segments }
        ensures bound { self.now.marks ≤ 2 ^ 63 }
    {
        oldest_serial(&self.marks, &self.records)
    }

    /// The serial of the newest savepoint, which a change of the object's cells gives to their places.
    /// `None` exactly where no savepoint is held, or the object was made since the newest.
    #[inline(always)]
    pub fn serial_for(&self, number: u32) -> Option<u64>
        ensures { result ≡ serial_for number self.now.segments }
    {
        serial_for(&self.marks, &self.records, number)
    }

    /// The number that was next at the newest savepoint. `None` exactly where none is held.
    pub fn newest_next(&self) -> Option<u32>
        ensures { result ≡ newest_next self.now.segments }
    {
        newest_next(&self.marks, &self.records)
    }

    /// Hands out the newest record of the newest savepoint. `None` exactly where no savepoint is held, or
    /// the newest has no record left.
    pub fn take_kept(&mut self) -> Option<Kept>
        ensures kept { option_map old_of result ≡ newest_record self.old.segments }
        ensures left { self.new ≡ record self.old { segments = but_newest_record self.old.segments } }
    {
        take_record(&mut self.marks, &mut self.records)
    }

    /// Ends the newest savepoint, which has no record left, and gives the number that was next there.
    /// `None` exactly where none is held.
    pub fn take_mark(&mut self) -> Option<u32>
        requires { newest_record self.old.segments ≡ None }
        ensures next { result ≡ newest_next self.old.segments }
        ensures left { self.new ≡ record self.old { segments = drop 1 self.old.segments } }
    {
        take_mark(&mut self.marks, &self.records)
    }

    /// Ends all savepoints, with their records.
    pub fn clear(&mut self)
        ensures { self.new ≡ record self.old { segments = [] } }
    {
        self.marks.clear();
        self.records.clear();
    }

    /// How many savepoints are held, which the limit bounds.
    pub fn held(&self) -> u32
        ensures held { result ≡ length self.now.segments }
        ensures bound { result ≤ self.now.mark_limit }
    {
        self.marks.len() as u32
    }

    /// How many records they have together, which the other limit bounds. Since one savepoint no cell has two.
    pub fn records(&self) -> u32
        ensures records { result ≡ total self.now.segments }
        ensures bound { result ≤ self.now.record_limit }
        ensures distinct { HaveDistinctCells self.now.segments }
    {
        self.records.len() as u32
    }

    /// How many savepoints were ever made.
    pub fn marks(&self) -> u64
        ensures { result ≡ self.now.marks }
    {
        self.made
    }
}
