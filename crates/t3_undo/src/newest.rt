//! What a journal's newest savepoint tells, and its oldest.
ghost use Rattle.std.specs.Prelude.{◌≡◌, ◌-◌, ◌≤◌, length, drop};
ghost use Rattle.std.specs.List.{list_any};
ghost use Rattle.t3_undo.specs.Objects.{is_of};
ghost use Rattle.t3_undo.specs.Journal.{old_of, is_due, newest_next, newest_serial, oldest_serial, serial_for};
ghost use Rattle.t3_undo.specs.Inner.Rings.{segments_of, AreCounted, is_older};

use crate::cell::Cell;
use crate::kept::Kept;
use crate::rings::{Marks, Records};

/// Whether this is a record of the cell.
fn is_of(kept: &Kept, number: u32, cell: &Cell) -> bool
    ensures { result ≡ is_of number cell.now (old_of kept.now) }
{
    number == kept.number && *cell == kept.cell
}

/// Whether one of the records is of the cell.
fn is_noted(records: &[Kept], number: u32, cell: &Cell) -> bool
    ensures { result ≡ list_any (λ kept. is_of number cell.now (old_of kept)) records.now }
{
    records.iter().any(|kept| is_of(kept, number, cell))
}

/// Whether one of the records from an index on is of the cell.
fn is_noted_from(records: &[Kept], index: usize, number: u32, cell: &Cell) -> bool
    ensures { result ≡ list_any (λ kept. is_of number cell.now (old_of kept))
        (drop index records.now) }
{
    match records.get(index..) {
        Some(rest) => is_noted(rest, number, cell),
        None => false,
    }
}

/// Whether one of so many newest records is of the cell.
fn is_noted_since(records: &Records, count: u32, number: u32, cell: &Cell) -> bool
    requires { count ≤ length records.now.items }
    ensures { result ≡ list_any (λ kept. is_of number cell.now (old_of kept))
        (drop (length records.now.items - count) records.now.items) }
{
    // Where the ring wraps round, the newest stand in the second slice.
    let before = records.len() - count as usize;
    let (first, second) = records.as_slices();
    is_noted_from(first, before, number, cell)
        || is_noted_from(second, before.saturating_sub(first.len()), number, cell)
}

/// Whether a record of the cell is due.
pub(crate) fn is_due(marks: &Marks, records: &Records, number: u32, cell: &Cell) -> bool
    requires { AreCounted marks.now.items records.now.items }
    ensures { result ≡ is_due number cell.now (segments_of marks.now.items records.now.items) }
{
    match marks.back() {
        Some(newest) => {
            if number >= newest.next {
                return false;
            }
            !is_noted_since(records, newest.count, number, cell)
        }
        None => false,
    }
}

/// Whether an object is older than the newest savepoint.
pub(crate) fn is_older(marks: &Marks, records: &Records, number: u32) -> bool
    requires { AreCounted marks.now.items records.now.items }
    ensures { result ≡ is_older number (segments_of marks.now.items records.now.items) }
{
    match marks.back() {
        Some(newest) => number < newest.next,
        None => false,
    }
}

/// The number that was next at the newest savepoint.
pub(crate) fn newest_next(marks: &Marks, records: &Records) -> Option<u32>
    requires { AreCounted marks.now.items records.now.items }
    ensures { result ≡ newest_next (segments_of marks.now.items records.now.items) }
{
    match marks.back() {
        Some(mark) => Some(mark.next),
        None => None,
    }
}

/// The serial of the newest savepoint.
pub(crate) fn newest_serial(marks: &Marks, records: &Records) -> Option<u64>
    requires { AreCounted marks.now.items records.now.items }
    ensures { result ≡ newest_serial (segments_of marks.now.items records.now.items) }
{
    match marks.back() {
        Some(mark) => Some(mark.serial),
        None => None,
    }
}

/// The serial of the oldest savepoint.
pub(crate) fn oldest_serial(marks: &Marks, records: &Records) -> Option<u64>
    ensures { result ≡ oldest_serial (segments_of marks.now.items records.now.items) }
{
    match marks.front() {
        Some(mark) => Some(mark.serial),
        None => None,
    }
}

/// The serial of the newest savepoint, if the object is older than it.
pub(crate) fn serial_for(marks: &Marks, records: &Records, number: u32) -> Option<u64>
    requires { AreCounted marks.now.items records.now.items }
    ensures { result ≡ serial_for number (segments_of marks.now.items records.now.items) }
{
    match marks.back() {
        Some(newest) => (number < newest.next).then_some(newest.serial),
        None => None,
    }
}
