//! The two rings of a journal, savepoints and records, each the oldest first.
ghost use Rattle.std.specs.Prelude.{◌≡◌, false, ◌+◌, ◌-◌, ◌^◌, ◌<◌, ◌≤◌, ◌++◌, [], ◌∷◌, length, take, drop, None, option_map};
ghost use Rattle.circular_buffer.specs.Buffer.{buffer};
ghost use Rattle.t3_undo.specs.Objects.{is_noted};
ghost use Rattle.t3_undo.specs.Journal.{old_of, room, add, note_in, is_held, is_added, newest_next, newest_records, newest_record, but_newest_record};
ghost use Rattle.t3_undo.specs.Inner.Rings.{segments_of, AreCounted};

use crate::kept::Kept;
use crate::mark::Mark;
use crate::newest::{is_due, is_older};
use circular_buffer::HeapCircularBuffer;

/// Savepoints, the oldest first.
pub(crate) type Marks = HeapCircularBuffer<Mark>;

/// Their records, the oldest first.
pub(crate) type Records = HeapCircularBuffer<Kept>;

/// Adds an item, for which there is room.
fn push<T: Drop>(ring: &mut HeapCircularBuffer<T>, item: T)
    requires { length ring.old.items < ring.old.capacity }
    ensures { ring.new ≡ buffer (ring.old.items ++ item ∷ []) ring.old.capacity }
{
    let _none = ring.push_back(item);
}

/// Puts another savepoint in place of the newest.
fn set_newest(marks: &mut Marks, mark: Mark)
    requires { 0 < length marks.old.items }
    ensures { marks.new ≡ buffer
        (take (length marks.old.items - 1) marks.old.items ++ mark ∷ []) marks.old.capacity }
{
    // Its answer tells that the ring is within its capacity.
    let _within = marks.len();
    marks.pop_back();
    push(marks, mark);
}

/// Drops the oldest savepoint with its records.
fn drop_oldest(marks: &mut Marks, records: &mut Records)
    requires counted { AreCounted marks.old.items records.old.items }
    requires held { 0 < length marks.old.items }
    ensures segments { segments_of marks.new.items records.new.items
        ≡ take (length marks.old.items - 1) (segments_of marks.old.items records.old.items) }
    ensures counted { AreCounted marks.new.items records.new.items }
    ensures marks { length marks.new.items + 1 ≡ length marks.old.items }
    ensures records { length records.new.items ≤ length records.old.items }
    ensures mark_room { marks.new.capacity ≡ marks.old.capacity }
    ensures record_room { records.new.capacity ≡ records.old.capacity }
{
    if let Some(oldest) = marks.pop_front() {
        let left = records.len() - oldest.count as usize;
        records.truncate_front(left);
    }
}

/// Drops the oldest savepoints, until there are fewer records than the limit.
fn make_room(marks: &mut Marks, records: &mut Records, limit: u32)
    requires { AreCounted marks.old.items records.old.items }
    ensures segments { segments_of marks.new.items records.new.items
        ≡ room limit (segments_of marks.old.items records.old.items) }
    ensures counted { AreCounted marks.new.items records.new.items }
    ensures marks { length marks.new.items ≤ length marks.old.items }
    ensures records { length records.new.items ≤ length records.old.items }
    ensures free { 0 < length marks.new.items → length records.new.items < limit }
    ensures mark_room { marks.new.capacity ≡ marks.old.capacity }
    ensures record_room { records.new.capacity ≡ records.old.capacity }
{
    while !marks.is_empty() && records.len() >= limit as usize {
        drop_oldest(marks, records);
    }
}

/// Adds a record to the newest savepoint, if there is one.
fn add_record(marks: &mut Marks, records: &mut Records, kept: Kept)
    requires counted { AreCounted marks.old.items records.old.items }
    requires room { 0 < length marks.old.items → length records.old.items < records.old.capacity }
    requires small { 0 < length marks.old.items → length records.old.items + 1 < 2 ^ 32 }
    ensures segments { segments_of marks.new.items records.new.items
        ≡ add (old_of kept) (segments_of marks.old.items records.old.items) }
    ensures counted { AreCounted marks.new.items records.new.items }
    ensures marks { length marks.new.items ≡ length marks.old.items }
    ensures records { length records.new.items ≤ length records.old.items + 1 }
    ensures none { length marks.old.items ≡ 0
        → length records.new.items ≡ length records.old.items }
    ensures mark_room { marks.new.capacity ≡ marks.old.capacity }
    ensures record_room { records.new.capacity ≡ records.old.capacity }
{
    if let Some(newest) = marks.back().copied() {
        set_newest(
            marks,
            Mark {
                count: newest.count + 1,
                ..newest
            },
        );
        push(records, kept);
    }
}

/// Adds a record, for which the oldest savepoints make room. False where no savepoint is left then.
fn add_with_room(marks: &mut Marks, records: &mut Records, limit: u32, kept: Kept) -> bool
    requires counted { AreCounted marks.old.items records.old.items }
    requires room { limit ≤ records.old.capacity }
    requires few { length records.old.items ≤ limit }
    ensures segments { segments_of marks.new.items records.new.items
        ≡ add (old_of kept) (room limit (segments_of marks.old.items records.old.items)) }
    ensures counted { AreCounted marks.new.items records.new.items }
    ensures marks { length marks.new.items ≤ length marks.old.items }
    ensures records { length records.new.items ≤ limit }
    ensures mark_room { marks.new.capacity ≡ marks.old.capacity }
    ensures record_room { records.new.capacity ≡ records.old.capacity }
    ensures answer { result ≡ is_held (room limit (segments_of marks.old.items records.old.items)) }
{
    make_room(marks, records, limit);
    let held = !marks.is_empty();
    add_record(marks, records, kept);
    held
}

/// Adds a record where one is due, after the oldest savepoints have made room for it.
#[inline(never)]
pub(crate) fn note_record(marks: &mut Marks, records: &mut Records, limit: u32, kept: Kept)
    requires counted { AreCounted marks.old.items records.old.items }
    requires room { limit ≤ records.old.capacity }
    requires few { length records.old.items ≤ limit }
    ensures segments { segments_of marks.new.items records.new.items
        ≡ note_in limit (old_of kept) (segments_of marks.old.items records.old.items) }
    ensures counted { AreCounted marks.new.items records.new.items }
    ensures marks { length marks.new.items ≤ length marks.old.items }
    ensures records { length records.new.items ≤ limit }
    ensures mark_room { marks.new.capacity ≡ marks.old.capacity }
    ensures record_room { records.new.capacity ≡ records.old.capacity }
{
    if is_due(marks, records, kept.number, &kept.cell) {
        add_with_room(marks, records, limit, kept);
    }
}

/// Adds a record of a cell of which the newest savepoint has none, where the object is older than it.
/// True exactly where it was added.
#[inline(never)]
pub(crate) fn note_fresh_record(
    marks: &mut Marks,
    records: &mut Records,
    limit: u32,
    kept: Kept,
) -> bool
    requires counted { AreCounted marks.old.items records.old.items }
    requires room { limit ≤ records.old.capacity }
    requires few { length records.old.items ≤ limit }
    requires fresh { is_noted kept.number kept.cell
        (newest_records (segments_of marks.old.items records.old.items)) ≡ false }
    ensures segments { segments_of marks.new.items records.new.items
        ≡ note_in limit (old_of kept) (segments_of marks.old.items records.old.items) }
    ensures counted { AreCounted marks.new.items records.new.items }
    ensures marks { length marks.new.items ≤ length marks.old.items }
    ensures records { length records.new.items ≤ limit }
    ensures mark_room { marks.new.capacity ≡ marks.old.capacity }
    ensures record_room { records.new.capacity ≡ records.old.capacity }
    ensures answer { result
        ≡ is_added limit (old_of kept) (segments_of marks.old.items records.old.items) }
{
    if is_older(marks, records, kept.number) {
        return add_with_room(marks, records, limit, kept);
    }
    false
}

/// Drops the oldest savepoint where there are as many as the limit says.
fn make_mark_room(marks: &mut Marks, records: &mut Records, limit: u32)
    requires counted { AreCounted marks.old.items records.old.items }
    requires some { 0 < limit }
    requires few { length marks.old.items ≤ limit }
    ensures segments { segments_of marks.new.items records.new.items
        ≡ take (limit - 1) (segments_of marks.old.items records.old.items) }
    ensures counted { AreCounted marks.new.items records.new.items }
    ensures marks { length marks.new.items < limit }
    ensures records { length records.new.items ≤ length records.old.items }
    ensures mark_room { marks.new.capacity ≡ marks.old.capacity }
    ensures record_room { records.new.capacity ≡ records.old.capacity }
{
    if marks.len() == limit as usize {
        drop_oldest(marks, records);
    }
}

/// Adds a savepoint, for which the oldest makes room.
pub(crate) fn add_mark(marks: &mut Marks, records: &mut Records, limit: u32, serial: u64, next: u32)
    requires counted { AreCounted marks.old.items records.old.items }
    requires some { 0 < limit }
    requires few { length marks.old.items ≤ limit }
    requires room { limit ≤ marks.old.capacity }
    ensures segments { segments_of marks.new.items records.new.items
        ≡ record { serial = serial; next = next; records = [] }
        ∷ take (limit - 1) (segments_of marks.old.items records.old.items) }
    ensures counted { AreCounted marks.new.items records.new.items }
    ensures marks { length marks.new.items ≤ limit }
    ensures records { length records.new.items ≤ length records.old.items }
    ensures mark_room { marks.new.capacity ≡ marks.old.capacity }
    ensures record_room { records.new.capacity ≡ records.old.capacity }
{
    make_mark_room(marks, records, limit);
    push(
        marks,
        Mark {
            serial,
            next,
            count: 0,
        },
    );
}

/// Hands out the newest record of the newest savepoint.
pub(crate) fn take_record(marks: &mut Marks, records: &mut Records) -> Option<Kept>
    requires { AreCounted marks.old.items records.old.items }
    ensures kept { option_map old_of result
        ≡ newest_record (segments_of marks.old.items records.old.items) }
    ensures segments { segments_of marks.new.items records.new.items
        ≡ but_newest_record (segments_of marks.old.items records.old.items) }
    ensures counted { AreCounted marks.new.items records.new.items }
    ensures marks { length marks.new.items ≡ length marks.old.items }
    ensures records { length records.new.items ≤ length records.old.items }
    ensures mark_room { marks.new.capacity ≡ marks.old.capacity }
    ensures record_room { records.new.capacity ≡ records.old.capacity }
{
    let Some(newest) = marks.back().copied() else {
        return None;
    };
    if newest.count == 0 {
        return None;
    }
    set_newest(
        marks,
        Mark {
            count: newest.count - 1,
            ..newest
        },
    );
    records.pop_back()
}

/// Ends the newest savepoint, which has no record left.
pub(crate) fn take_mark(marks: &mut Marks, records: &Records) -> Option<u32>
    requires counted { AreCounted marks.old.items records.now.items }
    requires empty { newest_record (segments_of marks.old.items records.now.items) ≡ None }
    ensures next { result ≡ newest_next (segments_of marks.old.items records.now.items) }
    ensures segments { segments_of marks.new.items records.now.items
        ≡ drop 1 (segments_of marks.old.items records.now.items) }
    ensures counted { AreCounted marks.new.items records.now.items }
    ensures marks { length marks.new.items ≤ length marks.old.items }
    ensures mark_room { marks.new.capacity ≡ marks.old.capacity }
{
    match marks.pop_back() {
        Some(mark) => Some(mark.next),
        None => None,
    }
}
