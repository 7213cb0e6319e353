//! Objects in a row, by rising number.
ghost use Rattle.std.specs.Prelude.{◌≡◌, ◌+◌, ◌-◌, ◌^◌, ◌<◌, ◌≤◌, ◌↔◌, ◌++◌, [], ◌∷◌, ℕ, length, take, drop, slice_get, true, IsTrue, IsSome, IfSome, IfOk, None, Some, OnOk, OnErr, is_some, option_map, option_and_then, map};
ghost use Rattle.std.specs.FinMap.{get, insert};
ghost use Rattle.std.specs.List.{AllWithin, list_any};
ghost use Rattle.t3_undo.specs.Present.{value_in};
ghost use Rattle.t3_undo.specs.Content.{shown, is_form};
ghost use Rattle.t3_undo.specs.declared.cell.Cell.TheVariants.{Prop};
ghost use Rattle.t3_undo.specs.Objects.{part_at, set_cell, adjust, below, put_back};
ghost use Rattle.t3_undo.specs.Journal.{old_of, newest_records};
ghost use Rattle.t3_undo.specs.Stamps.{AreStamped};
ghost use Rattle.t3_store.specs.Inner.Store.{CanBePut, CanEachBePut, AreRecordsWithin, emptied};
ghost use Rattle.t3_store.specs.Value.{holder_at, can_have_at, with_cell};
ghost use Rattle.t3_store.specs.Inner.Shapes.{thing_of, places_of, tick_of, values, has_place, stamp_at, with_place_stamp, with_place, places_below, ticks_below, tick_behind, AreWithin, HasFreshPlaces};
ghost use Rattle.t3_tables.specs.Entries.{risen};
ghost use Rattle.t3_store.specs.Inner.Bounded.{AreBounded, IsTidiedAt, IsWithoutGaps, parts_under, is_recorded};
ghost use Rattle.t3_store.specs.Inner.Valid.{IsValid, AreValid};
ghost use Rattle.t3_store.specs.Inner.Entries.{IsRising, index_of, is_numbered, object_at, things_of, places_in, ticks_in, stored_of, keyed, AreAllValid, HaveTicksForUnits, HasTickForUnits, HaveAllFreshPlaces, IsFirstFrom};

use crate::object::Object;
use crate::tidying::purge_serial;
use std::alloc::Global;
use t3_holder::{Holder, NoMemory};
use t3_undo::{Cell, Content, Journal, Kept};

/// An object and its number.
#[derive(Drop)]
pub(crate) struct Entry {
    pub(crate) number: u32,
    pub(crate) object: Object,
}

/// Where the object of a number stands. Where numbers have no gaps it is found at once, and else by halves.
#[inline(always)]
pub(crate) fn index_of(entries: &[Entry], number: u32) -> Option<usize>
    requires { IsRising entries.now }
    ensures index { result ≡ index_of number entries.now }
    ensures bound { IfSome result (λ index. index < length entries.now) }
{
    let index = likely_index(entries, number);
    if is_at(entries, index, number) {
        return Some(index);
    }
    let index = bound_of(entries, number);
    if is_at(entries, index, number) {
        return Some(index);
    }
    None
}

/// Where the object stands if no number is missing between the first and it.
#[inline(always)]
fn likely_index(entries: &[Entry], number: u32) -> usize {
    match entries.first() {
        Some(first) => number.saturating_sub(first.number) as usize,
        None => 0,
    }
}

/// Whether the object of that number stands there.
#[inline(always)]
fn is_at(entries: &[Entry], index: usize, number: u32) -> bool
    ensures { result ≡ is_numbered number (slice_get entries.now index) }
{
    match entries.get(index) {
        Some(entry) => entry.number == number,
        None => false,
    }
}

/// How many objects have smaller numbers. Most often all have, and else that is found by halves.
#[inline(never)]
pub(crate) fn bound_of(entries: &[Entry], number: u32) -> usize
    requires { IsRising entries.now }
    ensures bound { result ≤ length entries.now }
    ensures below { AllWithin (λ entry. entry.number < number) entries.now 0 result }
    ensures above { AllWithin (λ entry. number ≤ entry.number) entries.now result (length entries.now) }
{
    if is_behind_all(entries, number) {
        return entries.len();
    }
    entries.partition_point(|entry| entry.number < number)
}

/// Whether all objects have smaller numbers.
fn is_behind_all(entries: &[Entry], number: u32) -> bool
    requires { IsRising entries.now }
    ensures { IsTrue result
        ↔ AllWithin (λ entry. entry.number < number) entries.now 0 (length entries.now) }
{
    match entries.last() {
        Some(last) => last.number < number,
        None => true,
    }
}

/// The object of a number.
#[inline(always)]
pub(crate) fn object_at(entries: &[Entry], number: u32) -> Option<&Object>
    requires { IsRising entries.now }
    ensures { option_map (λ object. object.now) result ≡ object_at number entries.now }
{
    match index_of(entries, number) {
        Some(index) => Some(&entries[index].object),
        None => None,
    }
}

/// What stands in a cell of an object once it is set to a value.
#[inline(always)]
pub(crate) fn content_with(entries: &[Entry], number: u32, cell: &Cell, value: Holder) -> Content
    requires rising { IsRising entries.now }
    requires can { IsTrue (can_have_at (get (values (things_of entries.now)) number) cell.now) }
    requires valid { AreValid (things_of entries.now) }
    requires room { AreWithin (2 ^ 64 - 2) (ticks_in entries.now) }
    ensures form { IsTrue (is_form cell.now (shown result)) }
    ensures present { IsSome (shown result) }
    ensures set { values (set_cell (things_of entries.now) number cell.now (shown result))
        ≡ adjust (values (things_of entries.now)) number (with_cell cell.now value) }
    ensures valid { AreValid (set_cell (things_of entries.now) number cell.now (shown result)) }
    ensures tick { (bound : ℕ) → AreWithin bound (ticks_in entries.now)
        → tick_behind (shown result) ≤ risen bound (part_at (things_of entries.now) number cell.now) }
{
    match object_at(entries, number) {
        Some(object) => object.content_with(cell, value),
        None => Content::Absent,
    }
}

/// Sets a cell of an object, and hands out what stood there. No memory is taken.
#[inline(always)]
pub(crate) fn put(entries: &mut Vec<Entry>, number: u32, cell: &Cell, content: Content) -> Content
    requires rising { IsRising entries.old.items }
    requires place { IsTrue (has_place (places_in entries.old.items) number cell.now) }
    requires form { IsTrue (is_form cell.now (shown content)) }
    ensures rising { IsRising entries.new.items }
    ensures things { things_of entries.new.items
        ≡ set_cell (things_of entries.old.items) number cell.now (shown content) }
    ensures places { places_in entries.new.items ≡ places_in entries.old.items }
    ensures ticks { (bound : ℕ) → AreWithin bound (ticks_in entries.old.items) → tick_behind (shown content) ≤ bound
        → AreWithin bound (ticks_in entries.new.items) }
    ensures len { length entries.new.items ≡ length entries.old.items }
    ensures old { shown result ≡ part_at (things_of entries.old.items) number cell.now }
    ensures below { (bound : ℕ) → AreWithin bound (ticks_in entries.old.items) → tick_behind (shown result) ≤ bound }
    ensures formed { IsTrue (is_form cell.now (shown result)) }
{
    match index_of(entries, number) {
        Some(index) => entries[index].object.put(cell, content),
        None => content,
    }
}

/// Sets a property that an object has to another value, and hands out what stood there. It is `Absent`
/// exactly where there is no such property, and then nothing changes. No memory is taken.
#[inline(always)]
pub(crate) fn replace_prop(
    entries: &mut Vec<Entry>,
    number: u32,
    property: u16,
    value: Holder,
) -> Content
    requires { IsRising entries.old.items }
    ensures rising { IsRising entries.new.items }
    ensures old { IsSome (shown result)
        → shown result ≡ part_at (things_of entries.old.items) number (Prop property) }
    ensures placed { IsSome (shown result)
        → IsTrue (has_place (places_in entries.old.items) number (Prop property)) }
    ensures formed { IsTrue (is_form (Prop property) (shown result)) }
    ensures value { option_and_then value_in (shown result)
        ≡ holder_at (get (values (things_of entries.old.items)) number) (Prop property) }
    ensures set { IsSome (shown result) → things_of entries.new.items
        ≡ set_cell (things_of entries.old.items) number (Prop property) (shown (Content.Held value)) }
    ensures kept { shown result ≡ None → things_of entries.new.items ≡ things_of entries.old.items }
    ensures places { places_in entries.new.items ≡ places_in entries.old.items }
    ensures ticks { ticks_in entries.new.items ≡ ticks_in entries.old.items }
{
    match index_of(entries, number) {
        Some(index) => entries[index].object.replace_prop(property, value),
        None => Content::Absent,
    }
}

/// Makes a place for a cell of an object, which stays as it is.
pub(crate) fn make_place(entries: &mut Vec<Entry>, number: u32, cell: Cell) -> Result<(), NoMemory>
    requires rising { IsRising entries.old.items }
    requires can { IsTrue (can_have_at (get (values (things_of entries.old.items)) number) cell) }
    requires valid { AreValid (things_of entries.old.items) }
    ensures rising { IsRising entries.new.items }
    ensures things { things_of entries.new.items ≡ things_of entries.old.items }
    ensures ticks { ticks_in entries.new.items ≡ ticks_in entries.old.items }
    ensures ok { OnOk result (places_in entries.new.items ≡ with_place number cell (places_in entries.old.items)) }
    ensures placed { OnOk result (IsTrue (has_place (places_in entries.new.items) number cell)) }
    ensures err { OnErr result (places_in entries.new.items ≡ places_in entries.old.items) }
{
    match index_of(entries, number) {
        Some(index) => entries[index].object.make_place(cell),
        None => Ok(()),
    }
}

/// The stamp of the place of a cell of an object.
pub(crate) fn stamp_of(entries: &[Entry], number: u32, cell: &Cell) -> u64
    requires rising { IsRising entries.now }
    requires place { IsTrue (has_place (places_in entries.now) number cell.now) }
    ensures { stamp_at (places_in entries.now) number cell.now ≡ Some result }
{
    match object_at(entries, number) {
        Some(object) => object.stamp(cell),
        None => 0,
    }
}

/// Gives the place of a cell of an object another stamp. No memory is taken.
pub(crate) fn set_stamp(entries: &mut Vec<Entry>, number: u32, cell: &Cell, stamp: u64)
    requires rising { IsRising entries.old.items }
    requires place { IsTrue (has_place (places_in entries.old.items) number cell.now) }
    ensures rising { IsRising entries.new.items }
    ensures things { things_of entries.new.items ≡ things_of entries.old.items }
    ensures places { places_in entries.new.items
        ≡ with_place_stamp number cell.now stamp (places_in entries.old.items) }
    ensures ticks { ticks_in entries.new.items ≡ ticks_in entries.old.items }
    ensures len { length entries.new.items ≡ length entries.old.items }
{
    if let Some(index) = index_of(entries, number) {
        entries[index].object.set_stamp(cell, stamp);
    }
}

/// Where an object has too many places, takes away those of absent cells whose stamps are below the oldest serial,
/// which no savepoint needs. No memory is taken.
pub(crate) fn tidy(entries: &mut Vec<Entry>, number: u32, record_limit: u32, oldest: u64)
    requires { IsRising entries.old.items }
    ensures rising { IsRising entries.new.items }
    ensures places { IsTidiedAt record_limit oldest number (stored_of entries.old.items)
        (stored_of entries.new.items) }
    ensures len { length entries.new.items ≡ length entries.old.items }
{
    if let Some(index) = index_of(entries, number) {
        entries[index].object.tidy(record_limit, oldest);
    }
}

/// Adds an object under a number that no other has.
pub(crate) fn add(entries: &mut Vec<Entry>, number: u32, object: Object) -> Result<(), NoMemory>
    requires rising { IsRising entries.old.items }
    requires new { get (things_of entries.old.items) number ≡ None }
    ensures rising { IsRising entries.new.items }
    ensures ok { OnOk result (things_of entries.new.items
        ≡ insert (things_of entries.old.items) number (thing_of object)) }
    ensures places { OnOk result (places_in entries.new.items
        ≡ insert (places_in entries.old.items) number (places_of object)) }
    ensures ticks { OnOk result (ticks_in entries.new.items
        ≡ insert (ticks_in entries.old.items) number (tick_of object)) }
    ensures err { OnErr result (entries.new.items ≡ entries.old.items) }
{
    let index = bound_of(entries, number);
    entries.insert(index, Entry { number, object })?;
    Ok(())
}

/// Takes away the objects numbered from `next` on.
pub(crate) fn cut(entries: &mut Vec<Entry>, next: u32)
    requires { IsRising entries.old.items }
    ensures rising { IsRising entries.new.items }
    ensures things { things_of entries.new.items ≡ below next (things_of entries.old.items) }
    ensures places { places_in entries.new.items ≡ places_below next (places_in entries.old.items) }
    ensures ticks { ticks_in entries.new.items ≡ ticks_below next (ticks_in entries.old.items) }
    ensures len { length entries.new.items ≤ length entries.old.items }
{
    let bound = bound_of(entries, next);
    entries.truncate(bound);
}

/// Puts back what stood in the cells of the newest savepoint's records, and takes empty places away where an object
/// has too many then. No memory is taken.
pub(crate) fn put_back(entries: &mut Vec<Entry>, journal: &mut Journal, record_limit: u32)
    requires rising { IsRising entries.old.items }
    requires limit { journal.old.record_limit ≡ record_limit }
    requires can { CanEachBePut (places_in entries.old.items) journal.old.segments }
    requires stamped { AreStamped journal.old.marks (stamp_at (places_in entries.old.items))
        journal.old.segments }
    requires bounded { AreBounded record_limit (stored_of entries.old.items) }
    requires gaps { (number : ℕ) → is_recorded number (newest_records journal.old.segments) ≡ true
        → IsWithoutGaps number
        (parts_under (put_back (things_of entries.old.items) (newest_records journal.old.segments)) number)
        (drop 1 journal.old.segments) }
    ensures rising { IsRising entries.new.items }
    ensures things { things_of entries.new.items
        ≡ put_back (things_of entries.old.items) (newest_records journal.old.segments) }
    ensures can { CanEachBePut (places_in entries.new.items) (drop 1 journal.old.segments) }
    ensures bounded { AreBounded record_limit (stored_of entries.new.items) }
    ensures stamped { AreStamped journal.new.marks (stamp_at (places_in entries.new.items))
        journal.new.segments }
    ensures ticks { (bound : ℕ) → AreWithin bound (ticks_in entries.old.items)
        → AreRecordsWithin bound journal.old.segments → AreWithin bound (ticks_in entries.new.items) }
    ensures len { length entries.new.items ≡ length entries.old.items }
    ensures journal { journal.new ≡ record journal.old { segments = emptied journal.old.segments } }
{
    // Since one savepoint no cell has two records, and there are no more than the limit says.
    let _distinct = journal.records();
    let oldest = purge_serial(journal);
    while let Some(kept) = journal.take_kept() {
        let number = kept.number;
        put_kept(entries, kept);
        tidy(entries, number, record_limit, oldest);
    }
}

/// Puts back what stood in a cell, and the stamp that its place had.
fn put_kept(entries: &mut Vec<Entry>, kept: Kept)
    requires rising { IsRising entries.old.items }
    requires can { CanBePut (places_in entries.old.items) (old_of kept) }
    ensures rising { IsRising entries.new.items }
    ensures things { things_of entries.new.items
        ≡ set_cell (things_of entries.old.items) kept.number kept.cell (shown kept.old) }
    ensures places { places_in entries.new.items
        ≡ with_place_stamp kept.number kept.cell kept.stamp (places_in entries.old.items) }
    ensures ticks { (bound : ℕ) → AreWithin bound (ticks_in entries.old.items) → tick_behind (shown kept.old) ≤ bound
        → AreWithin bound (ticks_in entries.new.items) }
    ensures len { length entries.new.items ≡ length entries.old.items }
{
    let _changed = put(entries, kept.number, &kept.cell, kept.old);
    set_stamp(entries, kept.number, &kept.cell, kept.stamp);
}

/// The least number of an object from this one on.
pub(crate) fn number_from(entries: &[Entry], least: u32) -> Option<u32>
    requires { IsRising entries.now }
    ensures { IsFirstFrom (things_of entries.now) least result }
{
    let index = bound_of(entries, least);
    if index < entries.len() {
        Some(entries[index].number)
    } else {
        None
    }
}

/// The numbers of all objects.
pub(crate) fn numbers_of(alloc: Global, entries: &[Entry]) -> Result<Vec<u32>, NoMemory>
    ensures { IfOk result (λ numbers. numbers.items ≡ map (λ entry. entry.number) entries.now) }
{
    let mut numbers = Vec::with_capacity(alloc, entries.len())?;
    for entry in entries {
        numbers.push(entry.number)?;
    }
    Ok(numbers)
}

/// Whether the number of one of these objects is that of one of the others.
pub(crate) fn meet(entries: &[Entry], others: &[Entry]) -> bool
    requires { IsRising others.now }
    ensures { result ≡ list_any (λ entry. is_some (object_at entry.number others.now)) entries.now }
{
    entries
        .iter()
        .any(|entry| object_at(others, entry.number).is_some())
}

/// Objects of the same values, with a place for each present cell alone.
pub(crate) fn copy_all(alloc: Global, entries: &[Entry]) -> Result<Vec<Entry>, NoMemory>
    requires { AreAllValid entries.now }
    ensures values { IfOk result (λ copy. map keyed copy.items ≡ map keyed entries.now) }
    ensures valid { IfOk result (λ copy. AreAllValid copy.items) }
    ensures ticks { IfOk result (λ copy. HaveTicksForUnits copy.items) }
    ensures fresh_places { IfOk result (λ copy. HaveAllFreshPlaces copy.items) }
{
    let mut copy = Vec::with_capacity(alloc, entries.len())?;
    for entry in entries {
        copy.push(copy_one(alloc, entry)?)?;
    }
    Ok(copy)
}

/// An object of the same value under the same number.
fn copy_one(alloc: Global, entry: &Entry) -> Result<Entry, NoMemory>
    requires { IsValid (thing_of entry.now.object) }
    ensures same { IfOk result (λ copy. keyed copy ≡ keyed entry.now) }
    ensures valid { IfOk result (λ copy. IsValid (thing_of copy.object)) }
    ensures tick { IfOk result (λ copy. HasTickForUnits copy) }
    ensures fresh_places { IfOk result (λ copy. HasFreshPlaces copy.object) }
{
    let number = entry.number;
    let object = entry.object.copy(alloc)?;
    Ok(Entry { number, object })
}
