//! The elements of a vector: those that have a place, of which some may be missing.
ghost use Rattle.std.specs.Prelude.{◌≡◌, Some, IsSome, ◌^◌, ◌<◌, ◌+◌, length, take, IfSome, IfOk, OnOk, OnErr, is_some, if◌then◌else◌};
ghost use Rattle.t3_undo.specs.Content.{shown};
ghost use Rattle.t3_lists.specs.Vector.{content_of, values_of, stamps_of};
ghost use Rattle.t3_lists.specs.Inner.Elements.{index_of, content_in, exchanged, with_next, with_next_stamp, stamp_in, restamped, afresh, present_of, is_needed, purged};

use std::alloc::Global;
use t3_holder::{Holder, NoMemory};
use t3_undo::{Cell, Content, StampedValue};

/// Where an element stands among the elements. `None` where the cell isn't one.
pub(crate) fn index_of(cell: &Cell) -> Option<usize>
    ensures index { result ≡ index_of cell.now }
    ensures number { IfSome result (λ index. index + 1 < 2 ^ 32) }
{
    match cell {
        Cell::Elem(number) if *number > 0 => Some(*number as usize - 1),
        _ => None,
    }
}

/// The content of an element.
fn content_of(element: Option<Holder>) -> Content
    ensures { result ≡ content_of element }
{
    match element {
        Some(value) => Content::Held(value),
        None => Content::Absent,
    }
}

/// What stands in a cell.
pub(crate) fn content_in(elements: &[StampedValue], cell: &Cell) -> Content
    ensures { result ≡ content_in (values_of elements.now) (index_of cell.now) }
{
    match index_of(cell) {
        Some(index) if index < elements.len() => content_of(elements[index].value()),
        _ => Content::Absent,
    }
}

/// Sets the element of a cell, and hands out what stood there.
pub(crate) fn exchange(elements: &mut Vec<StampedValue>, cell: &Cell, content: Content) -> Content
    ensures values { values_of elements.new.items
        ≡ exchanged (values_of elements.old.items) (index_of cell.now) content }
    ensures stamps { stamps_of elements.new.items ≡ stamps_of elements.old.items }
    ensures old { result ≡ content_in (values_of elements.old.items) (index_of cell.now) }
{
    match index_of(cell) {
        Some(index) if index < elements.len() => {
            content_of(elements[index].replace(content.value()))
        }
        _ => Content::Absent,
    }
}

/// One for a content that is present, and nothing for another.
pub(crate) fn one_if_present(content: &Content) -> u32
    ensures { result ≡ (if is_some (shown content.now) then 1 else 0) }
{
    if content.is_present() { 1 } else { 0 }
}

/// The present elements alone, with stamp 0.
pub(crate) fn present_elements(
    alloc: Global,
    elements: &[StampedValue],
) -> Result<Vec<StampedValue>, NoMemory>
    ensures { IfOk result (λ present. present.items ≡ present_of elements.now) }
{
    let present = elements.iter().filter_map(|element| afresh(*element));
    Ok(present.collect(alloc)?)
}

/// An element that isn't missing, with stamp 0.
fn afresh(element: StampedValue) -> Option<StampedValue>
    ensures { result ≡ afresh element }
{
    match element.value() {
        Some(value) => Some(StampedValue::new(0, Some(value))),
        None => None,
    }
}

/// One more element, which is missing, where the cell is the next one.
pub(crate) fn add_missing(elements: &mut Vec<StampedValue>, cell: &Cell) -> Result<(), NoMemory>
    ensures values { OnOk result (values_of elements.new.items
        ≡ with_next (values_of elements.old.items) (index_of cell.now)) }
    ensures stamps { OnOk result (stamps_of elements.new.items
        ≡ with_next_stamp (stamps_of elements.old.items) (index_of cell.now)) }
    ensures few { length elements.old.items < 2 ^ 32 → length elements.new.items < 2 ^ 32 }
    ensures err { OnErr result (elements.new.items ≡ elements.old.items) }
{
    match index_of(cell) {
        Some(index) if index == elements.len() => { Ok(elements.push(StampedValue::new(0, None))?) }
        _ => Ok(()),
    }
}

/// The stamp of an element's place.
pub(crate) fn stamp_at(elements: &[StampedValue], cell: &Cell) -> u64
    requires { IsSome (stamp_in (stamps_of elements.now) (index_of cell.now)) }
    ensures { stamp_in (stamps_of elements.now) (index_of cell.now) ≡ Some result }
{
    match index_of(cell) {
        Some(index) if index < elements.len() => elements[index].stamp(),
        _ => 0,
    }
}

/// Gives an element's place another stamp.
pub(crate) fn set_stamp(elements: &mut Vec<StampedValue>, cell: &Cell, stamp: u64)
    requires { IsSome (stamp_in (stamps_of elements.old.items) (index_of cell.now)) }
    ensures values { values_of elements.new.items ≡ values_of elements.old.items }
    ensures stamps { stamps_of elements.new.items
        ≡ restamped (stamps_of elements.old.items) (index_of cell.now) stamp }
{
    if let Some(index) = index_of(cell) {
        if index < elements.len() {
            elements[index].set_stamp(stamp);
        }
    }
}

/// Takes away the elements after the last one that is needed.
pub(crate) fn purge(elements: &mut Vec<StampedValue>, oldest: u64)
    ensures { elements.new.items ≡ purged oldest elements.old.items }
{
    let left = needed_length(elements, oldest);
    elements.truncate(left);
}

/// How many elements there are up to the last one that is needed.
fn needed_length(elements: &[StampedValue], oldest: u64) -> usize
    ensures { take result elements.now ≡ purged oldest elements.now }
{
    let mut left = elements.len();
    while left > 0 {
        if is_needed(&elements[left - 1], oldest) {
            return left;
        }
        left -= 1;
    }
    0
}

/// Whether an element isn't missing, or its stamp isn't below this one.
fn is_needed(element: &StampedValue, oldest: u64) -> bool
    ensures { result ≡ is_needed oldest element.now }
{
    element.is_present() || element.stamp() >= oldest
}
