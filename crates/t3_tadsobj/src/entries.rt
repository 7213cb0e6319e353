//! The entries of an object's properties.
ghost use Rattle.std.specs.Prelude.{◌≡◌, ◌||◌, nat_le, Some, None, filter, is_some, option_map, if◌then◌else◌, IsSome, IfOk};
ghost use Rattle.std.specs.BTreeMap as tree;
ghost use Rattle.std.specs.Ordering.{nat_cmp};
ghost use Rattle.t3_tadsobj.specs.Inner.Entries.{content_of, content_at, value_at, stamp_or, place_of, replaced, listed, afresh, is_needed};
ghost use Rattle.t3_undo.specs.StampedValue.{ValuePlace};

use crate::props::PropValue;
use std::alloc::Global;
use std::collections::BTreeMap;
use t3_holder::{Holder, NoMemory};
use t3_undo::{Content, Place, StampedValue};

/// The properties that have a place, by their numbers.
pub(crate) type Entries = BTreeMap<u16, StampedValue>;

/// A value as the content of a property.
#[inline(always)]
pub(crate) fn content_of(value: Option<Holder>) -> Content
    ensures { result ≡ content_of value }
{
    match value {
        Some(value) => Content::Held(value),
        None => Content::Absent,
    }
}

/// What stands under a number.
#[inline(always)]
pub(crate) fn content_at(entries: &Entries, number: u16) -> Content
    ensures { result ≡ content_at (tree.get nat_cmp entries.now number) }
{
    match entries.get(&number) {
        Some(place) => content_of(place.value()),
        None => Content::Absent,
    }
}

/// The stamp under a number, or 0.
#[inline(always)]
pub(crate) fn stamp_at(entries: &Entries, number: u16) -> u64
    ensures { result ≡ stamp_or (tree.get nat_cmp entries.now number) }
{
    match entries.get(&number) {
        Some(place) => place.stamp(),
        None => 0,
    }
}

/// An entry as a place.
#[inline(always)]
pub(crate) fn place_of(place: StampedValue) -> Place
    ensures { result ≡ place_of place }
{
    Place {
        stamp: place.stamp(),
        content: content_of(place.value()),
    }
}

/// The value under a number.
#[inline(always)]
pub(crate) fn value_at(entries: &Entries, number: u16) -> Option<Holder>
    ensures { result ≡ value_at (tree.get nat_cmp entries.now number) }
{
    match entries.get(&number) {
        Some(place) => place.value(),
        None => None,
    }
}

/// The value of a place, if there is a place.
pub(crate) fn value_in(place: Option<StampedValue>) -> Option<Holder>
    ensures { result ≡ value_at place }
{
    match place {
        Some(place) => place.value(),
        None => None,
    }
}

/// One for a value, and nothing for none.
#[inline(always)]
pub(crate) fn one_if_present(value: Option<Holder>) -> u64
    ensures { result ≡ (if is_some value then 1 else 0) }
{
    if value.is_some() { 1 } else { 0 }
}

/// Puts another value under a number that is there, and hands out what stood there.
#[inline(always)]
pub(crate) fn exchange(entries: &mut Entries, number: u16, value: Option<Holder>) -> Option<Holder>
    requires { IsSome (tree.get nat_cmp entries.old number) }
    ensures { (place : ValuePlace) → tree.get nat_cmp entries.old number ≡ Some place
        → tree.Updates nat_cmp entries.old entries.new number (Some (record place { value = value }))
        × (result ≡ place.value) }
{
    match entries.get_mut(&number) {
        Some(place) => place.replace(value),
        None => value,
    }
}

/// Gives the place under a number that is there another stamp.
pub(crate) fn restamp(entries: &mut Entries, number: u16, stamp: u64)
    requires { IsSome (tree.get nat_cmp entries.old number) }
    ensures { (place : ValuePlace) → tree.get nat_cmp entries.old number ≡ Some place
        → tree.Updates nat_cmp entries.old entries.new number
        (Some (record place { stamp = stamp })) }
{
    if let Some(place) = entries.get_mut(&number) {
        place.set_stamp(stamp);
    }
}

/// Puts another value under a number that has a value, with this stamp, if there is one. Hands out what
/// stood there.
#[inline(always)]
pub(crate) fn replace_value(
    entries: &mut Entries,
    number: u16,
    value: Holder,
    stamp: Option<u64>,
) -> StampedValue
    ensures value { result.value ≡ value_at (tree.get nat_cmp entries.old number) }
    ensures stamp { result.stamp ≡ stamp_or (tree.get nat_cmp entries.old number) }
    ensures updates { (place : ValuePlace) → tree.get nat_cmp entries.old number ≡ Some place
        → tree.Updates nat_cmp entries.old entries.new number (Some (replaced value stamp place)) }
    ensures kept { tree.get nat_cmp entries.old number ≡ None → entries.new ≡ entries.old }
{
    match entries.get_mut(&number) {
        Some(place) => {
            let old = *place;
            if old.is_present() {
                *place = StampedValue::new(stamp.unwrap_or(old.stamp()), Some(value));
            }
            old
        }
        None => StampedValue::new(0, None),
    }
}

/// Takes away what is absent and has a stamp below this one.
pub(crate) fn purge(entries: &mut Entries, oldest: u64)
    ensures entries { entries.new.entries ≡ filter (is_needed oldest) entries.old.entries }
    ensures ordered { tree.IsOrdered nat_cmp entries.old }
{
    entries.retain(|_, place| is_needed(place, oldest));
}

/// Whether there is a value in a place, or its stamp isn't below this one.
fn is_needed(place: &StampedValue, oldest: u64) -> bool
    ensures { result ≡ (is_some place.now.value || nat_le oldest place.now.stamp) }
{
    place.is_present() || place.stamp() >= oldest
}

/// The entries that are present, with stamp 0.
pub(crate) fn present_entries(alloc: Global, entries: &Entries) -> Result<Entries, NoMemory>
    ensures present { IfOk result (λ copy. copy.entries ≡ afresh entries.now.entries) }
    ensures ordered { IfOk result (λ _. tree.IsOrdered nat_cmp entries.now) }
{
    let mut copy = entries.clone()?;
    copy.retain(|_, place| {
        place.set_stamp(0);
        place.is_present()
    });
    Ok(copy)
}

/// The properties that are present, in the order of their numbers.
pub(crate) fn listed(alloc: Global, entries: &Entries) -> Result<Vec<PropValue>, NoMemory>
    ensures listed { IfOk result (λ props. props.items ≡ listed entries.now.entries) }
    ensures ordered { tree.IsOrdered nat_cmp entries.now }
{
    let props = entries
        .iter()
        .filter_map(|(number, place)| prop_value(*number, place.value()));
    Ok(props.collect(alloc)?)
}

/// A property that is present, with its value.
fn prop_value(number: u16, value: Option<Holder>) -> Option<PropValue>
    ensures { result ≡ option_map (λ value. record { number = number; value = value }) value }
{
    match value {
        Some(value) => Some(PropValue { number, value }),
        None => None,
    }
}
