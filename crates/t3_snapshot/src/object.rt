//! One object, from its bytes.
ghost use Rattle.std.specs.Prelude.{◌≡◌, ◌++◌, ◌∷◌, [], IfOk, map, not, IsTrue};
ghost use Rattle.std.specs.List.{list_any};
ghost use Rattle.std.specs.Ordering.{eq_by_cmp};
ghost use Rattle.t3_undo.specs.Key.{key_cmp};
ghost use Rattle.t3_snapshot.specs.Layout.{keys_of};
ghost use Rattle.t3_snapshot.specs.Building.{saved_value, HasRisingProps};
ghost use Rattle.t3_snapshot.specs.Inner.Reading.{Gives, are_distinct, are_rising, tads_at, table_at, string_at, list_at, vector_at, value_by, value_at, object_at};

use crate::fields::{take_byte, take_class, take_holder, take_text, take_u32};
use crate::items::{
    EntryItem, HolderItem, PropItem, SuperItem, take_counted_u16, take_counted_u32,
};
use crate::read_error::ReadError;
use crate::saved_object::SavedObject;
use indexmap::IndexSet;
use std::alloc::Global;
use std::hash::{BuildHasherDefault, DefaultHasher};
use t3_holder::{Bytes, NoMemory};
use t3_lists::Holders;
use t3_store::NewObject;
use t3_tables::Pair;
use t3_tadsobj::{PropValue, Props};
use t3_undo::{Key, Numbers};

/// A tads-object: its flags, its superclasses, and its properties by rising number.
#[tactic(auto, unfolding(crate::specs::Inner::Reading::tads_at))]
fn take_tads(alloc: Global, bytes: &[u8]) -> Result<(SavedObject, &[u8]), ReadError>
    ensures value { Gives (λ x. (saved_value x.0, x.1.now)) result (tads_at bytes.now) }
    ensures rising { IfOk result (λ x. HasRisingProps x.0) }
{
    let (class, rest) = take_class(bytes)?;
    let (supers, rest) = take_counted_u16::<SuperItem>(alloc, rest)?;
    let (props, rest) = take_counted_u16::<PropItem>(alloc, rest)?;
    if !are_rising(&props) {
        return Err(ReadError::Misspelled);
    }
    let supers = Numbers(supers);
    let props = Props(props);
    let made = NewObject::Tads {
        supers,
        class,
        props,
    };
    Ok((SavedObject::Made(made), rest))
}

/// Whether the numbers of properties rise, from 1 on.
fn are_rising(props: &[PropValue]) -> bool
    ensures { result ≡ are_rising 0 props.now }
{
    let mut last = 0;
    for prop in props {
        if prop.number <= last {
            return false;
        }
        last = prop.number;
    }
    true
}

/// A table: its default, and its entries, of which no two have the same key.
#[tactic(auto, unfolding(crate::specs::Inner::Reading::table_at))]
fn take_table(alloc: Global, bytes: &[u8]) -> Result<(SavedObject, &[u8]), ReadError>
    ensures value { Gives (λ x. (saved_value x.0, x.1.now)) result (table_at bytes.now) }
    ensures rising { IfOk result (λ x. HasRisingProps x.0) }
{
    let (default, rest) = take_holder(bytes)?;
    let (pairs, rest) = take_counted_u32::<EntryItem>(alloc, rest)?;
    if !have_distinct_keys(alloc, &pairs)? {
        return Err(ReadError::Misspelled);
    }
    Ok((SavedObject::Table { pairs, default }, rest))
}

type Seen<'a> = IndexSet<&'a Key, BuildHasherDefault<DefaultHasher>>;

/// Whether no key stands twice.
fn have_distinct_keys(alloc: Global, pairs: &[Pair]) -> Result<bool, NoMemory>
    ensures { IfOk result (λ distinct. distinct ≡ are_distinct (keys_of pairs.now)) }
{
    let mut seen: Seen<'_> = IndexSet::with_hasher(alloc, BuildHasherDefault::new());
    for pair in pairs {
        if !add_key(&mut seen, &pair.key)? {
            return Ok(false);
        }
    }
    Ok(true)
}

/// Adds a key that isn't there; false where it is.
fn add_key<'a>(seen: &mut Seen<'a>, key: &'a Key) -> Result<bool, NoMemory>
    ensures added { IfOk result (λ added. added
        ≡ not (list_any (eq_by_cmp key_cmp key.now) (map (λ k. k.now) seen.old.keys))) }
    ensures keys { IfOk result (λ added. IsTrue added
        → map (λ k. k.now) seen.new.keys ≡ map (λ k. k.now) seen.old.keys ++ key.now ∷ []) }
{
    let (_index, added) = seen.insert_full(key)?;
    Ok(added)
}

/// A string.
#[tactic(auto, unfolding(crate::specs::Inner::Reading::string_at))]
fn take_string(alloc: Global, bytes: &[u8]) -> Result<(SavedObject, &[u8]), ReadError>
    ensures value { Gives (λ x. (saved_value x.0, x.1.now)) result (string_at bytes.now) }
    ensures rising { IfOk result (λ x. HasRisingProps x.0) }
{
    let (text, rest) = take_text(bytes)?;
    let text = Vec::from_slice(alloc, text)?;
    Ok((SavedObject::Made(NewObject::Text(Bytes(text))), rest))
}

/// A list.
#[tactic(auto, unfolding(crate::specs::Inner::Reading::list_at))]
fn take_list(alloc: Global, bytes: &[u8]) -> Result<(SavedObject, &[u8]), ReadError>
    ensures value { Gives (λ x. (saved_value x.0, x.1.now)) result (list_at bytes.now) }
    ensures rising { IfOk result (λ x. HasRisingProps x.0) }
{
    let (items, rest) = take_counted_u16::<HolderItem>(alloc, bytes)?;
    Ok((SavedObject::Made(NewObject::List(Holders(items))), rest))
}

/// A vector.
#[tactic(auto, unfolding(crate::specs::Inner::Reading::vector_at))]
fn take_vector(alloc: Global, bytes: &[u8]) -> Result<(SavedObject, &[u8]), ReadError>
    ensures value { Gives (λ x. (saved_value x.0, x.1.now)) result (vector_at bytes.now) }
    ensures rising { IfOk result (λ x. HasRisingProps x.0) }
{
    let (items, rest) = take_counted_u16::<HolderItem>(alloc, bytes)?;
    Ok((SavedObject::Made(NewObject::Vector(Holders(items))), rest))
}

/// An object of the kind.
#[tactic(auto, unfolding(crate::specs::Inner::Reading::value_by))]
fn take_value_by(alloc: Global, kind: u8, bytes: &[u8]) -> Result<(SavedObject, &[u8]), ReadError>
    ensures value { Gives (λ x. (saved_value x.0, x.1.now)) result (value_by kind bytes.now) }
    ensures rising { IfOk result (λ x. HasRisingProps x.0) }
{
    match kind {
        1 => take_tads(alloc, bytes),
        2 => take_string(alloc, bytes),
        3 => take_list(alloc, bytes),
        4 => take_vector(alloc, bytes),
        5 => take_table(alloc, bytes),
        _ => Err(ReadError::Misspelled),
    }
}

/// An object without its number.
#[tactic(auto, unfolding(crate::specs::Inner::Reading::value_at))]
fn take_value(alloc: Global, bytes: &[u8]) -> Result<(SavedObject, &[u8]), ReadError>
    ensures value { Gives (λ x. (saved_value x.0, x.1.now)) result (value_at bytes.now) }
    ensures rising { IfOk result (λ x. HasRisingProps x.0) }
{
    let (kind, rest) = take_byte(bytes)?;
    let (object, rest) = take_value_by(alloc, kind, rest)?;
    Ok((object, rest))
}

/// An object and its number.
#[derive(Debug, Drop)]
pub(crate) struct Numbered {
    pub(crate) number: u32,
    pub(crate) object: SavedObject,
}

/// An object whose number is above the last one, and below the next.
#[tactic(auto, unfolding(crate::specs::Inner::Reading::object_at))]
pub(crate) fn take_object(
    alloc: Global,
    last: u32,
    next: u32,
    bytes: &[u8],
) -> Result<(Numbered, &[u8]), ReadError>
    ensures value { Gives (λ x. ((x.0.number, saved_value x.0.object), x.1.now)) result
        (object_at last next bytes.now) }
    ensures rising { IfOk result (λ x. HasRisingProps x.0.object) }
{
    let (number, rest) = take_u32(bytes)?;
    let (object, rest) = take_value(alloc, rest)?;
    if number <= last || number >= next {
        return Err(ReadError::Misspelled);
    }
    Ok((Numbered { number, object }, rest))
}
