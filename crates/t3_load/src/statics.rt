//! The objects that stand in an image, taken from their bytes.
ghost use Rattle.std.specs.Prelude.{◌≡◌, ◌↔◌, ◌==◌, map, IsTrue, IfOk};
ghost use Rattle.std.specs.Int.{bit_at};
ghost use Rattle.std.specs.List.Sorted.{IsStrictlyIncreasing};
ghost use Rattle.std.specs.Str.{is_utf8};
ghost use Rattle.t3_load.specs.Layout.{GivesObject};
ghost use Rattle.t3_load.specs.declared.kinds.MetaKind.TheVariants as kinds;
ghost use Rattle.t3_load.specs.Inner.Reading.{Gives, count_read, head_read, are_distinct, object_read, list_read};

use crate::kinds::MetaKind;
use crate::rows::{HolderItem, PropItem, SuperItem, number_in, take_row};
use indexmap::IndexSet;
use std::alloc::Global;
use std::hash::{BuildHasherDefault, DefaultHasher};
use t3_holder::{Bytes, Holder, NoMemory};
use t3_lists::Holders;
use t3_store::NewObject;
use t3_tadsobj::{PropValue, Props};
use t3_undo::Numbers;

type Seen = IndexSet<u16, BuildHasherDefault<DefaultHasher>>;

/// The object of a metaclass with which bytes begin; what comes behind it isn't looked at. `None` exactly where they
/// begin with none: the layout isn't there whole, a holder of it means nothing, a property's number is 0 or stands
/// twice, a string isn't UTF-8, or objects of the metaclass don't stand in images.
pub(crate) fn static_object(
    alloc: Global,
    kind: MetaKind,
    bytes: &[u8],
) -> Result<Option<NewObject>, NoMemory>
    ensures { GivesObject kind bytes.now result }
{
    match kind {
        MetaKind::Tads => tads_object(alloc, bytes),
        MetaKind::Text => text(alloc, bytes),
        MetaKind::List => list(alloc, bytes),
        MetaKind::Vector => vector(alloc, bytes),
        MetaKind::Root | MetaKind::Collection | MetaKind::Table => Ok(None),
    }
}

/// The head of a tads-object.
#[derive(Clone, Copy)]
struct TadsHead {
    supers: u16,
    props: u16,
    flags: u16,
}

#[tactic(auto, unfolding(crate::specs::Inner::Reading::tads_read))]
fn tads_object(alloc: Global, bytes: &[u8]) -> Result<Option<NewObject>, NoMemory>
    ensures { IfOk result (λ object. Gives (λ o. o) object (object_read kinds.Tads bytes.now)) }
{
    let Some((head, rest)) = split_head(bytes) else {
        return Ok(None);
    };
    let Some((supers, rest)) = take_row::<SuperItem>(alloc, head.supers, rest)? else {
        return Ok(None);
    };
    let Some((props, _)) = take_row::<PropItem>(alloc, head.props, rest)? else {
        return Ok(None);
    };
    if !are_distinct(alloc, &props)? {
        return Ok(None);
    }
    Ok(Some(NewObject::Tads {
        supers: Numbers(supers),
        class: is_class(head.flags),
        props: Props(props),
    }))
}

/// The head of a tads-object, and the rest.
#[tactic(auto, unfolding(crate::specs::Inner::Reading::head_read))]
fn split_head(bytes: &[u8]) -> Option<(TadsHead, &[u8])>
    ensures { Gives (λ parts. (parts.0, parts.1.now)) result (head_read bytes.now) }
{
    let (supers, rest) = split_number(bytes)?;
    let (props, rest) = split_number(rest)?;
    let (flags, rest) = split_number(rest)?;
    let head = TadsHead {
        supers,
        props,
        flags,
    };
    Some((head, rest))
}

/// Whether a tads-object of these flags is a class.
fn is_class(flags: u16) -> bool
    ensures { result ≡ (bit_at flags 0 == 1) }
{
    flags & 1 == 1
}

/// Whether no two properties have one number. Most images have them by rising number: then no set is made.
fn are_distinct(alloc: Global, props: &[PropValue]) -> Result<bool, NoMemory>
    ensures { IfOk result (λ distinct. distinct ≡ are_distinct (map (λ prop. prop.number) props.now)) }
{
    if are_rising(props) {
        return Ok(true);
    }
    let mut seen: Seen = IndexSet::with_hasher(alloc, BuildHasherDefault::new());
    for prop in props {
        let (_index, added) = seen.insert_full(prop.number)?;
        if !added {
            return Ok(false);
        }
    }
    Ok(true)
}

/// Whether each number is below the next.
fn are_rising(props: &[PropValue]) -> bool
    ensures { IsTrue result ↔ IsStrictlyIncreasing (map (λ prop. prop.number) props.now) }
{
    props.is_sorted_by(|prop, next| prop.number < next.number)
}

#[tactic(auto, unfolding(crate::specs::Inner::Reading::text_read, crate::specs::Inner::Reading::front_read))]
fn text(alloc: Global, bytes: &[u8]) -> Result<Option<NewObject>, NoMemory>
    ensures { IfOk result (λ object. Gives (λ o. o) object (object_read kinds.Text bytes.now)) }
{
    let Some((count, rest)) = split_number(bytes) else {
        return Ok(None);
    };
    let Some((text, _)) = rest.split_at_checked(usize::from(count)) else {
        return Ok(None);
    };
    if !is_utf8(text) {
        return Ok(None);
    }
    let text = Bytes(Vec::from_slice(alloc, text)?);
    Ok(Some(NewObject::Text(text)))
}

fn is_utf8(bytes: &[u8]) -> bool
    ensures { result ≡ is_utf8 bytes.now }
{
    str::from_utf8(bytes).is_ok()
}

/// The holders of a list.
#[tactic(auto, unfolding(crate::specs::Inner::Reading::list_read))]
fn holders(alloc: Global, bytes: &[u8]) -> Result<Option<Holders>, NoMemory>
    ensures { IfOk result (λ items. Gives (λ i. i) items (list_read bytes.now)) }
{
    let Some((count, rest)) = split_number(bytes) else {
        return Ok(None);
    };
    match take_row::<HolderItem>(alloc, count, rest)? {
        Some((items, _)) => Ok(Some(Holders(items))),
        None => Ok(None),
    }
}

fn list(alloc: Global, bytes: &[u8]) -> Result<Option<NewObject>, NoMemory>
    ensures { IfOk result (λ object. Gives (λ o. o) object (object_read kinds.List bytes.now)) }
{
    match holders(alloc, bytes)? {
        Some(items) => Ok(Some(NewObject::List(items))),
        None => Ok(None),
    }
}

#[tactic(auto, unfolding(crate::specs::Inner::Reading::vector_read))]
fn vector(alloc: Global, bytes: &[u8]) -> Result<Option<NewObject>, NoMemory>
    ensures { IfOk result (λ object. Gives (λ o. o) object (object_read kinds.Vector bytes.now)) }
{
    let Some((_allocated, rest)) = split_number(bytes) else {
        return Ok(None);
    };
    match holders(alloc, rest)? {
        Some(items) => Ok(Some(NewObject::Vector(items))),
        None => Ok(None),
    }
}

/// A number of two bytes, and the rest.
#[tactic(auto, unfolding(crate::specs::Inner::Reading::front_read))]
fn split_number(bytes: &[u8]) -> Option<(u16, &[u8])>
    ensures { Gives (λ parts. (parts.0, parts.1.now)) result (count_read bytes.now) }
{
    let (number, rest) = bytes.split_at_checked(2)?;
    Some((number_in(number), rest))
}
