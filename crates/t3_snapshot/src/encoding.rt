ghost use Rattle.std.specs.Prelude.{◌≡◌, ◌++◌, ◌<◌, ◌^◌, ◌∷◌, ◌+◌, ℕ, List, Some, None, IfOk, OnOk, map, length, unwrap_or};
ghost use Rattle.std.specs.FinMap.{get, keys, entries};
ghost use Rattle.std.specs.List.{flat_map, AllByRecursion};
ghost use Rattle.t3_holder.specs.NumberText.{little_endian};
ghost use Rattle.t3_holder.specs.declared.holder.Holder.{Holder as AnyHolder};
ghost use Rattle.t3_holder.specs.declared.holder.Holder.TheVariants.{Nil};
ghost use Rattle.t3_undo.specs.declared.cell.Cell.TheVariants.{Default, Elem};
ghost use Rattle.t3_store.specs.Value.{Vector, Items, Text, Table, holder_at};
ghost use Rattle.t3_tadsobj.specs.Props.{pair_of};
ghost use Rattle.t3_snapshot.specs.Layout.{class_text, value_text, IsSpellable, IsProp, AreCounted};
ghost use Rattle.t3_snapshot.specs.State.{One, trimmed, trimmed_value, trimmed_prop, saved, IsSoundState, head_text, body_text, with_digest};
ghost use Rattle.t3_snapshot.specs.Inner.Writing.{WritableAt, IsWritable, trimmed_text, tads_written, object_written};

use crate::append::{
    append_bytes, append_holder, append_list, append_props, append_supers, append_table,
};
use sha2::{Digest, Sha256};
use std::alloc::Global;
use t3_holder::{Holder, NoMemory, u16_bytes, u32_bytes};
use t3_store::{ObjectAt, ObjectsRef, Persistent};
use t3_tables::Pair;
use t3_tadsobj::PropValue;
use t3_undo::Cell;

/// The bytes of a state without what refers to what isn't there: nil for a reference that names no object of
/// the state, and no entry of a table under such a key.
///
/// docs/SAVED_STATE.md has the layout. The fingerprint is that of the image, and `next` is the next number of
/// a persistent object.
pub fn encode(
    alloc: Global,
    state: &Persistent,
    fingerprint: &[u8; 32],
    next: u32,
) -> Result<Vec<u8>, NoMemory>
    requires { IsSoundState (trimmed state.now) next }
    ensures { IfOk result (λ bytes.
        bytes.items ≡ saved One (trimmed state.now) fingerprint.now next) }
{
    encode_objects(alloc, &state.as_objects(), fingerprint, next)
}

/// The same of objects that are lent, without a copy of them.
pub fn encode_objects(
    alloc: Global,
    state: &ObjectsRef<'_>,
    fingerprint: &[u8; 32],
    next: u32,
) -> Result<Vec<u8>, NoMemory>
    requires { IsSoundState (trimmed state.now) next }
    ensures { IfOk result (λ bytes.
        bytes.items ≡ saved One (trimmed state.now) fingerprint.now next) }
{
    let mut out = Vec::new(alloc);
    append_state(alloc, state, fingerprint, next, &mut out)?;
    append_digest(&mut out)?;
    Ok(out)
}

/// Appends the digest of what is there.
#[tactic(auto, unfolding(crate::specs::State::with_digest))]
fn append_digest(out: &mut Vec<u8>) -> Result<(), NoMemory>
    ensures { OnOk result (out.new.items ≡ with_digest out.old.items) }
{
    let digest = Sha256::digest(out.as_slice());
    out.extend_from_slice(&digest)?;
    Ok(())
}

/// Appends all but the digest.
fn append_state(
    alloc: Global,
    state: &ObjectsRef<'_>,
    fingerprint: &[u8; 32],
    next: u32,
    out: &mut Vec<u8>,
) -> Result<(), NoMemory>
    requires { IsSoundState (trimmed state.now) next }
    ensures { OnOk result (out.new.items ≡ out.old.items
        ++ (head_text One fingerprint.now ++ body_text One next (entries (trimmed state.now)))) }
{
    let numbers = numbers_of(alloc, state)?;
    append_head(fingerprint, out)?;
    append_counts(next, numbers.len() as u32, out)?;
    append_objects(alloc, state, &numbers, out)?;
    Ok(())
}

/// Appends the signature, the version and the fingerprint.
#[tactic(auto, unfolding(crate::specs::State::head_text, crate::specs::State::signature))]
fn append_head(fingerprint: &[u8; 32], out: &mut Vec<u8>) -> Result<(), NoMemory>
    ensures { OnOk result (out.new.items ≡ out.old.items ++ head_text One fingerprint.now) }
{
    out.extend_from_slice(b"t3state\n")?;
    out.extend_from_slice(&u16_bytes(1))?;
    out.extend_from_slice(fingerprint)?;
    Ok(())
}

/// Appends the next number and the object count.
fn append_counts(next: u32, count: u32, out: &mut Vec<u8>) -> Result<(), NoMemory>
    ensures { OnOk result (out.new.items
        ≡ out.old.items ++ (little_endian 4 next ++ little_endian 4 count)) }
{
    out.extend_from_slice(&u32_bytes(next))?;
    out.extend_from_slice(&u32_bytes(count))?;
    Ok(())
}

/// The numbers of all objects, rising.
fn numbers_of(alloc: Global, state: &ObjectsRef<'_>) -> Result<Vec<u32>, NoMemory>
    requires { get state.now 0 ≡ None }
    ensures { IfOk result (λ numbers. numbers.items ≡ keys state.now) }
{
    let mut numbers = Vec::new(alloc);
    let mut number = 0;
    while let Some(next) = state.after(number) {
        numbers.push(next)?;
        number = next;
    }
    Ok(numbers)
}

/// Appends objects.
fn append_objects(
    alloc: Global,
    state: &ObjectsRef<'_>,
    numbers: &[u32],
    out: &mut Vec<u8>,
) -> Result<(), NoMemory>
    requires { AllByRecursion (IsWritable state.now) numbers.now }
    ensures { OnOk result (out.new.items
        ≡ out.old.items ++ flat_map (object_written state.now) numbers.now) }
{
    for number in numbers {
        let number = *number;
        append_object(alloc, state, number, out)?;
    }
    Ok(())
}

/// Appends an object: its number and its value.
#[tactic(auto, unfolding(crate::specs::Inner::Writing::object_written))]
fn append_object(
    alloc: Global,
    state: &ObjectsRef<'_>,
    number: u32,
    out: &mut Vec<u8>,
) -> Result<(), NoMemory>
    requires { IsWritable state.now number }
    ensures { OnOk result (out.new.items ≡ out.old.items ++ object_written state.now number) }
{
    let object = state.at(number);
    out.extend_from_slice(&u32_bytes(number))?;
    append_value(alloc, state, &object, out)?;
    Ok(())
}

/// Appends the value of an object.
fn append_value(
    alloc: Global,
    state: &ObjectsRef<'_>,
    object: &ObjectAt<'_>,
    out: &mut Vec<u8>,
) -> Result<(), NoMemory>
    requires { WritableAt state.now object.now }
    ensures { OnOk result (out.new.items ≡ out.old.items ++ trimmed_text state.now object.now) }
{
    if let Some(supers) = object.supers() {
        let props = object.props(alloc)?;
        let class = object.is_class();
        return append_tads_value(state, supers, class, props.items(), out);
    }
    if let Some(bytes) = object.text() {
        return append_string_value(state, bytes, out);
    }
    if let Some(items) = object.items() {
        return append_list_value(state, items, out);
    }
    if let Some(count) = object.length() {
        let items = elements(alloc, object, count)?;
        return append_vector_value(state, &items, out);
    }
    let pairs = object.entries(alloc)?;
    append_table_value(state, pairs.items(), default_of(object), out)
}

/// Appends a tads-object: its kind, its flags, its superclasses, its properties.
#[tactic(auto, unfolding(crate::specs::Inner::Writing::tads_written))]
fn append_tads_value(
    state: &ObjectsRef<'_>,
    supers: &[u32],
    class: bool,
    props: &[PropValue],
    out: &mut Vec<u8>,
) -> Result<(), NoMemory>
    requires few { length supers.now < 2 ^ 16 }
    requires props { AreCounted 2 IsProp (map (trimmed_prop state.now) (map pair_of props.now)) }
    ensures { OnOk result (out.new.items
        ≡ out.old.items ++ tads_written state.now supers.now class (map pair_of props.now)) }
{
    out.push(1)?;
    append_class(class, out)?;
    append_supers(supers, out)?;
    append_props(state, props, out)?;
    Ok(())
}

/// Appends the flags of a tads-object.
#[tactic(auto, unfolding(crate::specs::Layout::class_text))]
fn append_class(class: bool, out: &mut Vec<u8>) -> Result<(), NoMemory>
    ensures { OnOk result (out.new.items ≡ out.old.items ++ class_text class) }
{
    out.extend_from_slice(&u16_bytes(u16::from(class)))?;
    Ok(())
}

/// Appends a string: its kind, its bytes.
#[tactic(auto, unfolding(crate::specs::Layout::value_text))]
fn append_string_value(
    state: &ObjectsRef<'_>,
    bytes: &[u8],
    out: &mut Vec<u8>,
) -> Result<(), NoMemory>
    requires { IsSpellable (trimmed_value state.now (Text bytes.now)) }
    ensures { OnOk result (out.new.items
        ≡ out.old.items ++ value_text (trimmed_value state.now (Text bytes.now))) }
{
    let _ = state;
    out.push(2)?;
    append_bytes(bytes, out)?;
    Ok(())
}

/// Appends a list: its kind, its items.
#[tactic(auto, unfolding(crate::specs::Layout::value_text))]
fn append_list_value(
    state: &ObjectsRef<'_>,
    items: &[Holder],
    out: &mut Vec<u8>,
) -> Result<(), NoMemory>
    requires { IsSpellable (trimmed_value state.now (Items items.now)) }
    ensures { OnOk result (out.new.items
        ≡ out.old.items ++ value_text (trimmed_value state.now (Items items.now))) }
{
    out.push(3)?;
    append_list(state, items, out)?;
    Ok(())
}

/// Appends a vector: its kind, its elements.
#[tactic(auto, unfolding(crate::specs::Layout::value_text))]
fn append_vector_value(
    state: &ObjectsRef<'_>,
    items: &[Holder],
    out: &mut Vec<u8>,
) -> Result<(), NoMemory>
    requires { IsSpellable (trimmed_value state.now (Vector items.now)) }
    ensures { OnOk result (out.new.items
        ≡ out.old.items ++ value_text (trimmed_value state.now (Vector items.now))) }
{
    out.push(4)?;
    append_list(state, items, out)?;
    Ok(())
}

/// Appends a table: its kind, its default, its entries.
#[tactic(auto, unfolding(crate::specs::Layout::value_text))]
fn append_table_value(
    state: &ObjectsRef<'_>,
    pairs: &[Pair],
    default: Holder,
    out: &mut Vec<u8>,
) -> Result<(), NoMemory>
    requires { IsSpellable (trimmed_value state.now (Table pairs.now default)) }
    ensures { OnOk result (out.new.items
        ≡ out.old.items ++ value_text (trimmed_value state.now (Table pairs.now default))) }
{
    out.push(5)?;
    append_holder(state, default, out)?;
    append_table(state, pairs, out)?;
    Ok(())
}

/// The default of a table.
fn default_of(object: &ObjectAt<'_>) -> Holder
    ensures { result ≡ unwrap_or (holder_at object.now Default) Nil }
{
    object.get(&Cell::Default).unwrap_or(Holder::Nil)
}

/// The elements of a vector.
fn elements(alloc: Global, object: &ObjectAt<'_>, count: u32) -> Result<Vec<Holder>, NoMemory>
    requires { (items : List AnyHolder) × (object.now ≡ Some (Vector items))
        × (count ≡ length items) }
    ensures { IfOk result (λ holders. object.now ≡ Some (Vector holders.items)) }
{
    let mut holders = Vec::new(alloc);
    for index in 0..count {
        holders.push(element(object, index))?;
    }
    Ok(holders)
}

/// An element of a vector, from 0 on.
fn element(object: &ObjectAt<'_>, index: u32) -> Holder
    requires { index + 1 < 2 ^ 32 }
    ensures { result ≡ unwrap_or (holder_at object.now (Elem (index + 1))) Nil }
{
    object.get(&Cell::Elem(index + 1)).unwrap_or(Holder::Nil)
}
