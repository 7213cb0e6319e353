//! The methods of vectors.
ghost use Rattle.std.specs.Prelude.{◌≡◌, ◌≤◌, ◌<◌, ◌+◌, ◌-◌, IfOk, length, replicate, drop};
ghost use Rattle.t3_holder.specs.declared.holder.Holder.TheVariants.{Nil};
ghost use Rattle.t3_ops.specs.Elements.{vector_items, IsVectorOf};
ghost use Rattle.t3_kinds.specs.Methods.{vector_deed};
ghost use Rattle.t3_kinds.specs.VectorMethods.{vector_of, to_list_of, answers_self, set_length_of, length_changes, elements_set, elements_taken, remove_element_of, removal, removing_changes, vector_append_of};
ghost use Rattle.t3_kinds.specs.Inner.Deeds.{changes_of, Comes, ComesWith};
ghost use Rattle.t3_kinds.specs.Inner.Selves.{IsVectorAt, FindsVector};

use crate::deed::{Came, Change, Deed, answer_count, answer_new, first};
use crate::lists::{Elements, index_in};
use crate::methods::VectorMethod;
use crate::part::skipped;
use std::alloc::Global;
use t3_holder::{Holder, NoMemory};
use t3_ops::{Fault, append_vector, count, fitting_list};
use t3_pools::Pools;
use t3_store::{ObjectAt, Store};
use t3_undo::Cell;

/// How many elements a vector has at most.
const GREATEST_LENGTH: u32 = 65_535;

/// A vector, with its number and its length.
#[derive(Drop)]
pub(crate) struct VectorAt<'o> {
    number: u32,
    object: ObjectAt<'o>,
    length: u32,
}

/// The vector that a value is.
pub(crate) fn vector_at(store: &Store, me: Holder) -> Option<VectorAt<'_>>
    ensures { FindsVector store.now.store (vector_of store.now.store me) result }
{
    let Holder::Obj(number) = me else {
        return None;
    };
    let object = store.at(number);
    let length = object.length()?;
    Some(VectorAt {
        number,
        object,
        length,
    })
}

/// What a method comes to on a vector. A comparison takes turns.
pub(crate) fn vector_deed(
    alloc: Global,
    method: VectorMethod,
    vector: VectorAt<'_>,
    args: &[Holder],
    store: &Store,
    pools: &Pools,
    turns: &mut u32,
) -> Result<Came, NoMemory>
    requires { IsVectorAt store.now.store vector }
    ensures { ComesWith (vector_deed pools.now.constants store.now.store turns.old method args.now
        vector.entry.number (vector_items vector.entry.object)) store.now.store result turns.new }
{
    match method {
        VectorMethod::ToList => to_list(alloc, &vector, store),
        VectorMethod::Length => Ok(answer_count(alloc, vector.length as usize)),
        VectorMethod::IndexOf => {
            let elements = Elements::Vector(vector.object, vector.length);
            index_in(alloc, &elements, first(args), store, pools, turns)
        }
        VectorMethod::SetLength => set_length(alloc, &vector, first(args), store),
        VectorMethod::RemoveElementAt => remove_element(alloc, &vector, first(args), store),
        VectorMethod::Append => append(alloc, &vector, first(args), store),
    }
}

/// A new list of the elements.
fn to_list(alloc: Global, vector: &VectorAt<'_>, store: &Store) -> Result<Came, NoMemory>
    requires { IsVectorAt store.now.store vector.now }
    ensures { Comes (to_list_of store.now.store (vector_items vector.now.object)) store.now.store
        result }
{
    let mut items = Vec::new(alloc);
    append_vector(&vector.object, vector.length, &mut items)?;
    answer_new(alloc, fitting_list(items), store)
}

fn set_length(
    alloc: Global,
    vector: &VectorAt<'_>,
    wanted: Holder,
    store: &Store,
) -> Result<Came, NoMemory>
    requires { IsVectorAt store.now.store vector.now }
    ensures { Comes (set_length_of vector.now.number (vector_items vector.now.object) wanted)
        store.now.store result }
{
    let Holder::Int(wanted) = wanted else {
        return Ok(Err(Fault::Kind));
    };
    match count(wanted) {
        Some(wanted) => resized(alloc, vector, wanted, store),
        None => Ok(Err(Fault::IndexRange)),
    }
}

/// The vector gets that length.
fn resized(
    alloc: Global,
    vector: &VectorAt<'_>,
    wanted: u16,
    store: &Store,
) -> Result<Came, NoMemory>
    requires { IsVectorAt store.now.store vector.now }
    ensures { Comes (answers_self vector.now.number (length_changes vector.now.number
        (length (vector_items vector.now.object)) wanted)) store.now.store result }
{
    let _ = store;
    let changes = length_changes(alloc, vector.number, vector.length, u32::from(wanted))?;
    Ok(Ok(Deed {
        changes,
        answer: Holder::Obj(vector.number),
    }))
}

/// The changes by which a vector of that length gets the wanted one.
fn length_changes(
    alloc: Global,
    object: u32,
    length: u32,
    wanted: u32,
) -> Result<Vec<Change>, NoMemory>
    requires length { length ≤ 65535 }
    requires wanted { wanted ≤ 65535 }
    ensures { IfOk result (λ changes. changes_of changes.items
        ≡ length_changes object length wanted) }
{
    if length < wanted {
        nil_elements(alloc, object, length + 1, wanted - length)
    } else {
        taken_elements(alloc, object, length, length - wanted)
    }
}

/// So many elements are set to nil, from the one of a number on.
fn nil_elements(alloc: Global, object: u32, first: u32, count: u32) -> Result<Vec<Change>, NoMemory>
    requires { first + count ≤ 65536 }
    ensures { IfOk result (λ changes. changes_of changes.items
        ≡ elements_set object first (replicate count Nil)) }
{
    let mut changes = Vec::with_capacity(alloc, count as usize)?;
    for index in 0..count {
        changes.push(Change::Write(object, Cell::Elem(first + index), Some(Holder::Nil)))?;
    }
    Ok(changes)
}

/// So many elements are taken away, of which the last one has that number.
fn taken_elements(
    alloc: Global,
    object: u32,
    last: u32,
    count: u32,
) -> Result<Vec<Change>, NoMemory>
    requires { count ≤ last }
    ensures { IfOk result (λ changes. changes_of changes.items ≡ elements_taken object last count) }
{
    let mut changes = Vec::with_capacity(alloc, count as usize)?;
    for index in 0..count {
        changes.push(Change::Write(object, Cell::Elem(last - index), None))?;
    }
    Ok(changes)
}

fn remove_element(
    alloc: Global,
    vector: &VectorAt<'_>,
    at: Holder,
    store: &Store,
) -> Result<Came, NoMemory>
    requires { IsVectorAt store.now.store vector.now }
    ensures { Comes (remove_element_of vector.now.number (vector_items vector.now.object) at)
        store.now.store result }
{
    let Holder::Int(at) = at else {
        return Ok(Err(Fault::Kind));
    };
    match skipped(at) {
        Some(index) => removal(alloc, vector, index, store),
        None => Ok(Err(Fault::IndexRange)),
    }
}

/// The element of an index is removed, from 0 on.
fn removal(
    alloc: Global,
    vector: &VectorAt<'_>,
    index: usize,
    store: &Store,
) -> Result<Came, NoMemory>
    requires { IsVectorAt store.now.store vector.now }
    ensures { Comes (removal vector.now.number (vector_items vector.now.object) index)
        store.now.store result }
{
    let _ = store;
    if index >= vector.length as usize {
        return Ok(Err(Fault::IndexRange));
    }
    let changes = removing_changes(alloc, vector, index as u32)?;
    Ok(Ok(Deed {
        changes,
        answer: Holder::Obj(vector.number),
    }))
}

/// The changes by which the element of an index is removed.
fn removing_changes(
    alloc: Global,
    vector: &VectorAt<'_>,
    index: u32,
) -> Result<Vec<Change>, NoMemory>
    requires vector { IsVectorOf vector.now.object vector.now.length }
    requires few { vector.now.length ≤ 65535 }
    requires within { index < vector.now.length }
    ensures { IfOk result (λ changes. changes_of changes.items
        ≡ removing_changes vector.now.number (vector_items vector.now.object) index) }
{
    let mut changes = moved_elements(alloc, vector, index + 1)?;
    changes.push(Change::Write(vector.number, Cell::Elem(vector.length), None))?;
    Ok(changes)
}

/// Each element from that of a number on is set to the one after it.
fn moved_elements(alloc: Global, vector: &VectorAt<'_>, first: u32) -> Result<Vec<Change>, NoMemory>
    requires vector { IsVectorOf vector.now.object vector.now.length }
    requires few { vector.now.length ≤ 65535 }
    ensures { IfOk result (λ changes. changes_of changes.items
        ≡ elements_set vector.now.number first (drop first (vector_items vector.now.object))) }
{
    let mut changes = Vec::new(alloc);
    for number in first..vector.length {
        let next = vector.object.get(&Cell::Elem(number + 1));
        changes.push(Change::Write(vector.number, Cell::Elem(number), next))?;
    }
    Ok(changes)
}

/// One more element.
fn append(
    alloc: Global,
    vector: &VectorAt<'_>,
    value: Holder,
    store: &Store,
) -> Result<Came, NoMemory>
    requires { IsVectorAt store.now.store vector.now }
    ensures { Comes (vector_append_of vector.now.number (vector_items vector.now.object) value)
        store.now.store result }
{
    let _ = store;
    if vector.length >= GREATEST_LENGTH {
        return Ok(Err(Fault::ListLong));
    }
    let mut changes = Vec::new(alloc);
    let cell = Cell::Elem(vector.length + 1);
    changes.push(Change::Write(vector.number, cell, Some(value)))?;
    Ok(Ok(Deed {
        changes,
        answer: Holder::Obj(vector.number),
    }))
}
