//! Elements and entries by their index, and lists with an element set.
ghost use Rattle.std.specs.Prelude.{◌≡◌, ◌+◌, ◌<◌, ◌≤◌, ◌^◌, IfOk, IfSome};
ghost use Rattle.t3_store.specs.Value.{holder_at};
ghost use Rattle.t3_ops.specs.Values.{integer};
ghost use Rattle.t3_ops.specs.Keys.{key_of};
ghost use Rattle.t3_ops.specs.Making.{IsCarriedOut, when_read, when_in_range};
ghost use Rattle.t3_ops.specs.Indexing.{index_of, element_index_of, element_by, entry_by, list_set, list_with_element_of, vector_index_of};
ghost use Rattle.t3_ops.specs.References.{list_of};
ghost use Rattle.t3_ops.specs.Inner.Outcomes.{made_of, CanBeMade};
ghost use Rattle.t3_ops.specs.Elements.{vector_items, IsVectorOf};
ghost use Rattle.t3_ops.specs.Inner.Containers.{IsTableWith};
ghost use Rattle.t3_ops.specs.Containers.{table_pairs};

use crate::containers::{ContainerRef, container_of, element};
use crate::copying::append_list;
use crate::fault::Fault;
use crate::keys::key;
use crate::ordering::kind_fault;
use crate::outcome::{GREATEST_LENGTH, OpRefusal, Outcome, carry_out, fitting_list, outcome_of};
use crate::values::{ListRef, TextOrListRef, text_or_list};
use std::alloc::Global;
use t3_holder::{Holder, NoMemory};
use t3_pools::Pools;
use t3_store::{ObjectAt, Store};
use t3_undo::{Cell, Key};

/// What a container has at an index: the element of a list or a vector, of which the first has the
/// index 1, or the value of a table under a key, or its default where the key is absent.
///
/// `Stale` where the container is a reference to an object that isn't there, and else `Kind` where
/// it is neither a list, nor a vector, nor a table. Then of a table the faults of [`key`]. Of a
/// list or a vector `Kind` where the index is no integer, then `BadConstant` where it is a constant
/// list that can't be read, then `IndexRange` where there is no such element.
pub fn index(
    alloc: Global,
    container: Holder,
    index: Holder,
    store: &Store,
    pools: &Pools,
) -> Result<Result<Holder, Fault>, NoMemory>
    ensures { IfOk result (λ value. value
        ≡ index_of pools.now.constants store.now.store container index) }
{
    match container_of(store, pools, container) {
        ContainerRef::List(list) => Ok(list_element(list, index, pools)),
        ContainerRef::Vector(vector, length) => Ok(vector_element(&vector, length, index)),
        ContainerRef::Table(table, default) => {
            let key = key(alloc, index, store, pools)?;
            Ok(table_entry(&table, default, key))
        }
        ContainerRef::Other => Ok(Err(kind_fault(store, &[container]))),
    }
}

/// The element of a list.
fn list_element(list: ListRef<'_>, index: Holder, pools: &Pools) -> Result<Holder, Fault>
    ensures { result ≡ element_by (integer index) (list_of pools.now.constants list.entry) }
{
    let Holder::Int(number) = index else {
        return Err(Fault::Kind);
    };
    let Some(list) = list.read(pools) else {
        return Err(Fault::BadConstant);
    };
    match element_index(number) {
        Some(index) => list.element(pools, index as usize).ok_or(Fault::IndexRange),
        None => Err(Fault::IndexRange),
    }
}

/// The element of a vector of so many.
fn vector_element(vector: &ObjectAt<'_>, length: u32, index: Holder) -> Result<Holder, Fault>
    requires { IsVectorOf vector.now length }
    ensures { result ≡ element_by (integer index) (Some (vector_items vector.now)) }
{
    let _ = length;
    let Holder::Int(number) = index else {
        return Err(Fault::Kind);
    };
    match element_index(number) {
        Some(index) => element(vector, index).ok_or(Fault::IndexRange),
        None => Err(Fault::IndexRange),
    }
}

/// The index, from 0 on, of the element of a number, from 1 on.
fn element_index(number: i32) -> Option<u32>
    ensures index { result ≡ element_index_of number }
    ensures fits { IfSome result (λ index. index + 1 < 2 ^ 31) }
{
    if number < 1 {
        return None;
    }
    Some(number.cast_unsigned() - 1)
}

/// The value of a table under a key, or its default.
fn table_entry(
    table: &ObjectAt<'_>,
    default: Holder,
    key: Result<Key, Fault>,
) -> Result<Holder, Fault>
    requires { IsTableWith table.now default }
    ensures { result ≡ entry_by key (table_pairs table.now) default }
{
    match key {
        Ok(key) => Ok(entry(table, key).unwrap_or(default)),
        Err(fault) => Err(fault),
    }
}

/// The value of an object under a key.
fn entry(object: &ObjectAt<'_>, key: Key) -> Option<Holder>
    ensures { result ≡ holder_at object.now (Cell.Key key) }
{
    object.get(&Cell::Key(key))
}

/// A list with the element of an index set to a value, which is a new persistent list. Nothing else
/// changes, and after a refusal nothing has.
///
/// `Stale` where `list` is a reference to an object that isn't there, and else `Kind` where it is
/// no list. Then `Kind` where the index is no integer, then `BadConstant` where the list is a
/// constant that can't be read, then `IndexRange` where there is no such element.
pub fn list_with_element(
    alloc: Global,
    list: Holder,
    index: Holder,
    value: Holder,
    store: &mut Store,
    pools: &Pools,
) -> Result<Holder, OpRefusal>
    ensures carried { IsCarriedOut
        (list_with_element_of pools.now.constants store.old.store list index value)
        store.old.store result store.new.store }
    ensures savepoints { store.new.savepoints ≡ store.old.savepoints }
    ensures writes { store.new.writes ≡ store.old.writes }
{
    let outcome = list_outcome(alloc, list, index, value, store, pools)?;
    carry_out(outcome, store)
}

/// What a list with an element set comes to.
fn list_outcome(
    alloc: Global,
    list: Holder,
    index: Holder,
    value: Holder,
    store: &Store,
    pools: &Pools,
) -> Result<Outcome, NoMemory>
    ensures made { IfOk result (λ outcome. made_of outcome
        ≡ list_with_element_of pools.now.constants store.now.store list index value) }
    ensures can { IfOk result CanBeMade }
{
    match (text_or_list(store, pools, list), index) {
        (TextOrListRef::List(items), Holder::Int(number)) => {
            changed_list(alloc, items, number, value, pools)
        }
        (TextOrListRef::List(_), _) => Ok(Outcome::Fault(Fault::Kind)),
        _ => Ok(Outcome::Fault(kind_fault(store, &[list]))),
    }
}

/// A list with the element of a number set to a value.
fn changed_list(
    alloc: Global,
    list: ListRef<'_>,
    number: i32,
    value: Holder,
    pools: &Pools,
) -> Result<Outcome, NoMemory>
    ensures made { IfOk result (λ outcome. made_of outcome
        ≡ when_read (list_of pools.now.constants list.entry) (λ items.
        when_in_range (element_index_of number) (list_set value items))) }
    ensures can { IfOk result CanBeMade }
{
    let mut items = Vec::new(alloc);
    if !append_list(list, pools, &mut items)? {
        return Ok(Outcome::Fault(Fault::BadConstant));
    }
    match element_index(number) {
        Some(index) => Ok(set_item(items, index as usize, value)),
        None => Ok(Outcome::Fault(Fault::IndexRange)),
    }
}

/// A new list of these items, with the one of an index, from 0 on, set.
fn set_item(mut items: Vec<Holder>, index: usize, value: Holder) -> Outcome
    ensures made { made_of result ≡ list_set value items.items index }
    ensures can { CanBeMade result }
{
    if index >= items.len() {
        return Outcome::Fault(Fault::IndexRange);
    }
    items[index] = value;
    outcome_of(fitting_list(items))
}

/// The number of an element that a vector may have: from 1 to 65,535. `Kind` where the index is no
/// integer, and then `IndexRange`.
pub fn vector_index(index: Holder) -> Result<u32, Fault>
    ensures index { result ≡ vector_index_of (integer index) }
    ensures within { IfOk result (λ number. (0 < number) × (number ≤ 65535)) }
{
    let Holder::Int(number) = index else {
        return Err(Fault::Kind);
    };
    if number < 1 || number > GREATEST_LENGTH as i32 {
        return Err(Fault::IndexRange);
    }
    Ok(number.cast_unsigned())
}
