//! The methods of lists, and the search for an element.
ghost use Rattle.std.specs.Prelude.{◌≡◌, ◌+◌, ◌<◌, ◌≤◌, ◌^◌, List, IfOk, IfSome, length, take, slice_get};
ghost use Rattle.t3_holder.specs.declared.holder.Holder.{Holder};
ghost use Rattle.t3_ops.specs.References.{list_of, elements_of, IsListItems};
ghost use Rattle.t3_kinds.specs.Methods.{list_deed};
ghost use Rattle.t3_kinds.specs.ListMethods.{list_length_of, sublist_of, list_append_of, list_index_of, part_of_list, items_in, items_at_most, index_of, found_from};
ghost use Rattle.t3_kinds.specs.Inner.Deeds.{came_of, Comes, ComesWith, CanBeCarriedOut};
ghost use Rattle.t3_kinds.specs.Inner.Selves.{elements_by, AreElements, IsFound};
ghost use Rattle.t3_store.specs.Store.{StoreValue};

use crate::deed::{Came, answer, answer_count, answer_new, first, second};
use crate::methods::ListMethod;
use crate::part::{Part, part_from};
use std::alloc::Global;
use t3_holder::{Holder, NoMemory};
use t3_ops::{EqualRefusal, Fault, ListItems, ListRef, append_list, equal, fitting_list};
use t3_pools::Pools;
use t3_store::{ObjectAt, Store};
use t3_undo::Cell;

/// What a method comes to on a list. A comparison takes turns.
pub(crate) fn list_deed(
    alloc: Global,
    method: ListMethod,
    list: ListRef<'_>,
    args: &[Holder],
    store: &Store,
    pools: &Pools,
    turns: &mut u32,
) -> Result<Came, NoMemory>
    ensures { ComesWith (list_deed pools.now.constants store.now.store turns.old method args.now
        (list_of pools.now.constants list.entry)) store.now.store result turns.new }
{
    match method {
        ListMethod::Length => Ok(list_length(alloc, list, pools)),
        ListMethod::Sublist => sublist(alloc, list, first(args), second(args), store, pools),
        ListMethod::IndexOf => list_index(alloc, list, first(args), store, pools, turns),
        ListMethod::Append => list_append(alloc, list, first(args), store, pools),
    }
}

fn list_length(alloc: Global, list: ListRef<'_>, pools: &Pools) -> Came
    ensures deed { came_of result ≡ list_length_of (list_of pools.now.constants list.entry) }
    ensures can { (store : StoreValue) → CanBeCarriedOut result store }
{
    match list.read(pools) {
        Some(items) => answer_count(alloc, items.len(pools)),
        None => Err(Fault::BadConstant),
    }
}

fn sublist(
    alloc: Global,
    list: ListRef<'_>,
    from: Holder,
    count: Option<Holder>,
    store: &Store,
    pools: &Pools,
) -> Result<Came, NoMemory>
    ensures { Comes (sublist_of store.now.store (list_of pools.now.constants list.entry) from count)
        store.now.store result }
{
    match part_from(from, count) {
        Ok(part) => part_of_list(alloc, list, part, store, pools),
        Err(fault) => Ok(Err(fault)),
    }
}

/// A new list of a part of a list.
fn part_of_list(
    alloc: Global,
    list: ListRef<'_>,
    part: Part,
    store: &Store,
    pools: &Pools,
) -> Result<Came, NoMemory>
    ensures { Comes (part_of_list store.now.store (list_of pools.now.constants list.entry) part)
        store.now.store result }
{
    match list.read(pools) {
        Some(items) => {
            let found = items_in(alloc, part, items, pools)?;
            answer_new(alloc, fitting_list(found), store)
        }
        None => Ok(Err(Fault::BadConstant)),
    }
}

/// The items of a part.
fn items_in(
    alloc: Global,
    part: Part,
    items: ListItems<'_>,
    pools: &Pools,
) -> Result<Vec<Holder>, NoMemory>
    requires { IsListItems pools.now.constants items }
    ensures { IfOk result (λ found. found.items
        ≡ items_in part (elements_of pools.now.constants items.entry)) }
{
    let count = most(part.count, items.len(pools));
    let mut found = Vec::new(alloc);
    let mut index = part.skipped;
    while found.len() < count {
        let Some(item) = items.element(pools, index) else {
            return Ok(found);
        };
        found.push(item)?;
        index += 1;
    }
    Ok(found)
}

/// How many items there are at most in a part of so many.
fn most(count: Option<usize>, all: usize) -> usize
    ensures { (items : List Holder) → length items ≤ all
        → items_at_most count items ≡ take result items }
{
    match count {
        Some(count) => count,
        None => all,
    }
}

/// A new list with a value after the elements.
fn list_append(
    alloc: Global,
    list: ListRef<'_>,
    value: Holder,
    store: &Store,
    pools: &Pools,
) -> Result<Came, NoMemory>
    ensures { Comes (list_append_of store.now.store (list_of pools.now.constants list.entry) value)
        store.now.store result }
{
    let mut items = Vec::new(alloc);
    if !append_list(list, pools, &mut items)? {
        return Ok(Err(Fault::BadConstant));
    }
    items.push(value)?;
    answer_new(alloc, fitting_list(items), store)
}

fn list_index(
    alloc: Global,
    list: ListRef<'_>,
    value: Holder,
    store: &Store,
    pools: &Pools,
    turns: &mut u32,
) -> Result<Came, NoMemory>
    ensures { ComesWith (list_index_of pools.now.constants store.now.store turns.old
        (list_of pools.now.constants list.entry) value) store.now.store result turns.new }
{
    match list.read(pools) {
        Some(items) => index_in(alloc, &Elements::List(items), value, store, pools, turns),
        None => Ok(Err(Fault::BadConstant)),
    }
}

/// The elements of a list or a vector.
#[derive(Drop)]
pub(crate) enum Elements<'o> {
    List(ListItems<'o>),
    /// With how many it has.
    Vector(ObjectAt<'o>, u32),
}

impl<'o> Elements<'o> {
    /// The element of an index, from 0 on.
    fn element(&self, pools: &Pools, index: usize) -> Option<Holder>
        requires { AreElements pools.now.constants self.now }
        ensures element { result ≡ slice_get (elements_by pools.now.constants self.now) index }
        ensures fits { IfSome result (λ _. index + 1 < 2 ^ 64) }
    {
        match self {
            Elements::List(items) => items.element(pools, index),
            Elements::Vector(object, length) => {
                if index >= *length as usize {
                    return None;
                }
                object.get(&Cell::Elem(index as u32 + 1))
            }
        }
    }
}

/// The number of the first equal element, or nil.
pub(crate) fn index_in(
    alloc: Global,
    elements: &Elements<'_>,
    value: Holder,
    store: &Store,
    pools: &Pools,
    turns: &mut u32,
) -> Result<Came, NoMemory>
    requires { AreElements pools.now.constants elements.now }
    ensures { ComesWith (index_of pools.now.constants store.now.store turns.old value
        (elements_by pools.now.constants elements.now)) store.now.store result turns.new }
{
    match find(alloc, elements, value, store, pools, turns)? {
        Ok(Some(number)) => Ok(answer_count(alloc, number)),
        Ok(None) => Ok(answer(alloc, Holder::Nil)),
        Err(fault) => Ok(Err(fault)),
    }
}

/// The number of the first equal element, from 1 on.
fn find(
    alloc: Global,
    elements: &Elements<'_>,
    value: Holder,
    store: &Store,
    pools: &Pools,
    turns: &mut u32,
) -> Result<Result<Option<usize>, Fault>, NoMemory>
    requires { AreElements pools.now.constants elements.now }
    ensures { IsFound (found_from pools.now.constants store.now.store turns.old value 1
        (elements_by pools.now.constants elements.now)) result turns.new }
{
    let mut index = 0;
    while let Some(element) = elements.element(pools, index) {
        index += 1;
        match equal(alloc, value, element, store, pools, turns) {
            Ok(true) => return Ok(Ok(Some(index))),
            Ok(false) => {}
            Err(EqualRefusal::Fault(fault)) => return Ok(Err(fault)),
            Err(EqualRefusal::NoMemory) => return Err(NoMemory),
        }
    }
    Ok(Ok(None))
}
