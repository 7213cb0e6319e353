//! Carrying out a method by its kind and index.
ghost use Rattle.std.specs.Prelude.{◌≡◌, ◌+◌, ◌<◌, ◌≤◌, ◌^◌, IsTrue, Err};
ghost use Rattle.t3_ops.specs.declared.fault.Fault.{Fault as AnyFault};
ghost use Rattle.t3_ops.specs.declared.outcome.OpRefusal.TheVariants as refusals;
ghost use Rattle.t3_kinds.specs.Changes.{HasDone};
ghost use Rattle.t3_kinds.specs.Deeds.{when_text, when_list};
ghost use Rattle.t3_kinds.specs.VectorMethods.{when_vector};
ghost use Rattle.t3_kinds.specs.TableMethods.{when_table};
ghost use Rattle.t3_kinds.specs.Methods.{is_listed, listed_deed, counted_deed, method_deed, text_deed, list_deed, vector_deed, table_deed};
ghost use Rattle.t3_kinds.specs.Inner.Deeds.{Comes, ComesWith};

use crate::deed::{Came, carry_out};
use crate::lists::list_deed;
use crate::methods::{
    ListMethod, Method, Methods, TableMethod, TextMethod, VectorMethod, method_at, takes,
};
use crate::root::root_deed;
use crate::tables::{table_at, table_deed};
use crate::tads::tads_deed;
use crate::texts::text_deed;
use crate::vectors::{vector_at, vector_deed};
use std::alloc::Global;
use t3_holder::{Holder, NoMemory};
use t3_ops::{Fault, OpRefusal, TextOrListRef, kind_fault, text_or_list};
use t3_pools::Pools;
use t3_store::Store;

/// Carries out the method of an index of a metaclass on a value, and gives its answer. The first
/// argument is the topmost operand. The turns are those that comparisons have, and after an `Ok`
/// those that they leave.
///
/// After a fault nothing has changed. After `Full` the store has the method's creations and writes
/// that come before the first for which there was no room; after `NoMemory` it has the first some of
/// them. `ArgCount` comes where there are fewer or more arguments than the method takes.
pub fn listed_method(
    alloc: Global,
    kind: Methods,
    index: u16,
    me: Holder,
    args: &[Holder],
    store: &mut Store,
    pools: &Pools,
    turns: &mut u32,
) -> Result<Holder, OpRefusal>
    requires listed { IsTrue (is_listed kind index) }
    requires few { store.old.writes + 2 ^ 17 ≤ 2 ^ 63 }
    ensures done { HasDone (listed_deed pools.now.constants store.old.store turns.old kind index me
        args.now) store.old.store result store.new.store turns.new }
    ensures fault { (fault : AnyFault) → result ≡ Err (refusals.Fault fault) → store.new ≡ store.old }
    ensures writes { store.new.writes < store.old.writes + 2 ^ 17 }
    ensures savepoints { store.new.savepoints ≡ store.old.savepoints }
{
    let Some(method) = method_at(kind, index) else {
        return Err(OpRefusal::Fault(Fault::NoMethod));
    };
    match counted_deed(alloc, method, me, args, store, pools, turns)? {
        Ok(deed) => carry_out(deed, store),
        Err(fault) => Err(OpRefusal::Fault(fault)),
    }
}

/// What a method comes to. The arguments are counted before the method is looked at.
fn counted_deed(
    alloc: Global,
    method: Method,
    me: Holder,
    args: &[Holder],
    store: &Store,
    pools: &Pools,
    turns: &mut u32,
) -> Result<Came, NoMemory>
    ensures { ComesWith (counted_deed pools.now.constants store.now.store turns.old method me
        args.now) store.now.store result turns.new }
{
    if !takes(method, args.len()) {
        return Ok(Err(Fault::ArgCount));
    }
    method_deed(alloc, method, me, args, store, pools, turns)
}

/// What a method comes to that gets as many arguments as it takes.
#[tactic(auto, using(crate::proofs::Coming::comes_with), unfolding(crate::specs::Methods::method_deed))]
fn method_deed(
    alloc: Global,
    method: Method,
    me: Holder,
    args: &[Holder],
    store: &Store,
    pools: &Pools,
    turns: &mut u32,
) -> Result<Came, NoMemory>
    ensures { ComesWith (method_deed pools.now.constants store.now.store turns.old method me
        args.now) store.now.store result turns.new }
{
    match method {
        Method::Root(method) => root_deed(alloc, method, me, args, store),
        Method::Tads(method) => tads_deed(alloc, method, me, store),
        Method::Text(method) => deed_of_text(alloc, method, me, args, store, pools),
        Method::List(method) => deed_of_list(alloc, method, me, args, store, pools, turns),
        Method::Vector(method) => deed_of_vector(alloc, method, me, args, store, pools, turns),
        Method::Table(method) => deed_of_table(alloc, method, me, args, store, pools),
    }
}

/// What a method of texts comes to.
fn deed_of_text(
    alloc: Global,
    method: TextMethod,
    me: Holder,
    args: &[Holder],
    store: &Store,
    pools: &Pools,
) -> Result<Came, NoMemory>
    ensures { Comes (when_text pools.now.constants store.now.store me
        (text_deed pools.now.constants store.now.store method args.now)) store.now.store result }
{
    match text_or_list(store, pools, me) {
        TextOrListRef::Text(text) => text_deed(alloc, method, text, args, store, pools),
        TextOrListRef::List(_) | TextOrListRef::Neither => Ok(Err(kind_fault(store, &[me]))),
    }
}

/// What a method of lists comes to.
fn deed_of_list(
    alloc: Global,
    method: ListMethod,
    me: Holder,
    args: &[Holder],
    store: &Store,
    pools: &Pools,
    turns: &mut u32,
) -> Result<Came, NoMemory>
    ensures { ComesWith (when_list pools.now.constants store.now.store me
        (list_deed pools.now.constants store.now.store turns.old method args.now))
        store.now.store result turns.new }
{
    match text_or_list(store, pools, me) {
        TextOrListRef::List(list) => list_deed(alloc, method, list, args, store, pools, turns),
        TextOrListRef::Text(_) | TextOrListRef::Neither => Ok(Err(kind_fault(store, &[me]))),
    }
}

/// What a method of vectors comes to.
fn deed_of_vector(
    alloc: Global,
    method: VectorMethod,
    me: Holder,
    args: &[Holder],
    store: &Store,
    pools: &Pools,
    turns: &mut u32,
) -> Result<Came, NoMemory>
    ensures { ComesWith (when_vector store.now.store me
        (vector_deed pools.now.constants store.now.store turns.old method args.now))
        store.now.store result turns.new }
{
    match vector_at(store, me) {
        Some(vector) => vector_deed(alloc, method, vector, args, store, pools, turns),
        None => Ok(Err(kind_fault(store, &[me]))),
    }
}

/// What a method of tables comes to.
fn deed_of_table(
    alloc: Global,
    method: TableMethod,
    me: Holder,
    args: &[Holder],
    store: &Store,
    pools: &Pools,
) -> Result<Came, NoMemory>
    ensures { Comes (when_table store.now.store me
        (table_deed pools.now.constants store.now.store method args.now)) store.now.store result }
{
    match table_at(store, me) {
        Some(table) => table_deed(alloc, method, table, args, store, pools),
        None => Ok(Err(kind_fault(store, &[me]))),
    }
}
