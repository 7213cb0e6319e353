//! Elements of lists and vectors, and entries of tables, by their index.
ghost use Rattle.std.specs.Prelude.{◌≡◌, ◌≢◌, ◌+◌, ◌≤◌, ◌<◌, ◌^◌, [], IfOk, IsTrue, Ok};
ghost use Rattle.t3_frames.specs.Frame.{values, room};
ghost use Rattle.t3_undo.specs.declared.cell.Cell.TheVariants.{Key as KeyCell};
ghost use Rattle.t3_store.specs.Value.{can_have_at};
ghost use Rattle.t3_store.specs.Store.{value_at, written};
ghost use Rattle.t3_ops.specs.Values.{integer};
ghost use Rattle.t3_ops.specs.Elements.{IsVectorOf};
ghost use Rattle.t3_ops.specs.Indexing.{vector_index_of};
ghost use Rattle.t3_ops.specs.Keys.{key_of};
ghost use Rattle.t3_holder.specs.declared.holder.Holder.TheVariants.{Obj};
ghost use Rattle.t3_undo.specs.declared.key.Key.{Key};
ghost use Rattle.t3_frame_instructions.specs.Context.{pops_two};
ghost use Rattle.t3_frame_instructions.specs.Acting.{HasDone};
ghost use Rattle.t3_object_instructions.specs.Steady.{has_element, sets_present_element};
ghost use Rattle.t3_object_instructions.specs.Setting.{indexes, makes_list, puts_or_fills, sets_element, sets_entry, sets_in_object, sets_item, sets_popped_item};

use std::alloc::Global;
use t3_frame_instructions::{CodeWhy, Core, Quiet, give, put};
use t3_holder::{Holder, NoMemory};
use t3_ops::{OpRefusal, index, key, list_with_element, set_element, vector_index};
use t3_pools::Pools;
use t3_store::{Kind, StoreRefusal};
use t3_undo::{Cell, Key};

/// Puts on top what a container has at an index. The index is the topmost operand, and the container is behind
/// it; both go.
#[inline(never)]
pub(crate) fn index_popped(alloc: Global, pools: &Pools, core: &mut Core) -> Result<Quiet, NoMemory>
    ensures { IfOk result
        (λ effect. HasDone (pops_two (indexes pools.now.constants)) core.old effect core.new) }
{
    match core.frames.pop_two() {
        Some((at, container)) => {
            let found = index(alloc, container, at, &core.store, pools)?;
            Ok(give(core, found))
        }
        None => Ok(Quiet::Stop(CodeWhy::Underflow)),
    }
}

/// Sets an element or an entry, and puts the container on top, or the new list. The index is the topmost
/// operand, then come the container and the value; all three go.
#[inline(never)]
pub(crate) fn set_item(alloc: Global, pools: &Pools, core: &mut Core) -> Result<Quiet, NoMemory>
    requires { core.old.store.writes + 131072 ≤ 2 ^ 63 }
    ensures done { IfOk result (λ effect. HasDone (pops_two (sets_popped_item pools.now.constants))
        core.old effect core.new) }
    ensures steady { IsTrue (sets_present_element core.old.store.store
        core.old.frames.newest.operands) → result ≡ Ok Quiet.Next }
{
    match core.frames.pop_two() {
        Some((at, container)) => set_popped_item(alloc, pools, core, at, container),
        None => Ok(Quiet::Stop(CodeWhy::Underflow)),
    }
}

/// Sets an element or an entry of a container to the topmost operand.
fn set_popped_item(
    alloc: Global,
    pools: &Pools,
    core: &mut Core,
    at: Holder,
    container: Holder,
) -> Result<Quiet, NoMemory>
    requires { core.old.store.writes + 131072 ≤ 2 ^ 63 }
    ensures done { IfOk result (λ effect. HasDone (sets_popped_item pools.now.constants at container)
        core.old effect core.new) }
    ensures steady { IsTrue (has_element core.old.store.store at container)
        → core.old.frames.newest.operands ≢ [] → result ≡ Ok Quiet.Next }
{
    match (core.frames.pop(), container) {
        (Some(value), Holder::Obj(number)) => {
            set_in_object(alloc, pools, core, at, number, value)
        }
        (Some(value), _) => make_list(alloc, pools, core, at, container, value),
        (None, _) => Ok(Quiet::Stop(CodeWhy::Underflow)),
    }
}

/// Sets an element or an entry of an object.
fn set_in_object(
    alloc: Global,
    pools: &Pools,
    core: &mut Core,
    at: Holder,
    number: u32,
    value: Holder,
) -> Result<Quiet, NoMemory>
    requires few { core.old.store.writes + 131072 ≤ 2 ^ 63 }
    requires room { values core.old.frames < room }
    ensures done { IfOk result (λ effect. HasDone (λ context. sets_in_object pools.now.constants at number
        value (value_at context.store number) context) core.old effect core.new) }
    ensures steady { IsTrue (has_element core.old.store.store at (Obj number))
        → result ≡ Ok Quiet.Next }
{
    if let Some(length) = core.store.length(number) {
        return set_in_vector(core, at, number, length, value);
    }
    match core.store.kind(number) {
        Some(Kind::Table) => set_in_table(alloc, pools, core, at, number, value),
        _ => make_list(alloc, pools, core, at, Holder::Obj(number), value),
    }
}

/// Makes a list with an element set, and puts it on top.
fn make_list(
    alloc: Global,
    pools: &Pools,
    core: &mut Core,
    at: Holder,
    list: Holder,
    value: Holder,
) -> Result<Quiet, NoMemory>
    requires { values core.old.frames < room }
    ensures { IfOk result
        (λ effect. HasDone (makes_list pools.now.constants at list value) core.old effect core.new) }
{
    match list_with_element(alloc, list, at, value, &mut core.store, pools) {
        Ok(value) => Ok(put(core, value)),
        Err(OpRefusal::Fault(fault)) => Ok(Quiet::Fault(fault)),
        Err(OpRefusal::Full) => Ok(Quiet::StoreFull),
        Err(OpRefusal::NoMemory) => Err(NoMemory),
    }
}

/// Sets an element of a vector of so many, and puts the vector on top.
fn set_in_vector(
    core: &mut Core,
    at: Holder,
    number: u32,
    length: u32,
    value: Holder,
) -> Result<Quiet, NoMemory>
    requires few { core.old.store.writes + 131072 ≤ 2 ^ 63 }
    requires room { values core.old.frames < room }
    requires vector { IsVectorOf (value_at core.old.store.store number) length }
    ensures done { IfOk result (λ effect. HasDone (sets_element number length value
        (vector_index_of (integer at))) core.old effect core.new) }
    ensures steady { IsTrue (has_element core.old.store.store at (Obj number))
        → result ≡ Ok Quiet.Next }
{
    match vector_index(at) {
        Ok(index) => {
            if set_element(&mut core.store, number, length, index, value)? {
                Ok(put(core, Holder::Obj(number)))
            } else {
                Ok(Quiet::StoreFull)
            }
        }
        Err(fault) => Ok(Quiet::Fault(fault)),
    }
}

/// Sets an entry of a table, and puts the table on top.
fn set_in_table(
    alloc: Global,
    pools: &Pools,
    core: &mut Core,
    at: Holder,
    number: u32,
    value: Holder,
) -> Result<Quiet, NoMemory>
    requires few { core.old.store.writes + 131072 ≤ 2 ^ 63 }
    requires room { values core.old.frames < room }
    requires table { (key : Key) → IsTrue (can_have_at (value_at core.old.store.store number) (KeyCell key)) }
    ensures { IfOk result (λ effect. HasDone (λ context. sets_entry number value
        (key_of pools.now.constants context.store at) context) core.old effect core.new) }
{
    match key(alloc, at, &core.store, pools)? {
        Ok(key) => set_entry(core, number, key, value),
        Err(fault) => Ok(Quiet::Fault(fault)),
    }
}

/// Sets the value under a key of a table, and puts the table on top.
fn set_entry(core: &mut Core, number: u32, key: Key, value: Holder) -> Result<Quiet, NoMemory>
    requires few { core.old.store.writes + 131072 ≤ 2 ^ 63 }
    requires room { values core.old.frames < room }
    requires table { IsTrue (can_have_at (value_at core.old.store.store number) (KeyCell key)) }
    ensures { IfOk result (λ effect. HasDone (λ context. puts_or_fills (Obj number)
        (written number (KeyCell key) value context.store) context) core.old effect core.new) }
{
    match core.store.write(number, Cell::Key(key), Some(value)) {
        Ok(()) => Ok(put(core, Holder::Obj(number))),
        Err(StoreRefusal::Full) => Ok(Quiet::StoreFull),
        Err(StoreRefusal::NoMemory) => Err(NoMemory),
    }
}
