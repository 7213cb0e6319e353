//! The methods of tads-objects.
ghost use Rattle.std.specs.Prelude.{◌≡◌, Some, IfOk, option_and_then};
ghost use Rattle.t3_holder.specs.declared.holder.Holder.{Holder};
ghost use Rattle.t3_kinds.specs.Methods.{tads_deed};
ghost use Rattle.t3_kinds.specs.TadsMethods.{create_clone_of, supers_fault, is_no_tads, is_transient};
ghost use Rattle.t3_kinds.specs.Inner.Deeds.{Comes};
ghost use Rattle.std.specs.List.{list_any};
ghost use Rattle.t3_store.specs.Value.{supers_of, new_value};

use crate::deed::{Came, answer_made};
use crate::methods::TadsMethod;
use std::alloc::Global;
use t3_holder::{Holder, NoMemory};
use t3_ops::{Fault, kind_fault};
use t3_store::{NewObject, ObjectAt, Store};
use t3_tadsobj::Supers;
use t3_undo::Numbers;

/// What a method comes to on a tads-object.
pub(crate) fn tads_deed(
    alloc: Global,
    method: TadsMethod,
    me: Holder,
    store: &Store,
) -> Result<Came, NoMemory>
    ensures { Comes (tads_deed store.now.store method me) store.now.store result }
{
    match method {
        TadsMethod::CreateClone => create_clone(alloc, me, store),
    }
}

fn create_clone(alloc: Global, me: Holder, store: &Store) -> Result<Came, NoMemory>
    ensures { Comes (create_clone_of store.now.store me) store.now.store result }
{
    match me {
        Holder::Obj(number) => clone_object(alloc, number, store),
        _ => Ok(Err(kind_fault(store, &[me]))),
    }
}

/// A persistent object like that of a number.
fn clone_object(alloc: Global, number: u32, store: &Store) -> Result<Came, NoMemory>
    ensures { Comes (create_clone_of store.now.store (Holder.Obj number)) store.now.store result }
{
    let object = store.at(number);
    let Some(supers) = object.supers() else {
        return Ok(Err(kind_fault(store, &[Holder::Obj(number)])));
    };
    if let Some(fault) = supers_fault(supers, store) {
        return Ok(Err(fault));
    }
    let what = like(alloc, &object, supers)?;
    answer_made(alloc, what, store)
}

/// What an object with those superclasses is to be made of, to be like another one.
fn like(alloc: Global, object: &ObjectAt<'_>, supers: &[u32]) -> Result<NewObject, NoMemory>
    requires { option_and_then supers_of object.now ≡ Some supers.now }
    ensures { IfOk result (λ what. Some (new_value what) ≡ object.now) }
{
    let supers = Numbers(Vec::from_slice(alloc, supers)?);
    let props = object.props(alloc)?;
    Ok(NewObject::Tads {
        supers,
        class: object.is_class(),
        props,
    })
}

/// Why a persistent object can't have these superclasses.
fn supers_fault(supers: &[u32], store: &Store) -> Option<Fault>
    ensures { result ≡ supers_fault store.now.store supers.now }
{
    if has_no_tads(supers, store) {
        return Some(Fault::Stale);
    }
    if has_transient(supers, store) {
        return Some(Fault::TransientSuper);
    }
    None
}

fn has_no_tads(supers: &[u32], store: &Store) -> bool
    ensures { result ≡ list_any (is_no_tads store.now.store) supers.now }
{
    for number in supers {
        if store.supers(*number).is_none() {
            return true;
        }
    }
    false
}

fn has_transient(supers: &[u32], store: &Store) -> bool
    ensures { result ≡ list_any (is_transient store.now.store) supers.now }
{
    for number in supers {
        if store.is_transient(*number) {
            return true;
        }
    }
    false
}
