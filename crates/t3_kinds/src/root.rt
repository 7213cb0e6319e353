//! The methods of all kinds of objects.
ghost use Rattle.std.specs.Prelude.{◌≡◌, ◌==◌, IfOk, map};
ghost use Rattle.std.specs.List.{list_any};
ghost use Rattle.t3_holder.specs.declared.holder.Holder.{Holder};
ghost use Rattle.t3_kinds.specs.Methods.{root_deed};
ghost use Rattle.t3_kinds.specs.RootMethods.{of_kind_of, is_of_kind, superclass_list_of, supers_of_self, prop_defined_of, has_property, is_class_self, is_transient_self};
ghost use Rattle.t3_kinds.specs.Inner.Deeds.{Comes};

use crate::deed::{Came, answer_new, answer_truth, first};
use crate::methods::RootMethod;
use crate::search::{find_property, order};
use std::alloc::Global;
use t3_holder::{Holder, NoMemory};
use t3_ops::{Fault, fitting_list};
use t3_store::Store;

/// What a method of all kinds comes to.
pub(crate) fn root_deed(
    alloc: Global,
    method: RootMethod,
    me: Holder,
    args: &[Holder],
    store: &Store,
) -> Result<Came, NoMemory>
    ensures { Comes (root_deed store.now.store method me args.now) store.now.store result }
{
    match method {
        RootMethod::OfKind => of_kind(alloc, me, first(args), store),
        RootMethod::GetSuperclassList => superclass_list(alloc, me, store),
        RootMethod::PropDefined => prop_defined(alloc, me, first(args), store),
        RootMethod::IsClass => Ok(answer_truth(alloc, is_class(me, store))),
        RootMethod::IsTransient => Ok(answer_truth(alloc, is_transient(me, store))),
    }
}

fn of_kind(alloc: Global, me: Holder, class: Holder, store: &Store) -> Result<Came, NoMemory>
    ensures { Comes (of_kind_of store.now.store me class) store.now.store result }
{
    match class {
        Holder::Obj(class) => Ok(answer_truth(alloc, is_of_kind(alloc, me, class, store)?)),
        _ => Ok(Err(Fault::Kind)),
    }
}

/// Whether an object is in the superclass order of self.
fn is_of_kind(alloc: Global, me: Holder, class: u32, store: &Store) -> Result<bool, NoMemory>
    ensures { IfOk result (λ holds. holds ≡ is_of_kind store.now.store me class) }
{
    let Holder::Obj(number) = me else {
        return Ok(false);
    };
    let order = order(alloc, store, number)?;
    Ok(order.contains(&class))
}

fn superclass_list(alloc: Global, me: Holder, store: &Store) -> Result<Came, NoMemory>
    ensures { Comes (superclass_list_of store.now.store me) store.now.store result }
{
    let items = references(alloc, supers(me, store))?;
    answer_new(alloc, fitting_list(items), store)
}

/// The direct superclasses of self.
fn supers(me: Holder, store: &Store) -> &[u32]
    ensures { result.now ≡ supers_of_self store.now.store me }
{
    match me {
        Holder::Obj(number) => store.at(number).supers().unwrap_or(&[]),
        _ => &[],
    }
}

/// Numbers as references.
fn references(alloc: Global, numbers: &[u32]) -> Result<Vec<Holder>, NoMemory>
    ensures { IfOk result (λ items. items.items ≡ map Holder.Obj numbers.now) }
{
    let mut items = Vec::new(alloc);
    for number in numbers {
        items.push(Holder::Obj(*number))?;
    }
    Ok(items)
}

fn prop_defined(
    alloc: Global,
    me: Holder,
    property: Holder,
    store: &Store,
) -> Result<Came, NoMemory>
    ensures { Comes (prop_defined_of store.now.store me property) store.now.store result }
{
    match property {
        Holder::Prop(property) => {
            let holds = has_property(alloc, me, property, store)?;
            Ok(answer_truth(alloc, holds))
        }
        _ => Ok(Err(Fault::Kind)),
    }
}

/// Whether the search finds a property of self.
fn has_property(alloc: Global, me: Holder, property: u16, store: &Store) -> Result<bool, NoMemory>
    ensures { IfOk result (λ holds. holds ≡ has_property store.now.store me property) }
{
    let Holder::Obj(number) = me else {
        return Ok(false);
    };
    let found = find_property(alloc, store, number, property)?;
    Ok(found.is_some())
}

fn is_class(me: Holder, store: &Store) -> bool
    ensures { result ≡ is_class_self store.now.store me }
{
    match me {
        Holder::Obj(number) => store.is_class(number),
        _ => false,
    }
}

fn is_transient(me: Holder, store: &Store) -> bool
    ensures { result ≡ is_transient_self store.now.store me }
{
    match me {
        Holder::Obj(number) => store.is_transient(number),
        _ => false,
    }
}
