//! The objects that faults throw, and the classes by which an object is caught.
ghost use Rattle.std.specs.Prelude.{◌≡◌, false, [], ◌∷◌, map, IfOk};
ghost use Rattle.t3_store.specs.Value.{new_value, HasFittingLength};
ghost use Rattle.t3_tadsobj.specs.Props.{pair_of};
ghost use Rattle.t3_store.specs.Whole.{HasSupersIn, supers_for};
ghost use Rattle.t3_object_instructions.specs.Search.{is_persistent_tads as is_persistent_tads_in};
ghost use Rattle.t3_object_instructions.specs.Exceptions.{exception_of, exception_supers, numbered, classes_of as classes_in};

use crate::symbols::{object_named, property_named};
use std::alloc::Global;
use t3_holder::{Holder, NoMemory};
use t3_kinds::order;
use t3_load::SymbolTable;
use t3_ops::Fault;
use t3_store::{Kind, NewObject, Store};
use t3_tadsobj::{PropValue, Props};
use t3_undo::Numbers;

/// The exception of a fault, which is to be made: a tads-object, with the superclass and the number that two
/// symbols of the image name: `RuntimeError` and `errno_`. A store can make it.
pub fn exception(
    alloc: Global,
    symbols: &SymbolTable,
    store: &Store,
    fault: Fault,
) -> Result<NewObject, NoMemory>
    ensures value { IfOk result (λ what. new_value what ≡ exception_of symbols.now store.now.store fault) }
    ensures supers { IfOk result
        (λ what. HasSupersIn (supers_for false store.now.store) (new_value what)) }
    ensures length { IfOk result (λ what. HasFittingLength (new_value what)) }
{
    Ok(NewObject::Tads {
        supers: supers(alloc, store, object_named(symbols, b"RuntimeError"))?,
        class: false,
        props: props(alloc, property_named(symbols, b"errno_"), fault)?,
    })
}

/// The classes by which an object is caught: those of its superclass order, or itself alone where it is no
/// tads-object.
pub fn classes_of(alloc: Global, store: &Store, number: u32) -> Result<Vec<u32>, NoMemory>
    ensures { IfOk result (λ classes. classes.items ≡ classes_in store.now.store number) }
{
    match store.kind(number) {
        Some(Kind::Tads) => order(alloc, store, number),
        _ => Ok(vec![in alloc; number]?),
    }
}

/// An object, if it can be the superclass of an exception: a persistent tads-object.
fn supers(alloc: Global, store: &Store, class: Option<u32>) -> Result<Numbers, NoMemory>
    ensures { IfOk result (λ supers. supers ≡ exception_supers store.now.store class) }
{
    let mut supers = Vec::new(alloc);
    if let Some(number) = class {
        if is_persistent_tads(store, number) {
            supers.push(number)?;
        }
    }
    Ok(Numbers(supers))
}

/// Whether a number is that of a persistent tads-object.
fn is_persistent_tads(store: &Store, number: u32) -> bool
    ensures { result ≡ is_persistent_tads_in store.now.store number }
{
    matches!(store.kind(number), Some(Kind::Tads)) && !store.is_transient(number)
}

/// The number of a fault as a property, if there is one.
fn props(alloc: Global, property: Option<u16>, fault: Fault) -> Result<Props, NoMemory>
    ensures { IfOk result (λ props. map pair_of props ≡ numbered property fault) }
{
    match property {
        None => Ok(no_props(alloc)),
        Some(number) => one_prop(
            alloc,
            PropValue {
                number,
                value: Holder::Int(i32::from(fault.number())),
            },
        ),
    }
}

/// No properties.
pub(crate) fn no_props(alloc: Global) -> Props
    ensures { result ≡ [] }
{
    Props(Vec::new(alloc))
}

fn one_prop(alloc: Global, prop: PropValue) -> Result<Props, NoMemory>
    ensures { IfOk result (λ props. props ≡ prop ∷ []) }
{
    let mut props = Vec::new(alloc);
    props.push(prop)?;
    Ok(Props(props))
}
