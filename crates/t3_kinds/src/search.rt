//! How a property is found: in the superclass order of an object.
ghost use Rattle.std.specs.Prelude.{◌≡◌, IfOk};
ghost use Rattle.t3_tadsobj.specs.Order.{IsAcyclicFrom};
ghost use Rattle.t3_store.specs.Whole.{supers_of_live};
ghost use Rattle.t3_kinds.specs.Search.{property_of, searched, order_of, found_value};
ghost use Rattle.t3_kinds.specs.Inner.Finding.{place_at};

use std::alloc::Global;
use t3_holder::{Holder, NoMemory};
use t3_store::Store;
use t3_tadsobj::{Supers, linear_order};

/// A property that was found.
#[derive(Clone, Copy)]
pub struct Found {
    /// The object that has it.
    pub defining: u32,
    pub value: Holder,
}

/// Where a search goes on that has come to an object.
enum Place {
    /// The object has the property.
    Here(Holder),
    /// It has only one superclass.
    Above(u32),
    AboveMany,
    Nowhere,
}

/// Where a property of an object is found: in the object, or in the first of its superclasses that has it.
///
/// Along objects with one superclass each no memory is taken.
pub fn find_property(
    alloc: Global,
    store: &Store,
    number: u32,
    property: u16,
) -> Result<Option<Found>, NoMemory>
    ensures { IfOk result (λ found. found_value found ≡ property_of store.now.store number property) }
{
    let mut at = number;
    for _ in 0..store.objects() {
        match next_place(store, at, property) {
            Place::Here(value) => {
                return Ok(Some(Found {
                    defining: at,
                    value,
                }));
            }
            Place::Above(above) => at = above,
            Place::AboveMany => return find_in_order(alloc, store, at, property),
            Place::Nowhere => return Ok(None),
        }
    }
    find_in_order(alloc, store, at, property)
}

/// Where the search for a property goes on at an object.
#[inline(always)]
fn next_place(store: &Store, at: u32, property: u16) -> Place
    ensures { result ≡ place_at store.now.store at property }
{
    let object = store.at(at);
    if let Some(value) = object.prop(property) {
        return Place::Here(value);
    }
    match object.supers() {
        None => Place::Nowhere,
        Some(supers) => match supers.len() {
            0 => Place::Nowhere,
            1 => Place::Above(supers[0]),
            _ => Place::AboveMany,
        },
    }
}

/// The same by the list of the object and all its superclasses.
#[cold]
#[inline(never)]
fn find_in_order(
    alloc: Global,
    store: &Store,
    number: u32,
    property: u16,
) -> Result<Option<Found>, NoMemory>
    ensures { IfOk result (λ found. found_value found ≡ property_of store.now.store number property) }
{
    let order = order(alloc, store, number)?;
    Ok(first_with(store, order.as_slice(), property))
}

/// An object and its superclasses, in the order in which they are searched.
pub fn order(alloc: Global, store: &Store, number: u32) -> Result<Vec<u32>, NoMemory>
    ensures { IfOk result (λ order. order.items ≡ order_of store.now.store number) }
{
    // No walk over superclasses comes back: so says the store beside the count of its objects.
    let _ = store.objects();
    linear_order(alloc, store, number)
}

/// The first of these objects that has a property.
pub fn first_with(store: &Store, numbers: &[u32], property: u16) -> Option<Found>
    ensures { found_value result ≡ searched store.now.store property numbers.now }
{
    for number in numbers {
        if let Some(value) = store.at(*number).prop(property) {
            return Some(Found {
                defining: *number,
                value,
            });
        }
    }
    None
}
