//! How a property is found behind an object.
ghost use Rattle.std.specs.Prelude.{◌≡◌, IfOk};
ghost use Rattle.t3_kinds.specs.Search.{found_value};
ghost use Rattle.t3_object_instructions.specs.Search.{inherited_of, behind as behind_in};

use std::alloc::Global;
use t3_holder::NoMemory;
use t3_kinds::{Found, first_with, order};
use t3_store::Store;

/// Where a property of an object is found behind one of its superclasses, or behind the object itself.
pub(crate) fn find_inherited(
    alloc: Global,
    store: &Store,
    defining: u32,
    number: u32,
    property: u16,
) -> Result<Option<Found>, NoMemory>
    ensures { IfOk result (λ found. found_value found
        ≡ inherited_of store.now.store defining number property) }
{
    let order = order(alloc, store, number)?;
    Ok(first_with(store, behind(order.as_slice(), defining), property))
}

/// What stands behind a number, and nothing where it isn't there.
fn behind(numbers: &[u32], number: u32) -> &[u32]
    ensures { result.now ≡ behind_in number numbers.now }
{
    for index in 0..numbers.len() {
        if numbers[index] == number {
            return &numbers[index + 1..];
        }
    }
    &[]
}
