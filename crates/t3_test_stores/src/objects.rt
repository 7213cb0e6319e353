//! Objects without anything.
ghost use Rattle.std.specs.Prelude.{◌≡◌, Some};
ghost use Rattle.t3_store.specs.Value.{new_value, supers_of, HasFittingLength};

use std::alloc::Global;
use t3_store::{NewObject, Store, StoreRefusal};
use t3_tadsobj::Props;
use t3_undo::Numbers;

/// What a tads-object with these superclasses and without properties is made of.
pub fn tads(alloc: Global, supers: Vec<u32>, class: bool) -> NewObject
    ensures supers { supers_of (new_value result) ≡ Some supers.items }
    ensures length { HasFittingLength (new_value result) }
{
    NewObject::Tads {
        supers: Numbers(supers),
        class,
        props: Props(Vec::new(alloc)),
    }
}

/// Makes a tads-object without anything, and gives its number. Refused as [`Store::create`] says.
pub fn create_tads(alloc: Global, store: &mut Store, transient: bool) -> Result<u32, StoreRefusal> {
    store.create(tads(alloc, Vec::new(alloc), false), transient)
}
