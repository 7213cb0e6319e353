//! What values are, by the objects that there are.
ghost use Rattle.std.specs.Prelude.{◌≡◌};
ghost use Rattle.t3_object_instructions.specs.Search.{tads_object as tads_object_of};

use t3_holder::Holder;
use t3_ops::Fault;
use t3_store::{Kind, Store};

/// The number of the tads-object that a value is. `Stale` where that isn't there, and else `NotObject` where
/// it is none.
pub(crate) fn tads_object(store: &Store, value: Holder) -> Result<u32, Fault>
    ensures { result ≡ tads_object_of store.now.store value }
{
    match value {
        Holder::Obj(number) => match store.kind(number) {
            Some(Kind::Tads) => Ok(number),
            Some(_) => Err(Fault::NotObject),
            None => Err(Fault::Stale),
        },
        _ => Err(Fault::NotObject),
    }
}
