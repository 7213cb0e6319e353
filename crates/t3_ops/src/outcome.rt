//! The outcome of an operation: a value, an object that is to be made, or a fault; and how a store
//! carries it out.
ghost use Rattle.std.specs.Prelude.{◌≡◌, IfOk};
ghost use Rattle.t3_ops.specs.Making.{IsCarriedOut, CanBeCreated, count_of, fitting_list_of, fitting_text_of, fitting_vector_of, new_object, value_of_new};
ghost use Rattle.t3_ops.specs.Inner.Outcomes.{made_of, CanBeMade};

use crate::fault::Fault;
use t3_holder::{Bytes, Holder, NoMemory};
use t3_lists::Holders;
use t3_store::{NewObject, Store, StoreRefusal};
use thiserror::Error;

/// How many bytes a string has at most, and how many elements a list or a vector.
pub(crate) const GREATEST_LENGTH: usize = 65_535;

/// Why an operation answers no value.
#[derive(Clone, Copy, Debug, PartialEq, Eq, Error)]
pub enum OpRefusal {
    /// The instruction throws.
    #[error("fault {0:?}")]
    Fault(Fault),
    /// The store has no room for the new object, or no number.
    #[error("the store is full")]
    Full,
    #[error("out of memory")]
    NoMemory,
}

impl From<NoMemory> for OpRefusal {
    ghost use Rattle.t3_ops.specs.declared.outcome.OpRefusal.TheVariants.{NoMemory as Wanting};

    ghost from_gives = { λ _ e. e ≡ Wanting };

    fn from(_error: NoMemory) -> OpRefusal {
        OpRefusal::NoMemory
    }
}

/// The outcome of an operation that makes one object at most.
#[derive(Debug, Drop)]
pub(crate) enum Outcome {
    /// A value that is there.
    Value(Holder),
    /// An object that is to be made.
    Object(NewObject),
    Fault(Fault),
}

/// The outcome that is to make this object, or is this fault.
pub(crate) fn outcome_of(made: Result<NewObject, Fault>) -> Outcome
    requires { IfOk made CanBeCreated }
    ensures made { made_of result ≡ new_object (value_of_new made) }
    ensures can { CanBeMade result }
{
    match made {
        Ok(what) => Outcome::Object(what),
        Err(fault) => Outcome::Fault(fault),
    }
}

/// Makes the object, if there is one to be made, and answers the value. A new object is persistent.
/// Nothing else changes, and after a refusal nothing has.
pub(crate) fn carry_out(outcome: Outcome, store: &mut Store) -> Result<Holder, OpRefusal>
    requires { CanBeMade outcome }
    ensures carried { IsCarriedOut (made_of outcome) store.old.store result store.new.store }
    ensures savepoints { store.new.savepoints ≡ store.old.savepoints }
    ensures writes { store.new.writes ≡ store.old.writes }
{
    match outcome {
        Outcome::Value(value) => Ok(value),
        Outcome::Fault(fault) => Err(OpRefusal::Fault(fault)),
        Outcome::Object(what) => match store.create(what, false) {
            Ok(number) => Ok(Holder::Obj(number)),
            Err(StoreRefusal::Full) => Err(OpRefusal::Full),
            Err(StoreRefusal::NoMemory) => Err(OpRefusal::NoMemory),
        },
    }
}

/// A new string of these bytes. `TextLong` where they are too many.
pub fn fitting_text(bytes: Vec<u8>) -> Result<NewObject, Fault>
    ensures made { value_of_new result ≡ fitting_text_of bytes.items }
    ensures can { IfOk result CanBeCreated }
{
    if bytes.len() > GREATEST_LENGTH {
        return Err(Fault::TextLong);
    }
    Ok(NewObject::Text(Bytes(bytes)))
}

/// A new list of these items. `ListLong` where they are too many.
pub fn fitting_list(items: Vec<Holder>) -> Result<NewObject, Fault>
    ensures made { value_of_new result ≡ fitting_list_of items.items }
    ensures can { IfOk result CanBeCreated }
{
    if items.len() > GREATEST_LENGTH {
        return Err(Fault::ListLong);
    }
    Ok(NewObject::List(Holders(items)))
}

/// A new vector of these items. `ListLong` where they are too many.
pub(crate) fn fitting_vector(items: Vec<Holder>) -> Result<NewObject, Fault>
    ensures made { value_of_new result ≡ fitting_vector_of items.items }
    ensures can { IfOk result CanBeCreated }
{
    if items.len() > GREATEST_LENGTH {
        return Err(Fault::ListLong);
    }
    Ok(NewObject::Vector(Holders(items)))
}

/// A count of bytes, elements or copies. `None` where it isn't from 0 to 65,535.
pub fn count(number: i32) -> Option<u16>
    ensures { result ≡ count_of number }
{
    if (0..65_536).contains(&number) {
        Some(number as u16)
    } else {
        None
    }
}
