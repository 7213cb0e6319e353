use std::alloc::{AllocError, AllocFailed};
use t3_holder::NoMemory;
use t3_pools::PoolRefusal;
use t3_store::StoreRefusal;
use thiserror::Error;

/// Why no program is made of an image: the first of these rules that it breaks, and of one rule the first that breaks it in the
/// order of the image.
#[derive(Clone, Copy, Debug, PartialEq, Eq, Error)]
pub enum LoadRefusal {
    /// No `ENTP` block says where the story begins.
    #[error("no entry")]
    NoEntry,
    /// There are two such blocks.
    #[error("two entries")]
    TwoEntries,
    /// A method header or an entry of an exception table hasn't ten bytes.
    #[error("headers of another size than ten bytes")]
    HeaderSizes,
    /// The pools can't be built, for another cause than memory.
    #[error("{0}")]
    Pool(PoolRefusal),
    /// The name of this index, from 0, of all `MCLD` blocks together is that of no metaclass.
    #[error("metaclass {0} isn't known")]
    Metaclass(u32),
    /// The name of this index, from 0, of all `FNSD` blocks together is that of no function set.
    #[error("function set {0} isn't known")]
    FunctionSet(u32),
    /// An object's number is 0 or above 2,147,483,647.
    #[error("{0} is no number of an object")]
    ObjectNumber(u32),
    /// An object's number stands a second time.
    #[error("object {0} stands twice")]
    ObjectTwice(u32),
    /// The object's bytes begin with no object of its metaclass.
    #[error("the bytes of object {0} are no object of its metaclass")]
    ObjectData(u32),
    /// A superclass of the object is no tads-object of the image.
    #[error("object {0} has a superclass that isn't there")]
    SuperMissing(u32),
    /// The object is its own ancestor.
    #[error("object {0} is its own ancestor")]
    SuperCycle(u32),
    /// The object is persistent and has a transient superclass.
    #[error("object {0} is persistent and has a transient superclass")]
    TransientSuper(u32),
    /// The objects together are more than the limits say, or their units are.
    #[error("the store is full")]
    Full,
    /// An allocation was refused.
    #[error("out of memory")]
    NoMemory,
}

/// Why a list of names isn't taken.
#[derive(Clone, Copy, Debug, PartialEq, Eq, Error)]
pub enum NameRefusal {
    /// The name of this index, from 0, in all blocks of its kind together means nothing here. It is the first such name.
    #[error("name {0} isn't known")]
    Unknown(u32),
    /// An allocation was refused.
    #[error("out of memory")]
    NoMemory,
}

impl From<NoMemory> for LoadRefusal {
    ghost use Rattle.std.specs.Prelude.{◌≡◌};
    ghost use Rattle.t3_load.specs.declared.refusal.LoadRefusal.TheVariants as refusals;

    ghost from_gives = { λ _ refusal. refusal ≡ refusals.NoMemory };

    fn from(_error: NoMemory) -> LoadRefusal {
        LoadRefusal::NoMemory
    }
}

impl From<StoreRefusal> for LoadRefusal {
    ghost use Rattle.std.specs.Prelude.{◌≡◌};
    ghost use Rattle.t3_load.specs.Inner.Halves.{refusal_by_store};

    ghost from_gives = { λ why refusal. refusal ≡ refusal_by_store why };

    fn from(why: StoreRefusal) -> LoadRefusal {
        match why {
            StoreRefusal::Full => LoadRefusal::Full,
            StoreRefusal::NoMemory => LoadRefusal::NoMemory,
        }
    }
}

impl From<AllocError> for LoadRefusal {
    ghost use Rattle.std.specs.Prelude.{◌≡◌};
    ghost use Rattle.t3_load.specs.declared.refusal.LoadRefusal.TheVariants as refusals;

    ghost from_gives = { λ _ refusal. refusal ≡ refusals.NoMemory };

    fn from(_error: AllocError) -> LoadRefusal {
        LoadRefusal::NoMemory
    }
}

impl<T: Drop> From<AllocFailed<T>> for LoadRefusal {
    ghost use Rattle.std.specs.Prelude.{◌≡◌};
    ghost use Rattle.t3_load.specs.declared.refusal.LoadRefusal.TheVariants as refusals;

    ghost from_gives = { λ _ refusal. refusal ≡ refusals.NoMemory };

    fn from(_error: AllocFailed<T>) -> LoadRefusal {
        LoadRefusal::NoMemory
    }
}

impl From<NoMemory> for NameRefusal {
    ghost use Rattle.std.specs.Prelude.{◌≡◌};
    ghost use Rattle.t3_load.specs.declared.refusal.NameRefusal.TheVariants as refusals;

    ghost from_gives = { λ _ refusal. refusal ≡ refusals.NoMemory };

    fn from(_error: NoMemory) -> NameRefusal {
        NameRefusal::NoMemory
    }
}

impl From<AllocError> for NameRefusal {
    ghost use Rattle.std.specs.Prelude.{◌≡◌};
    ghost use Rattle.t3_load.specs.declared.refusal.NameRefusal.TheVariants as refusals;

    ghost from_gives = { λ _ refusal. refusal ≡ refusals.NoMemory };

    fn from(_error: AllocError) -> NameRefusal {
        NameRefusal::NoMemory
    }
}

impl<T: Drop> From<AllocFailed<T>> for NameRefusal {
    ghost use Rattle.std.specs.Prelude.{◌≡◌};
    ghost use Rattle.t3_load.specs.declared.refusal.NameRefusal.TheVariants as refusals;

    ghost from_gives = { λ _ refusal. refusal ≡ refusals.NoMemory };

    fn from(_error: AllocFailed<T>) -> NameRefusal {
        NameRefusal::NoMemory
    }
}
