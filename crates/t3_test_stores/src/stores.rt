//! A store to begin with.
ghost use Rattle.std.specs.Prelude.{◌≡◌, IfOk};
ghost use Rattle.std.specs.FinMap.{empty};
ghost use Rattle.t3_store.specs.Store.{AreLimits, started};

use std::alloc::Global;
use t3_holder::NoMemory;
use t3_store::{Persistent, Store, StoreLimits};

/// A store without objects, whose first object has the number 1.
pub fn empty_store(alloc: Global, limits: StoreLimits) -> Result<Store, NoMemory>
    requires { AreLimits limits }
    ensures store { IfOk result (λ store. store.store ≡ started limits empty empty 1) }
    ensures savepoints { IfOk result (λ store. store.savepoints ≡ 0) }
{
    let first = Persistent::new(alloc);
    let passing = Persistent::new(alloc);
    Store::start(alloc, limits, first, passing, 1)
}
