//! The page sizes of pools.
ghost use Rattle.std.specs.Prelude.{◌≡◌, OnErr, OnOk};
ghost use Rattle.std.specs.FinMap as map;
ghost use Rattle.t3_asm.specs.Inner.Tables.{with_size};

use std::alloc::Global;
use std::collections::BTreeMap;
use std::marker::Model;
use t3_holder::NoMemory;

/// The page sizes of pools, which contracts see as the map from the one to the other.
#[derive(Drop)]
pub(crate) struct PoolSizes {
    sizes: BTreeMap<u16, u32>,
}

impl Model for PoolSizes {
    ghost use Rattle.std.specs.Coded.{coded_ℕ};
    ghost use Rattle.std.specs.FinMap as map;
    ghost use Rattle.t3_asm.specs.Places.{PoolSizes};
    ghost use Rattle.t3_asm.specs.Inner.Tables.{kept_sizes};

    ghost Value = { PoolSizes };

    ghost coded = { map.code coded_ℕ coded_ℕ };

    ghost view = { λ p. kept_sizes p.sizes };
}

impl PoolSizes {
    pub(crate) fn new(alloc: Global) -> PoolSizes
        ensures { result ≡ map.empty }
    {
        PoolSizes {
            sizes: BTreeMap::new(alloc),
        }
    }

    /// Keeps a pool's size, unless another was kept before.
    pub(crate) fn put_first(&mut self, pool: u16, size: u32) -> Result<(), NoMemory>
        ensures ok { OnOk result (self.new ≡ with_size self.old pool size) }
        ensures err { OnErr result (self.new ≡ self.old) }
    {
        if self.size(pool).is_none() {
            self.sizes.insert(pool, size)?;
        }
        Ok(())
    }

    pub(crate) fn size(&self, pool: u16) -> Option<u32>
        ensures { result ≡ map.get self.now pool }
    {
        match self.sizes.get(&pool) {
            Some(size) => Some(*size),
            None => None,
        }
    }
}
