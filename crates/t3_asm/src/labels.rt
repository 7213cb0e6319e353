//! The addresses of labels.
ghost use Rattle.std.specs.Prelude.{◌≡◌, OnErr, OnOk};
ghost use Rattle.std.specs.FinMap as map;

use std::alloc::Global;
use std::collections::BTreeMap;
use std::marker::Model;
use t3_holder::NoMemory;

/// The addresses of labels, which contracts see as the map from the one to the other.
#[derive(Drop)]
pub(crate) struct Labels {
    alloc: Global,
    addresses: BTreeMap<Vec<u8>, u128>,
}

impl Model for Labels {
    ghost use Rattle.std.specs.Coded.{coded_ℕ, coded_list};
    ghost use Rattle.std.specs.FinMap as map;
    ghost use Rattle.t3_asm.specs.Places.{Labels};
    ghost use Rattle.t3_asm.specs.Inner.Tables.{kept_labels};

    ghost Value = { Labels };

    ghost coded = { map.code (coded_list coded_ℕ) coded_ℕ };

    ghost view = { λ l. kept_labels l.addresses };
}

impl Labels {
    pub(crate) fn new(alloc: Global) -> Labels
        ensures { result ≡ map.empty }
    {
        Labels {
            alloc,
            addresses: BTreeMap::new(alloc),
        }
    }

    pub(crate) fn put(&mut self, label: &[u8], address: u128) -> Result<(), NoMemory>
        ensures ok { OnOk result (self.new ≡ map.insert self.old label.now address) }
        ensures err { OnErr result (self.new ≡ self.old) }
    {
        let label = Vec::from_slice(self.alloc, label)?;
        self.addresses.insert(label, address)?;
        Ok(())
    }

    pub(crate) fn address(&self, label: &[u8]) -> Option<u128>
        ensures { result ≡ map.get self.now label.now }
    {
        match self.addresses.get(label) {
            Some(address) => Some(*address),
            None => None,
        }
    }
}
