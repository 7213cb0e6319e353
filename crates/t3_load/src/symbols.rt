//! The symbols of an image.
ghost use Rattle.std.specs.Prelude.{◌≡◌, ℕ, List, IfOk, OnOk, option_map};
ghost use Rattle.t3_load.specs.Names.{symbols_of, symbols_in};
ghost use Rattle.t3_load.specs.Symbols.{raw_of, with_first, firsts, firsts_after};
ghost use Rattle.t3_load.specs.Inner.Listing.{listed};

use indexmap::IndexMap;
use std::alloc::Global;
use std::hash::{BuildHasherDefault, DefaultHasher};
use std::marker::Model;
use t3_blocks::{Block, Symbol};
use t3_holder::{NoMemory, Raw};
use t3_image_read::{Image, PlacedBlock};

type Named = IndexMap<Vec<u8>, Raw, BuildHasherDefault<DefaultHasher>>;

/// The data holders that an image gives names to. Contracts see the symbols, each name once.
#[derive(Drop)]
pub struct SymbolTable {
    named: Named,
}

impl Model for SymbolTable {
    ghost use Rattle.std.specs.Prelude.{List};
    ghost use Rattle.t3_blocks.specs.declared.items.Symbol.{Symbol};
    ghost use Rattle.t3_load.specs.Inner.Listing.{listed};

    ghost Value = { List Symbol };

    ghost view = { λ t. listed t.named.entries };
}

impl SymbolTable {
    /// The symbols of all `SYMD` blocks. Of those with one name the first counts.
    pub(crate) fn of(alloc: Global, image: &Image) -> Result<SymbolTable, NoMemory>
        ensures table { IfOk result (λ table. table ≡ firsts (symbols_in image.now.blocks)) }
        ensures named { IfOk result (λ table. (name : List ℕ)
            → raw_of table name ≡ raw_of (symbols_in image.now.blocks) name) }
    {
        Ok(SymbolTable {
            named: named(alloc, &image.blocks.0)?,
        })
    }

    /// The data holder of a name. `None` exactly where no symbol has it. Takes no memory.
    pub fn raw(&self, name: &[u8]) -> Option<Raw>
        ensures { result ≡ raw_of self.now name.now }
    {
        raw_at(&self.named, name)
    }
}

fn raw_at(named: &Named, name: &[u8]) -> Option<Raw>
    ensures { result ≡ raw_of (listed named.now.entries) name.now }
{
    named.get(name).copied()
}

/// The symbols of all blocks, by their names.
fn named(alloc: Global, blocks: &[PlacedBlock]) -> Result<Named, NoMemory>
    ensures { IfOk result (λ named. listed named.entries ≡ firsts (symbols_in blocks.now)) }
{
    let mut named = IndexMap::with_hasher(alloc, BuildHasherDefault::new());
    for placed in blocks {
        if let Block::Symbols { symbols } = &placed.block {
            add_symbols(alloc, &mut named, &symbols.0)?;
        }
    }
    Ok(named)
}

/// Adds symbols, but none with a name that is there.
fn add_symbols(alloc: Global, named: &mut Named, symbols: &[Symbol]) -> Result<(), NoMemory>
    ensures { OnOk result (listed named.new.entries ≡ firsts_after (listed named.old.entries) symbols.now) }
{
    for symbol in symbols {
        add_symbol(alloc, named, symbol)?;
    }
    Ok(())
}

/// Adds a symbol, but none with a name that is there.
fn add_symbol(alloc: Global, named: &mut Named, symbol: &Symbol) -> Result<(), NoMemory>
    ensures { OnOk result (listed named.new.entries ≡ with_first (listed named.old.entries) symbol.now) }
{
    let name = symbol.name.0.as_slice();
    if raw_at(named, name).is_none() {
        named.insert(Vec::from_slice(alloc, name)?, symbol.raw)?;
    }
    Ok(())
}
