//! Makes a program of an image.
ghost use Rattle.t3_store.specs.Store.{AreLimits};
ghost use Rattle.t3_load.specs.Loading.{Loads};

use crate::basis::{Basis, basis_of};
use crate::halves::{Halves, halve, is_past, next_number};
use crate::kinds::Kinds;
use crate::refusal::LoadRefusal;
use crate::sets::Sets;
use crate::supers::checked_objects;
use crate::symbols::SymbolTable;
use std::alloc::Global;
use std::marker::Model;
use t3_image_read::Image;
use t3_pools::Pools;
use t3_store::{Persistent, StoreLimits};

/// What is run of an image. A store can always be begun with its objects.
#[derive(Drop)]
pub struct Program {
    /// The code address of the entry method.
    pub entry: u32,
    pub pools: Pools,
    pub kinds: Kinds,
    pub sets: Sets,
    pub symbols: SymbolTable,
    /// The persistent objects.
    pub first: Persistent,
    /// The transient ones.
    pub passing: Persistent,
    /// The number of the persistent object that is made next: one past the greatest, at least 1.
    pub next: u32,
    /// The SHA-256 of the image's bytes, as whoever read them says.
    pub fingerprint: [u8; 32],
    /// How much a store of the program has room for.
    pub limits: StoreLimits,
}

impl Model for Program {
    ghost use Rattle.t3_load.specs.Loading.{ProgramValue, CanStart};

    ghost Value = { ProgramValue };

    ghost use Rattle.std.specs.Coded.{codes};
    ghost use Rattle.t3_pools.specs.Pool.{coded_pools};
    ghost use Rattle.t3_store.specs.Value.{coded_objects};

    ghost coded = { Prim.hlevel (codes, coded_pools, coded_objects) };

    ghost view = { λ p. record {
      entry = p.entry;
      pools = p.pools;
      kinds = p.kinds;
      sets = p.sets;
      symbols = p.symbols;
      first = p.first;
      passing = p.passing;
      next = p.next;
      fingerprint = p.fingerprint;
      limits = p.limits;
    } };

    ghost invariant = { λ p. CanStart p.limits p.first p.passing p.next };
}

/// The program of an image, or the first rule that it breaks, in the order of [`LoadRefusal`]. The fingerprint is that of
/// the bytes that the image was read from, and is handed on as it is.
pub fn load(
    alloc: Global,
    image: &Image,
    fingerprint: [u8; 32],
    limits: StoreLimits,
) -> Result<Program, LoadRefusal>
    requires { AreLimits limits }
    ensures { Loads image.now.blocks fingerprint limits result }
{
    let Basis {
        entry,
        pools,
        kinds,
        sets,
    } = basis_of(alloc, image)?;
    let objects = checked_objects(alloc, image, &kinds)?;
    if is_past(objects.as_slice(), limits) {
        return Err(LoadRefusal::Full);
    }
    let symbols = SymbolTable::of(alloc, image)?;
    let next = next_number(objects.as_slice());
    let Halves { first, passing } = halve(alloc, objects)?;
    Ok(Program {
        entry,
        pools,
        kinds,
        sets,
        symbols,
        first,
        passing,
        next,
        fingerprint,
        limits,
    })
}
