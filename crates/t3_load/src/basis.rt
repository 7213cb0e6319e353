//! What an image says of its entry, its pools, its metaclasses and its function sets.
ghost use Rattle.std.specs.Prelude.{◌≡◌, IfOk, map, Some};
ghost use Rattle.t3_pools.specs.Pool.{pools_in};
ghost use Rattle.t3_load.specs.Names.{metas_in, names_in};
ghost use Rattle.t3_load.specs.Kinds.{kind_entry_of};
ghost use Rattle.t3_load.specs.Sets.{set_named};
ghost use Rattle.t3_load.specs.Inner.Deciding.{Decides, IsBasis};

use crate::entry::entry_method;
use crate::kinds::Kinds;
use crate::refusal::{LoadRefusal, NameRefusal};
use crate::sets::Sets;
use std::alloc::Global;
use t3_image_read::Image;
use t3_pools::{PoolRefusal, Pools};

/// All of a program but its objects and symbols.
#[derive(Drop)]
pub(crate) struct Basis {
    /// The code address of the entry method.
    pub(crate) entry: u32,
    pub(crate) pools: Pools,
    pub(crate) kinds: Kinds,
    pub(crate) sets: Sets,
}

/// What an image says of them: rules 1 to 6.
pub(crate) fn basis_of(alloc: Global, image: &Image) -> Result<Basis, LoadRefusal>
    ensures basis { IfOk result (IsBasis image.now.blocks) }
    ensures decides { Decides image.now.blocks 1 7 result }
{
    let entry = entry_method(&image.blocks.0)?;
    let pools = pools(alloc, image)?;
    let kinds = kinds(alloc, image)?;
    let sets = sets(alloc, image)?;
    Ok(Basis {
        entry,
        pools,
        kinds,
        sets,
    })
}

/// The pools: rule 4.
fn pools(alloc: Global, image: &Image) -> Result<Pools, LoadRefusal>
    ensures pools { IfOk result (λ pools. pools ≡ pools_in image.now.blocks) }
    ensures decides { Decides image.now.blocks 4 5 result }
{
    match Pools::build(alloc, image) {
        Ok(pools) => Ok(pools),
        Err(PoolRefusal::NoMemory) => Err(LoadRefusal::NoMemory),
        Err(why) => Err(LoadRefusal::Pool(why)),
    }
}

/// The metaclasses: rule 5.
fn kinds(alloc: Global, image: &Image) -> Result<Kinds, LoadRefusal>
    ensures kinds { IfOk result (λ kinds. map kind_entry_of (metas_in image.now.blocks) ≡ map Some kinds) }
    ensures decides { Decides image.now.blocks 5 6 result }
{
    match Kinds::of(alloc, image) {
        Ok(kinds) => Ok(kinds),
        Err(NameRefusal::Unknown(index)) => Err(LoadRefusal::Metaclass(index)),
        Err(NameRefusal::NoMemory) => Err(LoadRefusal::NoMemory),
    }
}

/// The function sets: rule 6.
fn sets(alloc: Global, image: &Image) -> Result<Sets, LoadRefusal>
    ensures sets { IfOk result (λ sets. map set_named (names_in image.now.blocks) ≡ map Some sets) }
    ensures decides { Decides image.now.blocks 6 7 result }
{
    match Sets::of(alloc, image) {
        Ok(sets) => Ok(sets),
        Err(NameRefusal::Unknown(index)) => Err(LoadRefusal::FunctionSet(index)),
        Err(NameRefusal::NoMemory) => Err(LoadRefusal::NoMemory),
    }
}
