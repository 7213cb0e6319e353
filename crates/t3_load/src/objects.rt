//! The objects of an image, as they are to be made.
ghost use Rattle.std.specs.Prelude.{◌≡◌, IfOk, map, nat_eq, not, option_map};
ghost use Rattle.std.specs.List.{find, IsDistinct};
ghost use Rattle.t3_load.specs.Names.{metas_in};
ghost use Rattle.t3_load.specs.Kinds.{kind_entry_of};
ghost use Rattle.t3_load.specs.ImageObjects.{object_numbers, object_of};
ghost use Rattle.t3_load.specs.Rules.{AreObjectsIn, first_bad, is_object_number};
ghost use Rattle.t3_load.specs.Statics.{statics_in};
ghost use Rattle.t3_load.specs.Inner.Deciding.{Decides};
ghost use Rattle.t3_load.specs.Inner.Halves.{AreMade};
ghost use Rattle.t3_load.specs.Inner.Objects.{static_of, GivesObjectOf, entry_kind_at, HasNumbers, TakesNumbers, TakesObjects};

use crate::kinds::Kinds;
use crate::refusal::LoadRefusal;
use crate::standing::{StaticObject, statics};
use crate::statics::static_object;
use indexmap::IndexSet;
use std::alloc::Global;
use std::hash::{BuildHasherDefault, DefaultHasher};
use std::marker::Model;
use t3_holder::NoMemory;
use t3_image_read::PlacedBlock;
use t3_store::NewObject;
use t3_tadsobj::Supers;

type ObjectNumbers = IndexSet<u32, BuildHasherDefault<DefaultHasher>>;

/// An object of an image, as it is to be made.
#[derive(Debug, Drop)]
pub struct ImageObject {
    pub number: u32,
    pub transient: bool,
    pub object: NewObject,
}

/// The objects of an image in its order, no two of one number. Contracts see the list.
#[derive(Drop)]
pub(crate) struct ImageObjects {
    /// Theirs, by which each is found.
    numbers: ObjectNumbers,
    objects: Vec<ImageObject>,
}

impl Model for ImageObjects {
    ghost use Rattle.std.specs.Prelude.{◌≡◌, List, map, nat_eq};
    ghost use Rattle.std.specs.List.{IsDistinct};
    ghost use Rattle.t3_load.specs.declared.objects.ImageObject.{ImageObject};
    ghost use Rattle.t3_load.specs.Inner.Objects.{HasNumbers};

    ghost Value = { List ImageObject };

    ghost view = { λ o. o.objects.items };

    ghost invariant = { λ o. HasNumbers o.numbers.keys o.objects.items };
}

impl ImageObjects {
    /// The object of a number.
    pub(crate) fn object(&self, number: u32) -> Option<&ImageObject>
        ensures { option_map (λ object. object.now) result ≡ object_of self.now number }
    {
        object_at(&self.numbers, &self.objects, number)
    }

    /// The objects in order.
    pub(crate) fn as_slice(&self) -> &[ImageObject]
        ensures objects { result.now ≡ self.now }
        ensures distinct { IsDistinct nat_eq (object_numbers self.now) }
    {
        &self.objects
    }

    /// The objects themselves, in order.
    pub(crate) fn into_vec(self) -> Vec<ImageObject>
        ensures objects { result.items ≡ self }
        ensures distinct { IsDistinct nat_eq (object_numbers self) }
    {
        let ImageObjects {
            numbers: _,
            objects,
        } = self;
        objects
    }
}

impl Supers for ImageObjects {
    ghost use Rattle.t3_load.specs.ImageObjects.{object_numbers, supers_by};
    ghost use Rattle.t3_load.specs.Inner.Numbers.{has_number};

    ghost supers_at = { supers_by };

    ghost numbers = { object_numbers };

    fn supers(&self, number: u32) -> Option<&[u32]> {
        match &self.object(number)?.object {
            NewObject::Tads { supers, .. } => Some(&supers.0),
            _ => None,
        }
    }

    ghost covers = { λ objects number live. has_number objects number live };
}

/// The object of a number among some of these numbers.
fn object_at<'a>(
    numbers: &ObjectNumbers,
    objects: &'a [ImageObject],
    number: u32,
) -> Option<&'a ImageObject>
    requires { HasNumbers numbers.now.keys objects.now }
    ensures { option_map (λ object. object.now) result ≡ object_of objects.now number }
{
    objects.get(numbers.get_index_of(&number)?)
}

/// The objects of an image, as they are to be made: rules 7 to 9.
pub(crate) fn objects(
    alloc: Global,
    blocks: &[PlacedBlock],
    kinds: &Kinds,
) -> Result<ImageObjects, LoadRefusal>
    requires { map kind_entry_of (metas_in blocks.now) ≡ map Some kinds.now }
    ensures objects { IfOk result (λ objects. AreObjectsIn blocks.now objects) }
    ensures made { IfOk result AreMade }
    ensures decides { Decides blocks.now 7 10 result }
{
    let statics = statics(alloc, blocks)?;
    if let Some(number) = bad_number(&statics) {
        return Err(LoadRefusal::ObjectNumber(number));
    }
    let numbers = match distinct_numbers(alloc, &statics)? {
        Tried::Good(numbers) => numbers,
        Tried::Bad(number) => return Err(LoadRefusal::ObjectTwice(number)),
    };
    let objects = match objects_of(alloc, kinds, &statics)? {
        Tried::Good(objects) => objects,
        Tried::Bad(number) => return Err(LoadRefusal::ObjectData(number)),
    };
    Ok(ImageObjects { numbers, objects })
}

/// What was made of all objects, or the number of the first that breaks a rule.
enum Tried<T> {
    Good(T),
    Bad(u32),
}

/// The first number that is none of an object.
fn bad_number(statics: &[StaticObject<'_>]) -> Option<u32>
    ensures { result ≡ first_bad (map static_of statics.now) }
{
    for placed in statics {
        if !is_object_number(placed.number) {
            return Some(placed.number);
        }
    }
    None
}

fn is_object_number(number: u32) -> bool
    ensures { result ≡ is_object_number number }
{
    0 < number && number < 0x8000_0000
}

/// The numbers of the objects.
fn distinct_numbers(
    alloc: Global,
    statics: &[StaticObject<'_>],
) -> Result<Tried<ObjectNumbers>, NoMemory>
    ensures { IfOk result (TakesNumbers (λ set. set.keys) (map (λ static. static.number) statics.now)) }
{
    let hasher = BuildHasherDefault::new();
    let mut numbers = IndexSet::with_capacity_and_hasher(alloc, statics.len(), hasher)?;
    for placed in statics {
        let (_index, added) = numbers.insert_full(placed.number)?;
        if !added {
            return Ok(Tried::Bad(placed.number));
        }
    }
    Ok(Tried::Good(numbers))
}

/// The objects to be made of those that stand in the image.
fn objects_of(
    alloc: Global,
    kinds: &Kinds,
    statics: &[StaticObject<'_>],
) -> Result<Tried<Vec<ImageObject>>, NoMemory>
    ensures { IfOk result (TakesObjects (entry_kind_at kinds.now) (map static_of statics.now)) }
{
    let mut objects = Vec::with_capacity(alloc, statics.len())?;
    for placed in statics {
        match object_of(alloc, kinds, placed)? {
            Some(object) => objects.push(object)?,
            None => return Ok(Tried::Bad(placed.number)),
        }
    }
    Ok(Tried::Good(objects))
}

/// The object to be made of one that stands in the image. `None` exactly where there is none.
fn object_of(
    alloc: Global,
    kinds: &Kinds,
    placed: &StaticObject<'_>,
) -> Result<Option<ImageObject>, NoMemory>
    ensures { IfOk result (GivesObjectOf (entry_kind_at kinds.now) (static_of placed.now)) }
{
    let Some(entry) = kinds.0.get(usize::from(placed.metaclass)) else {
        return Ok(None);
    };
    match static_object(alloc, entry.kind, placed.bytes)? {
        Some(object) => Ok(Some(ImageObject {
            number: placed.number,
            transient: placed.transient,
            object,
        })),
        None => Ok(None),
    }
}
