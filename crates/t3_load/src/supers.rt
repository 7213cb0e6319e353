//! The rules on the superclasses of an image's objects.
ghost use Rattle.std.specs.Prelude.{◌≡◌, List, Some, None, IfOk, OnOk, filter, map};
ghost use Rattle.t3_image_read.specs.declared.image.PlacedBlock.{PlacedBlock as AnyBlock};
ghost use Rattle.t3_tadsobj.specs.Cycles.{IsFirstCyclic};
ghost use Rattle.t3_load.specs.ImageObjects.{object_numbers, supers_by, superclasses, lacks_super, is_transient_at, has_transient_super};
ghost use Rattle.t3_store.specs.Whole.{IsAcyclic};
ghost use Rattle.t3_load.specs.Rules.{AreObjectsIn, first_by};
ghost use Rattle.t3_load.specs.Names.{metas_in};
ghost use Rattle.t3_load.specs.Kinds.{kind_entry_of};
ghost use Rattle.t3_load.specs.Inner.Halves.{AreMade, IsWhole};
ghost use Rattle.t3_load.specs.Inner.Supers.{has_supers};
ghost use Rattle.t3_load.specs.Inner.Deciding.{Decides};

use crate::kinds::Kinds;
use crate::objects::{ImageObject, ImageObjects, objects};
use crate::refusal::LoadRefusal;
use std::alloc::Global;
use t3_holder::NoMemory;
use t3_image_read::Image;
use t3_store::NewObject;
use t3_tadsobj::{Supers, first_cyclic};

/// The objects of an image: rules 7 to 12.
pub(crate) fn checked_objects(
    alloc: Global,
    image: &Image,
    kinds: &Kinds,
) -> Result<ImageObjects, LoadRefusal>
    requires { map kind_entry_of (metas_in image.now.blocks) ≡ map Some kinds.now }
    ensures objects { IfOk result (AreObjectsIn image.now.blocks) }
    ensures made { IfOk result AreMade }
    ensures whole { IfOk result IsWhole }
    ensures decides { Decides image.now.blocks 7 13 result }
{
    let objects = objects(alloc, &image.blocks.0, kinds)?;
    check_there(&objects)?;
    check_acyclic(alloc, &objects)?;
    check_persistent(&objects)?;
    Ok(objects)
}

/// Whether each superclass is there: rule 10.
fn check_there(objects: &ImageObjects) -> Result<(), LoadRefusal>
    ensures there { OnOk result (first_by (lacks_super objects.now) objects.now ≡ None) }
    ensures decides { (blocks : List AnyBlock) → AreObjectsIn blocks objects.now → Decides blocks 10 11 result }
{
    for object in objects.as_slice() {
        if lacks_super(objects, object) {
            return Err(LoadRefusal::SuperMissing(object.number));
        }
    }
    Ok(())
}

/// Whether no object is its own ancestor: rule 11.
fn check_acyclic(alloc: Global, objects: &ImageObjects) -> Result<(), LoadRefusal>
    ensures acyclic { OnOk result (IsAcyclic (supers_by objects.now)) }
    ensures decides { (blocks : List AnyBlock) → AreObjectsIn blocks objects.now → Decides blocks 11 12 result }
{
    match first_own_ancestor(alloc, objects)? {
        Some(number) => Err(LoadRefusal::SuperCycle(number)),
        None => Ok(()),
    }
}

/// The number of the first object that is its own ancestor. One without superclasses can't be, and isn't asked for.
fn first_own_ancestor(alloc: Global, objects: &ImageObjects) -> Result<Option<u32>, NoMemory>
    ensures { IfOk result (IsFirstCyclic (supers_by objects.now) (object_numbers objects.now)) }
{
    let numbers = numbers_with_supers(alloc, objects.as_slice())?;
    first_cyclic(alloc, objects, &numbers)
}

/// The numbers of the objects that have superclasses, in order.
fn numbers_with_supers(alloc: Global, objects: &[ImageObject]) -> Result<Vec<u32>, NoMemory>
    ensures { IfOk result (λ numbers. numbers.items
        ≡ object_numbers (filter has_supers objects.now)) }
{
    let mut numbers = Vec::new(alloc);
    for object in objects {
        if has_supers(object) {
            numbers.push(object.number)?;
        }
    }
    Ok(numbers)
}

/// Whether persistent objects have persistent superclasses: rule 12.
fn check_persistent(objects: &ImageObjects) -> Result<(), LoadRefusal>
    ensures persistent { OnOk result (first_by (has_transient_super objects.now) objects.now ≡ None) }
    ensures decides { (blocks : List AnyBlock) → AreObjectsIn blocks objects.now → Decides blocks 12 13 result }
{
    for object in objects.as_slice() {
        if has_transient_super(objects, object) {
            return Err(LoadRefusal::TransientSuper(object.number));
        }
    }
    Ok(())
}

/// Whether a superclass is no tads-object of the image.
fn lacks_super(objects: &ImageObjects, object: &ImageObject) -> bool
    ensures { result ≡ lacks_super objects.now object.now }
{
    for number in superclasses(object) {
        if objects.supers(*number).is_none() {
            return true;
        }
    }
    false
}

/// Whether the object is persistent and a superclass is transient.
fn has_transient_super(objects: &ImageObjects, object: &ImageObject) -> bool
    ensures { result ≡ has_transient_super objects.now object.now }
{
    if object.transient {
        return false;
    }
    for number in superclasses(object) {
        if is_transient_at(objects, *number) {
            return true;
        }
    }
    false
}

fn is_transient_at(objects: &ImageObjects, number: u32) -> bool
    ensures { result ≡ is_transient_at objects.now number }
{
    match objects.object(number) {
        Some(object) => object.transient,
        None => false,
    }
}

fn has_supers(object: &ImageObject) -> bool
    ensures { result ≡ has_supers object.now }
{
    superclasses(object).len() > 0
}

/// The superclasses of a tads-object. Other objects have none.
fn superclasses(object: &ImageObject) -> &[u32]
    ensures { result.now ≡ superclasses object.now }
{
    match &object.object {
        NewObject::Tads { supers, .. } => &supers.0,
        _ => &[],
    }
}
