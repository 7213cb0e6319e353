//! The objects of a program, in two halves.
ghost use Rattle.std.specs.Prelude.{◌≡◌, ◌≤◌, ◌∷◌, [], ◌++◌, List, IfOk, IfErr, OnOk, length, map};
ghost use Rattle.t3_load.specs.ImageObjects.{object_numbers, units_together, is_past};
ghost use Rattle.t3_load.specs.Loading.{next_above};
ghost use Rattle.t3_load.specs.declared.objects.ImageObject.{ImageObject as AnyObject};
ghost use Rattle.t3_load.specs.declared.refusal.LoadRefusal.TheVariants as refusals;
ghost use Rattle.t3_load.specs.Inner.Halves.{AreMade, AreHalves, CanAdd, half_of};

use crate::objects::{ImageObject, ImageObjects};
use crate::refusal::LoadRefusal;
use std::alloc::Global;
use t3_store::{Persistent, StoreLimits};

/// The persistent objects of an image, and its transient ones.
#[derive(Drop)]
pub(crate) struct Halves {
    pub(crate) first: Persistent,
    pub(crate) passing: Persistent,
}

impl Halves {
    /// Adds an object to the half that it belongs to.
    fn add(&mut self, object: ImageObject) -> Result<(), LoadRefusal>
        requires { CanAdd object (half_of self.old.first self.old.passing object.transient) }
        ensures added { OnOk result ((objects : List AnyObject)
            → AreHalves objects self.old.first self.old.passing
            → AreHalves (objects ++ object ∷ []) self.new.first self.new.passing) }
        ensures room { IfErr result (λ why. why ≡ refusals.NoMemory) }
    {
        if object.transient {
            self.passing.add(object.number, object.object)?;
        } else {
            self.first.add(object.number, object.object)?;
        }
        Ok(())
    }
}

/// Whether the objects or their units pass the limits: rule 13.
pub(crate) fn is_past(objects: &[ImageObject], limits: StoreLimits) -> bool
    ensures { result ≡ is_past limits objects.now }
{
    if objects.len() > limits.objects as usize {
        return true;
    }
    let mut left = u64::from(limits.units);
    for object in objects {
        let units = object.object.units();
        if units > left {
            return true;
        }
        left -= units;
    }
    false
}

/// One past the greatest number, at least 1.
pub(crate) fn next_number(objects: &[ImageObject]) -> u32
    requires { AreMade objects.now }
    ensures { result ≡ next_above (object_numbers objects.now) }
{
    let mut greatest = 0;
    for object in objects {
        greatest = greatest.max(object.number);
    }
    greatest + 1
}

/// The objects by their halves. They are added by rising number, so that each comes last.
pub(crate) fn halve(alloc: Global, objects: ImageObjects) -> Result<Halves, LoadRefusal>
    requires made { AreMade objects }
    requires few { length objects ≤ 1048576 }
    requires units { units_together objects ≤ 4194304 }
    ensures halves { IfOk result (λ halves. AreHalves objects halves.first halves.passing) }
    ensures room { IfErr result (λ why. why ≡ refusals.NoMemory) }
{
    let mut objects = objects.into_vec();
    objects.sort_by_key(|object| object.number)?;
    let mut halves = Halves {
        first: Persistent::new(alloc),
        passing: Persistent::new(alloc),
    };
    for object in objects {
        halves.add(object)?;
    }
    Ok(halves)
}
