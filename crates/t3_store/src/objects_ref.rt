//! Objects that are lent, to be read without a copy.
ghost use Rattle.std.specs.Prelude.{◌≡◌, ◌^◌};
ghost use Rattle.std.specs.FinMap.{get};
ghost use Rattle.t3_store.specs.Store.{AreBelow};
ghost use Rattle.t3_store.specs.Value.{IsNextAbove};
ghost use Rattle.t3_store.specs.Inner.Shapes.{values};

use crate::object_at::ObjectAt;
use crate::object_map::ObjectMap;
use std::marker::Model;

/// Objects by their numbers, which are below 2^31: those of a [`Persistent`](crate::Persistent), or the persistent
/// ones of a [`Store`](crate::Store). Contracts see a finite map from numbers to values.
#[derive(Drop)]
pub struct ObjectsRef<'o> {
    objects: &'o ObjectMap,
}

impl<'o> Model for ObjectsRef<'o> {
    ghost use Rattle.std.specs.Prelude.{◌^◌};
    ghost use Rattle.t3_store.specs.Store.{AreBelow};
    ghost use Rattle.t3_store.specs.Value.{Objects, coded_objects};

    ghost Value = { Objects };

    ghost coded = { coded_objects };

    ghost use Rattle.t3_store.specs.Inner.Shapes.{values};

    ghost view = { λ o. values o.objects.now.objects };

    ghost invariant = { λ o. AreBelow (2 ^ 31) (values o.objects.now.objects) };
}

impl<'o> ObjectsRef<'o> {
    pub(crate) fn new(objects: &'o ObjectMap) -> ObjectsRef<'o>
        requires { AreBelow (2 ^ 31) (values objects.now.objects) }
        ensures { result ≡ values objects.now.objects }
    {
        ObjectsRef { objects }
    }

    /// What stands under a number.
    #[inline(always)]
    pub fn at(&self, number: u32) -> ObjectAt<'o>
        ensures { result ≡ get self.now number }
    {
        self.objects.at(number)
    }

    /// The least object number above this one. `None` exactly where no object has a greater number.
    pub fn after(&self, number: u32) -> Option<u32>
        ensures { IsNextAbove self.now number result }
    {
        let objects = self.objects;
        if number >= 0x7FFF_FFFF {
            return None;
        }
        objects.after(number)
    }
}
