ghost use Rattle.std.specs.Prelude.{◌≡◌, ◌<◌, ◌^◌, ◌↔◌, [], None, IfOk, OnOk, IsTrue, IsSome};
ghost use Rattle.std.specs.List.{AllByRecursion};
ghost use Rattle.std.specs.FinMap.{get};
ghost use Rattle.t3_snapshot.specs.Layout.{IsSpellable};
ghost use Rattle.t3_snapshot.specs.State.{can_be_key};
ghost use Rattle.t3_snapshot.specs.Building.{saved_value, HasRisingProps, HasObjects, CanAdd, AddsObject, Builds};
ghost use Rattle.t3_snapshot.specs.Inner.Body.{Adds, TellsComplete, NamesObjects, is_key_kind};

use crate::adding::add_object;
use crate::named::{note_named, note_named_keys};
use crate::saved_object::SavedObject;
use std::alloc::Global;
use t3_holder::NoMemory;
use t3_store::{Kind, Persistent};

/// A state that is made of objects, by rising number. An object may refer to one that comes later, to
/// itself, and in a ring: what isn't there is found in the end.
///
/// Contracts say which objects a builder has, and nothing of how it keeps them: of more objects or units
/// than there may be, and of a next number that is too great, it keeps only that they are no state.
#[derive(Drop)]
pub struct StateBuilder {
    next: u32,
    state: Persistent,
    /// Whether the state has all objects.
    is_kept: bool,
    /// The objects that holders name.
    named: Vec<u32>,
    /// The objects that keys name.
    named_as_keys: Vec<u32>,
}

impl StateBuilder {
    /// No objects, and the next number of the state. Takes no memory.
    pub fn new(alloc: Global, next: u32) -> StateBuilder
        ensures { HasObjects next [] result }
    {
        StateBuilder {
            next,
            state: Persistent::new(alloc),
            is_kept: next <= 0x8000_0000,
            named: Vec::new(alloc),
            named_as_keys: Vec::new(alloc),
        }
    }

    /// Adds an object whose number is above all others and below the next one. After want of memory the
    /// builder is of no use.
    pub fn add(&mut self, number: u32, object: SavedObject) -> Result<(), NoMemory>
        requires number { CanAdd self.old number }
        requires spellable { IsSpellable (saved_value object) }
        requires rising { HasRisingProps object }
        ensures { OnOk result (AddsObject self.old self.new number (saved_value object)) }
    {
        self.keep(number, object)
    }

    /// The state of all objects. `None` exactly where they are no complete state with the next number.
    pub fn finish(self, alloc: Global) -> Result<Option<Persistent>, NoMemory>
        ensures { IfOk result (λ state. Builds self state) }
    {
        let complete = self.is_complete(alloc)?;
        if !complete {
            return Ok(None);
        }
        let StateBuilder {
            next: _,
            state,
            is_kept: _,
            named: _,
            named_as_keys: _,
        } = self;
        Ok(Some(state))
    }

    /// Whether the objects are a complete state.
    fn is_complete(&self, alloc: Global) -> Result<bool, NoMemory>
        ensures { IfOk result (λ complete. TellsComplete self.now complete) }
    {
        if !self.is_kept {
            return Ok(false);
        }
        if !self.names_objects() {
            return Ok(false);
        }
        let _units = self.state.units();
        Ok(self.state.first_broken(alloc)?.is_none())
    }

    /// Notes what an object names, and adds it to the state where that has all objects.
    fn keep(&mut self, number: u32, object: SavedObject) -> Result<(), NoMemory>
        requires number { IsTrue self.old.is_kept → (0 < number) × (number < 2 ^ 31) }
        requires new { IsTrue self.old.is_kept → get self.old.state number ≡ None }
        requires spellable { IsSpellable (saved_value object) }
        requires rising { HasRisingProps object }
        ensures { OnOk result (Adds self.old self.new number (saved_value object)) }
    {
        note_named(&object, &mut self.named)?;
        note_named_keys(&object, &mut self.named_as_keys)?;
        if self.is_kept {
            self.is_kept = add_object(&mut self.state, number, object)?;
        }
        Ok(())
    }

    /// Whether all that is named is there.
    fn names_objects(&self) -> bool
        ensures { IsTrue result ↔ NamesObjects self.now }
    {
        are_objects(&self.state, &self.named) && can_be_keys(&self.state, &self.named_as_keys)
    }
}

/// Whether each of these is an object.
fn are_objects(state: &Persistent, numbers: &[u32]) -> bool
    ensures { IsTrue result ↔ AllByRecursion (λ number. IsSome (get state.now number)) numbers.now }
{
    numbers.iter().all(|number| state.kind(*number).is_some())
}

/// Whether each of these is an object that can be a key.
fn can_be_keys(state: &Persistent, numbers: &[u32]) -> bool
    ensures { IsTrue result
        ↔ AllByRecursion (λ number. IsTrue (can_be_key (get state.now number))) numbers.now }
{
    numbers
        .iter()
        .all(|number| is_key_kind(state.kind(*number)))
}

/// Whether an object of the kind can be a key.
fn is_key_kind(kind: Option<Kind>) -> bool
    ensures { result ≡ is_key_kind kind }
{
    match kind {
        Some(Kind::Tads) | Some(Kind::Vector) | Some(Kind::Table) => true,
        _ => false,
    }
}
