ghost use Rattle.std.specs.Prelude.{◌≡◌, ◌+◌, ◌<◌, ◌≤◌, ◌^◌, ◌↔◌, ◌||◌, ℕ, Some, None, Err, IsTrue, IsSome, IfOk, OnOk, OnErr, MatchOption, is_some, option_map, option_and_then, map};
ghost use Rattle.std.specs.List.Sorted.{IsStrictlyIncreasing};
ghost use Rattle.std.specs.FinMap as finite;
ghost use Rattle.std.specs.List.{list_any};
ghost use Rattle.std.specs.FinMap.{get, insert, entries, keys};
ghost use Rattle.t3_store.specs.Value.{Value, is_past, is_past_units, with_cell, IsTableWithout, HasFittingLength, text_of, items_in, length_of, entries_in, holder_at, kind_of, supers_of, is_class_at, props_at, units_of, units_in, new_value, IsNextAbove};
ghost use Rattle.t3_undo.specs.Units.{key_units};
ghost use Rattle.t3_store.specs.Broken.{LacksSuper, IsOwnAncestor, IsNever, IsLeast, IsFirstBroken};
ghost use Rattle.t3_store.specs.Whole.{IsWhole, supers_in};
ghost use Rattle.t3_store.specs.Distinct.{HasDistinctEntries};
ghost use Rattle.t3_store.specs.Inner.Shapes.{values, AreWithin};
ghost use Rattle.t3_store.specs.Inner.Bounded.{HaveFreshPlaces};
ghost use Rattle.t3_store.specs.Inner.Store.{IsPersistent};
ghost use Rattle.t3_undo.specs.Objects.{adjust};

use crate::broken::{Broken, lacks_super, subclasses};
use crate::kind::Kind;
use crate::limits::StoreRefusal;
use crate::new_object::NewObject;
use crate::object_map::ObjectMap;
use crate::objects_ref::ObjectsRef;
use crate::table_cells::cell_units;
use crate::writing;
use std::alloc::Global;
use std::marker::Model;
use t3_holder::{Holder, NoMemory};
use t3_tables::Entries;
use t3_tadsobj::{Props, Supers, first_cyclic};
use t3_undo::{Cell, Key};

/// How many objects and units there are at most.
const MOST_OBJECTS: u64 = 1_048_576;

const MOST_UNITS: u64 = 4_194_304;

/// Objects by their numbers, as an image brings them or a state is saved. Contracts see a finite map from
/// numbers to values.
#[derive(Drop)]
pub struct Persistent {
    alloc: Global,
    objects: ObjectMap,
}

impl Model for Persistent {
    ghost use Rattle.t3_store.specs.Value.{Objects, coded_objects};

    ghost Value = { Objects };

    ghost coded = { coded_objects };

    ghost use Rattle.t3_store.specs.Inner.Shapes.{values};
    ghost use Rattle.t3_store.specs.Inner.Store.{IsPersistent};

    ghost view = { λ p. values p.objects.objects };

    ghost invariant = { λ p. IsPersistent p.objects };
}

impl Persistent {
    /// No objects. Takes no memory.
    pub fn new(alloc: Global) -> Persistent
        ensures { result ≡ finite.empty }
    {
        Persistent {
            alloc,
            objects: ObjectMap::new(alloc),
        }
    }

    /// Adds an object under a number that no other has. `Full` comes exactly where there would be more than
    /// 1,048,576 objects, or more than 4,194,304 units.
    pub fn add(&mut self, number: u32, what: NewObject) -> Result<(), StoreRefusal>
        requires number { (0 < number) × (number < 2 ^ 31) }
        requires new { get self.old number ≡ None }
        requires length { HasFittingLength (new_value what) }
        ensures full { (result ≡ Err StoreRefusal.Full)
            ↔ IsTrue (is_past self.old (units_of (new_value what))) }
        ensures ok { OnOk result (self.new ≡ insert self.old number (new_value what)) }
        ensures err { OnErr result (self.new ≡ self.old) }
    {
        let units = what.units();
        if is_past(&self.objects, units) {
            return Err(StoreRefusal::Full);
        }
        let object = what.make(self.alloc)?;
        self.objects.add(number, object, units as u32)?;
        Ok(())
    }

    /// Adds an entry to a table that doesn't have its key. It comes last. `Full` comes exactly where there would
    /// be more than 4,194,304 units.
    pub fn add_pair(&mut self, number: u32, key: Key, value: Holder) -> Result<(), StoreRefusal>
        requires table { IsTableWithout key (get self.old number) }
        ensures full { (result ≡ Err StoreRefusal.Full) ↔ IsTrue (is_past_units self.old (key_units key)) }
        ensures ok { OnOk result (self.new ≡ adjust self.old number (with_cell (Cell.Key key) value)) }
        ensures err { OnErr result (self.new ≡ self.old) }
    {
        let cell = Cell::Key(key);
        let full = is_past_units(&self.objects, cell_units(&cell));
        let _absent = writing::set(&mut self.objects, self.alloc, number, &cell, value, full)?;
        Ok(())
    }

    /// Sets the default of a table. No memory is taken.
    pub fn set_default(&mut self, number: u32, value: Holder)
        requires table { IsSome (option_and_then entries_in (get self.old number)) }
        ensures { self.new ≡ adjust self.old number (with_cell Cell.Default value) }
    {
        let _old = writing::overwrite(&mut self.objects, number, &Cell::Default, value);
    }

    /// The least object number above this one. `None` exactly where no object has a greater number.
    pub fn after(&self, number: u32) -> Option<u32>
        ensures { IsNextAbove self.now number result }
    {
        self.as_objects().after(number)
    }

    /// These objects, lent. No memory is taken.
    pub fn as_objects(&self) -> ObjectsRef<'_>
        ensures { result ≡ self.now }
    {
        let _ = &self.alloc;
        ObjectsRef::new(&self.objects)
    }

    /// The object with the least number of which a superclass isn't a tads-object here. If there is none, the
    /// object with the least number that is its own ancestor. `None` exactly where neither is, and then nothing
    /// is broken for a store that has these objects. Each object and each superclass is looked at twice at most:
    /// the time grows with both together.
    pub fn first_broken(&self, alloc: Global) -> Result<Option<(u32, Broken)>, NoMemory>
        ensures first { IfOk result (λ broken. IsFirstBroken (supers_in self.now) broken) }
        ensures whole { IfOk result (λ broken. (broken ≡ None) ↔ IsWhole (supers_in self.now)) }
    {
        if let Some(number) = self.first_lacking() {
            return Ok(Some((number, Broken::Missing)));
        }
        match self.first_own_ancestor(alloc)? {
            Some(number) => Ok(Some((number, Broken::Cycle))),
            None => Ok(None),
        }
    }

    /// The least number of an object of which a superclass isn't a tads-object here.
    fn first_lacking(&self) -> Option<u32>
        ensures { MatchOption result (IsNever (LacksSuper (supers_in self.now)))
            (λ number. IsLeast (LacksSuper (supers_in self.now)) number) }
    {
        let _ = &self.alloc;
        let mut number = 0;
        while let Some(next) = self.after(number) {
            if lacks_super(self, next) {
                return Some(next);
            }
            number = next;
        }
        None
    }

    /// The least number of an object that is its own ancestor. One without superclasses isn't, so it is left out.
    fn first_own_ancestor(&self, alloc: Global) -> Result<Option<u32>, NoMemory>
        ensures { IfOk result (λ found. MatchOption found (IsNever (IsOwnAncestor (supers_in self.now)))
            (λ number. IsLeast (IsOwnAncestor (supers_in self.now)) number)) }
    {
        let numbers = self.objects.numbers(alloc)?;
        let subclasses = subclasses(alloc, self, &numbers)?;
        first_cyclic(alloc, self, &subclasses)
    }

    /// How many units the objects count together. There are no more of them, and of objects, than there may be.
    /// Numbers are from 1 on and below 2^31, no string, list or vector is too long, and no table has a key twice.
    pub fn units(&self) -> u32
        ensures units { result ≡ units_in self.now }
        ensures few { finite.len self.now ≤ 1048576 }
        ensures few_units { units_in self.now ≤ 4194304 }
        ensures numbers { (number : ℕ) → IsSome (get self.now number)
            → (0 < number) × (number < 2 ^ 31) }
        ensures fitting { (number : ℕ) (value : Value) → get self.now number ≡ Some value
            → HasFittingLength value }
        ensures distinct { (number : ℕ) (value : Value) → get self.now number ≡ Some value
            → HasDistinctEntries value }
    {
        self.objects.units()
    }

    /// How many objects there are.
    pub(crate) fn len(&self) -> u64
        ensures len { result ≡ finite.len self.now }
        ensures few { result ≤ 1048576 }
    {
        self.objects.len()
    }

    /// Whether a number of these objects is that of one of the others.
    pub(crate) fn meets(&self, others: &ObjectMap) -> bool
        ensures { result ≡ list_any (λ number. is_some (get (values others.now.objects) number))
            (keys self.now) }
    {
        self.objects.meets(others)
    }

    /// An equal map.
    pub fn copy(&self, alloc: Global) -> Result<Persistent, NoMemory>
        ensures { IfOk result (λ copy. copy ≡ self.now) }
    {
        let objects = self.objects.copy(alloc)?;
        Ok(Persistent { alloc, objects })
    }

    /// What stands in a cell of an object.
    pub fn get(&self, number: u32, cell: &Cell) -> Option<Holder>
        ensures { result ≡ holder_at (get self.now number) cell.now }
    {
        self.objects.at(number).get(cell)
    }

    /// What the object of a number is. Numbers are from 1 on and below 2^31.
    pub fn kind(&self, number: u32) -> Option<Kind>
        ensures kind { result ≡ option_map kind_of (get self.now number) }
        ensures number { IsSome (get self.now number) → (0 < number) × (number < 2 ^ 31) }
    {
        self.objects.at(number).kind()
    }

    /// Whether the object of a number is a class.
    pub fn is_class(&self, number: u32) -> bool
        ensures { result ≡ is_class_at (get self.now number) }
    {
        self.objects.at(number).is_class()
    }

    /// The properties of a tads-object with their values, by rising number.
    pub fn props(&self, alloc: Global, number: u32) -> Result<Props, NoMemory>
        requires { IsSome (option_and_then supers_of (get self.now number)) }
        ensures props { IfOk result (λ props. map (λ prop. (prop.number, prop.value)) props
            ≡ entries (props_at (get self.now number))) }
        ensures rising { IfOk result (λ props. IsStrictlyIncreasing (map (λ prop. prop.number) props)) }
    {
        self.objects.at(number).props(alloc)
    }

    /// The bytes of a string. `None` exactly where the number isn't that of one.
    pub fn text(&self, number: u32) -> Option<&[u8]>
        ensures { option_map (λ bytes. bytes.now) result ≡ option_and_then text_of (get self.now number) }
    {
        self.objects.at(number).text()
    }

    /// The items of a list. `None` exactly where the number isn't that of one.
    pub fn items(&self, number: u32) -> Option<&[Holder]>
        ensures { option_map (λ items. items.now) result ≡ option_and_then items_in (get self.now number) }
    {
        self.objects.at(number).items()
    }

    /// How many elements a vector has. `None` exactly where the number isn't that of one.
    pub fn length(&self, number: u32) -> Option<u32>
        ensures { result ≡ option_and_then length_of (get self.now number) }
    {
        self.objects.at(number).length()
    }

    /// The entries of a table, the oldest first.
    pub fn entries(&self, alloc: Global, number: u32) -> Result<Entries, NoMemory>
        requires { IsSome (option_and_then entries_in (get self.now number)) }
        ensures { IfOk result (λ pairs. Some pairs ≡ option_and_then entries_in (get self.now number)) }
    {
        self.objects.at(number).entries(alloc)
    }

    /// The objects, of which none has too great a number, and which are no more than there may be.
    pub(crate) fn of(alloc: Global, objects: ObjectMap) -> Persistent
        requires { IsPersistent objects }
        ensures { result ≡ values objects.objects }
    {
        Persistent { alloc, objects }
    }

    /// The objects themselves.
    pub(crate) fn into_map(self) -> ObjectMap
        ensures objects { values result.objects ≡ self }
        ensures from_one { get self 0 ≡ None }
        ensures ticks { AreWithin (units_in self + 1) result.ticks }
        ensures fresh_places { HaveFreshPlaces result }
    {
        let Persistent { alloc: _, objects } = self;
        objects
    }
}

impl Supers for Persistent {
    ghost use Rattle.std.specs.Prelude.{option_and_then};
    ghost use Rattle.std.specs.FinMap.{get, keys};
    ghost use Rattle.t3_store.specs.Value.{supers_of};
    ghost use Rattle.t3_store.specs.Inner.Numbers.{has_number};

    ghost supers_at = { λ p number. option_and_then supers_of (get p number) };

    ghost numbers = { λ p. keys p };

    fn supers(&self, number: u32) -> Option<&[u32]> {
        self.objects.at(number).supers()
    }

    ghost covers = { λ p number live. has_number p number live };
}

/// Whether a further object that counts so many units would be more than there may be.
fn is_past(objects: &ObjectMap, units: u64) -> bool
    ensures { result ≡ is_past (values objects.now.objects) units }
{
    objects.len() >= MOST_OBJECTS || is_past_units(objects, units)
}

/// Whether so many units more would be more than there may be.
fn is_past_units(objects: &ObjectMap, units: u64) -> bool
    ensures { result ≡ is_past_units (values objects.now.objects) units }
{
    let sum = u64::from(objects.units());
    sum > MOST_UNITS || units > MOST_UNITS - sum
}
