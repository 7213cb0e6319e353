ghost use Rattle.std.specs.Prelude.{◌≡◌, ◌+◌, ◌*◌, ◌<◌, ◌≤◌, ◌^◌, ◌||◌, ℕ, Some, None, Ok, IsSome, IfSome, IfOk, is_some, length, map, option_map, option_and_then};
ghost use Rattle.std.specs.FinMap.{get, len, entries};
ghost use Rattle.std.specs.List.Sorted.{IsStrictlyIncreasing};
ghost use Rattle.t3_store.specs.Value.{Value, Objects, holder_at, text_of, items_in, length_of, entries_in, kind_of, supers_of, is_class_at, props_at, cells_at, units_in, HasFittingLength};
ghost use Rattle.t3_store.specs.Store.{AreLimits, AreBelow, value_at, objects_in, store_units, started, changed_cells};
ghost use Rattle.t3_store.specs.Whole.{AreApart, IsWhole, HasGivenNumbers, supers_in, supers_among, supers_of_live};
ghost use Rattle.t3_store.specs.Distinct.{HasDistinctEntries};
ghost use Rattle.t3_store.specs.Inner.Shapes.{values};
ghost use Rattle.t3_tadsobj.specs.Order.{IsAcyclicFrom};

use crate::kind::Kind;
use crate::limits::StoreLimits;
use crate::object_at::ObjectAt;
use crate::object_map::ObjectMap;
use crate::objects_ref::ObjectsRef;
use crate::persistent::Persistent;
use std::alloc::Global;
use std::marker::Model;
use t3_holder::{Holder, NoMemory};
use t3_tables::Entries;
use t3_tadsobj::{Props, Supers};
use t3_undo::{Cell, Journal};

mod changing;
mod restoring;

/// The objects of a run by their numbers, persistent and transient, with savepoints.
///
/// Contracts see two finite maps from numbers to values, and each held savepoint as a whole copy of the
/// persistent one, the newest first.
#[derive(Drop)]
pub struct Store {
    alloc: Global,
    persistent: ObjectMap,
    transient: ObjectMap,
    next: u32,
    next_transient: u64,
    journal: Journal,
    /// How many units the persistent objects counted at each held savepoint, the newest last. Before them
    /// may stand those of savepoints that aren't held any more.
    units: Vec<u32>,
    writes: u64,
    limits: StoreLimits,
}

impl Model for Store {
    ghost use Rattle.t3_store.specs.Store.{CountedStore, coded_counted_store};

    ghost Value = { CountedStore };

    ghost coded = { coded_counted_store };

    ghost use Rattle.std.specs.Prelude.{vec_capacity};
    ghost use Rattle.t3_store.specs.Inner.Store.{store_of, IsTidyStore};

    ghost view = { λ s. record {
      store = store_of s.persistent.objects s.transient.objects s.next s.next_transient s.limits s.journal.segments;
      savepoints = s.journal.marks;
      writes = s.writes;
    } };

    ghost invariant = { λ s. IsTidyStore s.persistent s.transient s.next s.next_transient s.limits s.journal
        s.units.items (vec_capacity s.units) s.writes };
}

impl Store {
    /// A store with these objects, of which `first` are the persistent ones and `passing` the transient ones,
    /// and with all the room for its savepoints. The next persistent object has the number `next`.
    pub fn start(
        alloc: Global,
        limits: StoreLimits,
        first: Persistent,
        passing: Persistent,
        next: u32,
    ) -> Result<Store, NoMemory>
        requires limits { AreLimits limits }
        requires next { (0 < next) × (next ≤ 2 ^ 31) }
        requires first { AreBelow next first }
        requires passing { AreBelow next passing }
        requires apart { AreApart first passing }
        requires whole { IsWhole (supers_in first) }
        requires both { IsWhole (supers_among first passing) }
        requires objects { len first + len passing ≤ limits.objects }
        requires units { units_in first + units_in passing ≤ limits.units }
        ensures store { IfOk result (λ store. store.store ≡ started limits first passing next) }
        ensures savepoints { IfOk result (λ store. store.savepoints ≡ 0) }
        ensures writes { IfOk result (λ store. store.writes ≡ units_in first + units_in passing) }
        ensures few_writes { IfOk result (λ store. store.writes ≤ 2 ^ 22) }
    {
        let journal = Journal::start(alloc, limits.records, limits.savepoints)?;
        let units = Vec::with_capacity(alloc, limits.savepoints as usize)?;
        let persistent = first.into_map();
        let transient = passing.into_map();
        let writes = u64::from(persistent.units()) + u64::from(transient.units());
        Ok(Store {
            alloc,
            persistent,
            transient,
            next,
            next_transient: 0x8000_0000,
            journal,
            units,
            writes,
            limits,
        })
    }

    /// What stands in a cell of an object.
    #[inline(always)]
    pub fn get(&self, number: u32, cell: &Cell) -> Option<Holder>
        ensures { result ≡ holder_at (value_at self.now.store number) cell.now }
    {
        self.at(number).get(cell)
    }

    /// What the object of a number is. No walk over superclasses from any number comes back.
    #[inline(always)]
    pub fn kind(&self, number: u32) -> Option<Kind>
        ensures kind { result ≡ option_map kind_of (value_at self.now.store number) }
        ensures acyclic { IsAcyclicFrom (supers_of_live self.now.store) number }
    {
        let _ = &self.alloc;
        self.at(number).kind()
    }

    /// Whether the object of a number is a class.
    pub fn is_class(&self, number: u32) -> bool
        ensures { result ≡ is_class_at (value_at self.now.store number) }
    {
        self.at(number).is_class()
    }

    /// The properties of a tads-object with their values, by rising number.
    pub fn props(&self, alloc: Global, number: u32) -> Result<Props, NoMemory>
        requires { IsSome (option_and_then supers_of (value_at self.now.store number)) }
        ensures props { IfOk result (λ props. map (λ prop. (prop.number, prop.value)) props
            ≡ entries (props_at (value_at self.now.store number))) }
        ensures rising { IfOk result (λ props. IsStrictlyIncreasing (map (λ prop. prop.number) props)) }
    {
        self.at(number).props(alloc)
    }

    /// The bytes of a string. `None` exactly where the number isn't that of one.
    pub fn text(&self, number: u32) -> Option<&[u8]>
        ensures { option_map (λ bytes. bytes.now) result
            ≡ option_and_then text_of (value_at self.now.store number) }
    {
        self.at(number).text()
    }

    /// The items of a list. `None` exactly where the number isn't that of one.
    pub fn items(&self, number: u32) -> Option<&[Holder]>
        ensures { option_map (λ items. items.now) result
            ≡ option_and_then items_in (value_at self.now.store number) }
    {
        self.at(number).items()
    }

    /// How many elements a vector has. `None` exactly where the number isn't that of one.
    pub fn length(&self, number: u32) -> Option<u32>
        ensures { result ≡ option_and_then length_of (value_at self.now.store number) }
    {
        self.at(number).length()
    }

    /// The entries of a table, the oldest first.
    pub fn entries(&self, alloc: Global, number: u32) -> Result<Entries, NoMemory>
        requires { IsSome (option_and_then entries_in (value_at self.now.store number)) }
        ensures { IfOk result (λ pairs. Some pairs
            ≡ option_and_then entries_in (value_at self.now.store number)) }
    {
        self.at(number).entries(alloc)
    }

    /// How many of an object's cells have a place: those that are present, those that a held savepoint's undo may set, and
    /// some that are left of cells that were taken away, up to the bound. `None` exactly where there is no such object.
    pub fn places(&self, number: u32) -> Option<u64>
        ensures live { is_some result ≡ is_some (value_at self.now.store number) }
        ensures bound { IfSome result (λ count. count
            ≤ 2 * (cells_at (value_at self.now.store number) + self.now.store.limits.records) + 16) }
    {
        let places = self.persistent.places(number);
        if places.is_some() {
            return places;
        }
        self.transient.places(number)
    }

    /// What stands under a number. To ask more than one thing of an object, ask this once.
    #[inline(always)]
    pub fn at(&self, number: u32) -> ObjectAt<'_>
        ensures { result ≡ value_at self.now.store number }
    {
        let object = self.persistent.at(number);
        if object.is_object() {
            return object;
        }
        self.transient.at(number)
    }

    /// How many savepoints are held.
    pub fn held(&self) -> u32
        ensures held { result ≡ length self.now.store.marks }
        ensures bound { result ≤ self.now.store.limits.savepoints }
    {
        self.journal.held()
    }

    /// How many cells were changed first since one of them.
    pub fn records(&self) -> u32
        ensures records { result ≡ changed_cells self.now.store.marks }
        ensures bound { result ≤ self.now.store.limits.records }
    {
        self.journal.records()
    }

    /// How many savepoints were ever made.
    pub fn marks(&self) -> u64
        ensures { result ≡ self.now.savepoints }
    {
        self.journal.marks()
    }

    /// How many writes there were. It begins at the number of units that the first objects count.
    pub fn writes(&self) -> u64
        ensures { result ≡ self.now.writes }
    {
        self.writes
    }

    /// The number of the next persistent object. Objects have numbers that were given, and no two have the same.
    pub fn next(&self) -> u32
        ensures next { result ≡ self.now.store.next }
        ensures numbers { HasGivenNumbers self.now.store }
    {
        self.next
    }

    /// The persistent objects, lent. None of them is broken, there are no more of them and of their units than a
    /// [`Persistent`] may have, no string, list or vector is too long, and no table has a key twice. No memory is
    /// taken.
    pub fn persistent_objects(&self) -> ObjectsRef<'_>
        ensures objects { result ≡ self.now.store.persistent }
        ensures whole { IsWhole (supers_in self.now.store.persistent) }
        ensures few { len self.now.store.persistent ≤ 1048576 }
        ensures few_units { units_in self.now.store.persistent ≤ 4194304 }
        ensures fitting { (number : ℕ) (value : Value) → get self.now.store.persistent number ≡ Some value
            → HasFittingLength value }
        ensures distinct { (number : ℕ) (value : Value) → get self.now.store.persistent number ≡ Some value
            → HasDistinctEntries value }
    {
        // What is counted is true of each object.
        let _ = self.persistent.units();
        ObjectsRef::new(&self.persistent)
    }

    /// A copy of the persistent objects, for which holds what does for those that are lent.
    pub fn persistent_copy(&self, alloc: Global) -> Result<Persistent, NoMemory>
        ensures copy { IfOk result (λ copy. copy ≡ self.now.store.persistent) }
        ensures whole { IsWhole (supers_in self.now.store.persistent) }
        ensures few { len self.now.store.persistent ≤ 1048576 }
        ensures few_units { units_in self.now.store.persistent ≤ 4194304 }
        ensures fitting { (number : ℕ) (value : Value) → get self.now.store.persistent number ≡ Some value
            → HasFittingLength value }
        ensures distinct { (number : ℕ) (value : Value) → get self.now.store.persistent number ≡ Some value
            → HasDistinctEntries value }
    {
        let _ = self.persistent_objects();
        let objects = self.persistent.copy(alloc)?;
        Ok(Persistent::of(alloc, objects))
    }

    /// How many objects there are. The limits are such as there may be, and no walk over superclasses from any
    /// number comes back.
    pub fn objects(&self) -> u32
        ensures objects { result ≡ objects_in self.now.store }
        ensures bound { result ≤ self.now.store.limits.objects }
        ensures limits { AreLimits self.now.store.limits }
        ensures acyclic { (number : ℕ) → IsAcyclicFrom (supers_of_live self.now.store) number }
    {
        (self.persistent.len() + self.transient.len()) as u32
    }

    /// How many units they count. After an undo it may be more than the limit, but at most twice as much, since
    /// neither half counts more by itself. No string, list or vector is too long, no table has a key twice, and
    /// superclasses of persistent objects are persistent tads-objects.
    pub fn units(&self) -> u32
        ensures units { result ≡ store_units self.now.store }
        ensures bound { result ≤ self.now.store.limits.units + self.now.store.limits.units }
        ensures persistent { units_in self.now.store.persistent ≤ self.now.store.limits.units }
        ensures transient { units_in self.now.store.transient ≤ self.now.store.limits.units }
        ensures fitting { (number : ℕ) (value : Value) → value_at self.now.store number ≡ Some value
            → HasFittingLength value }
        ensures distinct { (number : ℕ) (value : Value) → value_at self.now.store number ≡ Some value
            → HasDistinctEntries value }
        ensures whole { IsWhole (supers_in self.now.store.persistent) }
    {
        self.persistent.units() + self.transient.units()
    }

    /// Whether there is an object of that number.
    pub fn live(&self, number: u32) -> bool
        ensures { result ≡ is_some (value_at self.now.store number) }
    {
        self.persistent.has(number) || self.transient.has(number)
    }

    /// Whether it is a transient one.
    pub fn is_transient(&self, number: u32) -> bool
        ensures { result ≡ is_some (get self.now.store.transient number) }
    {
        self.transient.has(number)
    }
}

impl Supers for Store {
    ghost use Rattle.std.specs.Prelude.{option_and_then, ◌++◌};
    ghost use Rattle.std.specs.FinMap.{keys};
    ghost use Rattle.t3_store.specs.Value.{supers_of};
    ghost use Rattle.t3_store.specs.Store.{value_at};
    ghost use Rattle.t3_store.specs.Inner.Numbers.{has_number_in};

    ghost supers_at = { λ s number. option_and_then supers_of (value_at s.store number) };

    ghost numbers = { λ s. keys s.store.persistent ++ keys s.store.transient };

    #[inline(always)]
    fn supers(&self, number: u32) -> Option<&[u32]> {
        self.at(number).supers()
    }

    ghost covers = { λ s number live. has_number_in s.store number live };
}
