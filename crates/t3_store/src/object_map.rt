ghost use Rattle.std.specs.Prelude.{◌≡◌, ◌+◌, ◌-◌, ◌<◌, ◌≤◌, ◌^◌, ℕ, Some, None, IsTrue, IsSome, IfSome, IfOk, OnOk, OnErr, is_some, option_map, option_and_then, drop};
ghost use Rattle.std.specs.List.{list_any};
ghost use Rattle.std.specs.FinMap as finite;
ghost use Rattle.std.specs.FinMap.{get, insert, entries, keys};
ghost use Rattle.t3_undo.specs.Present.{value_in};
ghost use Rattle.t3_undo.specs.Content.{shown, is_form};
ghost use Rattle.t3_undo.specs.declared.cell.Cell.TheVariants.{Prop};
ghost use Rattle.t3_undo.specs.Objects.{part_at};
ghost use Rattle.t3_store.specs.Value.{holder_at, can_have_at, can_lose_at, with_cell, without_cell, cells_at, units_of, units_in, IsNextAbove};
ghost use Rattle.t3_undo.specs.Units.{cell_units};
ghost use Rattle.t3_store.specs.Inner.Shapes.{thing_of, places_of, tick_of, value_of, values, has_place, stamp_at, with_place_stamp, with_place, AreWithin, IsChanged};
ghost use Rattle.t3_store.specs.Inner.Bounded.{HaveFreshPlaces, HaveNoGaps, IsTidiedAt, IsPlaced, IsFilledBelow, AreBounded, parts_under};
ghost use Rattle.t3_store.specs.Inner.Valid.{IsValid, AreValid};
ghost use Rattle.t3_store.specs.Inner.Store.{IsSound, AreRecordsWithin, HaveRisen, IsWritten};
ghost use Rattle.t3_undo.specs.Journal.{newest_next};
ghost use Rattle.t3_undo.specs.Stamps.{AreStamped};
ghost use Rattle.t3_undo.specs.UndoLaw.{undone};

use crate::entries::{
    Entry, add, content_with, copy_all, cut, make_place, meet, number_from, numbers_of, object_at,
    put, put_back, replace_prop, set_stamp, stamp_of, tidy,
};
use crate::object::Object;
use crate::object_at::ObjectAt;
use crate::table_cells::cell_units;
use std::alloc::Global;
use std::marker::Model;
use t3_holder::{Holder, NoMemory};
use t3_undo::{Cell, Content, Journal};

/// Objects by their numbers, and how many units they count together.
#[derive(Drop)]
pub(crate) struct ObjectMap {
    entries: Vec<Entry>,
    units: u32,
}

impl Model for ObjectMap {
    ghost use Rattle.t3_store.specs.Inner.Shapes.{Stored, coded_stored};

    ghost Value = { Stored };

    ghost coded = { coded_stored };

    ghost use Rattle.t3_store.specs.Inner.Entries.{things_of, places_in, ticks_in, IsObjectMap};

    ghost view = { λ m. record {
      objects = things_of m.entries.items;
      places = places_in m.entries.items;
      ticks = ticks_in m.entries.items;
    } };

    ghost invariant = { λ m. IsObjectMap m.entries.items m.units };
}

impl ObjectMap {
    /// No objects. Takes no memory.
    pub(crate) fn new(alloc: Global) -> ObjectMap
        ensures { result ≡ record { objects = finite.empty; places = finite.empty; ticks = finite.empty } }
    {
        ObjectMap {
            entries: Vec::new(alloc),
            units: 0,
        }
    }

    /// The object of a number.
    #[inline(always)]
    pub(crate) fn object(&self, number: u32) -> Option<&Object>
        ensures thing { option_map (λ object. thing_of object.now) result ≡ get self.now.objects number }
        ensures places { option_map (λ object. places_of object.now) result ≡ get self.now.places number }
        ensures valid { IfSome result (λ object. IsValid (thing_of object.now)) }
    {
        object_at(&self.entries, number)
    }

    /// What stands under a number.
    #[inline(always)]
    pub(crate) fn at(&self, number: u32) -> ObjectAt<'_>
        ensures { result ≡ get (values self.now.objects) number }
    {
        ObjectAt::new(self.object(number))
    }

    /// Whether there is an object of that number.
    #[inline(always)]
    pub(crate) fn has(&self, number: u32) -> bool
        ensures thing { result ≡ is_some (get self.now.objects number) }
        ensures value { result ≡ is_some (get (values self.now.objects) number) }
    {
        self.object(number).is_some()
    }

    /// What stands in a cell of an object.
    #[inline(always)]
    pub(crate) fn get(&self, number: u32, cell: &Cell) -> Content
        ensures content { shown result ≡ part_at self.now.objects number cell.now }
        ensures value { option_and_then value_in (shown result)
            ≡ holder_at (get (values self.now.objects) number) cell.now }
        ensures placed { IsSome (shown result) → IsTrue (has_place self.now.places number cell.now) }
    {
        match self.object(number) {
            Some(object) => object.get(cell),
            None => Content::Absent,
        }
    }

    /// Sets a cell of an object, and hands out what stood there. No memory is taken.
    #[inline(always)]
    pub(crate) fn set(&mut self, number: u32, cell: &Cell, value: Holder) -> Content
        requires place { IsTrue (has_place self.old.places number cell.now) }
        requires can { IsTrue (can_have_at (get (values self.old.objects) number) cell.now) }
        requires room { holder_at (get (values self.old.objects) number) cell.now ≡ None
            → units_in (values self.old.objects) + cell_units cell.now < 2 ^ 32 }
        requires few { AreWithin (2 ^ 64 - 2) self.old.ticks }
        ensures changed { IsChanged self.old self.new number cell.now (with_cell cell.now value) }
        ensures old { shown result ≡ part_at self.old.objects number cell.now }
        ensures formed { IsTrue (is_form cell.now (shown result)) }
        ensures ticks { HaveRisen self.old.ticks self.new.ticks (shown result) }
        ensures present { IsSome (part_at self.new.objects number cell.now) }
        ensures filled { IsFilledBelow self.old.objects number cell.now }
    {
        let content = content_with(&self.entries, number, cell, value);
        let old = put(&mut self.entries, number, cell, content);
        if !old.is_present() {
            self.units += cell_units(cell) as u32;
        }
        old
    }

    /// Sets a property that an object has to another value, and hands out what stood there. It is `Absent`
    /// exactly where there is no such property, and then nothing changes. The object is looked up once, and no
    /// memory is taken.
    #[inline(always)]
    pub(crate) fn replace_prop(&mut self, number: u32, property: u16, value: Holder) -> Content
        ensures value { option_and_then value_in (shown result)
            ≡ holder_at (get (values self.old.objects) number) (Prop property) }
        ensures written { IsSome (shown result) → IsWritten self.old self.new number (Prop property)
            (with_cell (Prop property) value) (shown result) }
        ensures places { self.new.places ≡ self.old.places }
        ensures placed { IsSome (shown result) → IsPlaced self.old self.new number (Prop property) }
        ensures kept { shown result ≡ None → self.new ≡ self.old }
    {
        replace_prop(&mut self.entries, number, property, value)
    }

    /// Takes a present cell of an object away, and hands out what stood there. No memory is taken.
    pub(crate) fn take(&mut self, number: u32, cell: &Cell) -> Content
        requires place { IsTrue (has_place self.old.places number cell.now) }
        requires present { IsSome (holder_at (get (values self.old.objects) number) cell.now) }
        requires can { IsTrue (can_lose_at (get (values self.old.objects) number) cell.now) }
        ensures changed { IsChanged self.old self.new number cell.now (without_cell cell.now) }
        ensures old { shown result ≡ part_at self.old.objects number cell.now }
        ensures formed { IsTrue (is_form cell.now (shown result)) }
        ensures ticks { HaveRisen self.old.ticks self.new.ticks (shown result) }
        ensures filled { IsFilledBelow self.old.objects number cell.now }
    {
        let old = put(&mut self.entries, number, cell, Content::Absent);
        self.units -= cell_units(cell) as u32;
        old
    }

    /// The stamp of the place of a cell of an object.
    pub(crate) fn stamp(&self, number: u32, cell: &Cell) -> u64
        requires { IsTrue (has_place self.now.places number cell.now) }
        ensures { stamp_at self.now.places number cell.now ≡ Some result }
    {
        stamp_of(&self.entries, number, cell)
    }

    /// Gives the place of a cell of an object another stamp. No memory is taken.
    pub(crate) fn set_stamp(&mut self, number: u32, cell: &Cell, stamp: u64)
        requires { IsTrue (has_place self.old.places number cell.now) }
        ensures { self.new ≡ record self.old {
          places = with_place_stamp number cell.now stamp self.old.places;
        } }
    {
        set_stamp(&mut self.entries, number, cell, stamp);
    }

    /// Makes a place for a cell of an object, which stays as it is.
    pub(crate) fn make_place(&mut self, number: u32, cell: Cell) -> Result<(), NoMemory>
        requires { IsTrue (can_have_at (get (values self.old.objects) number) cell) }
        ensures ok { OnOk result (self.new ≡ record self.old { places = with_place number cell self.old.places }) }
        ensures placed { OnOk result (IsTrue (has_place self.new.places number cell)) }
        ensures err { OnErr result (self.new ≡ self.old) }
    {
        make_place(&mut self.entries, number, cell)?;
        Ok(())
    }

    /// How many cells of an object have a place.
    pub(crate) fn places(&self, number: u32) -> Option<u64>
        ensures places { result ≡ option_map finite.len (get self.now.places number) }
        ensures live { is_some result ≡ is_some (get self.now.objects number) }
        ensures cells { finite.len (parts_under self.now.objects number)
            ≤ cells_at (get (values self.now.objects) number) }
    {
        // No more cells are present than the value tells.
        let _ = &self.entries;
        match self.object(number) {
            Some(object) => Some(object.places()),
            None => None,
        }
    }

    /// Where an object has too many places, takes away those of absent cells whose stamps are below the oldest
    /// serial, which no savepoint needs. No memory is taken.
    pub(crate) fn tidy(&mut self, number: u32, record_limit: u32, oldest: u64)
        ensures tidied { IsTidiedAt record_limit oldest number self.old self.new }
        ensures valid { AreValid self.old.objects }
    {
        tidy(&mut self.entries, number, record_limit, oldest);
    }

    /// Adds an object, which counts so many units, under a number that no other has.
    pub(crate) fn add(&mut self, number: u32, object: Object, units: u32) -> Result<(), NoMemory>
        requires new { get self.old.objects number ≡ None }
        requires units { units ≡ units_of (value_of (thing_of object)) }
        requires room { units_in (values self.old.objects) + units < 2 ^ 32 }
        requires valid { IsValid (thing_of object) }
        ensures ok { OnOk result (self.new ≡ record {
          objects = insert self.old.objects number (thing_of object);
          places = insert self.old.places number (places_of object);
          ticks = insert self.old.ticks number (tick_of object);
        }) }
        ensures err { OnErr result (self.new ≡ self.old) }
    {
        add(&mut self.entries, number, object)?;
        self.units += units;
        Ok(())
    }

    /// The objects as they were at the newest savepoint, which ends: what stood in its records is put back, with
    /// the stamps of then, and what was made since is taken away. They count so many units then, and where one has
    /// too many places, empty ones go. No memory is taken.
    pub(crate) fn undo(&mut self, journal: &mut Journal, next: u32, units: u32, record_limit: u32)
        requires limit { journal.old.record_limit ≡ record_limit }
        requires sound { IsSound self.old.places next journal.old.segments }
        requires stamped { AreStamped journal.old.marks (stamp_at self.old.places)
            journal.old.segments }
        requires bounded { AreBounded record_limit self.old }
        requires gaps { HaveNoGaps (undone self.old.objects journal.old.segments)
            (drop 1 journal.old.segments) }
        requires next { newest_next journal.old.segments ≡ Some next }
        requires units { units ≡ units_in (values (undone self.old.objects journal.old.segments)) }
        requires valid { AreValid (undone self.old.objects journal.old.segments) }
        ensures objects { self.new.objects ≡ undone self.old.objects journal.old.segments }
        ensures sound { IsSound self.new.places next (drop 1 journal.old.segments) }
        ensures bounded { AreBounded record_limit self.new }
        ensures stamped { AreStamped journal.new.marks (stamp_at self.new.places)
            journal.new.segments }
        ensures ticks { (bound : ℕ) → AreWithin bound self.old.ticks → AreRecordsWithin bound journal.old.segments
            → AreWithin bound self.new.ticks }
        ensures fewer { finite.len (values self.new.objects) ≤ finite.len (values self.old.objects) }
        ensures journal { journal.new ≡ record journal.old { segments = drop 1 journal.old.segments } }
    {
        put_back(&mut self.entries, journal, record_limit);
        cut(&mut self.entries, next);
        self.units = units;
        let _ended = journal.take_mark();
    }

    /// The least number above this one.
    pub(crate) fn after(&self, number: u32) -> Option<u32>
        requires { number + 1 < 2 ^ 32 }
        ensures { IsNextAbove (values self.now.objects) number result }
    {
        number_from(&self.entries, number + 1)
    }

    /// The numbers of all objects, rising.
    pub(crate) fn numbers(&self, alloc: Global) -> Result<Vec<u32>, NoMemory>
        ensures { IfOk result (λ numbers. numbers.items ≡ keys (values self.now.objects)) }
    {
        numbers_of(alloc, &self.entries)
    }

    /// Whether a number of these objects is that of one of the others.
    pub(crate) fn meets(&self, others: &ObjectMap) -> bool
        ensures { result ≡ list_any (λ number. is_some (get (values others.now.objects) number))
            (keys (values self.now.objects)) }
    {
        meet(&self.entries, &others.entries)
    }

    /// Objects of the same values, with a place for each present cell alone.
    pub(crate) fn copy(&self, alloc: Global) -> Result<ObjectMap, NoMemory>
        ensures values { IfOk result (λ copy. values copy.objects ≡ values self.now.objects) }
        ensures ticks { IfOk result (λ copy. AreWithin (units_in (values self.now.objects) + 1) copy.ticks) }
        ensures fresh_places { IfOk result (λ copy. HaveFreshPlaces copy) }
    {
        let entries = copy_all(alloc, &self.entries)?;
        Ok(ObjectMap {
            entries,
            units: self.units,
        })
    }

    /// How many objects there are.
    pub(crate) fn len(&self) -> u64
        ensures { result ≡ finite.len (values self.now.objects) }
    {
        self.entries.len() as u64
    }

    /// How many units they count together.
    pub(crate) fn units(&self) -> u32
        ensures units { result ≡ units_in (values self.now.objects) }
        ensures valid { AreValid self.now.objects }
    {
        self.units
    }
}
