//! What changes the objects of a store.
ghost use Rattle.std.specs.Prelude.{◌≡◌, ◌+◌, ◌<◌, ◌≤◌, ◌^◌, ◌↔◌, ◌||◌, true, false, Some, None, Ok, Err, IsTrue, IsSome, IfOk, OnOk, OnErr, length, is_some};
ghost use Rattle.t3_store.specs.Value.{holder_at, can_have_at, can_lose_at, can_be_written, new_value, HasFittingLength, units_of};
ghost use Rattle.t3_store.specs.Store.{value_at, is_full_with, no_number, with_object, created_in, after_write, written, taken, set_cell, saved, undone, is_held};
ghost use Rattle.t3_store.specs.Whole.{HasSupersIn, supers_in, supers_of_live, supers_for};
ghost use Rattle.t3_store.specs.Inner.Shapes.{thing_of, tick_of, value_of, HasFreshPlaces};
ghost use Rattle.t3_store.specs.Inner.Valid.{IsValid};

use crate::limits::StoreRefusal;
use crate::new_object::NewObject;
use crate::noting::note;
use crate::object::Object;
use crate::store::Store;
use crate::table_cells::cell_units;
use crate::tidying::tidy;
use crate::unit_rows::{pop_units, push_units};
use crate::writing;
use t3_holder::{Holder, NoMemory};
use t3_undo::Cell;

impl Store {
    /// Makes an object, and gives its number. `Full` comes exactly where there is no room for it, or no
    /// number is left.
    pub fn create(&mut self, what: NewObject, transient: bool) -> Result<u32, StoreRefusal>
        requires supers { HasSupersIn (supers_for transient self.old.store) (new_value what) }
        requires length { HasFittingLength (new_value what) }
        ensures full { (result ≡ Err StoreRefusal.Full)
            ↔ (created_in (new_value what) transient self.old.store ≡ None) }
        ensures ok { IfOk result (λ number. created_in (new_value what) transient self.old.store
            ≡ Some (number, self.new.store)) }
        ensures fresh { IfOk result (λ number. value_at self.old.store number ≡ None) }
        ensures savepoints { self.new.savepoints ≡ self.old.savepoints }
        ensures writes { self.new.writes ≡ self.old.writes }
        ensures err { OnErr result (self.new ≡ self.old) }
    {
        let units = what.units();
        if self.is_full(1, units) || self.has_no_number(transient) {
            return Err(StoreRefusal::Full);
        }
        let object = what.make(self.alloc)?;
        let number = if transient {
            self.add_transient(object, units as u32)?
        } else {
            self.add_persistent(object, units as u32)?
        };
        Ok(number)
    }

    /// Sets a cell of an object, or takes it away where there is no value. A vector's element is set where it
    /// is there, or is the next one and at most number 65,535; and only the last one is taken away.
    ///
    /// `Full` comes exactly where an absent cell is to be set for which there is no room.
    pub fn write(
        &mut self,
        number: u32,
        cell: Cell,
        value: Option<Holder>,
    ) -> Result<(), StoreRefusal>
        requires can { IsTrue (can_be_written value (value_at self.old.store number) cell) }
        requires few { self.old.writes < 2 ^ 63 }
        ensures full { (result ≡ Err StoreRefusal.Full)
            ↔ (after_write number cell value self.old.store ≡ None) }
        ensures ok { OnOk result (after_write number cell value self.old.store ≡ Some self.new.store) }
        ensures writes { OnOk result (self.new.writes ≡ self.old.writes + 1) }
        ensures savepoints { self.new.savepoints ≡ self.old.savepoints }
        ensures err { OnErr result (self.new ≡ self.old) }
    {
        match value {
            Some(value) => self.set(number, cell, value),
            None => {
                self.take(number, cell);
                Ok(())
            }
        }
    }

    /// Sets a cell of an object.
    fn set(&mut self, number: u32, cell: Cell, value: Holder) -> Result<(), StoreRefusal>
        requires can { IsTrue (can_have_at (value_at self.old.store number) cell) }
        requires few { self.old.writes < 2 ^ 63 }
        ensures full { (result ≡ Err StoreRefusal.Full) ↔ (written number cell value self.old.store ≡ None) }
        ensures ok { OnOk result (written number cell value self.old.store ≡ Some self.new.store) }
        ensures writes { OnOk result (self.new.writes ≡ self.old.writes + 1) }
        ensures savepoints { self.new.savepoints ≡ self.old.savepoints }
        ensures err { OnErr result (self.new ≡ self.old) }
    {
        let full = self.is_full(0, cell_units(&cell));
        if self.persistent.has(number) {
            let old = writing::set(&mut self.persistent, self.alloc, number, &cell, value, full)?;
            note(&mut self.persistent, &mut self.journal, number, cell, old);
            self.writes += 1;
            return Ok(());
        }
        let _old = writing::set(&mut self.transient, self.alloc, number, &cell, value, full)?;
        self.writes += 1;
        Ok(())
    }

    /// Takes a cell of an object away, if it is present. No memory is taken.
    fn take(&mut self, number: u32, cell: Cell)
        requires can { IsTrue (can_lose_at (value_at self.old.store number) cell) }
        requires few { self.old.writes < 2 ^ 63 }
        ensures { self.new ≡ record self.old {
          store = taken number cell self.old.store;
          writes = self.old.writes + 1;
        } }
    {
        if self.get(number, &cell).is_none() {
            self.writes += 1;
            return;
        }
        if self.persistent.has(number) {
            let old = writing::take(&mut self.persistent, number, &cell);
            note(&mut self.persistent, &mut self.journal, number, cell, old);
            tidy(
                &mut self.persistent,
                &self.journal,
                number,
                self.limits.records,
            );
            self.writes += 1;
            return;
        }
        let _old = writing::take(&mut self.transient, number, &cell);
        // No savepoint has a record of it.
        self.transient.tidy(number, self.limits.records, u64::MAX);
        self.writes += 1;
    }

    /// Whether so many more objects or units would be more than the limits say.
    fn is_full(&self, objects: u32, units: u64) -> bool
        ensures { result ≡ is_full_with objects units self.now.store }
    {
        let count = self.persistent.len() + self.transient.len() + u64::from(objects);
        let sum = u64::from(self.persistent.units()) + u64::from(self.transient.units());
        let limit = u64::from(self.limits.units);
        count > u64::from(self.limits.objects) || sum > limit || units > limit - sum
    }

    /// Whether no number is left in a half.
    fn has_no_number(&self, transient: bool) -> bool
        ensures { result ≡ no_number transient self.now.store }
    {
        if transient {
            self.next_transient >= 0x1_0000_0000
        } else {
            self.next >= 0x8000_0000
        }
    }

    /// Adds a persistent object, which counts so many units.
    fn add_persistent(&mut self, object: Object, units: u32) -> Result<u32, NoMemory>
        requires units { units ≡ units_of (value_of (thing_of object)) }
        requires room { is_full_with 1 units self.old.store ≡ false }
        requires number { no_number false self.old.store ≡ false }
        requires supers { HasSupersIn (supers_in self.old.store.persistent) (value_of (thing_of object)) }
        requires valid { IsValid (thing_of object) }
        requires tick { tick_of object ≤ 1 }
        requires fresh_places { HasFreshPlaces object }
        ensures number { IfOk result (λ number. number ≡ self.old.store.next) }
        ensures fresh { IfOk result (λ number. value_at self.old.store number ≡ None) }
        ensures ok { OnOk result (self.new ≡ record self.old {
          store = with_object (value_of (thing_of object)) false self.old.store;
        }) }
        ensures err { OnErr result (self.new ≡ self.old) }
    {
        let number = self.next;
        self.persistent.add(number, object, units)?;
        self.next = number + 1;
        Ok(number)
    }

    /// Adds a transient object, which counts so many units.
    fn add_transient(&mut self, object: Object, units: u32) -> Result<u32, NoMemory>
        requires units { units ≡ units_of (value_of (thing_of object)) }
        requires room { is_full_with 1 units self.old.store ≡ false }
        requires number { no_number true self.old.store ≡ false }
        requires supers { HasSupersIn (supers_of_live self.old.store) (value_of (thing_of object)) }
        requires valid { IsValid (thing_of object) }
        requires tick { tick_of object ≤ 1 }
        requires fresh_places { HasFreshPlaces object }
        ensures number { IfOk result (λ number. number ≡ self.old.store.next_transient) }
        ensures fresh { IfOk result (λ number. value_at self.old.store number ≡ None) }
        ensures ok { OnOk result (self.new ≡ record self.old {
          store = with_object (value_of (thing_of object)) true self.old.store;
        }) }
        ensures err { OnErr result (self.new ≡ self.old) }
    {
        let number = self.next_transient as u32;
        self.transient.add(number, object, units)?;
        self.next_transient += 1;
        Ok(number)
    }

    /// Makes a savepoint. Where there are as many as the limit says, the oldest goes. No memory is taken.
    pub fn savepoint(&mut self)
        requires { self.old.savepoints < 2 ^ 63 }
        ensures { self.new ≡ record self.old {
          store = saved self.old.store;
          savepoints = self.old.savepoints + 1;
        } }
    {
        push_units(
            &mut self.units,
            self.limits.savepoints,
            self.persistent.units(),
        );
        self.journal.mark(self.next);
    }

    /// Puts the newest savepoint's copy in place of the persistent objects, and ends it. `false` exactly where
    /// none is held, and then nothing changes. No memory is taken.
    pub fn undo(&mut self) -> bool
        ensures store { self.new ≡ record self.old { store = undone self.old.store } }
        ensures answer { result ≡ is_held self.old.store.marks }
    {
        match self.journal.newest_next() {
            Some(next) => {
                let units = pop_units(&mut self.units);
                let records = self.limits.records;
                self.persistent
                    .undo(&mut self.journal, next, units, records);
                true
            }
            None => false,
        }
    }

    /// Sets a property that an object has to another value. `false` exactly where there is no such property,
    /// and then nothing changes. The object is looked up once, and again for the stamp of the property's place
    /// where a savepoint is held that is newer than it. No memory is taken.
    #[inline(always)]
    pub fn replace_prop(&mut self, number: u32, property: u16, value: Holder) -> bool
        requires { self.old.writes < 2 ^ 63 }
        ensures answer { result
            ≡ is_some (holder_at (value_at self.old.store number) (Cell.Prop property)) }
        ensures replaced { IsTrue result → self.new ≡ record self.old {
          store = set_cell number (Cell.Prop property) value self.old.store;
          writes = self.old.writes + 1;
        } }
        ensures kept { result ≡ false → self.new ≡ self.old }
    {
        let old = self.persistent.replace_prop(number, property, value);
        if old.is_present() {
            let cell = Cell::Prop(property);
            note(&mut self.persistent, &mut self.journal, number, cell, old);
            self.writes += 1;
            return true;
        }
        let old = self.transient.replace_prop(number, property, value);
        if old.is_present() {
            self.writes += 1;
            return true;
        }
        false
    }

    /// Sets a present cell of an object. No memory is taken.
    pub fn overwrite(&mut self, number: u32, cell: Cell, value: Holder)
        requires present { IsSome (holder_at (value_at self.old.store number) cell) }
        requires few { self.old.writes < 2 ^ 63 }
        ensures { self.new ≡ record self.old {
          store = set_cell number cell value self.old.store;
          writes = self.old.writes + 1;
        } }
    {
        if self.persistent.has(number) {
            let old = writing::overwrite(&mut self.persistent, number, &cell, value);
            note(&mut self.persistent, &mut self.journal, number, cell, old);
            self.writes += 1;
            return;
        }
        let _old = writing::overwrite(&mut self.transient, number, &cell, value);
        self.writes += 1;
    }
}
