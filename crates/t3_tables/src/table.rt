ghost use Rattle.std.specs.Prelude.{◌≡◌, ℕ, ◌+◌, ◌≤◌, ◌^◌, Some, IsTrue, IsSome, IfOk, OnOk, OnErr, length};
ghost use Rattle.std.specs.FinMap.{get, insert, contains_key};
ghost use Rattle.t3_undo.specs.Content.{shown, is_form, with_place, places_for};
ghost use Rattle.t3_undo.specs.Objects.{set_at};
ghost use Rattle.t3_undo.specs.Purging.{Stays};
ghost use Rattle.t3_undo.specs.declared.cell.Cell.{Cell};
ghost use Rattle.t3_tables.specs.Table.{parts_of, places_of, entries_of, filled, new_table, is_cell, tick_after, AreBelow};

use crate::cells::{exchange_default, tick_after};
use crate::ordered::{entries_by_tick, pairs_of, slots_anew};
use crate::pair::Entries;
use std::alloc::Global;
use std::marker::Model;
use t3_holder::{Holder, NoMemory};
use t3_undo::{Cell, Content, Metaclass, Slots};

/// A table: entries under keys, each with a tick that gives its order, and a default.
#[derive(Drop)]
pub struct Table {
    slots: Slots,
    default: Holder,
    default_stamp: u64,
    next_tick: u64,
}

impl Model for Table {
    ghost use Rattle.t3_tables.specs.Table.{TableValue, coded_table};
    ghost use Rattle.t3_undo.specs.Slots.{parts_of, places_of};

    ghost Value = { TableValue };

    ghost coded = { coded_table };

    ghost view = { λ t. record {
      entries = parts_of t.slots;
      places = places_of t.slots;
      default = t.default;
      default_stamp = t.default_stamp;
      next_tick = t.next_tick;
    } };

    ghost use Rattle.t3_tables.specs.Inner.Slots.{IsTable};

    ghost invariant = { λ t. IsTable t.slots t.next_tick };
}

impl Table {
    /// A table without entries, whose default is nil. Takes no memory.
    pub fn new(alloc: Global) -> Table
        ensures { result ≡ new_table }
    {
        Table {
            slots: Slots::new(alloc),
            default: Holder::Nil,
            default_stamp: 0,
            next_tick: 1,
        }
    }

    /// A table with the same entries in the same order and the same default, with a place for each present
    /// cell alone, whose stamp is 0. Its ticks are 1, 2 and so on.
    pub fn copy(&self, alloc: Global) -> Result<Table, NoMemory>
        ensures parts { IfOk result (λ copy. parts_of copy
            ≡ filled self.now.default (entries_of (parts_of self.now))) }
        ensures entries { IfOk result (λ copy. entries_of (parts_of copy) ≡ entries_of (parts_of self.now)) }
        ensures places { IfOk result (λ copy. places_of copy ≡ places_for (parts_of copy)) }
        ensures next { IfOk result (λ copy. copy.next_tick
            ≡ 1 + length (entries_of (parts_of self.now))) }
        ensures few { IfOk result (λ copy. copy.next_tick ≤ 2 ^ 63) }
    {
        let slots = slots_anew(alloc, &self.slots)?;
        let next_tick = slots.places() + 1;
        Ok(Table {
            slots,
            default: self.default,
            default_stamp: 0,
            next_tick,
        })
    }

    /// The entries in the order of their ticks.
    pub fn entries(&self, alloc: Global) -> Result<Entries, NoMemory>
        ensures { IfOk result (λ entries. entries ≡ entries_of (parts_of self.now)) }
    {
        let by_tick = entries_by_tick(alloc, &self.slots)?;
        Ok(Entries(pairs_of(alloc, by_tick)?))
    }

    /// A tick above those of all entries. Takes no memory.
    pub fn next_tick(&self) -> u64
        ensures next { result ≡ self.now.next_tick }
        ensures above { AreBelow result (parts_of self.now) }
    {
        self.next_tick
    }
}

impl Metaclass for Table {
    ghost use Rattle.std.specs.Prelude.{IsTrue};
    ghost use Rattle.t3_tables.specs.Table.{parts_of, places_of, is_cell};

    ghost parts = { parts_of };

    ghost places = { places_of };

    ghost can_have = { λ t cell. IsTrue (is_cell cell) };

    fn get(&self, cell: &Cell) -> Content
        ensures content { shown result ≡ get (parts_of self.now) cell.now }
        ensures placed { IsSome (shown result)
            → IsTrue (contains_key (places_of self.now) cell.now) }
        ensures formed { IsTrue (contains_key (places_of self.now) cell.now)
            → IsTrue (is_form cell.now (shown result)) }
        ensures only_table { IsSome (shown result) → IsTrue (is_cell cell.now) }
    {
        match cell {
            Cell::Default => Content::Held(self.default),
            _ => self.slots.get(cell),
        }
    }

    /// Sets the cell, and hands out what stood there. No memory is taken. The next tick rises above the one
    /// that is set, where it isn't above it already.
    fn put(&mut self, cell: &Cell, content: Content) -> Content
        requires place { IsTrue (contains_key (places_of self.old) cell.now) }
        requires form { IsTrue (is_form cell.now (shown content)) }
        ensures parts { parts_of self.new ≡ set_at (parts_of self.old) cell.now (shown content) }
        ensures places { places_of self.new ≡ places_of self.old }
        ensures next { self.new.next_tick ≡ tick_after self.old.next_tick (shown content) }
        ensures old { shown result ≡ get (parts_of self.old) cell.now }
        ensures back { set_at (parts_of self.new) cell.now (shown result) ≡ parts_of self.old }
        ensures formed { IsTrue (is_form cell.now (shown result)) }
        ensures below { tick_after 0 (shown result) ≤ self.old.next_tick }
    {
        match cell {
            Cell::Default => exchange_default(&mut self.default, content),
            _ => {
                self.next_tick = tick_after(self.next_tick, cell, &content);
                self.slots.put(cell, content)
            }
        }
    }

    fn make_place(&mut self, cell: Cell) -> Result<(), NoMemory>
        requires { IsTrue (is_cell cell) }
        ensures parts { parts_of self.new ≡ parts_of self.old }
        ensures next { self.new.next_tick ≡ self.old.next_tick }
        ensures ok { OnOk result (places_of self.new ≡ with_place (places_of self.old) cell) }
        ensures err { OnErr result (self.new ≡ self.old) }
    {
        match cell {
            Cell::Default => Ok(()),
            cell => Ok(self.slots.make_place(cell)?),
        }
    }

    fn stamp(&self, cell: &Cell) -> u64 {
        match cell {
            Cell::Default => self.default_stamp,
            _ => self.slots.stamp(cell),
        }
    }

    /// Gives the cell's place another stamp. No memory is taken.
    fn set_stamp(&mut self, cell: &Cell, stamp: u64)
        requires { IsTrue (contains_key (places_of self.old) cell.now) }
        ensures parts { parts_of self.new ≡ parts_of self.old }
        ensures places { places_of self.new ≡ insert (places_of self.old) cell.now stamp }
        ensures next { self.new.next_tick ≡ self.old.next_tick }
    {
        match cell {
            Cell::Default => self.default_stamp = stamp,
            _ => self.slots.set_stamp(cell, stamp),
        }
    }

    fn places(&self) -> u64 {
        self.slots.places() + 1
    }

    fn present(&self) -> u64 {
        self.slots.present() + 1
    }

    /// Takes away the places of entries that are absent and whose stamps are below this one. The default's
    /// stays. No memory is taken.
    fn purge(&mut self, oldest: u64)
        ensures parts { parts_of self.new ≡ parts_of self.old }
        ensures fewer { (cell : Cell) (stamp : ℕ) → get (places_of self.new) cell ≡ Some stamp
            → get (places_of self.old) cell ≡ Some stamp }
        ensures kept { (cell : Cell) (stamp : ℕ) → get (places_of self.old) cell ≡ Some stamp
            → Stays (parts_of self.old) (places_of self.old) oldest cell
            → get (places_of self.new) cell ≡ Some stamp }
        ensures gone { (cell : Cell) (stamp : ℕ) → get (places_of self.new) cell ≡ Some stamp
            → Stays (parts_of self.old) (places_of self.old) oldest cell }
        ensures next { self.new.next_tick ≡ self.old.next_tick }
    {
        self.slots.purge(oldest);
    }
}
