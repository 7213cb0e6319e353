ghost use Rattle.std.specs.Prelude.{◌≡◌, ◌+◌, ◌*◌, ◌<◌, ◌≤◌, ◌-◌, ◌^◌, ℕ, nat_lt, None, Some, IsTrue, IsSome, IfOk, OnOk, OnErr, option_map, option_and_then, map};
ghost use Rattle.std.specs.List.Sorted.{IsStrictlyIncreasing};
ghost use Rattle.std.specs.FinMap.{get, insert, len, contains_key, entries};
ghost use Rattle.t3_undo.specs.Present.{value_in};
ghost use Rattle.t3_undo.specs.Content.{shown, is_form, with_place};
ghost use Rattle.t3_undo.specs.Purging.{Stays};
ghost use Rattle.t3_undo.specs.declared.cell.Cell.TheVariants.{Prop};
ghost use Rattle.t3_undo.specs.Objects.{with_part};
ghost use Rattle.t3_store.specs.Value.{holder_in, kind_of, supers_of, is_class_of, props_in, text_of, items_in, length_of, entries_in, with_cell, can_have, units_of};
ghost use Rattle.t3_store.specs.Inner.Shapes.{thing_of, places_of, tick_of, value_of, tick_behind, HasFreshPlaces};
ghost use Rattle.t3_tables.specs.Entries.{risen};
ghost use Rattle.t3_store.specs.Inner.Bounded.{IsTidied};
ghost use Rattle.t3_store.specs.Inner.Valid.{IsValid};

use crate::kind::Kind;
use crate::table_cells;
use std::alloc::Global;
use t3_holder::{Holder, NoMemory};
use t3_lists::{List, Text, Vector};
use t3_tables::{Entries, Table};
use t3_tadsobj::{Props, TadsObject};
use t3_undo::{Cell, Content, Metaclass};

/// An object of one of the kinds.
#[derive(Drop)]
pub(crate) enum Object {
    Tads(TadsObject),
    Text(Text),
    List(List),
    Vector(Vector),
    // The largest kind, so it stands apart: an object takes 72 bytes.
    Table(Box<Table>),
}

impl Object {
    /// What stands in the cell.
    #[inline(always)]
    pub(crate) fn get(&self, cell: &Cell) -> Content
        ensures content { shown result ≡ get (thing_of self.now).1 cell.now }
        ensures placed { IsSome (shown result)
            → IsTrue (contains_key (places_of self.now) cell.now) }
        ensures formed { IsTrue (contains_key (places_of self.now) cell.now)
            → IsTrue (is_form cell.now (shown result)) }
    {
        match self {
            Object::Tads(object) => object.get(cell),
            Object::Text(text) => text.get(cell),
            Object::List(list) => list.get(cell),
            Object::Vector(vector) => vector.get(cell),
            Object::Table(table) => table.get(cell),
        }
    }

    /// The value of a property of a tads-object.
    #[inline(always)]
    pub(crate) fn prop(&self, number: u16) -> Option<Holder>
        ensures { result ≡ holder_in (value_of (thing_of self.now)) (Prop number) }
    {
        match self {
            Object::Tads(object) => object.prop(number),
            _ => None,
        }
    }

    /// Sets a property of a tads-object that is present to another value, and hands out what stood there. It
    /// is `Absent` exactly where there is no such property, and then nothing changes. No memory is taken.
    #[inline(always)]
    pub(crate) fn replace_prop(&mut self, number: u16, value: Holder) -> Content
        ensures old { IsSome (shown result) → shown result ≡ get (thing_of self.old).1 (Prop number) }
        ensures placed { IsSome (shown result)
            → IsTrue (contains_key (places_of self.old) (Prop number)) }
        ensures formed { IsTrue (is_form (Prop number) (shown result)) }
        ensures value { option_and_then value_in (shown result)
            ≡ holder_in (value_of (thing_of self.old)) (Prop number) }
        ensures set { IsSome (shown result) → thing_of self.new
            ≡ with_part (Prop number) (shown (Content.Held value)) (thing_of self.old) }
        ensures kept { shown result ≡ None → thing_of self.new ≡ thing_of self.old }
        ensures places { places_of self.new ≡ places_of self.old }
        ensures ticks { tick_of self.new ≡ tick_of self.old }
    {
        match self {
            Object::Tads(object) => object.replace(number, value, None).content,
            _ => Content::Absent,
        }
    }

    /// Sets the cell, and hands out what stood there. No memory is taken.
    #[inline(always)]
    pub(crate) fn put(&mut self, cell: &Cell, content: Content) -> Content
        requires place { IsTrue (contains_key (places_of self.old) cell.now) }
        requires form { IsTrue (is_form cell.now (shown content)) }
        ensures thing { thing_of self.new ≡ with_part cell.now (shown content) (thing_of self.old) }
        ensures places { places_of self.new ≡ places_of self.old }
        ensures ticks { (bound : ℕ) → tick_of self.old ≤ bound → tick_behind (shown content) ≤ bound
            → tick_of self.new ≤ bound }
        ensures old { shown result ≡ get (thing_of self.old).1 cell.now }
        ensures below { tick_behind (shown result) ≤ tick_of self.old }
        ensures formed { IsTrue (is_form cell.now (shown result)) }
    {
        match self {
            Object::Tads(object) => object.put(cell, content),
            Object::Text(text) => text.put(cell, content),
            Object::List(list) => list.put(cell, content),
            Object::Vector(vector) => vector.put(cell, content),
            Object::Table(table) => table.put(cell, content),
        }
    }

    /// Makes a place for the cell, which stays as it is.
    pub(crate) fn make_place(&mut self, cell: Cell) -> Result<(), NoMemory>
        requires can { IsTrue (can_have (value_of (thing_of self.old)) cell) }
        requires valid { IsValid (thing_of self.old) }
        ensures thing { thing_of self.new ≡ thing_of self.old }
        ensures ticks { tick_of self.new ≡ tick_of self.old }
        ensures ok { OnOk result (places_of self.new ≡ with_place (places_of self.old) cell) }
        ensures err { OnErr result (places_of self.new ≡ places_of self.old) }
    {
        match self {
            Object::Tads(object) => object.make_place(cell),
            Object::Text(text) => text.make_place(cell),
            Object::List(list) => list.make_place(cell),
            Object::Vector(vector) => vector.make_place(cell),
            Object::Table(table) => table.make_place(cell),
        }
    }

    /// The stamp of the cell's place.
    pub(crate) fn stamp(&self, cell: &Cell) -> u64
        requires { IsTrue (contains_key (places_of self.now) cell.now) }
        ensures { get (places_of self.now) cell.now ≡ Some result }
    {
        match self {
            Object::Tads(object) => object.stamp(cell),
            Object::Text(text) => text.stamp(cell),
            Object::List(list) => list.stamp(cell),
            Object::Vector(vector) => vector.stamp(cell),
            Object::Table(table) => table.stamp(cell),
        }
    }

    /// Gives the cell's place another stamp. No memory is taken.
    pub(crate) fn set_stamp(&mut self, cell: &Cell, stamp: u64)
        requires { IsTrue (contains_key (places_of self.old) cell.now) }
        ensures thing { thing_of self.new ≡ thing_of self.old }
        ensures places { places_of self.new ≡ insert (places_of self.old) cell.now stamp }
        ensures ticks { tick_of self.new ≡ tick_of self.old }
    {
        match self {
            Object::Tads(object) => object.set_stamp(cell, stamp),
            Object::Text(text) => text.set_stamp(cell, stamp),
            Object::List(list) => list.set_stamp(cell, stamp),
            Object::Vector(vector) => vector.set_stamp(cell, stamp),
            Object::Table(table) => table.set_stamp(cell, stamp),
        }
    }

    /// How many cells have a place.
    pub(crate) fn places(&self) -> u64
        ensures { result ≡ len (places_of self.now) }
    {
        match self {
            Object::Tads(object) => object.places(),
            Object::Text(text) => text.places(),
            Object::List(list) => list.places(),
            Object::Vector(vector) => vector.places(),
            Object::Table(table) => table.places(),
        }
    }

    /// How many cells are present. No cell is looked at.
    fn present(&self) -> u64
        ensures { result ≡ len (thing_of self.now).1 }
    {
        match self {
            Object::Tads(object) => object.present(),
            Object::Text(text) => text.present(),
            Object::List(list) => list.present(),
            Object::Vector(vector) => vector.present(),
            Object::Table(table) => table.present(),
        }
    }

    /// Takes away each place whose cell is absent and whose stamp is below this one, but of the places of
    /// elements only those above which none stays. No memory is taken.
    fn purge(&mut self, oldest: u64)
        ensures thing { thing_of self.new ≡ thing_of self.old }
        ensures ticks { tick_of self.new ≡ tick_of self.old }
        ensures fewer { (cell : Cell) (stamp : ℕ) → get (places_of self.new) cell ≡ Some stamp
            → get (places_of self.old) cell ≡ Some stamp }
        ensures kept { (cell : Cell) (stamp : ℕ) → get (places_of self.old) cell ≡ Some stamp
            → Stays (thing_of self.old).1 (places_of self.old) oldest cell
            → get (places_of self.new) cell ≡ Some stamp }
        ensures gone { (cell : Cell) (stamp : ℕ) → get (places_of self.new) cell ≡ Some stamp
            → Stays (thing_of self.old).1 (places_of self.old) oldest cell }
    {
        match self {
            Object::Tads(object) => object.purge(oldest),
            Object::Text(text) => text.purge(oldest),
            Object::List(list) => list.purge(oldest),
            Object::Vector(vector) => vector.purge(oldest),
            Object::Table(table) => table.purge(oldest),
        }
    }

    /// Whether there are more places than twice the present cells and so many records, and 16.
    fn has_too_many_places(&self, record_limit: u32) -> bool
        ensures { result ≡ nat_lt (2 * (len (thing_of self.now).1 + record_limit) + 16)
            (len (places_of self.now)) }
    {
        let needed = self.present().saturating_add(u64::from(record_limit));
        self.places() > needed.saturating_mul(2).saturating_add(16)
    }

    /// Where there are too many places, takes away those of absent cells whose stamps are below the oldest serial,
    /// which no savepoint needs. No memory is taken.
    pub(crate) fn tidy(&mut self, record_limit: u32, oldest: u64)
        ensures thing { thing_of self.new ≡ thing_of self.old }
        ensures ticks { tick_of self.new ≡ tick_of self.old }
        ensures places { IsTidied record_limit oldest (thing_of self.old).1 (places_of self.old)
            (places_of self.new) }
    {
        if self.has_too_many_places(record_limit) {
            self.purge(oldest);
        }
    }

    /// What stands in the cell once it is set to a value.
    #[inline(always)]
    pub(crate) fn content_with(&self, cell: &Cell, value: Holder) -> Content
        requires can { IsTrue (can_have (value_of (thing_of self.now)) cell.now) }
        requires valid { IsValid (thing_of self.now) }
        requires room { tick_of self.now < 2 ^ 64 - 1 }
        ensures form { IsTrue (is_form cell.now (shown result)) }
        ensures set { value_of (with_part cell.now (shown result) (thing_of self.now))
            ≡ with_cell cell.now value (value_of (thing_of self.now)) }
        ensures present { IsSome (shown result) }
        ensures valid { IsValid (with_part cell.now (shown result) (thing_of self.now)) }
        ensures tick { tick_behind (shown result) ≤ risen (tick_of self.now) (get (thing_of self.now).1 cell.now) }
    {
        match self {
            Object::Table(table) => table_cells::content_with(table, cell, value),
            _ => Content::Held(value),
        }
    }

    /// An object of the same value, with a place for each present cell alone.
    pub(crate) fn copy(&self, alloc: Global) -> Result<Object, NoMemory>
        requires { IsValid (thing_of self.now) }
        ensures value { IfOk result (λ copy. value_of (thing_of copy) ≡ value_of (thing_of self.now)) }
        ensures valid { IfOk result (λ copy. IsValid (thing_of copy)) }
        ensures tick { IfOk result (λ copy. tick_of copy ≤ units_of (value_of (thing_of copy)) + 1) }
        ensures fresh_places { IfOk result (λ copy. HasFreshPlaces copy) }
    {
        match self {
            Object::Tads(object) => Ok(Object::Tads(object.copy(alloc)?)),
            Object::Text(text) => Ok(Object::Text(text.copy(alloc)?)),
            Object::List(list) => Ok(Object::List(list.copy(alloc)?)),
            Object::Vector(vector) => Ok(Object::Vector(vector.copy(alloc)?)),
            Object::Table(table) => Ok(Object::Table(Box::new(alloc, table.copy(alloc)?)?)),
        }
    }

    /// What it is.
    #[inline(always)]
    pub(crate) fn kind(&self) -> Kind
        ensures { result ≡ kind_of (value_of (thing_of self.now)) }
    {
        match self {
            Object::Tads(_) => Kind::Tads,
            Object::Text(_) => Kind::Text,
            Object::List(_) => Kind::List,
            Object::Vector(_) => Kind::Vector,
            Object::Table(_) => Kind::Table,
        }
    }

    /// The superclasses of a tads-object.
    #[inline(always)]
    pub(crate) fn supers(&self) -> Option<&[u32]>
        ensures { option_map (λ supers. supers.now) result ≡ supers_of (value_of (thing_of self.now)) }
    {
        match self {
            Object::Tads(object) => Some(object.supers()),
            _ => None,
        }
    }

    /// Whether it is a class.
    pub(crate) fn is_class(&self) -> bool
        ensures { result ≡ is_class_of (value_of (thing_of self.now)) }
    {
        match self {
            Object::Tads(object) => object.is_class(),
            _ => false,
        }
    }

    /// The properties of a tads-object with their values, by rising number.
    pub(crate) fn props(&self, alloc: Global) -> Result<Props, NoMemory>
        requires { IsSome (supers_of (value_of (thing_of self.now))) }
        ensures props { IfOk result (λ props. map (λ prop. (prop.number, prop.value)) props
            ≡ entries (props_in (value_of (thing_of self.now)))) }
        ensures rising { IfOk result (λ props. IsStrictlyIncreasing (map (λ prop. prop.number) props)) }
    {
        match self {
            Object::Tads(object) => object.props(alloc),
            _ => Ok(Props(Vec::new(alloc))),
        }
    }

    /// The bytes of a string.
    pub(crate) fn text(&self) -> Option<&[u8]>
        ensures { option_map (λ bytes. bytes.now) result ≡ text_of (value_of (thing_of self.now)) }
    {
        match self {
            Object::Text(text) => Some(text.bytes()),
            _ => None,
        }
    }

    /// The items of a list.
    pub(crate) fn items(&self) -> Option<&[Holder]>
        ensures { option_map (λ items. items.now) result ≡ items_in (value_of (thing_of self.now)) }
    {
        match self {
            Object::List(list) => Some(list.items()),
            _ => None,
        }
    }

    /// How many elements a vector has.
    pub(crate) fn length(&self) -> Option<u32>
        ensures { result ≡ length_of (value_of (thing_of self.now)) }
    {
        match self {
            Object::Vector(vector) => Some(vector.length()),
            _ => None,
        }
    }

    /// The entries of a table, the oldest first.
    pub(crate) fn entries(&self, alloc: Global) -> Result<Entries, NoMemory>
        requires { IsSome (entries_in (value_of (thing_of self.now))) }
        ensures { IfOk result (λ pairs. Some pairs ≡ entries_in (value_of (thing_of self.now))) }
    {
        match self {
            Object::Table(table) => table.entries(alloc),
            _ => Ok(Entries(Vec::new(alloc))),
        }
    }
}
