ghost use Rattle.std.specs.Prelude.{◌≡◌, ℕ, false, [], Some, None, map, option_and_then, IsTrue, IsSome, IfOk, OnOk, OnErr, MatchOption};
ghost use Rattle.std.specs.FinMap.{get, entries, insert, contains_key};
ghost use Rattle.std.specs.List.Sorted.{IsStrictlyIncreasing};
ghost use Rattle.t3_undo.specs.Content.{shown, is_form, with_place, places_for};
ghost use Rattle.t3_undo.specs.Objects.{set_at};
ghost use Rattle.t3_undo.specs.Present.{value_in};
ghost use Rattle.t3_undo.specs.Purging.{Stays};
ghost use Rattle.t3_undo.specs.declared.cell.Cell.{Cell};
ghost use Rattle.t3_tadsobj.specs.Object.{bare, is_prop, props_of};
ghost use Rattle.t3_tadsobj.specs.Inner.Entries.{new_stamp};

use crate::entries::{
    Entries, content_at, content_of, exchange, listed, one_if_present, place_of, present_entries,
    purge, replace_value, restamp, stamp_at, value_at, value_in,
};
use crate::props::Props;
use std::alloc::Global;
use std::collections::BTreeMap;
use std::marker::Model;
use t3_holder::{Holder, NoMemory};
use t3_undo::{Cell, Content, Metaclass, Numbers, Place, StampedValue};

/// An object of the TADS language: superclasses, whether it is a class, and properties.
#[derive(Drop)]
pub struct TadsObject {
    props: Entries,
    /// How many of the properties are present.
    present: u64,
    supers: Numbers,
    class: bool,
}

impl Model for TadsObject {
    ghost use Rattle.t3_tadsobj.specs.Object.{Tads, coded_tads};
    ghost use Rattle.t3_tadsobj.specs.Inner.Entries.{parts_in, places_in};

    ghost Value = { Tads };

    ghost coded = { coded_tads };

    ghost view = { λ o. record {
      parts = parts_in o.props.entries;
      places = places_in o.props.entries;
      supers = o.supers;
      class = o.class;
    } };

    ghost use Rattle.t3_tadsobj.specs.Inner.Entries.{AreCounted};

    ghost invariant = { λ o. AreCounted o.props.entries o.present };
}

impl TadsObject {
    /// An object without superclasses, class flag and properties. Takes no memory.
    pub fn new(alloc: Global) -> TadsObject
        ensures { result ≡ bare [] false }
    {
        TadsObject::of(alloc, Numbers(Vec::new(alloc)), false)
    }

    /// An object with these superclasses and this class flag, without properties. Takes no memory.
    pub fn of(alloc: Global, supers: Numbers, class: bool) -> TadsObject
        ensures { result ≡ bare supers class }
    {
        TadsObject {
            props: BTreeMap::new(alloc),
            present: 0,
            supers,
            class,
        }
    }

    /// An object like this one, with a place with stamp 0 for each present property alone.
    pub fn copy(&self, alloc: Global) -> Result<TadsObject, NoMemory>
        ensures { IfOk result (λ copy. copy ≡ record self.now { places = places_for self.now.parts }) }
    {
        let props = present_entries(alloc, &self.props)?;
        let supers = Vec::from_slice(alloc, self.supers())?;
        Ok(TadsObject {
            props,
            present: self.present,
            supers: Numbers(supers),
            class: self.class,
        })
    }

    /// Sets a property, which has a place with stamp 0 then.
    pub fn set(&mut self, number: u16, value: Holder) -> Result<(), NoMemory>
        ensures ok { OnOk result (self.new ≡ record self.old {
          parts = set_at self.old.parts (Cell.Prop number) (shown (Content.Held value));
          places = insert self.old.places (Cell.Prop number) 0;
        }) }
        ensures err { OnErr result (self.new ≡ self.old) }
    {
        let _within = self.props.len();
        let place = StampedValue::new(0, Some(value));
        let old = self.props.insert(number, place)?;
        self.present = self.present + 1 - one_if_present(value_in(old));
        Ok(())
    }

    /// Sets a property that is present to another value, and gives its place this stamp, if there is one.
    /// Hands out what stood there, with its stamp. The content is `Absent` exactly where the property isn't
    /// present, and then nothing changes. No memory is taken.
    #[inline(always)]
    pub fn replace(&mut self, number: u16, value: Holder, stamp: Option<u64>) -> Place
        ensures old { shown result.content ≡ get self.old.parts (Cell.Prop number) }
        ensures placed { IsSome (shown result.content)
            → get self.old.places (Cell.Prop number) ≡ Some result.stamp }
        ensures formed { IsTrue (is_form (Cell.Prop number) (shown result.content)) }
        ensures value { option_and_then value_in (shown result.content)
            ≡ get (props_of self.old.parts) number }
        ensures set { IsSome (shown result.content) → self.new ≡ record self.old {
          parts = set_at self.old.parts (Cell.Prop number) (shown (Content.Held value));
          places = insert self.old.places (Cell.Prop number) (new_stamp stamp result.stamp);
        } }
        ensures kept { shown result.content ≡ None → self.new ≡ self.old }
    {
        place_of(replace_value(&mut self.props, number, value, stamp))
    }

    /// The value of a property, if it is present.
    #[inline(always)]
    pub fn prop(&self, number: u16) -> Option<Holder>
        ensures { result ≡ get (props_of self.now.parts) number }
    {
        value_at(&self.props, number)
    }

    /// The present properties with their values, by rising number.
    pub fn props(&self, alloc: Global) -> Result<Props, NoMemory>
        ensures props { IfOk result (λ props. map (λ prop. (prop.number, prop.value)) props
            ≡ entries (props_of self.now.parts)) }
        ensures rising { IfOk result (λ props. IsStrictlyIncreasing (map (λ prop. prop.number) props)) }
    {
        let props = listed(alloc, &self.props)?;
        Ok(Props(props))
    }

    /// The superclasses, from left to right.
    #[inline(always)]
    pub fn supers(&self) -> &[u32]
        ensures { result.now ≡ self.now.supers }
    {
        self.supers.0.as_slice()
    }

    /// Whether the object is a class.
    pub fn is_class(&self) -> bool
        ensures { result ≡ self.now.class }
    {
        self.class
    }
}

impl Metaclass for TadsObject {
    ghost use Rattle.std.specs.Prelude.{IsTrue};
    ghost use Rattle.t3_tadsobj.specs.Object.{is_prop};

    ghost parts = { λ o. o.parts };

    ghost places = { λ o. o.places };

    ghost can_have = { λ o cell. IsTrue (is_prop cell) };

    #[inline(always)]
    fn get(&self, cell: &Cell) -> Content
        ensures content { shown result ≡ get self.now.parts cell.now }
        ensures placed { IsSome (shown result) → IsTrue (contains_key self.now.places cell.now) }
        ensures formed { IsTrue (contains_key self.now.places cell.now)
            → IsTrue (is_form cell.now (shown result)) }
        ensures only_props { IsSome (shown result) → IsTrue (is_prop cell.now) }
    {
        match prop_number(cell) {
            Some(number) => content_at(&self.props, number),
            None => Content::Absent,
        }
    }

    #[inline(always)]
    fn put(&mut self, cell: &Cell, content: Content) -> Content
        requires place { IsTrue (contains_key self.old.places cell.now) }
        requires form { IsTrue (is_form cell.now (shown content)) }
        ensures object { self.new ≡ record self.old { parts = set_at self.old.parts cell.now (shown content) } }
        ensures old { shown result ≡ get self.old.parts cell.now }
        ensures back { set_at self.new.parts cell.now (shown result) ≡ self.old.parts }
        ensures formed { IsTrue (is_form cell.now (shown result)) }
        ensures only_props { IsTrue (is_prop cell.now) }
    {
        match prop_number(cell) {
            Some(number) => {
                let _within = self.props.len();
                let value = content.value();
                let old = exchange(&mut self.props, number, value);
                self.present = self.present + one_if_present(value) - one_if_present(old);
                content_of(old)
            }
            // Only properties have a place.
            None => content,
        }
    }

    fn make_place(&mut self, cell: Cell) -> Result<(), NoMemory>
        requires { IsTrue (is_prop cell) }
        ensures ok { OnOk result (self.new ≡ record self.old { places = with_place self.old.places cell }) }
        ensures err { OnErr result (self.new ≡ self.old) }
    {
        let Some(number) = prop_number(&cell) else {
            return Ok(());
        };
        if self.props.contains_key(&number) {
            return Ok(());
        }
        let place = StampedValue::new(0, None);
        self.props.insert(number, place)?;
        Ok(())
    }

    fn stamp(&self, cell: &Cell) -> u64 {
        match prop_number(cell) {
            Some(number) => stamp_at(&self.props, number),
            None => 0,
        }
    }

    fn set_stamp(&mut self, cell: &Cell, stamp: u64)
        requires { IsTrue (contains_key self.old.places cell.now) }
        ensures { self.new ≡ record self.old { places = insert self.old.places cell.now stamp } }
    {
        if let Some(number) = prop_number(cell) {
            restamp(&mut self.props, number, stamp);
        }
    }

    fn places(&self) -> u64 {
        self.props.len() as u64
    }

    fn present(&self) -> u64 {
        self.present
    }

    fn purge(&mut self, oldest: u64)
        ensures parts { self.new.parts ≡ self.old.parts }
        ensures fewer { (cell : Cell) (stamp : ℕ) → get self.new.places cell ≡ Some stamp
            → get self.old.places cell ≡ Some stamp }
        ensures kept { (cell : Cell) (stamp : ℕ) → get self.old.places cell ≡ Some stamp
            → Stays self.old.parts self.old.places oldest cell
            → get self.new.places cell ≡ Some stamp }
        ensures gone { (cell : Cell) (stamp : ℕ) → get self.new.places cell ≡ Some stamp
            → Stays self.old.parts self.old.places oldest cell }
        ensures object { self.new ≡ record self.old { places = self.new.places } }
    {
        purge(&mut self.props, oldest);
    }
}

/// The number of a cell that is a property.
#[inline(always)]
fn prop_number(cell: &Cell) -> Option<u16>
    ensures { MatchOption result (is_prop cell.now ≡ false) (λ number. cell.now ≡ Cell.Prop number) }
{
    match cell {
        Cell::Prop(number) => Some(*number),
        Cell::Elem(_) | Cell::Key(_) | Cell::Default => None,
    }
}
