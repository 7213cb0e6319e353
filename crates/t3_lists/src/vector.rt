ghost use Rattle.std.specs.Prelude.{◌≡◌, List, [], IsTrue, IsSome, IfOk, OnOk, OnErr, length};
ghost use Rattle.std.specs.FinMap.{get, contains_key};
ghost use Rattle.t3_holder.specs.declared.holder.Holder.{Holder};
ghost use Rattle.t3_undo.specs.Content.{shown, is_form, places_for};
ghost use Rattle.t3_undo.specs.Objects.{set_at};
ghost use Rattle.t3_lists.specs.Vector.{parts_of, places_of, items_of, filled, is_element, IsWhole};

use crate::elements::{
    add_missing, content_in, exchange, one_if_present, present_elements, purge, set_stamp, stamp_at,
};
use std::alloc::Global;
use std::marker::Model;
use t3_holder::{Holder, NoMemory};
use t3_undo::{Cell, Content, Metaclass, StampedValue};

/// A vector: elements, numbered from 1, which can be set. Contracts see the elements that have a place,
/// each with its stamp and its value, or without a value where it is missing.
#[derive(Drop)]
pub struct Vector {
    elements: Vec<StampedValue>,
    present: u32,
}

impl Model for Vector {
    ghost use Rattle.std.specs.Prelude.{List};
    ghost use Rattle.t3_undo.specs.StampedValue.{ValuePlace};
    ghost use Rattle.t3_lists.specs.Vector.{values_of};

    ghost Value = { List ValuePlace };

    ghost view = { λ v. v.elements.items };

    ghost use Rattle.t3_lists.specs.Inner.Elements.{AreCounted};

    ghost invariant = { λ v. AreCounted (values_of v.elements.items) v.present };
}

impl Vector {
    /// A vector without elements. Takes no memory.
    pub fn new(alloc: Global) -> Vector
        ensures { result ≡ [] }
    {
        Vector {
            elements: Vec::new(alloc),
            present: 0,
        }
    }

    /// A vector like this one, with a place with stamp 0 for each present element alone. No element may be
    /// missing below another.
    pub fn copy(&self, alloc: Global) -> Result<Vector, NoMemory>
        requires { IsWhole (parts_of self.now) }
        ensures parts { IfOk result (λ copy. parts_of copy ≡ parts_of self.now) }
        ensures places { IfOk result (λ copy. places_of copy ≡ places_for (parts_of self.now)) }
    {
        let elements = present_elements(alloc, &self.elements)?;
        Ok(Vector {
            elements,
            present: self.present,
        })
    }

    /// How many elements are present. Where none is missing below another, it is the vector's length.
    pub fn length(&self) -> u32
        ensures present { result ≡ length (items_of (parts_of self.now)) }
        ensures whole { (items : List Holder) → parts_of self.now ≡ filled items → result ≡ length items }
    {
        self.present
    }
}

impl Metaclass for Vector {
    ghost use Rattle.t3_lists.specs.Vector.{parts_of, places_of, HasPlaceBelow};

    ghost parts = { parts_of };

    ghost places = { places_of };

    ghost can_have = { λ v cell. HasPlaceBelow (places_of v) cell };

    fn get(&self, cell: &Cell) -> Content {
        content_in(&self.elements, cell)
    }

    fn put(&mut self, cell: &Cell, content: Content) -> Content
        requires place { IsTrue (contains_key (places_of self.old) cell.now) }
        requires form { IsTrue (is_form cell.now (shown content)) }
        ensures parts { parts_of self.new ≡ set_at (parts_of self.old) cell.now (shown content) }
        ensures places { places_of self.new ≡ places_of self.old }
        ensures old { shown result ≡ get (parts_of self.old) cell.now }
        ensures back { set_at (parts_of self.new) cell.now (shown result) ≡ parts_of self.old }
        ensures formed { IsTrue (is_form cell.now (shown result)) }
        ensures only_elements { IsTrue (is_element cell.now) }
    {
        let added = one_if_present(&content);
        let old = exchange(&mut self.elements, cell, content);
        let present = &mut self.present;
        *present = *present - one_if_present(&old) + added;
        old
    }

    fn make_place(&mut self, cell: Cell) -> Result<(), NoMemory> {
        add_missing(&mut self.elements, &cell)?;
        Ok(())
    }

    fn stamp(&self, cell: &Cell) -> u64 {
        stamp_at(&self.elements, cell)
    }

    fn set_stamp(&mut self, cell: &Cell, stamp: u64) {
        set_stamp(&mut self.elements, cell, stamp);
    }

    fn places(&self) -> u64 {
        self.elements.len() as u64
    }

    fn present(&self) -> u64 {
        u64::from(self.present)
    }

    fn purge(&mut self, oldest: u64) {
        purge(&mut self.elements, oldest);
    }
}
