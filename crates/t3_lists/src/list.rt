ghost use Rattle.std.specs.Prelude.{◌≡◌, [], IfOk};

use crate::holders::Holders;
use std::alloc::Global;
use std::marker::Model;
use t3_holder::{Holder, NoMemory};
use t3_undo::{Cell, Content, Metaclass};

/// A list, which has no cells. Contracts see its items.
#[derive(Drop)]
pub struct List {
    items: Holders,
}

impl Model for List {
    ghost use Rattle.std.specs.Prelude as lists;
    ghost use Rattle.t3_holder.specs.declared.holder.Holder.{Holder};

    ghost Value = { lists.List Holder };

    ghost view = { λ l. l.items };
}

impl List {
    /// A list without items. Takes no memory.
    pub fn new(alloc: Global) -> List
        ensures { result ≡ [] }
    {
        List::of(Holders(Vec::new(alloc)))
    }

    /// A list of these items. Takes no memory.
    pub fn of(items: Holders) -> List
        ensures { result ≡ items }
    {
        List { items }
    }

    /// A list like this one.
    pub fn copy(&self, alloc: Global) -> Result<List, NoMemory>
        ensures { IfOk result (λ copy. copy ≡ self.now) }
    {
        let items = Vec::from_slice(alloc, self.items())?;
        Ok(List::of(Holders(items)))
    }

    /// The items, from first to last.
    pub fn items(&self) -> &[Holder]
        ensures { result.now ≡ self.now }
    {
        self.items.0.as_slice()
    }
}

impl Metaclass for List {
    ghost use Rattle.std.specs.FinMap as finite;

    ghost parts = { λ list. finite.empty };

    ghost places = { λ list. finite.empty };

    ghost can_have = { λ list cell. ⊥ };

    fn get(&self, _cell: &Cell) -> Content {
        Content::Absent
    }

    /// Changes nothing, since there is no cell to set.
    fn put(&mut self, _cell: &Cell, content: Content) -> Content
        ensures same { self.new ≡ self.old }
        ensures content { result ≡ content }
    {
        content
    }

    /// Makes no place, since there is no cell that could have one.
    fn make_place(&mut self, _cell: Cell) -> Result<(), NoMemory>
        ensures { self.new ≡ self.old }
    {
        Ok(())
    }

    fn stamp(&self, _cell: &Cell) -> u64 {
        0
    }

    /// Changes nothing, since no cell has a place.
    fn set_stamp(&mut self, _cell: &Cell, _stamp: u64)
        ensures { self.new ≡ self.old }
    {}

    fn places(&self) -> u64 {
        0
    }

    fn present(&self) -> u64 {
        0
    }

    /// Changes nothing, since no cell has a place.
    fn purge(&mut self, _oldest: u64)
        ensures { self.new ≡ self.old }
    {}
}
