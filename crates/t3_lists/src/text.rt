ghost use Rattle.std.specs.Prelude.{◌≡◌, [], IfOk};

use std::alloc::Global;
use std::marker::Model;
use t3_holder::{Bytes, NoMemory};
use t3_undo::{Cell, Content, Metaclass};

/// A string, which has no cells. Contracts see its bytes.
#[derive(Drop)]
pub struct Text {
    bytes: Bytes,
}

impl Model for Text {
    ghost use Rattle.std.specs.Prelude.{List, ℕ};

    ghost Value = { List ℕ };

    ghost view = { λ t. t.bytes };
}

impl Text {
    /// A string without bytes. Takes no memory.
    pub fn new(alloc: Global) -> Text
        ensures { result ≡ [] }
    {
        Text::of(Bytes(Vec::new(alloc)))
    }

    /// A string of these bytes. Takes no memory.
    pub fn of(bytes: Bytes) -> Text
        ensures { result ≡ bytes }
    {
        Text { bytes }
    }

    /// A string like this one.
    pub fn copy(&self, alloc: Global) -> Result<Text, NoMemory>
        ensures { IfOk result (λ copy. copy ≡ self.now) }
    {
        let bytes = Vec::from_slice(alloc, self.bytes())?;
        Ok(Text::of(Bytes(bytes)))
    }

    /// The bytes of the string.
    pub fn bytes(&self) -> &[u8]
        ensures { result.now ≡ self.now }
    {
        self.bytes.0.as_slice()
    }
}

impl Metaclass for Text {
    ghost use Rattle.std.specs.FinMap as finite;

    ghost parts = { λ text. finite.empty };

    ghost places = { λ text. finite.empty };

    ghost can_have = { λ text cell. ⊥ };

    fn get(&self, _cell: &Cell) -> Content {
        Content::Absent
    }

    /// Changes nothing, since there is no cell to set.
    fn put(&mut self, _cell: &Cell, content: Content) -> Content
        ensures same { self.new ≡ self.old }
        ensures content { result ≡ content }
    {
        content
    }

    /// Makes no place, since there is no cell that could have one.
    fn make_place(&mut self, _cell: Cell) -> Result<(), NoMemory>
        ensures { self.new ≡ self.old }
    {
        Ok(())
    }

    fn stamp(&self, _cell: &Cell) -> u64 {
        0
    }

    /// Changes nothing, since no cell has a place.
    fn set_stamp(&mut self, _cell: &Cell, _stamp: u64)
        ensures { self.new ≡ self.old }
    {}

    fn places(&self) -> u64 {
        0
    }

    fn present(&self) -> u64 {
        0
    }

    /// Changes nothing, since no cell has a place.
    fn purge(&mut self, _oldest: u64)
        ensures { self.new ≡ self.old }
    {}
}
