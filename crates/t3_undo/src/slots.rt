ghost use Rattle.std.specs.Prelude.{◌≡◌, ℕ, ◌||◌, nat_le, is_some, ◌<◌, ◌^◌, ◌↔◌, ◌++◌, [], ◌∷◌, false, None, Some, IsTrue, IsSome, OnOk, OnErr, IfOk, filter, length, slice_get, if◌then◌else◌};
ghost use Rattle.std.specs.FinMap.{get, insert, len, contains_key};
ghost use Rattle.std.specs.List.{IsDistinct, list_any};
ghost use Rattle.std.specs.Map.{keys_of, set_value};
ghost use Rattle.indexmap.specs.IndexMap.{get_by};
ghost use Rattle.std.specs.Map.Iter.{deref_pair};
ghost use Rattle.std.specs.Option.{option_map};
ghost use Rattle.std.specs.Ordering.{eq_by_cmp};
ghost use Rattle.t3_undo.specs.Cell.{cell_cmp};
ghost use Rattle.t3_undo.specs.Content.{shown, is_form, with_place, places_for};
ghost use Rattle.t3_undo.specs.Objects.{set_at};
ghost use Rattle.t3_undo.specs.Slots.{parts_of, places_of, unstamped, is_present, is_needed};
ghost use Rattle.t3_undo.specs.Purging.{IsNeeded};
ghost use Rattle.t3_undo.specs.declared.place.Place.{Place};
ghost use Rattle.t3_undo.specs.declared.cell.Cell.{Cell};

use crate::cell::Cell;
use crate::content::{Content, like};
use crate::place::Place;
use indexmap::IndexMap;
use std::alloc::Global;
use std::hash::{BuildHasher, DefaultHasher};
use std::marker::Model;
use std::mem;
use t3_holder::NoMemory;

type Cells = IndexMap<Cell, Place, FixedKey>;

/// Hashes cells by SipHash under its fixed key, and takes no room in a map, where std's keeps a hasher.
#[derive(Clone, Copy)]
struct FixedKey;

impl BuildHasher for FixedKey {
    ghost use Rattle.std.specs.Hash.DefaultHasher.{initial};

    type Hasher = DefaultHasher;

    ghost build_hasher = { λ _. initial };

    fn build_hasher(&self) -> DefaultHasher {
        DefaultHasher::new()
    }
}

/// Cells that have a place, each with its stamp and its content: what a kind of object is built round. `get`,
/// `put`, `stamp` and `set_stamp` do one look-up. Contracts see the slots in the order in which they were made.
#[derive(Drop)]
pub struct Slots {
    cells: Cells,
    /// How many of the cells are present.
    present: u64,
}

impl Model for Slots {
    ghost use Rattle.std.specs.Prelude.{List};
    ghost use Rattle.std.specs.Coded.{coded_list, coded×};
    ghost use Rattle.t3_undo.specs.Slots.{AreSlots};
    ghost use Rattle.t3_undo.specs.declared.cell.Cell.{Cell};
    ghost use Rattle.t3_undo.specs.declared.place.Place.{Place};

    ghost Value = { List (Cell × Place) };

    ghost view = { λ s. s.cells.entries };

    ghost invariant = { λ s. AreSlots s.cells.entries s.present };
}

impl Slots {
    /// No slots. Takes no memory.
    pub fn new(alloc: Global) -> Slots
        ensures { result ≡ [] }
    {
        Slots {
            cells: IndexMap::with_hasher(alloc, FixedKey),
            present: 0,
        }
    }

    /// No slots, with room for so many, so that they come without taking memory again and again.
    fn with_capacity(alloc: Global, capacity: usize) -> Result<Slots, NoMemory>
        ensures { IfOk result (λ slots. slots ≡ []) }
    {
        Ok(Slots {
            cells: IndexMap::with_capacity_and_hasher(alloc, capacity, FixedKey)?,
            present: 0,
        })
    }

    /// What stands in the cell.
    pub fn get(&self, cell: &Cell) -> Content
        ensures content { shown result ≡ get (parts_of self.now) cell.now }
        ensures placed { IsSome (shown result) → IsTrue (contains_key (places_of self.now) cell.now) }
        ensures formed { IsTrue (contains_key (places_of self.now) cell.now)
            → IsTrue (is_form cell.now (shown result)) }
    {
        match self.cells.get(cell) {
            Some(place) => like(&place.content),
            None => Content::Absent,
        }
    }

    /// Sets the cell, and hands out what stood there. No memory is taken.
    pub fn put(&mut self, cell: &Cell, content: Content) -> Content
        requires place { IsTrue (contains_key (places_of self.old) cell.now) }
        requires form { IsTrue (is_form cell.now (shown content)) }
        ensures parts { parts_of self.new ≡ set_at (parts_of self.old) cell.now (shown content) }
        ensures places { places_of self.new ≡ places_of self.old }
        ensures old { shown result ≡ get (parts_of self.old) cell.now }
        ensures formed { IsTrue (is_form cell.now (shown result)) }
    {
        let _within = self.cells.len();
        let coming = one_if_present(&content);
        let old = exchange(&mut self.cells, cell, content);
        self.present = self.present + coming - one_if_present(&old);
        old
    }

    /// Makes a place with stamp 0 for the cell, if it has none. The cell stays as it is.
    pub fn make_place(&mut self, cell: Cell) -> Result<(), NoMemory>
        requires { IsTrue (is_form cell None) }
        ensures parts { parts_of self.new ≡ parts_of self.old }
        ensures ok { OnOk result (places_of self.new ≡ with_place (places_of self.old) cell) }
        ensures err { OnErr result (self.new ≡ self.old) }
    {
        if self.cells.contains_key(&cell) {
            return Ok(());
        }
        self.add(cell, Place::unstamped(Content::Absent))?;
        Ok(())
    }

    /// A slot for a cell that has none.
    pub fn add(&mut self, cell: Cell, place: Place) -> Result<(), NoMemory>
        requires new { list_any (eq_by_cmp cell_cmp cell) (keys_of self.old) ≡ false }
        requires form { IsTrue (is_form cell (shown place.content)) }
        ensures ok { OnOk result (self.new ≡ self.old ++ (cell, place) ∷ []) }
        ensures err { OnErr result (self.new ≡ self.old) }
    {
        let _within = self.cells.len();
        let coming = one_if_present(&place.content);
        self.cells.insert(cell, place)?;
        self.present += coming;
        Ok(())
    }

    /// Slots with the same parts, and a place with stamp 0 for each present cell alone.
    pub fn copy(&self, alloc: Global) -> Result<Slots, NoMemory>
        ensures parts { IfOk result (λ copy. parts_of copy ≡ parts_of self.now) }
        ensures places { IfOk result (λ copy. places_of copy ≡ places_for (parts_of self.now)) }
    {
        let mut copy = Slots::with_capacity(alloc, self.present as usize)?;
        for index in 0..self.cells.len() {
            let (cell, place) = self.cells.get_index(index).unwrap();
            copy.add_present(alloc, cell, place)?;
        }
        Ok(copy)
    }

    /// A slot with the content of this place and stamp 0, where the cell is present.
    fn add_present(&mut self, alloc: Global, cell: &Cell, place: &Place) -> Result<(), NoMemory>
        requires new { list_any (eq_by_cmp cell_cmp cell.now) (keys_of self.old) ≡ false }
        requires form { IsTrue (is_form cell.now (shown place.now.content)) }
        ensures { OnOk result (self.new
            ≡ self.old ++ filter is_present ((cell.now, unstamped place.now.content) ∷ [])) }
    {
        if place.content.is_present() {
            let fresh = Place::unstamped(like(&place.content));
            self.add(cell.copy(alloc)?, fresh)?;
        }
        Ok(())
    }

    /// The stamp of the cell's place.
    pub fn stamp(&self, cell: &Cell) -> u64
        requires { IsTrue (contains_key (places_of self.now) cell.now) }
        ensures { get (places_of self.now) cell.now ≡ Some result }
    {
        match self.cells.get(cell) {
            Some(place) => place.stamp,
            None => 0,
        }
    }

    /// Gives the cell's place another stamp. No memory is taken.
    pub fn set_stamp(&mut self, cell: &Cell, stamp: u64)
        requires { IsTrue (contains_key (places_of self.old) cell.now) }
        ensures parts { parts_of self.new ≡ parts_of self.old }
        ensures places { places_of self.new ≡ insert (places_of self.old) cell.now stamp }
    {
        restamp(&mut self.cells, cell, stamp);
    }

    /// How many cells have a place.
    pub fn places(&self) -> u64
        ensures places { result ≡ len (places_of self.now) }
        ensures slots { result ≡ length self.now }
        ensures bound { result < 2 ^ 63 }
        ensures distinct { IsDistinct (eq_by_cmp cell_cmp) (keys_of self.now) }
    {
        self.cells.len() as u64
    }

    /// How many cells are present. No cell is looked at.
    pub fn present(&self) -> u64
        ensures present { result ≡ len (parts_of self.now) }
        ensures bound { result < 2 ^ 63 }
    {
        let _within = self.cells.len();
        self.present
    }

    /// Takes away each place whose cell is absent and whose stamp is below this one. No memory is taken.
    pub fn purge(&mut self, oldest: u64)
        ensures parts { parts_of self.new ≡ parts_of self.old }
        ensures fewer { (cell : Cell) (stamp : ℕ) → get (places_of self.new) cell ≡ Some stamp
            → get (places_of self.old) cell ≡ Some stamp }
        ensures kept { (cell : Cell) (stamp : ℕ) → get (places_of self.old) cell ≡ Some stamp
            → IsNeeded (parts_of self.old) (places_of self.old) oldest cell
            → get (places_of self.new) cell ≡ Some stamp }
        ensures gone { (cell : Cell) (stamp : ℕ) → get (places_of self.new) cell ≡ Some stamp
            → IsNeeded (parts_of self.old) (places_of self.old) oldest cell }
    {
        purge(&mut self.cells, oldest);
    }

    /// The cell and the place that stand at an index.
    pub fn slot(&self, index: usize) -> Option<(&Cell, &Place)>
        ensures slot { option_map deref_pair result ≡ slice_get self.now index }
        ensures found { IsSome result ↔ (index < length self.now) }
    {
        self.cells.get_index(index)
    }
}

/// One for a content that is present, and nothing for another.
fn one_if_present(content: &Content) -> u64
    ensures { result ≡ (if is_some (shown content.now) then 1 else 0) }
{
    if content.is_present() { 1 } else { 0 }
}

/// Puts another content under a cell that is there, and hands out what stood there.
fn exchange(cells: &mut Cells, cell: &Cell, content: Content) -> Content
    requires { IsSome (get_by (eq_by_cmp cell_cmp cell.now) cells.old) }
    ensures { (place : Place) → get_by (eq_by_cmp cell_cmp cell.now) cells.old ≡ Some place
        → (cells.new.entries ≡ set_value (eq_by_cmp cell_cmp cell.now) cells.old.entries
        (record place { content = content })) × (result ≡ place.content) }
{
    match cells.get_mut(cell) {
        Some(place) => mem::replace(&mut place.content, content),
        None => content,
    }
}

/// Gives the place of a cell that is there another stamp.
fn restamp(cells: &mut Cells, cell: &Cell, stamp: u64)
    requires { IsSome (get_by (eq_by_cmp cell_cmp cell.now) cells.old) }
    ensures { (place : Place) → get_by (eq_by_cmp cell_cmp cell.now) cells.old ≡ Some place
        → cells.new.entries ≡ set_value (eq_by_cmp cell_cmp cell.now) cells.old.entries
        (record place { stamp = stamp }) }
{
    if let Some(place) = cells.get_mut(cell) {
        place.stamp = stamp;
    }
}

/// Takes away what is absent and has a stamp below this one.
fn purge(cells: &mut Cells, oldest: u64)
    ensures cells { cells.new.entries ≡ filter (is_needed oldest) cells.old.entries }
    ensures distinct { IsDistinct (eq_by_cmp cell_cmp) (keys_of cells.old.entries) }
{
    let _distinct = cells.len();
    cells.retain(|_, place| is_needed(place, oldest));
}

/// Whether something stands in a place, or its stamp isn't below this one.
fn is_needed(place: &Place, oldest: u64) -> bool
    ensures { result ≡ (is_some (shown place.now.content) || nat_le oldest place.now.stamp) }
{
    place.content.is_present() || place.stamp >= oldest
}
