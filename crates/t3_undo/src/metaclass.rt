ghost use Rattle.std.specs.Prelude.{◌≡◌, ℕ, IsTrue, IsSome, OnOk, OnErr, Some};
ghost use Rattle.std.specs.FinMap.{get, insert, len, contains_key};
ghost use Rattle.t3_undo.specs.Content.{shown, is_form, with_place};
ghost use Rattle.t3_undo.specs.Objects.{set_at};
ghost use Rattle.t3_undo.specs.Purging.{Stays};

use crate::cell::Cell;
use crate::content::Content;
use t3_holder::NoMemory;

/// A kind of object whose changes can be put back.
///
/// An object has parts, its present cells with their contents, and places, the cells that can be set
/// without memory, each with a stamp. Each present cell has a place. `put` hands out what stood in the cell,
/// and that can be put there again: then the object has its former parts. What an object has beside its
/// parts and its places stays as it is.
pub trait Metaclass {
    ghost use Rattle.t3_undo.specs.Content.{Parts, Places};
    ghost use Rattle.t3_undo.specs.declared.cell.Cell.{Cell};

    /// What stands in the present cells.
    ghost parts: { Self → Parts };

    /// The cells that have a place, each with its stamp.
    ghost places: { Self → Places };

    /// Whether the object can be given a place for the cell, as it stands.
    ghost can_have: { Self → Cell → Type 0 };

    /// What stands in the cell.
    fn get(&self, cell: &Cell) -> Content
        ensures content { shown result ≡ get (parts self.now) cell.now }
        ensures placed { IsSome (shown result) → IsTrue (contains_key (places self.now) cell.now) }
        ensures formed { IsTrue (contains_key (places self.now) cell.now)
            → IsTrue (is_form cell.now (shown result)) };

    /// Sets the cell, and hands out what stood there. No memory is taken.
    fn put(&mut self, cell: &Cell, content: Content) -> Content
        requires place { IsTrue (contains_key (places self.old) cell.now) }
        requires form { IsTrue (is_form cell.now (shown content)) }
        ensures parts { parts self.new ≡ set_at (parts self.old) cell.now (shown content) }
        ensures places { places self.new ≡ places self.old }
        ensures old { shown result ≡ get (parts self.old) cell.now }
        ensures back { set_at (parts self.new) cell.now (shown result) ≡ parts self.old }
        ensures formed { IsTrue (is_form cell.now (shown result)) };

    /// Makes a place with stamp 0 for the cell, if it has none. The cell stays as it is.
    fn make_place(&mut self, cell: Cell) -> Result<(), NoMemory>
        requires { can_have self.old cell }
        ensures parts { parts self.new ≡ parts self.old }
        ensures ok { OnOk result (places self.new ≡ with_place (places self.old) cell) }
        ensures err { OnErr result (places self.new ≡ places self.old) };

    /// The stamp of the cell's place.
    fn stamp(&self, cell: &Cell) -> u64
        requires { IsTrue (contains_key (places self.now) cell.now) }
        ensures { get (places self.now) cell.now ≡ Some result };

    /// Gives the cell's place another stamp. No memory is taken.
    fn set_stamp(&mut self, cell: &Cell, stamp: u64)
        requires { IsTrue (contains_key (places self.old) cell.now) }
        ensures parts { parts self.new ≡ parts self.old }
        ensures places { places self.new ≡ insert (places self.old) cell.now stamp };

    /// How many cells have a place.
    fn places(&self) -> u64
        ensures { result ≡ len (places self.now) };

    /// How many cells are present. No cell is looked at.
    fn present(&self) -> u64
        ensures { result ≡ len (parts self.now) };

    /// Takes away each place whose cell is absent and whose stamp is below this one, but of the places of
    /// elements only those above which none stays. No memory is taken.
    fn purge(&mut self, oldest: u64)
        ensures parts { parts self.new ≡ parts self.old }
        ensures fewer { (cell : Cell) (stamp : ℕ) → get (places self.new) cell ≡ Some stamp
            → get (places self.old) cell ≡ Some stamp }
        ensures kept { (cell : Cell) (stamp : ℕ) → get (places self.old) cell ≡ Some stamp
            → Stays (parts self.old) (places self.old) oldest cell
            → get (places self.new) cell ≡ Some stamp }
        ensures gone { (cell : Cell) (stamp : ℕ) → get (places self.new) cell ≡ Some stamp
            → Stays (parts self.old) (places self.old) oldest cell };
}
