//! What drawn calls need of a kind of object beside its cells: a place where one can be made, and a copy.
ghost use Rattle.std.specs.Prelude.{◌≡◌, ◌<◌, IsTrue, IfOk, OnOk};
ghost use Rattle.std.specs.FinMap.{contains_key};
ghost use Rattle.t3_lists.specs.Vector.{parts_of, IsWhole};

use crate::vectors::make_places;
use std::alloc::Global;
use t3_holder::NoMemory;
use t3_lists::{List, Text, Vector};
use t3_tables::Table;
use t3_tadsobj::TadsObject;
use t3_undo::{Cell, Metaclass};

/// A kind of object that drawn calls try.
pub(crate) trait Tried: Metaclass + Drop {
    /// Makes a place for the cell, and for the elements below one, where the kind has such cells. Whether it
    /// has.
    fn try_place(&mut self, alloc: Global, cell: &Cell) -> Result<bool, NoMemory>
        ensures { IfOk result (λ has. IsTrue has → IsTrue (contains_key (Self.places self.new) cell.now)) };

    /// A copy. `None` where the object can't be copied as it stands.
    fn try_copy(&self, alloc: Global) -> Result<Option<Self>, NoMemory>;
}

impl Tried for TadsObject {
    fn try_place(&mut self, alloc: Global, cell: &Cell) -> Result<bool, NoMemory> {
        if !matches!(cell, Cell::Prop(_)) {
            return Ok(false);
        }
        self.make_place(cell.copy(alloc)?)?;
        Ok(true)
    }

    fn try_copy(&self, alloc: Global) -> Result<Option<TadsObject>, NoMemory> {
        Ok(Some(self.copy(alloc)?))
    }
}

impl Tried for Table {
    fn try_place(&mut self, alloc: Global, cell: &Cell) -> Result<bool, NoMemory> {
        if !matches!(cell, Cell::Key(_) | Cell::Default) {
            return Ok(false);
        }
        self.make_place(cell.copy(alloc)?)?;
        Ok(true)
    }

    fn try_copy(&self, alloc: Global) -> Result<Option<Table>, NoMemory> {
        Ok(Some(self.copy(alloc)?))
    }
}

impl Tried for Vector {
    fn try_place(&mut self, _alloc: Global, cell: &Cell) -> Result<bool, NoMemory> {
        match cell {
            Cell::Elem(number) if *number > 0 => {
                make_places(self, *number)?;
                Ok(true)
            }
            _ => Ok(false),
        }
    }

    /// No element may be missing below another.
    fn try_copy(&self, alloc: Global) -> Result<Option<Vector>, NoMemory> {
        if is_whole(self) {
            Ok(Some(self.copy(alloc)?))
        } else {
            Ok(None)
        }
    }
}

/// Whether the present elements are the first ones.
fn is_whole(vector: &Vector) -> bool
    ensures { IsTrue result → IsWhole (parts_of vector.now) }
{
    for index in 0..vector.length() {
        if !vector.get(&Cell::Elem(index + 1)).is_present() {
            return false;
        }
    }
    true
}

impl Tried for Text {
    fn try_place(&mut self, alloc: Global, cell: &Cell) -> Result<bool, NoMemory> {
        self.make_place(cell.copy(alloc)?)?;
        Ok(false)
    }

    fn try_copy(&self, alloc: Global) -> Result<Option<Text>, NoMemory> {
        Ok(Some(self.copy(alloc)?))
    }
}

impl Tried for List {
    fn try_place(&mut self, alloc: Global, cell: &Cell) -> Result<bool, NoMemory> {
        self.make_place(cell.copy(alloc)?)?;
        Ok(false)
    }

    fn try_copy(&self, alloc: Global) -> Result<Option<List>, NoMemory> {
        Ok(Some(self.copy(alloc)?))
    }
}
