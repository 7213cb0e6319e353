ghost use Rattle.std.specs.Prelude.{◌≡◌, IfOk};
ghost use Rattle.std.specs.Cmp.{partial_equiv_from_equiv, eq_by_cmp_equiv};
ghost use Rattle.std.specs.Ordering.{eq_by_cmp};
ghost use Rattle.t3_undo.specs.Cell.{cell_cmp, cell_cmp_total, cell_input, cell_input-respects};

use crate::key::Key;
use std::alloc::Global;
use std::cmp::{Eq, PartialEq};
use std::hash::{Hash, Hasher};
use t3_holder::NoMemory;

/// What can be set of an object: a property, an element of a vector, the entry of a table under a key, or
/// a table's default.
#[derive(Debug, Drop)]
pub enum Cell {
    /// A property's number.
    Prop(u16),
    /// An element's number, from 1.
    Elem(u32),
    Key(Key),
    Default,
}

impl Cell {
    /// An equal cell. Only the entry under a text takes memory.
    pub fn copy(&self, alloc: Global) -> Result<Cell, NoMemory>
        ensures { IfOk result (λ copy. copy ≡ self.now) }
    {
        match self {
            Cell::Prop(number) => Ok(Cell::Prop(*number)),
            Cell::Elem(number) => Ok(Cell::Elem(*number)),
            Cell::Key(key) => Ok(Cell::Key(key.copy(alloc)?)),
            Cell::Default => Ok(Cell::Default),
        }
    }
}

impl PartialEq for Cell {
    ghost eq = { eq_by_cmp cell_cmp };

    ghost laws = { partial_equiv_from_equiv (eq_by_cmp_equiv cell_cmp_total) };

    fn eq(&self, other: &Cell) -> bool {
        same_cell(self, other)
    }
}

impl Eq for Cell {
    ghost laws = { eq_by_cmp_equiv cell_cmp_total };
}

impl Hash for Cell {
    ghost hash_input = { cell_input };

    ghost respects_eq = { cell_input-respects };

    fn hash<H: Hasher>(&self, state: &mut H) {
        match self {
            Cell::Prop(number) => {
                state.write_u8(0);
                state.write_u16(*number);
            }
            Cell::Elem(number) => {
                state.write_u8(1);
                state.write_u32(*number);
            }
            Cell::Key(key) => {
                state.write_u8(2);
                key.hash(state);
            }
            Cell::Default => state.write_u8(3),
        }
    }
}

/// Whether two cells are the same.
fn same_cell(cell: &Cell, other: &Cell) -> bool
    ensures { result ≡ eq_by_cmp cell_cmp cell.now other.now }
{
    match cell {
        Cell::Prop(number) => matches!(other, Cell::Prop(same) if number == same),
        Cell::Elem(number) => matches!(other, Cell::Elem(same) if number == same),
        Cell::Key(key) => matches!(other, Cell::Key(same) if key == same),
        Cell::Default => matches!(other, Cell::Default),
    }
}
