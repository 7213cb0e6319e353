//! Cells of a table: the tick that one gets, and how many units a cell counts.
ghost use Rattle.std.specs.Prelude.{◌≡◌, ◌+◌, ◌<◌, ◌≤◌, ◌-◌, ◌^◌, IsTrue, IsSome};
ghost use Rattle.std.specs.FinMap.{get};
ghost use Rattle.std.specs.Int.{div_ceil};
ghost use Rattle.t3_undo.specs.Content.{shown, is_form};
ghost use Rattle.t3_undo.specs.Objects.{with_part};
ghost use Rattle.t3_tables.specs.Table.{parts_of, is_cell};
ghost use Rattle.t3_store.specs.Value.{with_cell};
ghost use Rattle.t3_undo.specs.Units.{cell_units, key_units};
ghost use Rattle.t3_store.specs.Inner.Shapes.{TableShape, value_of, tick_behind};
ghost use Rattle.t3_tables.specs.Entries.{risen};
ghost use Rattle.t3_store.specs.Inner.Valid.{IsValid};

use t3_holder::Holder;
use t3_tables::Table;
use t3_undo::{Cell, Content, Key, Metaclass};

/// What stands in a cell of a table once it is set to a value: a new key gets the next tick, and a present one
/// keeps its own.
pub(crate) fn content_with(table: &Table, cell: &Cell, value: Holder) -> Content
    requires can { IsTrue (is_cell cell.now) }
    requires valid { IsValid (TableShape, parts_of table.now) }
    requires room { table.now.next_tick < 2 ^ 64 - 1 }
    ensures form { IsTrue (is_form cell.now (shown result)) }
    ensures set { value_of (with_part cell.now (shown result) (TableShape, parts_of table.now))
        ≡ with_cell cell.now value (value_of (TableShape, parts_of table.now)) }
    ensures present { IsSome (shown result) }
    ensures valid { IsValid (with_part cell.now (shown result) (TableShape, parts_of table.now)) }
    ensures tick { tick_behind (shown result) ≤ risen table.now.next_tick (get (parts_of table.now) cell.now) }
{
    let next = table.next_tick();
    match table.get(cell) {
        Content::Absent => Content::Slot(next, value),
        Content::Held(_) => Content::Held(value),
        Content::Slot(tick, _) => Content::Slot(tick, value),
    }
}

/// How many units a cell that is set counts.
pub(crate) fn cell_units(cell: &Cell) -> u64
    ensures { result ≡ cell_units cell.now }
{
    match cell {
        Cell::Prop(_) | Cell::Elem(_) => 1,
        Cell::Key(key) => key_units(key),
        Cell::Default => 0,
    }
}

/// How many units an entry under a key counts.
fn key_units(key: &Key) -> u64
    ensures { result ≡ key_units key.now }
{
    match key {
        Key::Text(bytes) => 1 + eights(bytes.0.len()),
        _ => 1,
    }
}

/// So many bytes by eights, rounded up.
pub(crate) fn eights(bytes: usize) -> u64
    ensures { result ≡ div_ceil bytes 8 }
{
    bytes.div_ceil(8) as u64
}
