//! An object more in a state.
ghost use Rattle.std.specs.Prelude.{◌≡◌, ◌<◌, ◌^◌, None, IfOk, IsTrue};
ghost use Rattle.std.specs.Bool.{MatchBool};
ghost use Rattle.std.specs.FinMap.{get, insert};
ghost use Rattle.t3_store.specs.Value.{Table as TableValue, HasFittingLength, new_value, IsTableWithout, with_cell, is_past_units};
ghost use Rattle.t3_undo.specs.Units.{key_units};
ghost use Rattle.t3_undo.specs.Objects.{adjust};
ghost use Rattle.t3_undo.specs.declared.cell.Cell.TheVariants as cells;
ghost use Rattle.t3_snapshot.specs.Layout.{HasDistinctKeys, IsSpellable};
ghost use Rattle.t3_snapshot.specs.Building.{saved_value, IsOver};

use crate::saved_object::SavedObject;
use t3_holder::{Holder, NoMemory};
use t3_store::{NewObject, Persistent, StoreRefusal};
use t3_tables::Pair;
use t3_undo::Key;

/// Adds an object. False where there would be more objects or units than there may be.
pub(crate) fn add_object(
    state: &mut Persistent,
    number: u32,
    object: SavedObject,
) -> Result<bool, NoMemory>
    requires number { (0 < number) × (number < 2 ^ 31) }
    requires new { get state.old number ≡ None }
    requires spellable { IsSpellable (saved_value object) }
    ensures { IfOk result (λ added. MatchBool added
        (state.new ≡ insert state.old number (saved_value object))
        (IsOver (insert state.old number (saved_value object)))) }
{
    match object {
        SavedObject::Made(what) => add_made(state, number, what),
        SavedObject::Table { pairs, default } => add_table(state, number, pairs, default),
    }
}

/// Adds an object that is made at once.
fn add_made(state: &mut Persistent, number: u32, what: NewObject) -> Result<bool, NoMemory>
    requires number { (0 < number) × (number < 2 ^ 31) }
    requires new { get state.old number ≡ None }
    requires length { HasFittingLength (new_value what) }
    ensures { IfOk result (λ added. MatchBool added
        (state.new ≡ insert state.old number (new_value what))
        (IsOver (insert state.old number (new_value what)))) }
{
    match state.add(number, what) {
        Ok(()) => Ok(true),
        Err(StoreRefusal::Full) => Ok(false),
        Err(StoreRefusal::NoMemory) => Err(NoMemory),
    }
}

/// Adds a table.
fn add_table(
    state: &mut Persistent,
    number: u32,
    mut pairs: Vec<Pair>,
    default: Holder,
) -> Result<bool, NoMemory>
    requires number { (0 < number) × (number < 2 ^ 31) }
    requires new { get state.old number ≡ None }
    requires distinct { HasDistinctKeys pairs.items }
    ensures { IfOk result (λ added. MatchBool added
        (state.new ≡ insert state.old number (TableValue pairs.items default))
        (IsOver (insert state.old number (TableValue pairs.items default)))) }
{
    if !add_made(state, number, NewObject::Table)? {
        return Ok(false);
    }
    state.set_default(number, default);
    pairs.reverse();
    while let Some(Pair { key, value }) = pairs.pop() {
        if !add_entry(state, number, key, value)? {
            return Ok(false);
        }
    }
    Ok(true)
}

/// Adds an entry to a table. False where there would be more units than there may be.
fn add_entry(state: &mut Persistent, number: u32, key: Key, value: Holder) -> Result<bool, NoMemory>
    requires table { IsTableWithout key (get state.old number) }
    ensures { IfOk result (λ added. MatchBool added
        (state.new ≡ adjust state.old number (with_cell (cells.Key key) value))
        (IsTrue (is_past_units state.old (key_units key)))) }
{
    match state.add_pair(number, key, value) {
        Ok(()) => Ok(true),
        Err(StoreRefusal::Full) => Ok(false),
        Err(StoreRefusal::NoMemory) => Err(NoMemory),
    }
}
