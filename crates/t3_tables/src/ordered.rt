//! The entries of a table in the order of their ticks.
ghost use Rattle.std.specs.Prelude.{◌≡◌, OnOk, IfOk, map};
ghost use Rattle.std.specs.FinMap.{entries};
ghost use Rattle.std.specs.List.{IsDistinct};
ghost use Rattle.std.specs.Ordering.{eq_by_cmp};
ghost use Rattle.t3_undo.specs.Key.{key_cmp};
ghost use Rattle.t3_undo.specs.Content.{shown};
ghost use Rattle.t3_undo.specs.Slots.{parts_of};
ghost use Rattle.t3_tables.specs.Table.{ordered, pair_of, numbered};
ghost use Rattle.t3_tables.specs.Inner.Slots.{with_entry};

use crate::pair::Pair;
use std::alloc::Global;
use std::collections::BTreeMap;
use t3_holder::{Holder, NoMemory};
use t3_undo::{Cell, Content, Key, Place, Slots};

/// Entries by their ticks, and where two ticks were equal by their keys.
type ByTick = BTreeMap<(u64, Key), Holder>;

/// The entries among slots, ordered.
pub(crate) fn entries_by_tick(alloc: Global, slots: &Slots) -> Result<ByTick, NoMemory>
    ensures { IfOk result (λ by_tick. by_tick.entries ≡ entries (ordered (parts_of slots.now))) }
{
    let mut by_tick = BTreeMap::new(alloc);
    for index in 0..slots.places() as usize {
        let (cell, place) = slots.slot(index).unwrap();
        add_entry(alloc, &mut by_tick, cell, &place.content)?;
    }
    Ok(by_tick)
}

/// Adds what stands in a slot, if it is an entry that is present.
fn add_entry(
    alloc: Global,
    by_tick: &mut ByTick,
    cell: &Cell,
    content: &Content,
) -> Result<(), NoMemory>
    ensures { OnOk result (by_tick.new.entries ≡ with_entry cell.now (shown content.now) by_tick.old.entries) }
{
    if let Cell::Key(key) = cell {
        if let Content::Slot(tick, value) = content {
            by_tick.insert((*tick, key.copy(alloc)?), *value)?;
        }
    }
    Ok(())
}

/// The entries in their order, without their ticks.
pub(crate) fn pairs_of(alloc: Global, mut by_tick: ByTick) -> Result<Vec<Pair>, NoMemory>
    ensures { IfOk result (λ pairs. pairs.items ≡ map pair_of by_tick.entries) }
{
    let mut pairs = Vec::new(alloc);
    while let Some(((_, key), value)) = by_tick.pop_first() {
        pairs.push(Pair { key, value })?;
    }
    Ok(pairs)
}

/// Slots for the entries among slots, in their order, with the ticks 1, 2 and so on and stamp 0.
pub(crate) fn slots_anew(alloc: Global, slots: &Slots) -> Result<Slots, NoMemory>
    ensures { IfOk result (λ anew. anew ≡ numbered 1 (map pair_of (entries (ordered (parts_of slots.now))))) }
{
    let by_tick = entries_by_tick(alloc, slots)?;
    numbered_slots(alloc, by_tick)
}

/// Slots for entries in their order, with the ticks 1, 2 and so on and stamp 0.
fn numbered_slots(alloc: Global, mut by_tick: ByTick) -> Result<Slots, NoMemory>
    requires { IsDistinct (eq_by_cmp key_cmp) (map (λ pair. pair.key) (map pair_of by_tick.entries)) }
    ensures { IfOk result (λ slots. slots ≡ numbered 1 (map pair_of by_tick.entries)) }
{
    let mut slots = Slots::new(alloc);
    while let Some(((_, key), value)) = by_tick.pop_first() {
        let tick = slots.places() + 1;
        let place = Place::unstamped(Content::Slot(tick, value));
        slots.add(Cell::Key(key), place)?;
    }
    Ok(slots)
}
