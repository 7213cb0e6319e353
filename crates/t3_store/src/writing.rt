//! A cell of an object set, taken away or set anew, in a half of a store.
ghost use Rattle.std.specs.Prelude.{◌≡◌, ◌+◌, ◌-◌, ◌<◌, ◌^◌, ◌&&◌, ◌↔◌, true, false, None, Err, IsTrue, IsSome, IfOk, OnOk, OnErr, is_none};
ghost use Rattle.std.specs.FinMap.{get};
ghost use Rattle.t3_undo.specs.Content.{shown};
ghost use Rattle.t3_store.specs.Value.{holder_at, can_have_at, can_lose_at, with_cell, without_cell, units_in};
ghost use Rattle.t3_undo.specs.Units.{cell_units};
ghost use Rattle.t3_store.specs.Inner.Shapes.{values, AreWithin};
ghost use Rattle.t3_store.specs.Inner.Bounded.{IsPlaced};
ghost use Rattle.t3_store.specs.Inner.Store.{IsReady, IsWritten, KeepStamps};

use crate::limits::StoreRefusal;
use crate::object_map::ObjectMap;
use std::alloc::Global;
use t3_holder::Holder;
use t3_undo::{Cell, Content};

/// Sets a cell of an object, and hands out what stood there. `full` says whether there is no room for one
/// that is absent.
pub(crate) fn set(
    objects: &mut ObjectMap,
    alloc: Global,
    number: u32,
    cell: &Cell,
    value: Holder,
    full: bool,
) -> Result<Content, StoreRefusal>
    requires can { IsTrue (can_have_at (get (values objects.old.objects) number) cell.now) }
    requires room { full ≡ false → units_in (values objects.old.objects) + cell_units cell.now < 2 ^ 32 }
    requires few { AreWithin (2 ^ 64 - 2) objects.old.ticks }
    ensures full { (result ≡ Err StoreRefusal.Full)
        ↔ IsTrue (is_none (holder_at (get (values objects.old.objects) number) cell.now) && full) }
    ensures ok { IfOk result (λ old. IsWritten objects.old objects.new number cell.now
        (with_cell cell.now value) (shown old)) }
    ensures stamps { OnOk result (KeepStamps objects.old.places objects.new.places) }
    ensures placed { OnOk result (IsPlaced objects.old objects.new number cell.now) }
    ensures err { OnErr result (objects.new ≡ objects.old) }
{
    make_room(objects, alloc, number, cell, full)?;
    Ok(objects.set(number, cell, value))
}

/// Makes a place for a cell of an object, where it is absent. `full` says whether there is no room then.
fn make_room(
    objects: &mut ObjectMap,
    alloc: Global,
    number: u32,
    cell: &Cell,
    full: bool,
) -> Result<(), StoreRefusal>
    requires { IsTrue (can_have_at (get (values objects.old.objects) number) cell.now) }
    ensures full { (result ≡ Err StoreRefusal.Full)
        ↔ IsTrue (is_none (holder_at (get (values objects.old.objects) number) cell.now) && full) }
    ensures ok { OnOk result (IsReady objects.old objects.new number cell.now) }
    ensures room { OnOk result (holder_at (get (values objects.old.objects) number) cell.now ≡ None
        → full ≡ false) }
    ensures err { OnErr result (objects.new ≡ objects.old) }
{
    if objects.get(number, cell).is_present() {
        return Ok(());
    }
    if full {
        return Err(StoreRefusal::Full);
    }
    objects.make_place(number, cell.copy(alloc)?)?;
    Ok(())
}

/// Sets a present cell of an object anew, and hands out what stood there. No memory is taken.
pub(crate) fn overwrite(objects: &mut ObjectMap, number: u32, cell: &Cell, value: Holder) -> Content
    requires present { IsSome (holder_at (get (values objects.old.objects) number) cell.now) }
    requires few { AreWithin (2 ^ 64 - 2) objects.old.ticks }
    ensures written { IsWritten objects.old objects.new number cell.now (with_cell cell.now value)
        (shown result) }
    ensures places { objects.new.places ≡ objects.old.places }
    ensures placed { IsPlaced objects.old objects.new number cell.now }
{
    let _present = objects.get(number, cell);
    objects.set(number, cell, value)
}

/// Takes a present cell of an object away, and hands out what stood there. No memory is taken.
pub(crate) fn take(objects: &mut ObjectMap, number: u32, cell: &Cell) -> Content
    requires present { IsSome (holder_at (get (values objects.old.objects) number) cell.now) }
    requires can { IsTrue (can_lose_at (get (values objects.old.objects) number) cell.now) }
    ensures written { IsWritten objects.old objects.new number cell.now (without_cell cell.now)
        (shown result) }
    ensures places { objects.new.places ≡ objects.old.places }
{
    let _present = objects.get(number, cell);
    objects.take(number, cell)
}
