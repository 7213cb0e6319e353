//! Setting elements of vectors.
ghost use Rattle.std.specs.Prelude.{◌≡◌, ◌+◌, ◌<◌, ◌≤◌, ◌^◌, IfOk, IsOk, IsTrue, OnErr};
ghost use Rattle.t3_store.specs.Value.{can_have_at};
ghost use Rattle.t3_store.specs.Store.{value_at, written};
ghost use Rattle.t3_ops.specs.Elements.{after_writes, element_writes, IsFrontWritten, IsVectorOf};
ghost use Rattle.t3_ops.specs.Inner.Outcomes.{IsWritten};

use t3_holder::{Holder, NoMemory};
use t3_store::{Store, StoreRefusal};
use t3_undo::Cell;

/// Sets the element of an index, from 1 to 65,535, of the vector of a number, which has that
/// length. Elements that are missing below it are written as nil first, in rising order. Answers
/// whether the store had room for all of them; where it hadn't, those before are written. Want of
/// memory may come after the first of them, which then are written and nothing else, but not where
/// the element is present.
pub fn set_element(
    store: &mut Store,
    object: u32,
    length: u32,
    index: u32,
    value: Holder,
) -> Result<bool, NoMemory>
    requires vector { IsVectorOf (value_at store.old.store object) length }
    requires index { (0 < index) × (index ≤ 65535) }
    requires few { store.old.writes + 65536 ≤ 2 ^ 63 }
    ensures made { IfOk result (λ all.
        after_writes object (element_writes length index value) store.old.store
        ≡ (all, store.new.store)) }
    ensures front { OnErr result (IsFrontWritten object
        (element_writes length index value) store.old.store store.new.store) }
    ensures present { index ≤ length → IsOk result }
    ensures writes { store.new.writes ≤ store.old.writes + 65535 }
    ensures savepoints { store.new.savepoints ≡ store.old.savepoints }
{
    if index <= length {
        store.overwrite(object, Cell::Elem(index), value);
        return Ok(true);
    }
    let last = index - 1;
    let mut count = length;
    while count < last {
        if !write(store, object, count + 1, Holder::Nil)? {
            return Ok(false);
        }
        count += 1;
    }
    write(store, object, index, value)
}

/// Sets an element, and answers whether there was room.
fn write(store: &mut Store, object: u32, index: u32, value: Holder) -> Result<bool, NoMemory>
    requires can { IsTrue (can_have_at (value_at store.old.store object) (Cell.Elem index)) }
    requires few { store.old.writes < 2 ^ 63 }
    ensures written { IfOk result (λ all. IsWritten store.old.store
        (written object (Cell.Elem index) value store.old.store) all store.new.store) }
    ensures err { OnErr result (store.new.store ≡ store.old.store) }
    ensures writes { store.new.writes ≤ store.old.writes + 1 }
    ensures savepoints { store.new.savepoints ≡ store.old.savepoints }
{
    match store.write(object, Cell::Elem(index), Some(value)) {
        Ok(()) => Ok(true),
        Err(StoreRefusal::Full) => Ok(false),
        Err(StoreRefusal::NoMemory) => Err(NoMemory),
    }
}
