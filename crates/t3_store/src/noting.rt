//! What stood in a cell of a persistent object before a change, noted by the stamp of the cell's place.
ghost use Rattle.std.specs.Prelude.{◌≡◌, Some, IsTrue};
ghost use Rattle.t3_undo.specs.Content.{shown};
ghost use Rattle.t3_undo.specs.Journal.{serial_for};
ghost use Rattle.t3_undo.specs.Stamps.{AreStamped};
ghost use Rattle.t3_store.specs.Inner.Shapes.{has_place, stamp_at};
ghost use Rattle.t3_store.specs.Inner.Store.{NotesChange};

use crate::object_map::ObjectMap;
use t3_undo::{Cell, Content, Journal};

/// Notes what stood in a cell of an object before it was changed, where a savepoint is held, the object is older
/// than the newest, and that one has no record of the cell, as the stamp of the cell's place tells. Then the place gets
/// the savepoint's serial as its stamp, and the oldest savepoints go where there is no room for the record; where all
/// go, nothing is recorded. No memory is taken.
#[inline(always)]
pub(crate) fn note(
    objects: &mut ObjectMap,
    journal: &mut Journal,
    number: u32,
    cell: Cell,
    old: Content,
)
    requires placed { IsTrue (has_place objects.old.places number cell) }
    requires stamped { AreStamped journal.old.marks (stamp_at objects.old.places)
        journal.old.segments }
    ensures { NotesChange objects.old objects.new journal.old journal.new number cell (shown old) }
{
    // Mostly none is held, and then a change pays for this test alone.
    if let Some(serial) = journal.serial_for(number) {
        note_since(objects, journal, serial, number, cell, old);
    }
}

/// The same, where this is the newest savepoint's serial and the object is older than it.
fn note_since(
    objects: &mut ObjectMap,
    journal: &mut Journal,
    serial: u64,
    number: u32,
    cell: Cell,
    old: Content,
)
    requires serial { serial_for number journal.old.segments ≡ Some serial }
    requires placed { IsTrue (has_place objects.old.places number cell) }
    requires stamped { AreStamped journal.old.marks (stamp_at objects.old.places)
        journal.old.segments }
    ensures { NotesChange objects.old objects.new journal.old journal.new number cell (shown old) }
{
    let stamp = objects.stamp(number, &cell);
    if stamp != serial {
        objects.set_stamp(number, &cell, serial);
        let _added = journal.note_fresh(number, cell, old, stamp);
    }
}
