//! Places of absent cells, which are taken away where an object has too many.
ghost use Rattle.std.specs.Prelude.{◌≡◌};
ghost use Rattle.t3_undo.specs.Purging.{IsOldest};
ghost use Rattle.t3_undo.specs.Stamps.{AreStamped};
ghost use Rattle.t3_store.specs.Inner.Shapes.{stamp_at};
ghost use Rattle.t3_store.specs.Inner.Bounded.{AreOthersBounded, AreBounded, HaveNoGaps};
ghost use Rattle.t3_store.specs.Inner.Store.{IsPurged};

use crate::object_map::ObjectMap;
use t3_undo::Journal;

/// The serial below which no savepoint needs a stamp: that of the oldest one held or, where none is, a number above
/// all that there were.
pub(crate) fn purge_serial(journal: &Journal) -> u64
    ensures { IsOldest journal.now.marks result journal.now.segments }
{
    journal.oldest_serial().unwrap_or(u64::MAX)
}

/// Where an object has more places than twice its present cells and the records that there may be, and 16, takes
/// away those of absent cells that no savepoint has a record of. No memory is taken.
pub(crate) fn tidy(objects: &mut ObjectMap, journal: &Journal, number: u32, record_limit: u32)
    requires limit { journal.now.record_limit ≡ record_limit }
    requires stamped { AreStamped journal.now.marks (stamp_at objects.old.places) journal.now.segments }
    requires others { AreOthersBounded record_limit number objects.old }
    requires gaps { HaveNoGaps objects.old.objects journal.now.segments }
    ensures purged { IsPurged objects.old objects.new journal.now.segments }
    ensures bounded { AreBounded record_limit objects.new }
{
    // There are no more records than the limit says.
    let _within = journal.records();
    objects.tidy(number, record_limit, purge_serial(journal));
}
