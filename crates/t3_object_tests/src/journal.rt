//! The journal by itself.
ghost use Rattle.std.specs.Prelude.{◌<◌};

use std::alloc::Global;
use std::process::Abort;
use std::test::Fail;
use t3_holder::{Bytes, Holder};
use t3_undo::{Cell, Content, Journal, Key};

/// A number in a cell.
fn held(number: i32) -> Content {
    Content::Held(Holder::Int(number))
}

/// Two records fill the journal of one savepoint.
fn check_full(rt: &impl Abort, journal: &mut Journal) {
    save(journal, 2);
    journal.note(1, Cell::Prop(1), held(0));
    journal.note(1, Cell::Prop(2), held(0));
    assert_eq!(rt; (journal.held(), journal.records()), (1, 2));
}

/// A further record costs the savepoint.
fn check_outgrown(rt: &impl Abort, journal: &mut Journal) {
    journal.note(1, Cell::Prop(3), held(0));
    assert_eq!(rt; (journal.held(), journal.records()), (0, 0));
    assert_eq!(rt; journal.newest_next(), None);
    assert_eq!(rt; journal.marks(), 1);
}

#[test]
fn the_only_savepoint_goes_where_its_records_fill_the_journal(rt: HostRuntime) -> Result<(), Fail> {
    let mut journal = Journal::start(rt.alloc(), 2, 128)?;
    check_full(&rt, &mut journal);
    check_outgrown(&rt, &mut journal);
    Ok(())
}

/// Three savepoints, and in each a record of property 5, with 0, 1 and 2.
fn save_three(journal: &mut Journal) {
    for old in 0..3 {
        save(journal, 2);
        journal.note(1, Cell::Prop(5), held(old));
    }
}

/// The newest record is one of this object and this property, with this number.
fn check_newest(
    rt: &impl Abort,
    journal: &mut Journal,
    number: u32,
    property: u16,
    old: i32,
) -> Result<(), Fail> {
    let kept = journal.take_kept().ok_or("a record")?;
    assert_eq!(rt; (kept.number, kept.old), (number, held(old)));
    assert!(rt; kept.cell == Cell::Prop(property));
    Ok(())
}

/// All savepoints and records go, and the savepoints stay counted.
fn check_cleared(rt: &impl Abort, journal: &mut Journal) {
    journal.clear();
    assert_eq!(rt; (journal.held(), journal.records()), (0, 0));
    assert_eq!(rt; journal.marks(), 3);
}

#[test]
fn a_further_savepoint_drops_the_oldest(rt: HostRuntime) -> Result<(), Fail> {
    let mut journal = Journal::start(rt.alloc(), 3, 2)?;
    save_three(&mut journal);
    assert_eq!(rt; (journal.held(), journal.records()), (2, 2));
    check_newest(&rt, &mut journal, 1, 5, 2)?;
    check_cleared(&rt, &mut journal);
    Ok(())
}

#[test]
fn one_record_is_room_for_one_change(rt: HostRuntime) -> Result<(), Fail> {
    let mut journal = Journal::start(rt.alloc(), 1, 1)?;
    journal.mark(7);
    journal.mark(9);
    assert_eq!(rt; (journal.held(), journal.newest_next()), (1, Some(9)));
    journal.note(9, Cell::Prop(1), held(0));
    assert_eq!(rt; journal.records(), 0, "made since the savepoint");
    check_first_change(&rt, &mut journal)
}

/// Of two changes of a cell the first is kept, and goes with its savepoint.
fn check_first_change(rt: &impl Abort, journal: &mut Journal) -> Result<(), Fail>
    requires { journal.old.marks < 1000 }
{
    journal.note(8, Cell::Prop(1), held(1));
    journal.note(8, Cell::Prop(1), held(2));
    assert_eq!(rt; (journal.held(), journal.records()), (1, 1));
    let kept = journal.take_kept().ok_or("a record")?;
    assert_eq!(rt;
        kept.old,
        held(1),
        "what stood there before the first change"
    );
    journal.mark(9);
    journal.clear();
    assert_eq!(rt;
        (journal.held(), journal.records(), journal.marks()),
        (0, 0, 3)
    );
    Ok(())
}

/// Makes a savepoint. A test makes few.
fn save(journal: &mut Journal, next: u32) {
    if journal.marks() < 1000 {
        journal.mark(next);
    }
}

/// Each savepoint but the last loses its two records to the next one's second.
fn check_round(rt: &impl Abort, journal: &mut Journal, round: u16) {
    save(journal, 10);
    assert_eq!(rt; journal.held(), if round == 0 { 1 } else { 2 });
    journal.note(1, Cell::Prop(round), held(1));
    journal.note(2, Cell::Prop(round), held(2));
    assert_eq!(rt; (journal.held(), journal.records()), (1, 2));
    assert_eq!(rt; journal.newest_serial(), Some(u64::from(round) + 1));
}

#[test]
fn rings_go_round(rt: HostRuntime) -> Result<(), Fail> {
    let mut journal = Journal::start(rt.alloc(), 3, 2)?;
    for round in 0..9u16 {
        check_round(&rt, &mut journal, round);
    }
    check_newest(&rt, &mut journal, 2, 8, 2)?;
    check_newest(&rt, &mut journal, 1, 8, 1)?;
    assert!(rt; journal.take_kept().is_none());
    Ok(())
}

/// A savepoint and its record fill the journal.
fn check_one(rt: &impl Abort, journal: &mut Journal, round: u32) {
    save(journal, round);
    assert_eq!(rt; (journal.held(), journal.records()), (1, 0));
    journal.note(0, Cell::Prop(1), held(1));
    assert_eq!(rt; (journal.held(), journal.records()), (1, 1));
    assert_eq!(rt; journal.newest_next(), Some(round));
    assert_eq!(rt; journal.serial_for(round), None, "made since");
    assert_eq!(rt; journal.serial_for(0), Some(u64::from(round)));
}

/// A second record costs the savepoint.
fn check_none_held(rt: &impl Abort, journal: &mut Journal) {
    journal.note(0, Cell::Prop(2), held(1));
    assert_eq!(rt; (journal.held(), journal.records()), (0, 0));
    assert_eq!(rt;
        (journal.newest_serial(), journal.serial_for(0)),
        (None, None)
    );
}

#[test]
fn full_rings_of_one(rt: HostRuntime) -> Result<(), Fail> {
    let mut journal = Journal::start(rt.alloc(), 1, 1)?;
    for round in 1..6u32 {
        check_one(&rt, &mut journal, round);
    }
    check_none_held(&rt, &mut journal);
    Ok(())
}

/// A savepoint, and in it a record of object 1 that is added without a search. Whether it was added.
fn save_and_note(journal: &mut Journal, next: u32, cell: Cell, old: i32, stamp: u64) -> bool {
    if journal.marks() >= 1000 {
        return false;
    }
    journal.mark(next);
    journal.note_fresh(1, cell, held(old), stamp)
}

/// A savepoint, and in it two records that are added without a search. Whether each was added.
fn save_and_note_two(journal: &mut Journal) -> (bool, bool) {
    if journal.marks() >= 1000 {
        return (false, false);
    }
    journal.mark(2);
    let old = held(0);
    let first = journal.note_fresh(1, Cell::Prop(1), old, 7);
    let second = journal.note_fresh(1, Cell::Prop(2), held(0), 7);
    (first, second)
}

/// A record is added to a savepoint.
fn check_noted(rt: &impl Abort, journal: &mut Journal) {
    assert!(rt; save_and_note(journal, 2, Cell::Prop(1), 0, 7));
    assert_eq!(rt; (journal.held(), journal.records()), (1, 1));
    assert_eq!(rt;
        (journal.newest_serial(), journal.serial_for(1)),
        (Some(1), Some(1))
    );
}

/// Of two records the second isn't added, nor is one of an object that was made since.
fn check_not_noted(rt: &impl Abort, journal: &mut Journal) {
    let added = save_and_note_two(journal);
    assert_eq!(rt; added, (true, false), "the last savepoint went");
    assert_eq!(rt; (journal.held(), journal.records()), (0, 0));
    let added = save_and_note(journal, 1, Cell::Prop(1), 0, 7);
    assert!(rt; !added, "made since");
    assert_eq!(rt; (journal.held(), journal.records()), (1, 0));
}

#[test]
fn note_fresh_tells_whether_it_noted(rt: HostRuntime) -> Result<(), Fail> {
    let mut journal = Journal::start(rt.alloc(), 1, 1)?;
    check_noted(&rt, &mut journal);
    check_not_noted(&rt, &mut journal);
    Ok(())
}

/// The newest record has this number and this stamp.
fn check_stamp(rt: &impl Abort, journal: &mut Journal, old: i32, stamp: u64) -> Result<(), Fail> {
    let kept = journal.take_kept().ok_or("a record")?;
    assert_eq!(rt; (kept.old, kept.stamp), (held(old), stamp));
    Ok(())
}

#[test]
fn records_hand_out_their_stamps(rt: HostRuntime) -> Result<(), Fail> {
    let mut journal = Journal::start(rt.alloc(), 2, 1)?;
    assert!(rt; save_and_note(&mut journal, 2, Cell::Elem(1), 3, 7));
    journal.note(1, Cell::Elem(2), held(4));
    check_stamp(&rt, &mut journal, 4, 0)?;
    check_stamp(&rt, &mut journal, 3, 7)
}

#[test]
fn copies_are_equal(rt: HostRuntime) -> Result<(), Fail> {
    let text = Bytes(Vec::from_slice(rt.alloc(), b"one")?);
    let keys = [
        Key::Nil,
        Key::True,
        Key::Int(-1),
        Key::Enum(1),
        Key::Prop(1),
        Key::Func(1),
        Key::Obj(1),
        Key::Text(text),
    ];
    check_keys(&rt, rt.alloc(), &keys)?;
    check_cells(&rt, rt.alloc())
}

/// A copy of a cell without a key is equal to it.
fn check_cells(rt: &impl Abort, alloc: Global) -> Result<(), Fail> {
    for cell in [Cell::Prop(1), Cell::Elem(1), Cell::Default] {
        check_cell(rt, alloc, &cell)?;
    }
    Ok(())
}

/// A copy of each key is equal to it alone.
fn check_keys(rt: &impl Abort, alloc: Global, keys: &[Key]) -> Result<(), Fail> {
    for (index, key) in keys.iter().enumerate() {
        check_key(rt, alloc, key, keys, index)?;
    }
    Ok(())
}

/// A copy of a cell is equal to it.
fn check_cell(rt: &impl Abort, alloc: Global, cell: &Cell) -> Result<(), Fail> {
    assert!(rt; cell.copy(alloc)? == *cell);
    Ok(())
}

/// A copy of a key is equal to it, and it to the key of this index alone.
fn check_key(
    rt: &impl Abort,
    alloc: Global,
    key: &Key,
    keys: &[Key],
    index: usize,
) -> Result<(), Fail> {
    assert!(rt; key.copy(alloc)? == *key);
    for (place, other) in keys.iter().enumerate() {
        assert_eq!(rt; key == other, place == index);
    }
    let cell = Cell::Key(key.copy(alloc)?);
    check_cell(rt, alloc, &cell)
}
