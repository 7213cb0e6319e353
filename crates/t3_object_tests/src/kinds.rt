//! What holds of every kind of object, through the trait's bound, and slots by themselves.
ghost use Rattle.std.specs.Prelude.{◌≡◌, IsTrue, IfOk, OnOk};
ghost use Rattle.t3_undo.specs.Content.{shown, is_form};

use std::alloc::Global;
use std::process::Abort;
use std::test::Fail;
use t3_holder::{Bytes, Holder, NoMemory};
use t3_lists::Vector;
use t3_tables::Table;
use t3_tadsobj::TadsObject;
use t3_undo::{Cell, Content, Key, Metaclass, Slots};

/// Makes a place for a cell, sets the cell, looks, and puts back what stood there.
fn set_and_put_back<M: Metaclass>(
    object: &mut M,
    alloc: Global,
    cell: &Cell,
    content: Content,
) -> Result<Content, NoMemory>
    requires can_have { M.can_have object.old cell.now }
    requires form { IsTrue (is_form cell.now (shown content)) }
    ensures seen { IfOk result (λ seen. shown seen ≡ shown content) }
    ensures parts { OnOk result (M.parts object.new ≡ M.parts object.old) }
{
    object.make_place(cell.copy(alloc)?)?;
    let old = object.put(cell, content);
    let seen = object.get(cell);
    let _content = object.put(cell, old);
    Ok(seen)
}

/// An entry under a text is set, and is absent once it is put back.
fn check_put_back(rt: &impl Abort, alloc: Global, table: &mut Table) -> Result<(), Fail> {
    let cell = Cell::Key(Key::Text(Bytes(Vec::from_slice(alloc, b"one")?)));
    let seen = set_and_put_back(table, alloc, &cell, Content::Slot(1, Holder::True))?;
    assert_eq!(rt; seen.value(), Some(Holder::True));
    assert_eq!(rt; table.get(&cell), Content::Absent);
    Ok(())
}

#[test]
fn what_stood_there_can_be_put_back(rt: HostRuntime) -> Result<(), Fail> {
    let mut table = Table::new(rt.alloc());
    check_put_back(&rt, rt.alloc(), &mut table)
}

/// The stamp of a cell's place, which is made where there is none.
fn stamp_of<M: Metaclass>(object: &mut M, alloc: Global, cell: &Cell) -> Result<u64, NoMemory>
    requires { M.can_have object.old cell.now }
{
    object.make_place(cell.copy(alloc)?)?;
    Ok(object.stamp(cell))
}

/// Makes a place for a cell, gives it a stamp and sets the cell. The stamp that the place has then.
fn stamp_and_set<M: Metaclass>(
    object: &mut M,
    alloc: Global,
    cell: &Cell,
    content: Content,
    stamp: u64,
) -> Result<u64, NoMemory>
    requires can_have { M.can_have object.old cell.now }
    requires form { IsTrue (is_form cell.now (shown content)) }
    ensures { IfOk result (λ kept. kept ≡ stamp) }
{
    object.make_place(cell.copy(alloc)?)?;
    object.set_stamp(cell, stamp);
    let _old = object.put(cell, content);
    Ok(object.stamp(cell))
}

/// The place of a property of a new object has no stamp, and keeps the one that it is given.
fn check_property(rt: &impl Abort, alloc: Global, object: &mut TadsObject) -> Result<(), Fail> {
    let cell = Cell::Prop(3);
    assert_eq!(rt; stamp_of(object, alloc, &cell)?, 0, "a new place");
    let stamp = stamp_and_set(object, alloc, &cell, Content::Held(Holder::True), 7)?;
    assert_eq!(rt; stamp, 7);
    assert_eq!(rt; stamp_of(object, alloc, &cell)?, 7, "it has a place");
    Ok(())
}

/// A copy of that object has the property, without the stamp.
fn check_copied(rt: &impl Abort, alloc: Global, copy: &mut TadsObject) -> Result<(), Fail> {
    assert_eq!(rt; (copy.places(), copy.present()), (1, 1));
    assert_eq!(rt; stamp_of(copy, alloc, &Cell::Prop(3))?, 0);
    Ok(())
}

#[test]
fn a_property_keeps_its_stamp_and_a_copy_has_none(rt: HostRuntime) -> Result<(), Fail> {
    let mut object = TadsObject::new(rt.alloc());
    check_property(&rt, rt.alloc(), &mut object)?;
    let mut copy = object.copy(rt.alloc())?;
    check_copied(&rt, rt.alloc(), &mut copy)
}

/// An entry keeps the stamp 7.
fn check_entry(rt: &impl Abort, alloc: Global, table: &mut Table) -> Result<(), Fail> {
    let entry = Cell::Key(Key::Int(1));
    let stamp = stamp_and_set(table, alloc, &entry, Content::Slot(1, Holder::True), 7)?;
    assert_eq!(rt; stamp, 7);
    Ok(())
}

/// A default keeps the stamp 8.
fn check_default(rt: &impl Abort, alloc: Global, table: &mut Table) -> Result<(), Fail> {
    let default = Content::Held(Holder::True);
    let stamp = stamp_and_set(table, alloc, &Cell::Default, default, 8)?;
    assert_eq!(rt; stamp, 8);
    Ok(())
}

/// A copy of that table has both, without the stamps.
fn check_both_copied(rt: &impl Abort, alloc: Global, copy: &mut Table) -> Result<(), Fail> {
    assert_eq!(rt; (copy.places(), copy.present()), (2, 2));
    assert_eq!(rt; stamp_of(copy, alloc, &Cell::Key(Key::Int(1)))?, 0);
    assert_eq!(rt; stamp_of(copy, alloc, &Cell::Default)?, 0);
    Ok(())
}

#[test]
fn an_entry_and_a_default_keep_their_stamps(rt: HostRuntime) -> Result<(), Fail> {
    let mut table = Table::new(rt.alloc());
    check_entry(&rt, rt.alloc(), &mut table)?;
    check_default(&rt, rt.alloc(), &mut table)?;
    let mut copy = table.copy(rt.alloc())?;
    check_both_copied(&rt, rt.alloc(), &mut copy)
}

#[test]
fn an_element_keeps_its_stamp(rt: HostRuntime) -> Result<(), Fail> {
    let alloc = rt.alloc();
    let mut vector = Vector::new(alloc);
    let first = Cell::Elem(1);
    let stamp = stamp_and_set(&mut vector, alloc, &first, Content::Held(Holder::True), 7)?;
    assert_eq!(rt; stamp, 7);
    assert_eq!(rt; (vector.places(), vector.present()), (1, 1));
    Ok(())
}

/// Replaces property 1, which has the stamp 7, and gives it the stamp 9 and then none.
fn check_replaced(rt: &impl Abort, object: &mut TadsObject) -> Result<(), Fail> {
    let old = object.replace(1, Holder::True, Some(9));
    assert_eq!(rt; (old.stamp, old.content), (7, Content::Held(Holder::Nil)));
    let old = object.replace(1, Holder::Int(1), None);
    assert_eq!(rt; (old.stamp, old.content), (9, Content::Held(Holder::True)));
    let old = object.replace(1, Holder::Nil, None);
    assert_eq!(rt;
        (old.stamp, old.content),
        (9, Content::Held(Holder::Int(1)))
    );
    assert_eq!(rt;
        object.replace(2, Holder::Nil, Some(9)).content,
        Content::Absent
    );
    Ok(())
}

/// Property 1 is nil and has the stamp 7; 2 is absent, and has a place.
fn with_two_places(alloc: Global) -> Result<TadsObject, NoMemory> {
    let mut object = TadsObject::new(alloc);
    object.make_place(Cell::Prop(2))?;
    let nil = Content::Held(Holder::Nil);
    let _seven = stamp_and_set(&mut object, alloc, &Cell::Prop(1), nil, 7)?;
    Ok(object)
}

/// Property 2 is absent as before, without a stamp.
fn check_not_replaced(rt: &impl Abort, alloc: Global, object: &mut TadsObject) -> Result<(), Fail> {
    assert_eq!(rt; stamp_of(object, alloc, &Cell::Prop(2))?, 0);
    assert_eq!(rt; (object.places(), object.present()), (2, 1));
    Ok(())
}

#[test]
fn a_property_is_replaced_with_its_stamp(rt: HostRuntime) -> Result<(), Fail> {
    let mut object = with_two_places(rt.alloc())?;
    check_replaced(&rt, &mut object)?;
    check_not_replaced(&rt, rt.alloc(), &mut object)
}

/// Property 1 is true and has the stamp 0; 2, 3 and 4 are absent, with the stamps 5, 4 and 0.
fn with_absent(alloc: Global) -> Result<TadsObject, NoMemory> {
    let mut object = TadsObject::new(alloc);
    object.set(1, Holder::True)?;
    let _five = stamp_and_set(&mut object, alloc, &Cell::Prop(2), Content::Absent, 5)?;
    let _four = stamp_and_set(&mut object, alloc, &Cell::Prop(3), Content::Absent, 4)?;
    object.make_place(Cell::Prop(4))?;
    Ok(object)
}

/// The third and the fourth, whose stamps are below 5, lose their places.
fn check_purged_at_5(rt: &impl Abort, alloc: Global, object: &mut TadsObject) -> Result<(), Fail> {
    assert_eq!(rt; (object.places(), object.present()), (4, 1));
    object.purge(5);
    assert_eq!(rt; (object.places(), object.present()), (2, 1));
    assert_eq!(rt; stamp_of(object, alloc, &Cell::Prop(2))?, 5);
    Ok(())
}

/// Then the second does, and the first stays since it is present.
fn check_purged_at_6(rt: &impl Abort, object: &mut TadsObject) -> Result<(), Fail> {
    assert_eq!(rt; object.get(&Cell::Prop(1)), Content::Held(Holder::True));
    object.purge(6);
    assert_eq!(rt; (object.places(), object.present()), (1, 1));
    Ok(())
}

#[test]
fn absent_properties_with_older_stamps_lose_their_places(rt: HostRuntime) -> Result<(), Fail> {
    let mut object = with_absent(rt.alloc())?;
    check_purged_at_5(&rt, rt.alloc(), &mut object)?;
    check_purged_at_6(&rt, &mut object)
}

/// Makes a place for a cell, gives it a stamp and sets the cell, and hands out what stood there.
fn put_stamped(
    slots: &mut Slots,
    number: u16,
    content: Content,
    stamp: u64,
) -> Result<(u64, Content), NoMemory>
    requires { IsTrue (is_form (Cell.Prop number) (shown content)) }
{
    slots.make_place(Cell::Prop(number))?;
    slots.set_stamp(&Cell::Prop(number), stamp);
    let old = slots.put(&Cell::Prop(number), content);
    Ok((slots.stamp(&Cell::Prop(number)), old))
}

/// One cell is set.
fn check_slot_set(rt: &impl Abort, slots: &mut Slots) -> Result<(), Fail> {
    let stood = put_stamped(slots, 1, Content::Held(Holder::True), 7)?;
    assert_eq!(rt; stood, (7, Content::Absent));
    assert_eq!(rt; (slots.places(), slots.present()), (1, 1));
    Ok(())
}

/// It is taken away, and keeps its place with the stamp 3, which a copy hasn't.
fn check_slot_taken(rt: &impl Abort, alloc: Global, slots: &mut Slots) -> Result<(), Fail> {
    let stood = put_stamped(slots, 1, Content::Absent, 3)?;
    assert_eq!(rt; stood, (3, Content::Held(Holder::True)));
    assert_eq!(rt; (slots.places(), slots.present()), (1, 0));
    assert_eq!(rt; slots.copy(alloc)?.places(), 0, "none is present");
    Ok(())
}

/// The place stays at its stamp, and goes at the next.
fn check_slot_purged(rt: &impl Abort, slots: &mut Slots) -> Result<(), Fail> {
    slots.purge(3);
    assert_eq!(rt; slots.places(), 1);
    slots.purge(4);
    assert_eq!(rt; slots.places(), 0);
    Ok(())
}

#[test]
fn slots_count_what_is_present(rt: HostRuntime) -> Result<(), Fail> {
    let mut slots = Slots::new(rt.alloc());
    check_slot_set(&rt, &mut slots)?;
    check_slot_taken(&rt, rt.alloc(), &mut slots)?;
    check_slot_purged(&rt, &mut slots)
}
