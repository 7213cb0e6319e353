//! Strings, lists and vectors, each call once, and vectors with holes.
ghost use Rattle.std.specs.Prelude.{◌≡◌, ℕ, ◌<◌, ◌≤◌, [], ◌∷◌, ◌++◌, IsTrue, IfOk, OnOk, length};
ghost use Rattle.t3_undo.specs.Content.{shown, is_form};
ghost use Rattle.t3_undo.specs.declared.cell.Cell.TheVariants.{Elem};
ghost use Rattle.t3_lists.specs.Vector.{parts_of, places_of, items_of, filled, IsWhole};
ghost use Rattle.t3_object_tests.specs.Places.{HasPlacesTo};

use std::alloc::Global;
use std::process::Abort;
use std::test::Fail;
use t3_holder::{Bytes, Holder, NoMemory};
use t3_lists::{Holders, List, Text, Vector};
use t3_undo::{Cell, Content, Metaclass};

/// A vector that has places for so many elements.
#[derive(Drop)]
struct Row {
    vector: Vector,
    count: u32,
    ghost placed: { HasPlacesTo (places_of vector) count },
}

impl Row {
    /// All elements are missing.
    fn with_places(alloc: Global, count: u32) -> Result<Row, NoMemory> {
        let mut vector = Vector::new(alloc);
        make_places(&mut vector, count)?;
        Ok(Row { vector, count })
    }

    /// Sets an element, or takes it away, and gives the number that stood there.
    fn set(&mut self, number: u32, value: Option<i32>) -> Option<Holder> {
        if number == 0 || number > self.count {
            return None;
        }
        self.vector.put(&Cell::Elem(number), content(value)).value()
    }

    /// Gives an element's place a stamp.
    fn set_stamp(&mut self, number: u32, stamp: u64) {
        if number > 0 && number <= self.count {
            self.vector.set_stamp(&Cell::Elem(number), stamp);
        }
    }

    /// The stamp of an element's place.
    fn stamp(&self, number: u32) -> u64 {
        if number == 0 || number > self.count {
            return u64::MAX;
        }
        self.vector.stamp(&Cell::Elem(number))
    }

    /// The vector without the places that aren't needed.
    fn purged(self, oldest: u64) -> Vector {
        let mut vector = self.vector;
        vector.purge(oldest);
        vector
    }
}

/// Makes a place for each of the first elements that has none.
pub(crate) fn make_places(vector: &mut Vector, count: u32) -> Result<(), NoMemory>
    ensures { OnOk result (HasPlacesTo (places_of vector.new) count) }
{
    for index in 0..count {
        vector.make_place(Cell::Elem(index + 1))?;
    }
    Ok(())
}

fn content(value: Option<i32>) -> Content
    ensures { (number : ℕ) → IsTrue (is_form (Elem number) (shown result)) }
{
    match value {
        Some(number) => Content::Held(Holder::Int(number)),
        None => Content::Absent,
    }
}

/// Sets the element behind the last one.
fn push(vector: &mut Vector, item: Holder) -> Result<(), NoMemory>
    requires whole { IsWhole (parts_of vector.old) }
    requires few { length (items_of (parts_of vector.old)) < 65535 }
    ensures { OnOk result (parts_of vector.new ≡ filled (items_of (parts_of vector.old) ++ item ∷ [])) }
{
    let number = vector.length() + 1;
    vector.make_place(Cell::Elem(number))?;
    let _absent = vector.put(&Cell::Elem(number), Content::Held(item));
    Ok(())
}

/// A vector of these items.
fn vector_of(alloc: Global, items: &[Holder]) -> Result<Vector, NoMemory>
    requires { length items.now ≤ 65535 }
    ensures { IfOk result (λ vector. parts_of vector ≡ filled items.now) }
{
    let mut vector = Vector::new(alloc);
    for item in items {
        push(&mut vector, *item)?;
    }
    Ok(vector)
}

/// The four elements are set from above and from below, with holes in between.
fn check_filled(rt: &impl Abort, row: &mut Row) -> Result<(), Fail> {
    for number in [4, 3, 1, 2] {
        assert_eq!(rt; row.set(number, Some(number as i32)), None);
    }
    assert_eq!(rt; row.vector.length(), 4);
    Ok(())
}

/// The lower two are taken away, and set again.
fn check_set_again(rt: &impl Abort, row: &mut Row) -> Result<(), Fail> {
    for number in [2, 1] {
        let stood = row.set(number, None);
        assert_eq!(rt; stood, Some(Holder::Int(number as i32)));
    }
    assert_eq!(rt;
        (row.vector.places(), row.vector.length()),
        (4, 2),
        "two are missing below"
    );
    assert_eq!(rt; row.vector.get(&Cell::Elem(2)), Content::Absent);
    for number in [1, 2] {
        assert_eq!(rt; row.set(number, Some(0)), None);
    }
    assert_eq!(rt; row.vector.length(), 4);
    Ok(())
}

/// All are taken away from above, and their places stay.
fn check_emptied(rt: &impl Abort, row: &mut Row) -> Result<(), Fail> {
    for number in [4, 3, 2, 1] {
        let _stood = row.set(number, None);
        assert_eq!(rt; row.vector.length(), number - 1);
    }
    assert_eq!(rt; row.vector.places(), 4);
    Ok(())
}

#[test]
fn holes_are_filled_from_above_and_from_below(rt: HostRuntime) -> Result<(), Fail> {
    let mut row = Row::with_places(rt.alloc(), 4)?;
    assert_eq!(rt; (row.vector.places(), row.vector.length()), (4, 0));
    check_filled(&rt, &mut row)?;
    check_set_again(&rt, &mut row)?;
    check_emptied(&rt, &mut row)
}

/// The first element is 1, and the others are missing, with the stamps 2, 5, 4 and 0.
fn with_holes(alloc: Global) -> Result<Row, NoMemory> {
    let mut row = Row::with_places(alloc, 5)?;
    let _missing = row.set(1, Some(1));
    row.set_stamp(2, 2);
    row.set_stamp(3, 5);
    row.set_stamp(4, 4);
    Ok(row)
}

/// Of places that were purged at 5 the third stays by its stamp, and at 6 it goes.
fn check_purged(rt: &impl Abort, vector: &mut Vector) -> Result<(), Fail> {
    assert_eq!(rt;
        (vector.places(), vector.present()),
        (3, 1),
        "the second is below one that stays"
    );
    vector.purge(6);
    assert_eq!(rt; (vector.places(), vector.present()), (1, 1));
    assert_eq!(rt; vector.get(&Cell::Elem(1)), Content::Held(Holder::Int(1)));
    Ok(())
}

#[test]
fn missing_elements_lose_their_places_from_the_end(rt: HostRuntime) -> Result<(), Fail> {
    let row = with_holes(rt.alloc())?;
    assert_eq!(rt; (row.stamp(1), row.stamp(2), row.stamp(3)), (0, 2, 5));
    let mut vector = row.purged(5);
    check_purged(&rt, &mut vector)
}

/// How many places and elements are left at a serial where the third of four elements was set, or set
/// and taken away.
fn left_of_third(alloc: Global, goes: bool, oldest: u64) -> Result<(u64, u64), NoMemory> {
    let mut row = Row::with_places(alloc, 4)?;
    let _missing = row.set(3, Some(3));
    if goes {
        let _three = row.set(3, None);
    }
    let vector = row.purged(oldest);
    Ok((vector.places(), vector.present()))
}

#[test]
fn a_hole_stays_only_below_an_element(rt: HostRuntime) -> Result<(), Fail> {
    assert_eq!(rt;
        left_of_third(rt.alloc(), false, u64::MAX)?,
        (3, 1),
        "below the third"
    );
    assert_eq!(rt; left_of_third(rt.alloc(), true, 1)?, (0, 0));
    Ok(())
}

/// A copy of a vector of 65,535 sevens.
fn copy_of_sevens(rt: &impl Abort, alloc: Global) -> Result<Vector, Fail> {
    let items = vec![in alloc; Holder::Int(7); 65535]?;
    let vector = vector_of(alloc, &items)?;
    assert_eq!(rt; (vector.length(), vector.places()), (65535, 65535));
    Ok(vector.copy(alloc)?)
}

/// It has 65,535 sevens, and nothing in other cells.
fn check_sevens(rt: &impl Abort, copy: &Vector) -> Result<(), Fail> {
    assert_eq!(rt; (copy.length(), copy.places()), (65535, 65535));
    let last = copy.get(&Cell::Elem(65535));
    assert_eq!(rt; last, Content::Held(Holder::Int(7)));
    for outside in [
        Cell::Elem(0),
        Cell::Elem(65536),
        Cell::Prop(1),
        Cell::Default,
    ] {
        assert_eq!(rt; copy.get(&outside), Content::Absent);
    }
    Ok(())
}

#[test]
fn the_greatest_element_of_a_vector(rt: HostRuntime) -> Result<(), Fail> {
    let copy = copy_of_sevens(&rt, rt.alloc())?;
    check_sevens(&rt, &copy)
}

/// A string is given no place, and what is put into one of its cells comes back.
fn check_no_cell_of_text(rt: &impl Abort, text: &mut Text) -> Result<(), Fail> {
    text.make_place(Cell::Elem(1))?;
    let back = text.put(&Cell::Elem(1), Content::Held(Holder::Nil));
    assert_eq!(rt; back, Content::Held(Holder::Nil));
    assert_eq!(rt; text.places(), 0);
    text.purge(u64::MAX);
    assert_eq!(rt; text.present(), 0);
    assert_eq!(rt; text.get(&Cell::Elem(1)), Content::Absent);
    Ok(())
}

/// And so with a list.
fn check_no_cell_of_list(rt: &impl Abort, list: &mut List) -> Result<(), Fail> {
    list.make_place(Cell::Elem(1))?;
    let back = list.put(&Cell::Elem(1), Content::Held(Holder::Nil));
    assert_eq!(rt; back, Content::Held(Holder::Nil));
    assert_eq!(rt; list.places(), 0);
    list.purge(u64::MAX);
    assert_eq!(rt; list.present(), 0);
    assert_eq!(rt; list.get(&Cell::Elem(1)), Content::Absent);
    Ok(())
}

/// A copy of a string keeps its bytes.
fn check_text(rt: &impl Abort, alloc: Global) -> Result<(), Fail> {
    let mut text = Text::of(Bytes(Vec::from_slice(alloc, "hé".as_bytes())?)).copy(alloc)?;
    check_no_cell_of_text(rt, &mut text)?;
    assert_eq!(rt; text.bytes(), [b'h', 0xC3, 0xA9].as_slice());
    Ok(())
}

/// A copy of a list keeps its items.
fn check_list(rt: &impl Abort, alloc: Global) -> Result<(), Fail> {
    let mut list = List::of(Holders(Vec::from_slice(alloc, &[Holder::True])?)).copy(alloc)?;
    check_no_cell_of_list(rt, &mut list)?;
    assert_eq!(rt; list.items(), [Holder::True].as_slice());
    Ok(())
}

#[test]
fn strings_and_lists_have_no_cells(rt: HostRuntime) -> Result<(), Fail> {
    assert_eq!(rt;
        (
            Text::new(rt.alloc()).bytes().len(),
            List::new(rt.alloc()).items().len()
        ),
        (0, 0)
    );
    check_text(&rt, rt.alloc())?;
    check_list(&rt, rt.alloc())
}
