//! Elements of vectors that are set, and vectors that grow by it.
use crate::fixture::{VECTOR, add_vector, empty_store, few_writes, store};
use std::alloc::Global;
use std::process::Abort;
use std::test::Fail;
use t3_holder::Holder;
use t3_ops::{set_element, vector_index};
use t3_store::Store;
use t3_undo::Cell;

const ONE: Holder = Holder::Int(1);

/// Sets an element of a vector, and answers whether there was room for all writes.
fn set(store: &mut Store, vector: Holder, at: i32, value: Holder) -> Result<bool, Fail> {
    let Holder::Obj(number) = vector else {
        return Err(Fail::from("an object"));
    };
    let Some(length) = store.length(number) else {
        return Err(Fail::from("a vector"));
    };
    let at = vector_index(Holder::Int(at))?;
    few_writes(store)?;
    Ok(set_element(store, number, length, at, value)?)
}

/// The first elements of a vector, as many as it has up to five.
type Elements = [Option<Holder>; 5];

fn elements(store: &Store, vector: Holder) -> Elements {
    let Holder::Obj(number) = vector else {
        return [None; 5];
    };
    [
        store.get(number, &Cell::Elem(1)),
        store.get(number, &Cell::Elem(2)),
        store.get(number, &Cell::Elem(3)),
        store.get(number, &Cell::Elem(4)),
        store.get(number, &Cell::Elem(5)),
    ]
}

/// An index, whether true can be set there, and the elements then.
type GrowthRow = (i32, bool, Elements);

/// Whether true is set in a vector as a row says.
fn grows(store: &mut Store, vector: Holder, row: GrowthRow) -> Result<bool, Fail> {
    let (at, has_room, want) = row;
    let is_set = set(store, vector, at, Holder::True)?;
    Ok(is_set == has_room && elements(store, vector) == want)
}

const NIL: Option<Holder> = Some(Holder::Nil);

const TRUE: Option<Holder> = Some(Holder::True);

const FOUR: Option<Holder> = Some(Holder::Int(4));

const FIVE: Option<Holder> = Some(Holder::Int(5));

/// Of the fixture's vector.
const VECTOR_ROWS: [GrowthRow; 4] = [
    (1, true, [TRUE, FIVE, None, None, None]),
    (2, true, [FOUR, TRUE, None, None, None]),
    (3, true, [FOUR, FIVE, TRUE, None, None]),
    (5, true, [FOUR, FIVE, NIL, NIL, TRUE]),
];

/// Whether a row is so, in a store of its own.
fn grows_anew(alloc: Global, row: GrowthRow) -> Result<bool, Fail> {
    let mut store = store(alloc)?;
    grows(&mut store, VECTOR, row)
}

/// The first row that isn't so, each of a new vector.
fn first_unlike_vector(alloc: Global, rows: &[GrowthRow]) -> Result<Option<GrowthRow>, Fail> {
    for row in rows {
        if !grows_anew(alloc, *row)? {
            return Ok(Some(*row));
        }
    }
    Ok(None)
}

#[test]
fn an_element_of_a_vector_is_set(rt: HostRuntime) -> Result<(), Fail> {
    assert_eq!(rt; first_unlike_vector(rt.alloc(), &VECTOR_ROWS)?, None);
    Ok(())
}

/// Of a vector of 1 in a store with room for four elements, one after the other.
const ROOM_ROWS: [GrowthRow; 2] = [
    (5, false, [Some(ONE), NIL, NIL, NIL, None]),
    (4, true, [Some(ONE), NIL, NIL, TRUE, None]),
];

/// The first row that isn't so, all of that vector.
fn first_unlike_growth(alloc: Global, rows: &[GrowthRow]) -> Result<Option<GrowthRow>, Fail> {
    let mut store = empty_store(alloc, 1, 4)?;
    let vector = add_vector(alloc, &mut store, &[ONE])?;
    for row in rows {
        if !grows(&mut store, vector, *row)? {
            return Ok(Some(*row));
        }
    }
    Ok(None)
}

#[test]
fn a_vector_grows_as_far_as_there_is_room(rt: HostRuntime) -> Result<(), Fail> {
    assert_eq!(rt; first_unlike_growth(rt.alloc(), &ROOM_ROWS)?, None);
    Ok(())
}

/// An empty vector gets its last element at once.
fn check_longest(rt: &impl Abort, alloc: Global, store: &mut Store) -> Result<(), Fail> {
    let vector = add_vector(alloc, store, &[])?;
    assert!(rt; set(store, vector, 65_535, Holder::True)?);
    assert_eq!(rt; store.length(1), Some(65_535));
    assert_eq!(rt; store.get(1, &Cell::Elem(65_534)), Some(Holder::Nil));
    assert_eq!(rt; store.get(1, &Cell::Elem(65_535)), Some(Holder::True));
    Ok(())
}

#[test]
fn a_vector_grows_to_65535_elements(rt: HostRuntime) -> Result<(), Fail> {
    let mut store = empty_store(rt.alloc(), 1, 65_535)?;
    check_longest(&rt, rt.alloc(), &mut store)
}
