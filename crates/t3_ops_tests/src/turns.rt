//! The turns that comparisons take: what one leaves for the next, and the last one.
use crate::equality::{LONG, PAIR, PAIR_AGAIN, Row, THREE, is_told, laid_out};
use crate::fixture::{add_list, empty_store};
use std::alloc::Global;
use std::test::Fail;
use t3_holder::Holder;
use t3_ops::{EqualRefusal, Fault, equal};
use t3_store::Store;

/// Two values, what is told of them, and the turns that are left for the next row.
type RowInTurn = (Holder, Holder, Result<bool, EqualRefusal>, u32);

const REFUSED: Result<bool, EqualRefusal> = Err(EqualRefusal::Fault(Fault::CompareLong));

/// With seven turns.
const ROWS_IN_TURN: [RowInTurn; 4] = [
    (PAIR, PAIR_AGAIN, Ok(true), 4),
    (PAIR, THREE, Ok(false), 3),
    (PAIR, PAIR_AGAIN, Ok(true), 0),
    // Not even two integers are looked at without a turn.
    (Holder::Int(1), Holder::Int(1), REFUSED, 0),
];

/// The first row of whose values something else is told with the turns that the rows before it left.
fn first_unlike_in_turn(
    alloc: Global,
    turns: u32,
    rows: &[RowInTurn],
) -> Result<Option<RowInTurn>, Fail> {
    let pools = laid_out(alloc, 64)?;
    let store = empty_store(alloc, 1, 1)?;
    let mut turns = turns;
    for row in rows {
        let (left, right, want, rest) = *row;
        if equal(alloc, left, right, &store, &pools, &mut turns) != want || turns != rest {
            return Ok(Some(*row));
        }
    }
    Ok(None)
}

/// What is told of two equal pairs with so many turns.
fn told_of_pairs(alloc: Global, turns: u32) -> Result<Result<bool, EqualRefusal>, Fail> {
    let pools = laid_out(alloc, 64)?;
    let store = empty_store(alloc, 1, 1)?;
    let mut turns = turns;
    Ok(equal(alloc, PAIR, PAIR_AGAIN, &store, &pools, &mut turns))
}

#[test]
fn turns_go_on_from_one_comparison_to_the_next(rt: HostRuntime) -> Result<(), Fail> {
    let alloc = rt.alloc();
    assert_eq!(rt; first_unlike_in_turn(alloc, 7, &ROWS_IN_TURN)?, None);
    assert_eq!(rt; told_of_pairs(alloc, 2)?, REFUSED);
    Ok(())
}

/// The lists of [`store_of_long_lists`]: two of 65,534 nils and true.
const LEFT: Holder = Holder::Obj(2);

const RIGHT: Holder = Holder::Obj(3);

/// The same with a list of nil in the place of true.
const LONGER: Holder = Holder::Obj(4);

/// A store with a list of nil and the long ones.
fn store_of_long_lists(alloc: Global) -> Result<Store, Fail> {
    let mut store = empty_store(alloc, 8, 300_000)?;
    add_long_lists(alloc, &mut store)?;
    Ok(store)
}

/// Adds the list of nil and the long ones.
fn add_long_lists(alloc: Global, store: &mut Store) -> Result<(), Fail> {
    let one = add_list(alloc, store, &[Holder::Nil])?;
    add_long_list(alloc, store, Holder::True)?;
    add_long_list(alloc, store, Holder::True)?;
    add_long_list(alloc, store, one)
}

/// Adds a list of 65,534 nils and this element.
fn add_long_list(alloc: Global, store: &mut Store, last: Holder) -> Result<(), Fail> {
    let mut items = [Holder::Nil].repeat(alloc, 65_534)?;
    items.push(last)?;
    let _list = add_list(alloc, store, &items)?;
    Ok(())
}

/// Turns, and two values with what is told of them then.
type TurnsRow = (u32, Row);

const LAST_TURN_ROWS: [TurnsRow; 5] = [
    // The lists, and 65,535 pairs.
    (65_536, (LEFT, RIGHT, Ok(true), 65_536)),
    // And one pair more in a list in them, so that the last pair isn't looked at.
    (65_536, (LONGER, LONGER, LONG, 0)),
    (65_536, (LEFT, LONGER, Ok(false), 65_536)),
    // With one turn less.
    (65_535, (LEFT, RIGHT, LONG, 0)),
    // With one turn more.
    (65_537, (LONGER, LONGER, Ok(true), 65_537)),
];

/// The first row that isn't so of the long lists.
fn first_unlike_long(alloc: Global, rows: &[TurnsRow]) -> Result<Option<TurnsRow>, Fail> {
    let pools = laid_out(alloc, 64)?;
    let store = store_of_long_lists(alloc)?;
    for row in rows {
        if !is_told(alloc, row.0, row.1, &store, &pools)? {
            return Ok(Some(*row));
        }
    }
    Ok(None)
}

#[test]
fn the_last_turn_and_one_more(rt: HostRuntime) -> Result<(), Fail> {
    assert_eq!(rt; first_unlike_long(rt.alloc(), &LAST_TURN_ROWS)?, None);
    Ok(())
}
