//! Which methods there are, and each with every count of arguments.
use crate::fixture::{CLASS, LIST, TABLE, TEXT, VECTOR, call, pools, store};
use std::alloc::Global;
use std::test::Fail;
use t3_holder::Holder;
use t3_kinds::{Methods, is_listed};
use t3_ops::{Fault, OpRefusal};
use t3_pools::Pools;

/// A method by its metaclass and index, and the least and the greatest count of its arguments.
type Row = (Methods, u16, usize, usize);

const ROWS: [Row; 27] = [
    (Methods::Root, 0, 1, 1),
    (Methods::Root, 1, 0, 0),
    (Methods::Root, 2, 1, 1),
    (Methods::Root, 6, 0, 0),
    (Methods::Root, 8, 0, 0),
    (Methods::Tads, 1, 0, 0),
    (Methods::Text, 0, 0, 0),
    (Methods::Text, 1, 1, 2),
    (Methods::Text, 7, 1, 1),
    (Methods::Text, 8, 1, 1),
    (Methods::List, 2, 0, 0),
    (Methods::List, 3, 1, 2),
    (Methods::List, 5, 1, 1),
    (Methods::List, 18, 1, 1),
    (Methods::Vector, 0, 0, 0),
    (Methods::Vector, 1, 0, 0),
    (Methods::Vector, 10, 1, 1),
    (Methods::Vector, 20, 1, 1),
    (Methods::Vector, 22, 1, 1),
    (Methods::Vector, 24, 1, 1),
    (Methods::Table, 0, 1, 1),
    (Methods::Table, 1, 1, 1),
    (Methods::Table, 5, 0, 0),
    (Methods::Table, 7, 0, 0),
    (Methods::Table, 8, 0, 0),
    (Methods::Table, 9, 0, 0),
    (Methods::Table, 10, 1, 1),
];

/// A value of a metaclass.
fn value_of(kind: Methods) -> Holder {
    match kind {
        Methods::Root | Methods::Tads => CLASS,
        Methods::Text => TEXT,
        Methods::List => LIST,
        Methods::Vector => VECTOR,
        Methods::Table => TABLE,
    }
}

const ARGS: [Holder; 4] = [
    Holder::Int(1),
    Holder::Int(1),
    Holder::Int(1),
    Holder::Int(1),
];

/// Whether the count of arguments is refused exactly where the row says so.
fn is_counted(alloc: Global, row: &Row, count: usize, pools: &Pools) -> Result<bool, Fail> {
    let mut store = store(alloc)?;
    let args = &ARGS[..count.min(4)];
    let answer = call(
        alloc,
        (row.0, row.1),
        value_of(row.0),
        args,
        &mut store,
        pools,
    )?;
    let is_refused = answer == Err(OpRefusal::Fault(Fault::ArgCount));
    Ok(is_refused == (count < row.2 || count > row.3))
}

/// Whether each count is.
fn are_counted(alloc: Global, row: &Row, pools: &Pools) -> Result<bool, Fail> {
    for count in 0..5 {
        if !is_counted(alloc, row, count, pools)? {
            return Ok(false);
        }
    }
    Ok(true)
}

/// The index of the first row that isn't so.
fn first_unlike(alloc: Global, rows: &[Row], pools: &Pools) -> Result<Option<usize>, Fail> {
    for index in 0..rows.len() {
        if !are_counted(alloc, &rows[index], pools)? {
            return Ok(Some(index));
        }
    }
    Ok(None)
}

#[test]
fn counts(rt: HostRuntime) -> Result<(), Fail> {
    let alloc = rt.alloc();
    let pools = pools(alloc)?;
    assert_eq!(rt; first_unlike(alloc, &ROWS, &pools)?, None);
    Ok(())
}

/// How many indices of a metaclass name a method.
fn listed(kind: Methods) -> u32 {
    let mut count = 0u32;
    for index in 0..1_000 {
        if is_listed(kind, index) {
            count = count.wrapping_add(1);
        }
    }
    count
}

#[test]
fn no_other_methods(rt: HostRuntime) -> Result<(), Fail> {
    let root = (
        listed(Methods::Root),
        listed(Methods::Tads),
        listed(Methods::Text),
    );
    assert_eq!(rt; root, (5, 1, 4));
    let others = (
        listed(Methods::List),
        listed(Methods::Vector),
        listed(Methods::Table),
    );
    assert_eq!(rt; others, (4, 6, 7));
    Ok(())
}
