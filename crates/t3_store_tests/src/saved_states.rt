//! States of the random runs, taken of both and put back into both.
use crate::random_runs::step;
use crate::restoring::restore;
use crate::whole_copies::{Row, Whole, copy_rows};
use std::alloc::Global;
use std::test::Fail;
use t3_holder::NoMemory;
use t3_store::{Admit, Persistent, Store};

/// A state that was taken of both.
#[derive(Drop)]
pub(crate) struct Saved {
    state: Persistent,
    rows: Vec<Row>,
    next: u32,
}

/// Takes a state of both.
pub(crate) fn save(store: &Store, whole: &Whole, alloc: Global) -> Result<Saved, NoMemory> {
    Ok(Saved {
        state: store.persistent_copy(alloc)?,
        rows: copy_rows(alloc, &whole.persistent)?,
        next: store.next(),
    })
}

/// Puts a state that was taken back into both, where it fits, with a next number that is greater by so many.
/// Whether both gave the same answer.
fn put_back(
    store: &mut Store,
    whole: &mut Whole,
    alloc: Global,
    saved: &Saved,
    further: u32,
) -> Result<bool, Fail> {
    let next = saved.next.saturating_add(further);
    let rows = copy_rows(alloc, &saved.rows)?;
    let admit = restore(store, alloc, saved.state.copy(alloc)?, next)?;
    Ok((admit == Admit::Fits) == whole.replace(rows, next))
}

/// One random step, of both: a state is taken or put back, or a call is made. Whether they gave the same answer.
pub(crate) fn step_or_state(
    store: &mut Store,
    whole: &mut Whole,
    saved: &mut Saved,
    alloc: Global,
    roll: u32,
) -> Result<bool, Fail> {
    match roll % 12 {
        10 => {
            *saved = save(store, whole, alloc)?;
            Ok(true)
        }
        11 => put_back(store, whole, alloc, saved, roll / 12 % 4),
        call => step(store, whole, alloc, call, roll),
    }
}
