//! Clones of tads-objects.
use crate::fixture::{
    At, CLASS, GONE, GONE_CLASS, KIND, NEXT, ORPHAN, PASSING, PASSING_CHILD, Row, TADS, TEXT,
    VECTOR, Want, call, first_unlike, pools, store,
};
use std::alloc::Global;
use std::test::Fail;
use t3_holder::Holder;
use t3_kinds::Methods;
use t3_ops::Fault;
use t3_pools::Pools;
use t3_store::Store;
use t3_undo::Cell;

const CLONE: At = (Methods::Tads, 1);

const ROWS: [Row; 5] = [
    (CLONE, ORPHAN, &[], GONE),
    (
        CLONE,
        PASSING_CHILD,
        &[],
        Want::Fault(Fault::TransientSuper),
    ),
    (CLONE, VECTOR, &[], KIND),
    (CLONE, TEXT, &[], KIND),
    (CLONE, GONE_CLASS, &[], GONE),
];

#[test]
fn no_clones(rt: HostRuntime) -> Result<(), Fail> {
    assert_eq!(rt; first_unlike(rt.alloc(), &ROWS)?, None);
    Ok(())
}

/// Whether the next object is a persistent one with these superclasses, class flag and property 5.
fn is_made(store: &Store, supers: &[u32], class: bool, five: Option<Holder>) -> bool {
    store.at(NEXT).supers() == Some(supers)
        && store.is_class(NEXT) == class
        && store.get(NEXT, &Cell::Prop(5)) == five
        && !store.is_transient(NEXT)
}

/// Whether an object is cloned so.
fn is_cloned(
    alloc: Global,
    of: Holder,
    supers: &[u32],
    class: bool,
    five: Option<Holder>,
    pools: &Pools,
) -> Result<bool, Fail> {
    let mut store = store(alloc)?;
    let answer = call(alloc, CLONE, of, &[], &mut store, pools)?;
    Ok(answer == Ok(Holder::Obj(NEXT)) && is_made(&store, supers, class, five))
}

#[test]
fn clones(rt: HostRuntime) -> Result<(), Fail> {
    let alloc = rt.alloc();
    let pools = pools(alloc)?;
    assert!(rt; is_cloned(alloc, CLASS, &[], true, Some(Holder::Int(9)), &pools)?);
    assert!(rt; is_cloned(alloc, TADS, &[1], false, None, &pools)?);
    assert!(rt; is_cloned(alloc, PASSING, &[2], false, None, &pools)?);
    Ok(())
}
