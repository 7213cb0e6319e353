//! Stores that are begun with the objects of an image.
ghost use Rattle.std.specs.Prelude.{◌≡◌, [], Some};
ghost use Rattle.t3_store.specs.Value.{new_value, supers_of, HasFittingLength};

use crate::images::{GOOD, Parts, started};
use std::alloc::Global;
use std::process::Abort;
use std::test::Fail;
use t3_store::{NewObject, Store, StoreRefusal};
use t3_tadsobj::{Props, Supers};
use t3_undo::Numbers;

/// A tads-object with no superclass and no property.
const PLAIN: &[u8] = &[0, 0, 0, 0, 0, 0];

/// A tads-object below object 1.
const BELOW_1: &[u8] = &[1, 0, 0, 0, 0, 0, 1, 0, 0, 0];

fn no_props(alloc: Global) -> Props {
    Props(Vec::new(alloc))
}

/// What a tads-object without anything is made of.
fn plain(alloc: Global) -> NewObject
    ensures supers { supers_of (new_value result) ≡ Some [] }
    ensures length { HasFittingLength (new_value result) }
{
    NewObject::Tads {
        supers: Numbers(Vec::new(alloc)),
        class: false,
        props: no_props(alloc),
    }
}

/// An image of one object, and a store that has room for no more.
const ONE: Parts<'static> = Parts {
    objects: 1,
    things: &[(0, false, 1, PLAIN)],
    ..GOOD
};

/// No object is made in that store.
fn check_full(rt: &impl Abort, alloc: Global, store: &mut Store) -> Result<(), Fail> {
    assert_eq!(rt; store.create(plain(alloc), false), Err(StoreRefusal::Full));
    assert_eq!(rt; store.create(plain(alloc), true), Err(StoreRefusal::Full));
    assert_eq!(rt; store.objects(), 1);
    assert_eq!(rt; store.next(), 2);
    Ok(())
}

#[test]
fn a_full_store_makes_no_object(rt: HostRuntime) -> Result<(), Fail> {
    let mut store = started(rt.alloc(), &ONE)?;
    check_full(&rt, rt.alloc(), &mut store)
}

/// The last number of a persistent object is taken.
const LAST: Parts<'static> = Parts {
    things: &[(0, false, 0x7FFF_FFFF, PLAIN), (0, false, 1, PLAIN)],
    ..GOOD
};

/// Which numbers that store begins with.
fn check_last(rt: &impl Abort, store: &Store) -> Result<(), Fail> {
    assert_eq!(rt; store.next(), 0x8000_0000);
    assert!(rt; store.live(1));
    assert!(rt; store.live(0x7FFF_FFFF));
    assert!(rt; !store.live(0x7FFF_FFFE));
    assert!(rt; !store.live(0x8000_0000));
    Ok(())
}

/// A transient object alone is made behind them.
fn check_behind_last(rt: &impl Abort, alloc: Global, store: &mut Store) -> Result<(), Fail> {
    assert_eq!(rt; store.create(plain(alloc), false), Err(StoreRefusal::Full));
    assert_eq!(rt; store.create(plain(alloc), true), Ok(0x8000_0000));
    assert!(rt; store.is_transient(0x8000_0000));
    Ok(())
}

/// One number of a persistent object is left.
const BELOW_LAST: Parts<'static> = Parts {
    things: &[(0, false, 0x7FFF_FFFE, PLAIN)],
    ..GOOD
};

/// One persistent object is made in that store.
fn check_below_last(rt: &impl Abort, alloc: Global, store: &mut Store) -> Result<(), Fail> {
    assert_eq!(rt; store.create(plain(alloc), false), Ok(0x7FFF_FFFF));
    assert_eq!(rt; store.create(plain(alloc), false), Err(StoreRefusal::Full));
    assert_eq!(rt; store.next(), 0x8000_0000);
    Ok(())
}

#[test]
fn the_persistent_numbers_end(rt: HostRuntime) -> Result<(), Fail> {
    let mut last = started(rt.alloc(), &LAST)?;
    check_last(&rt, &last)?;
    check_behind_last(&rt, rt.alloc(), &mut last)
}

#[test]
fn the_last_persistent_number_is_given(rt: HostRuntime) -> Result<(), Fail> {
    let mut below = started(rt.alloc(), &BELOW_LAST)?;
    check_below_last(&rt, rt.alloc(), &mut below)
}

/// A transient object between persistent ones.
const BETWEEN: Parts<'static> = Parts {
    things: &[
        (0, true, 3, BELOW_1),
        (0, false, 1, PLAIN),
        (0, false, 9, PLAIN),
    ],
    ..GOOD
};

/// Which objects that store begins with.
fn check_between(rt: &impl Abort, store: &Store) -> Result<(), Fail> {
    assert!(rt; store.is_transient(3));
    assert!(rt; !store.is_transient(1));
    assert!(rt; !store.is_transient(9));
    assert_eq!(rt; store.supers(3), Some([1].as_slice()));
    Ok(())
}

/// Which numbers the next objects get in it.
fn check_behind(rt: &impl Abort, alloc: Global, store: &mut Store) -> Result<(), Fail> {
    assert_eq!(rt; store.create(plain(alloc), false), Ok(10));
    assert_eq!(rt; store.create(plain(alloc), true), Ok(0x8000_0000));
    assert_eq!(rt; store.objects(), 5);
    Ok(())
}

#[test]
fn transient_objects_may_have_low_numbers(rt: HostRuntime) -> Result<(), Fail> {
    let mut store = started(rt.alloc(), &BETWEEN)?;
    check_between(&rt, &store)?;
    check_behind(&rt, rt.alloc(), &mut store)
}

#[test]
fn a_store_may_begin_without_objects(rt: HostRuntime) -> Result<(), Fail> {
    let empty = started(rt.alloc(), &GOOD)?;
    assert_eq!(rt; (empty.next(), empty.objects()), (1, 0));
    Ok(())
}
