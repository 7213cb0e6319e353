//! What the tests stand on: constants in a page, and a store with objects of each kind.
ghost use Rattle.std.specs.Prelude.{◌<◌, ◌≤◌, OnOk, IsTrue, IsSome};
ghost use Rattle.t3_store.specs.Whole.{supers_for};

use std::alloc::Global;
use std::test::Fail;
use t3_holder::{Bytes, Holder};
use t3_kinds::{Methods, is_listed, listed_method};
use t3_lists::Holders;
use t3_ops::{Fault, OpRefusal};
use t3_pools::Pools;
use t3_store::{Kind, NewObject, Store, StoreLimits};
use t3_tadsobj::Supers;
use t3_test_images::{image, page, pool_definition};
use t3_test_stores::tads;
use t3_undo::{Cell, Key};

/// The constants of [`pools`]. The values below say what stands where.
const CONSTANTS: [u8; 64] = [
    // At 0 a text of characters of 1, 2, 3 and 4 bytes; at 12 one without a byte; at 14 one whose byte is no UTF-8.
    10, 0, b'a', 0xC3, 0xA9, 0xE6, 0x97, 0xA5, 0xF0, 0x9D, 0x84, 0x9E, 0, 0, 1, 0, 0xFF,
    // At 17 the list of 1, the text at 0, and 1.
    3, 0, 7, 1, 0, 0, 0, 8, 0, 0, 0, 0, 7, 1, 0, 0, 0,
    // At 34 a list whose element has the type 0.
    1, 0, 0, 0, 0, 0, 0,
    // At 41 the list of the list at 12 and of that at 17.
    2, 0, 10, 12, 0, 0, 0, 10, 17, 0, 0, 0,
    // At 53 the text of the first two characters of that at 0, and at 58 that of the last one.
    3, 0, b'a', 0xC3, 0xA9, 4, 0, 0xF0, 0x9D, 0x84, 0x9E,
];

/// The constant string of four characters: `a`, `é`, `日` and U+1D11E.
pub(crate) const TEXT: Holder = Holder::Text(0);

/// The first two of them.
pub(crate) const START: Holder = Holder::Text(53);

/// The last one of them.
pub(crate) const END: Holder = Holder::Text(58);

/// The constant string without a byte.
pub(crate) const EMPTY_TEXT: Holder = Holder::Text(12);

/// A constant string that isn't UTF-8.
pub(crate) const BAD_TEXT: Holder = Holder::Text(14);

/// The constant list of 1, [`TEXT`] and 1.
pub(crate) const LIST: Holder = Holder::List(17);

/// The constant list without an element.
pub(crate) const EMPTY_LIST: Holder = Holder::List(12);

/// The constant list of [`EMPTY_LIST`] and [`LIST`].
pub(crate) const NEST: Holder = Holder::List(41);

/// A constant list whose element means nothing.
pub(crate) const BAD_LIST: Holder = Holder::List(34);

/// The class of [`store`], with its property 5.
pub(crate) const CLASS: Holder = Holder::Obj(1);

/// The tads-object of that class.
pub(crate) const TADS: Holder = Holder::Obj(2);

/// The string `cd`.
pub(crate) const LIVE_TEXT: Holder = Holder::Obj(3);

/// The list of 1, [`TEXT`] and 1.
pub(crate) const LIVE_LIST: Holder = Holder::Obj(4);

/// The vector of 4, [`LIST`] and 6.
pub(crate) const VECTOR: Holder = Holder::Obj(5);

/// The table of true under the text `ab` and 8 under the integer 7. Its default is nil.
pub(crate) const TABLE: Holder = Holder::Obj(6);

/// A transient tads-object of the class [`TADS`].
pub(crate) const PASSING: Holder = Holder::Obj(0x8000_0000);

/// A transient tads-object of the class [`PASSING`].
pub(crate) const PASSING_CHILD: Holder = Holder::Obj(0x8000_0001);

/// A transient tads-object whose superclass, [`GONE_CLASS`], isn't there any more.
pub(crate) const ORPHAN: Holder = Holder::Obj(0x8000_0002);

/// A transient table.
pub(crate) const PASSING_TABLE: Holder = Holder::Obj(0x8000_0003);

/// A reference to an object that isn't there any more.
pub(crate) const GONE_CLASS: Holder = Holder::Obj(7);

/// The number of the persistent object that is made next.
pub(crate) const NEXT: u32 = 8;

/// Pools with the constants above.
pub(crate) fn pools(alloc: Global) -> Result<Pools, Fail> {
    let blocks = [
        pool_definition(alloc, 1, 1, 1)?,
        page(alloc, 1, 0, b"\xF2")?,
        pool_definition(alloc, 2, 1, 64)?,
        page(alloc, 2, 0, &CONSTANTS)?,
    ];
    Ok(Pools::build(alloc, &image(alloc, &blocks)?)?)
}

/// A store without objects, with room for so many of them and for so many units.
pub(crate) fn empty_store(alloc: Global, objects: u32, units: u32) -> Result<Store, Fail>
    requires objects { objects ≤ 1048576 }
    requires units { units ≤ 4194304 }
{
    let limits = StoreLimits {
        objects,
        units,
        records: 16,
        savepoints: 2,
    };
    Ok(t3_test_stores::empty_store(alloc, limits)?)
}

/// A store with the objects above, and ample room.
pub(crate) fn store(alloc: Global) -> Result<Store, Fail> {
    let mut store = empty_store(alloc, 1_000, 1_000_000)?;
    let class = add_tads(alloc, &mut store, None, true, false)?;
    set_prop(&mut store, class, 5, Holder::Int(9))?;
    let tads = add_tads(alloc, &mut store, Some(class), false, false)?;
    let _text = add_text(alloc, &mut store, b"cd")?;
    let items = [Holder::Int(1), TEXT, Holder::Int(1)];
    let _list = add_list(alloc, &mut store, &items)?;
    let _vector = add_vector(alloc, &mut store, &[Holder::Int(4), LIST, Holder::Int(6)])?;
    add_table(alloc, &mut store)?;
    add_passing(alloc, &mut store, tads)?;
    Ok(store)
}

/// Adds the transient objects.
fn add_passing(alloc: Global, store: &mut Store, tads: u32) -> Result<(), Fail> {
    let passing = add_tads(alloc, store, Some(tads), false, true)?;
    let _child = add_tads(alloc, store, Some(passing), false, true)?;
    if store.marks() >= 1_000 {
        return Err(Fail::from("few savepoints"));
    }
    store.savepoint();
    let gone = add_tads(alloc, store, None, false, false)?;
    let _orphan = add_tads(alloc, store, Some(gone), false, true)?;
    let _undone = store.undo();
    let _table = store.create(NewObject::Table, true)?;
    Ok(())
}

/// Whether a new object may have this superclass.
fn can_be_superclass(store: &Store, number: u32, transient: bool) -> bool
    ensures { IsTrue result → IsSome (supers_for transient store.now.store number) }
{
    if store.is_transient(number) && !transient {
        return false;
    }
    store.supers(number).is_some()
}

/// Adds a tads-object with one superclass, or none.
fn add_tads(
    alloc: Global,
    store: &mut Store,
    superclass: Option<u32>,
    class: bool,
    transient: bool,
) -> Result<u32, Fail> {
    let mut supers = Vec::new(alloc);
    let Some(superclass) = superclass else {
        return Ok(store.create(tads(alloc, supers, class), transient)?);
    };
    if !can_be_superclass(store, superclass, transient) {
        return Err(Fail::from("a superclass"));
    }
    supers.push(superclass)?;
    Ok(store.create(tads(alloc, supers, class), transient)?)
}

/// Adds the table with its two entries.
fn add_table(alloc: Global, store: &mut Store) -> Result<(), Fail> {
    let table = store.create(NewObject::Table, false)?;
    let key = Key::Text(Bytes(Vec::from_slice(alloc, b"ab")?));
    set_key(store, table, key, Holder::True)?;
    set_key(store, table, Key::Int(7), Holder::Int(8))
}

/// Adds a string.
pub(crate) fn add_text(alloc: Global, store: &mut Store, bytes: &[u8]) -> Result<Holder, Fail> {
    if bytes.len() > 65_535 {
        return Err(Fail::from("a string"));
    }
    let bytes = Vec::from_slice(alloc, bytes)?;
    Ok(Holder::Obj(store.create(NewObject::Text(Bytes(bytes)), false)?))
}

/// Adds a list.
pub(crate) fn add_list(alloc: Global, store: &mut Store, items: &[Holder]) -> Result<Holder, Fail> {
    if items.len() > 65_535 {
        return Err(Fail::from("a list"));
    }
    let items = Vec::from_slice(alloc, items)?;
    Ok(Holder::Obj(store.create(NewObject::List(Holders(items)), false)?))
}

/// Adds a vector.
pub(crate) fn add_vector(
    alloc: Global,
    store: &mut Store,
    items: &[Holder],
) -> Result<Holder, Fail> {
    if items.len() > 65_535 {
        return Err(Fail::from("a vector"));
    }
    let items = Vec::from_slice(alloc, items)?;
    Ok(Holder::Obj(store.create(NewObject::Vector(Holders(items)), false)?))
}

/// Few writes were made so far.
pub(crate) fn few_writes(store: &Store) -> Result<(), Fail>
    ensures { OnOk result (store.now.writes < 1000000) }
{
    if store.writes() >= 1_000_000 {
        return Err(Fail::from("few writes"));
    }
    Ok(())
}

/// Sets the value under a key of a table.
pub(crate) fn set_key(store: &mut Store, number: u32, key: Key, value: Holder) -> Result<(), Fail> {
    let Some(Kind::Table) = store.kind(number) else {
        return Err(Fail::from("a table"));
    };
    few_writes(store)?;
    Ok(store.write(number, Cell::Key(key), Some(value))?)
}

/// Sets a property of a tads-object.
fn set_prop(store: &mut Store, number: u32, property: u16, value: Holder) -> Result<(), Fail> {
    let Some(Kind::Tads) = store.kind(number) else {
        return Err(Fail::from("a tads-object"));
    };
    few_writes(store)?;
    Ok(store.write(number, Cell::Prop(property), Some(value))?)
}

/// A method, by its metaclass and its index.
pub(crate) type At = (Methods, u16);

/// Carries out a method, with so many turns for comparisons, and answers those that are left too.
pub(crate) fn call_with(
    alloc: Global,
    at: At,
    me: Holder,
    args: &[Holder],
    store: &mut Store,
    pools: &Pools,
    turns: &mut u32,
) -> Result<Result<Holder, OpRefusal>, Fail> {
    if !is_listed(at.0, at.1) {
        return Err(Fail::from("a method"));
    }
    few_writes(store)?;
    Ok(listed_method(alloc, at.0, at.1, me, args, store, pools, turns))
}

/// Carries out a method, with ample turns.
pub(crate) fn call(
    alloc: Global,
    at: At,
    me: Holder,
    args: &[Holder],
    store: &mut Store,
    pools: &Pools,
) -> Result<Result<Holder, OpRefusal>, Fail> {
    let mut turns = 65_536;
    call_with(alloc, at, me, args, store, pools, &mut turns)
}

/// What is wanted of a method. A new object is the next one of [`store`].
#[derive(Clone, Copy, Debug)]
pub(crate) enum Want {
    Value(Holder),
    /// A new string of these bytes.
    Text(&'static [u8]),
    /// A new list of these elements.
    List(&'static [Holder]),
    /// Self, a vector that has these elements then.
    Vector(&'static [Holder]),
    Fault(Fault),
}

pub(crate) const YES: Want = Want::Value(Holder::True);

pub(crate) const NO: Want = Want::Value(Holder::Nil);

pub(crate) const COUNT: Want = Want::Fault(Fault::ArgCount);

pub(crate) const KIND: Want = Want::Fault(Fault::Kind);

pub(crate) const RANGE: Want = Want::Fault(Fault::IndexRange);

pub(crate) const GONE: Want = Want::Fault(Fault::Stale);

pub(crate) const BAD: Want = Want::Fault(Fault::BadConstant);

/// Whether a method answered what is wanted, and made what is wanted and nothing else.
pub(crate) fn is_wanted(
    want: Want,
    me: Holder,
    answer: Result<Holder, OpRefusal>,
    store: &Store,
) -> bool {
    match want {
        Want::Value(value) => answer == Ok(value) && store.next() == NEXT,
        Want::Text(bytes) => answer == Ok(Holder::Obj(NEXT)) && store.text(NEXT) == Some(bytes),
        Want::List(items) => answer == Ok(Holder::Obj(NEXT)) && store.items(NEXT) == Some(items),
        Want::Vector(items) => answer == Ok(me) && has_elements(store, me, items),
        Want::Fault(fault) => { answer == Err(OpRefusal::Fault(fault)) && store.next() == NEXT }
    }
}

/// Whether a value is a vector of these elements.
pub(crate) fn has_elements(store: &Store, vector: Holder, items: &[Holder]) -> bool {
    let Holder::Obj(number) = vector else {
        return false;
    };
    let Some(length) = store.length(number) else {
        return false;
    };
    length as usize == items.len() && begins_with(store, number, items)
}

/// Whether a vector begins with these elements.
fn begins_with(store: &Store, number: u32, items: &[Holder]) -> bool {
    let mut at = 0u32;
    for item in items {
        at = at.wrapping_add(1);
        if store.get(number, &Cell::Elem(at)) != Some(*item) {
            return false;
        }
    }
    true
}

/// A method on a value with arguments, and what is wanted of it.
pub(crate) type Row = (At, Holder, &'static [Holder], Want);

/// Whether a method comes to what its row says, in a store of its own.
fn is_so(alloc: Global, row: &Row, pools: &Pools) -> Result<bool, Fail> {
    let mut store = store(alloc)?;
    let answer = call(alloc, row.0, row.1, row.2, &mut store, pools)?;
    Ok(is_wanted(row.3, row.1, answer, &store))
}

/// The index of the first row that isn't so.
pub(crate) fn first_unlike(alloc: Global, rows: &[Row]) -> Result<Option<usize>, Fail> {
    let pools = pools(alloc)?;
    for index in 0..rows.len() {
        if !is_so(alloc, &rows[index], &pools)? {
            return Ok(Some(index));
        }
    }
    Ok(None)
}
