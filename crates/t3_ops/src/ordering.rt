//! The order of two values.
ghost use Rattle.std.specs.Prelude.{◌≡◌, [], ◌∷◌, IfSome};
ghost use Rattle.std.specs.Ordering.{nat_cmp};
ghost use Rattle.std.specs.Cmp.Lexicographic.{slice_cmp};
ghost use Rattle.t3_ops.specs.Order.{order_of, texts_order, bytes_order};
ghost use Rattle.t3_ops.specs.Values.{kind_fault as kind_fault_of, is_stale as is_stale_in, text_or_list_of};
ghost use Rattle.t3_ops.specs.References.{bytes_of, text_of, IsTextBytes};

use crate::fault::Fault;
use crate::values::{TextBytes, TextOrListRef, TextRef, text_or_list};
use std::cmp::Ordering;
use t3_holder::Holder;
use t3_pools::Pools;
use t3_store::Store;

/// How the left value is to the right one: integers by number, texts by bytes. It takes no memory.
///
/// `Stale` where one is a reference to an object that isn't there, else `Kind` where they are neither
/// two integers nor two texts, else `BadConstant` where one is a constant that can't be read.
pub fn order(left: Holder, right: Holder, store: &Store, pools: &Pools) -> Result<Ordering, Fault>
    ensures { result ≡ order_of pools.now.constants store.now.store left right }
{
    if let (Holder::Int(x), Holder::Int(y)) = (left, right) {
        return Ok(x.cmp(&y));
    }
    order_of_texts(left, right, store, pools)
}

/// How two texts are to each other, or the fault of values that aren't two texts.
fn order_of_texts(
    left: Holder,
    right: Holder,
    store: &Store,
    pools: &Pools,
) -> Result<Ordering, Fault>
    ensures { result ≡ texts_order (kind_fault_of store.now.store (left ∷ right ∷ []))
        (text_or_list_of pools.now.constants store.now.store left)
        (text_or_list_of pools.now.constants store.now.store right) }
{
    match (
        text_or_list(store, pools, left),
        text_or_list(store, pools, right),
    ) {
        (TextOrListRef::Text(x), TextOrListRef::Text(y)) => order_of_read(x, y, pools),
        _ => Err(kind_fault(store, &[left, right])),
    }
}

/// How two texts are to each other by bytes, where both can be read.
fn order_of_read(left: TextRef<'_>, right: TextRef<'_>, pools: &Pools) -> Result<Ordering, Fault>
    ensures { result ≡ bytes_order (text_of pools.now.constants left.entry)
        (text_of pools.now.constants right.entry) }
{
    match (left.read(pools), right.read(pools)) {
        (Some(left), Some(right)) => Ok(order_of_bytes(left, right, pools)),
        _ => Err(Fault::BadConstant),
    }
}

/// How the bytes of two texts are to each other, piece by piece: a piece ends where a page does.
pub(crate) fn order_of_bytes(left: TextBytes<'_>, right: TextBytes<'_>, pools: &Pools) -> Ordering
    requires left { IsTextBytes pools.now.constants left }
    requires right { IsTextBytes pools.now.constants right }
    ensures { result ≡ slice_cmp nat_cmp (bytes_of pools.now.constants left.entry)
        (bytes_of pools.now.constants right.entry) }
{
    let mut at = 0;
    'pieces: loop {
        let mine = left.piece(pools, at);
        let other = right.piece(pools, at);
        let size = mine.len().min(other.len());
        if size == 0 {
            return mine.len().cmp(&other.len());
        }
        match mine[..size].cmp(&other[..size]) {
            Ordering::Equal => at += size,
            apart => return apart,
        }
    }
}

/// The fault of values of other kinds than are wanted, where objects among them are needed: `Stale` where
/// one is a reference to an object that isn't there, and else `Kind`. It takes no memory.
#[cold]
pub fn kind_fault(store: &Store, values: &[Holder]) -> Fault
    ensures { result ≡ kind_fault_of store.now.store values.now }
{
    for value in values {
        if is_stale(store, *value) {
            return Fault::Stale;
        }
    }
    Fault::Kind
}

fn is_stale(store: &Store, value: Holder) -> bool
    ensures { result ≡ is_stale_in store.now.store value }
{
    match value {
        Holder::Obj(number) => !store.live(number),
        _ => false,
    }
}
