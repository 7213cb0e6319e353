//! Whether two values are equal.
ghost use Rattle.std.specs.Prelude.{◌≡◌, ◌<◌, nat_eq};
ghost use Rattle.std.specs.Cmp.Lexicographic.{pointwise};
ghost use Rattle.t3_ops.specs.Equality.{AnswersEqual, equal_of, comparison_of, texts_comparison, lists_comparison, walk};
ghost use Rattle.t3_ops.specs.References.{bytes_of, text_of, list_of, IsTextBytes};
ghost use Rattle.t3_ops.specs.Inner.Walk.{pairs_of, IsLevel, TakesPair, comparison_from, HasLevel};

use crate::fault::Fault;
use crate::ordering::order_of_bytes;
use crate::values::{
    ListItems, ListRef, TextBytes, TextOrListRef, TextRef, has_plain, same_holder, text_or_list,
};
use std::alloc::{AllocFailed, Global};
use std::cmp::Ordering;
use std::mem;
use t3_holder::Holder;
use t3_pools::Pools;
use t3_store::Store;
use thiserror::Error;

/// Why it isn't told whether two values are equal.
#[derive(Clone, Copy, Debug, PartialEq, Eq, Error)]
pub enum EqualRefusal {
    /// `CompareLong` where a pair is due and no turn is left, `BadConstant` where a constant can't be read.
    #[error("fault {0:?}")]
    Fault(Fault),
    /// An allocation was refused.
    #[error("out of memory")]
    NoMemory,
}

impl<T: Drop> From<AllocFailed<T>> for EqualRefusal {
    ghost use Rattle.t3_ops.specs.declared.equality.EqualRefusal.TheVariants.{NoMemory as Wanting};

    ghost from_gives = { λ _ e. e ≡ Wanting };

    fn from(_error: AllocFailed<T>) -> EqualRefusal {
        EqualRefusal::NoMemory
    }
}

/// Two lists of one length. The pairs of their elements from an index on are still to be looked at.
#[derive(Clone, Copy)]
pub(crate) struct Level<'o> {
    pub(crate) left: ListItems<'o>,
    pub(crate) right: ListItems<'o>,
    pub(crate) next: usize,
}

/// What a pair of values is found to be.
#[derive(Clone, Copy)]
pub(crate) enum PairComparison<'o> {
    Same,
    Different,
    /// A constant can't be read.
    Unreadable,
    /// Two lists of one length, whose pairs of elements tell it.
    Inside(Level<'o>),
}

/// Whether two values are equal: two texts by their bytes, two lists by their elements in pairs, and any
/// others by being the same holder. A constant string is a text as a live one is, and so are lists.
///
/// Each pair of values that is looked at takes one of `turns`, the first one too. After an `Ok` they are
/// those that are left, for the next comparison of the same instruction. `CompareLong` comes where a pair
/// is due and no turn is left. `BadConstant` comes where two texts or two lists are due and one is a
/// constant that can't be read; beside anything else no constant is read. Memory is taken only where a
/// list stands in a list, and no list is copied.
#[inline(always)]
pub fn equal(
    alloc: Global,
    left: Holder,
    right: Holder,
    store: &Store,
    pools: &Pools,
    turns: &mut u32,
) -> Result<bool, EqualRefusal>
    ensures { AnswersEqual (equal_of pools.now.constants store.now.store turns.old left right)
        result turns.new }
{
    if *turns == 0 {
        return Err(EqualRefusal::Fault(Fault::CompareLong));
    }
    if has_plain(left, right) {
        *turns -= 1;
        return Ok(same_holder(left, right));
    }
    equal_contents(alloc, left, right, store, pools, turns)
}

/// Whether two values are equal of which neither is plain, where a turn is left.
#[inline(never)]
fn equal_contents(
    alloc: Global,
    left: Holder,
    right: Holder,
    store: &Store,
    pools: &Pools,
    turns: &mut u32,
) -> Result<bool, EqualRefusal>
    requires { 0 < turns.old }
    ensures { AnswersEqual (equal_of pools.now.constants store.now.store turns.old left right)
        result turns.new }
{
    *turns -= 1;
    match compare(left, right, store, pools) {
        PairComparison::Same => Ok(true),
        PairComparison::Different => Ok(false),
        PairComparison::Unreadable => Err(EqualRefusal::Fault(Fault::BadConstant)),
        PairComparison::Inside(level) => equal_pairs(alloc, level, store, pools, turns),
    }
}

/// Whether the pairs that are left of two lists are equal. The lists that an inner one stands in wait in
/// `outer`, the innermost last, so a nesting takes no stack.
fn equal_pairs<'o>(
    alloc: Global,
    level: Level<'o>,
    store: &'o Store,
    pools: &'o Pools,
    turns: &mut u32,
) -> Result<bool, EqualRefusal>
    requires { IsLevel pools.now.constants level }
    ensures { AnswersEqual (walk pools.now.constants store.now.store turns.old
        (pairs_of pools.now.constants level.entry)) result turns.new }
{
    let mut level = level;
    let mut outer = Vec::new(alloc);
    'walk: loop {
        let Some((left, right)) = level.take_pair(pools) else {
            match outer.pop() {
                Some(next) => level = next,
                None => return Ok(true),
            }
            continue;
        };
        if *turns == 0 {
            return Err(EqualRefusal::Fault(Fault::CompareLong));
        }
        *turns -= 1;
        match compare(left, right, store, pools) {
            PairComparison::Same => {}
            PairComparison::Different => return Ok(false),
            PairComparison::Unreadable => return Err(EqualRefusal::Fault(Fault::BadConstant)),
            PairComparison::Inside(inner) => outer.push(mem::replace(&mut level, inner))?,
        }
    }
}

impl<'o> Level<'o> {
    /// The next pair, if one is left.
    fn take_pair(&mut self, pools: &Pools) -> Option<(Holder, Holder)>
        requires { IsLevel pools.now.constants self.old }
        ensures pair { TakesPair (pairs_of pools.now.constants self.old) result
            (pairs_of pools.now.constants self.new) }
        ensures level { IsLevel pools.now.constants self.new }
    {
        let left = self.left.element(pools, self.next)?;
        let right = self.right.element(pools, self.next)?;
        self.next += 1;
        Some((left, right))
    }
}

/// What a pair of values is found to be.
fn compare<'o>(
    left: Holder,
    right: Holder,
    store: &'o Store,
    pools: &'o Pools,
) -> PairComparison<'o>
    ensures found { comparison_from pools.now.constants result
        ≡ comparison_of pools.now.constants store.now.store left right }
    ensures level { HasLevel pools.now.constants result }
{
    match (
        text_or_list(store, pools, left),
        text_or_list(store, pools, right),
    ) {
        (TextOrListRef::Text(x), TextOrListRef::Text(y)) => compare_texts(x, y, pools),
        (TextOrListRef::List(x), TextOrListRef::List(y)) => compare_lists(x, y, pools),
        _ if same_holder(left, right) => PairComparison::Same,
        _ => PairComparison::Different,
    }
}

/// What two texts are found to be.
fn compare_texts<'o>(left: TextRef<'o>, right: TextRef<'o>, pools: &'o Pools) -> PairComparison<'o>
    ensures found { comparison_from pools.now.constants result
        ≡ texts_comparison (text_of pools.now.constants left.entry)
        (text_of pools.now.constants right.entry) }
    ensures level { HasLevel pools.now.constants result }
{
    match (left.read(pools), right.read(pools)) {
        (Some(left), Some(right)) if same_bytes(left, right, pools) => PairComparison::Same,
        (Some(_), Some(_)) => PairComparison::Different,
        _ => PairComparison::Unreadable,
    }
}

/// Whether two texts have the same bytes.
fn same_bytes(left: TextBytes<'_>, right: TextBytes<'_>, pools: &Pools) -> bool
    requires left { IsTextBytes pools.now.constants left }
    requires right { IsTextBytes pools.now.constants right }
    ensures { result ≡ pointwise nat_eq (bytes_of pools.now.constants left.entry)
        (bytes_of pools.now.constants right.entry) }
{
    matches!(order_of_bytes(left, right, pools), Ordering::Equal)
}

/// What two lists are found to be.
fn compare_lists<'o>(left: ListRef<'o>, right: ListRef<'o>, pools: &'o Pools) -> PairComparison<'o>
    ensures found { comparison_from pools.now.constants result
        ≡ lists_comparison (list_of pools.now.constants left.entry)
        (list_of pools.now.constants right.entry) }
    ensures level { HasLevel pools.now.constants result }
{
    match (left.read(pools), right.read(pools)) {
        (Some(left), Some(right)) => {
            if left.len(pools) == right.len(pools) {
                PairComparison::Inside(Level {
                    left,
                    right,
                    next: 0,
                })
            } else {
                PairComparison::Different
            }
        }
        _ => PairComparison::Unreadable,
    }
}
