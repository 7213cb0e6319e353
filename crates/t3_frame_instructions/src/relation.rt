//! How one value is to another.
ghost use Rattle.std.specs.Prelude.{◌≡◌};
ghost use Rattle.t3_ops.specs.Equality.{equal_of};
ghost use Rattle.t3_frame_instructions.specs.Relations.{related_numbers_of, related_of, told_equal, turn_limit, AnswersTold};

use std::alloc::Global;
use t3_holder::Holder;
use t3_ops::{EqualRefusal, equal, order};
use t3_pools::Pools;
use t3_store::Store;

/// How many pairs of values an instruction may look at.
pub const TURN_LIMIT: u32 = 65_536;

/// How one value is to another.
#[derive(Clone, Copy)]
pub enum Relation {
    Equal,
    Unequal,
    Less,
    AtMost,
    Greater,
    AtLeast,
}

/// Whether an integer is so to another one.
#[inline(always)]
pub fn related_numbers(relation: Relation, left: i32, right: i32) -> bool
    ensures { result ≡ related_numbers_of relation left right }
{
    match relation {
        Relation::Equal => Holder::Int(left) == Holder::Int(right),
        Relation::Unequal => Holder::Int(left) != Holder::Int(right),
        Relation::Less => left.cmp(&right).is_lt(),
        Relation::AtMost => left.cmp(&right).is_le(),
        Relation::Greater => left.cmp(&right).is_gt(),
        Relation::AtLeast => left.cmp(&right).is_ge(),
    }
}

/// Whether the left value is so to the right one. Two integers are compared here.
#[inline(always)]
pub(crate) fn related(
    alloc: Global,
    relation: Relation,
    left: Holder,
    right: Holder,
    store: &Store,
    pools: &Pools,
) -> Result<bool, EqualRefusal>
    ensures { AnswersTold (related_of pools.now.constants store.now.store relation left right) result }
{
    if let (Holder::Int(left), Holder::Int(right)) = (left, right) {
        return Ok(related_numbers(relation, left, right));
    }
    Ok(related_others(alloc, relation, left, right, store, pools)?)
}

/// The same of any values. It stands apart from the loop of a run, since it may want memory.
#[cold]
#[inline(never)]
fn related_others(
    alloc: Global,
    relation: Relation,
    left: Holder,
    right: Holder,
    store: &Store,
    pools: &Pools,
) -> Result<bool, EqualRefusal>
    ensures { AnswersTold (related_of pools.now.constants store.now.store relation left right) result }
{
    match relation {
        Relation::Equal => is_equal(alloc, left, right, store, pools, true),
        Relation::Unequal => is_equal(alloc, left, right, store, pools, false),
        Relation::Less => match order(left, right, store, pools) {
            Ok(order) => Ok(order.is_lt()),
            Err(fault) => Err(EqualRefusal::Fault(fault)),
        },
        Relation::AtMost => match order(left, right, store, pools) {
            Ok(order) => Ok(order.is_le()),
            Err(fault) => Err(EqualRefusal::Fault(fault)),
        },
        Relation::Greater => match order(left, right, store, pools) {
            Ok(order) => Ok(order.is_gt()),
            Err(fault) => Err(EqualRefusal::Fault(fault)),
        },
        Relation::AtLeast => match order(left, right, store, pools) {
            Ok(order) => Ok(order.is_ge()),
            Err(fault) => Err(EqualRefusal::Fault(fault)),
        },
    }
}

/// Whether two values are equal, or aren't, as it is asked for.
fn is_equal(
    alloc: Global,
    left: Holder,
    right: Holder,
    store: &Store,
    pools: &Pools,
    wanted: bool,
) -> Result<bool, EqualRefusal>
    ensures { AnswersTold
        (told_equal wanted (equal_of pools.now.constants store.now.store turn_limit left right)) result }
{
    let mut turns = TURN_LIMIT;
    match equal(alloc, left, right, store, pools, &mut turns) {
        Ok(is) => Ok(is == wanted),
        Err(refusal) => Err(refusal),
    }
}
