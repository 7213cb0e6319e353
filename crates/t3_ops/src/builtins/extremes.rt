//! The greatest and the least of values.
ghost use Rattle.std.specs.Prelude.{◌≡◌, if◌then◌else◌};
ghost use Rattle.std.specs.List.{list_all};
ghost use Rattle.t3_ops.specs.Builtins.{is_integer, is_text, are_alike, is_better, best_of, extreme_of};
ghost use Rattle.t3_ops.specs.Inner.Outcomes.{made_of, CanBeMade};

use crate::builtins::first;
use crate::fault::Fault;
use crate::ordering::{kind_fault, order};
use crate::outcome::Outcome;
use crate::values::{TextOrListRef, text_or_list};
use std::cmp::Ordering;
use t3_holder::Holder;
use t3_pools::Pools;
use t3_store::Store;

/// The greatest or the least of values, the first of equals.
pub(crate) fn extreme(greatest: bool, values: &[Holder], store: &Store, pools: &Pools) -> Outcome
    ensures made { made_of result
        ≡ extreme_of greatest pools.now.constants store.now.store values.now }
    ensures can { CanBeMade result }
{
    let Some(value) = first(values) else {
        return Outcome::Fault(Fault::ArgCount);
    };
    if !are_alike(values, store, pools) {
        return Outcome::Fault(kind_fault(store, values));
    }
    best(greatest, value, &values[1..], store, pools)
}

/// The first of a value and others that no later one betters.
fn best(greatest: bool, value: Holder, others: &[Holder], store: &Store, pools: &Pools) -> Outcome
    ensures made { made_of result
        ≡ best_of greatest pools.now.constants store.now.store others.now value }
    ensures can { CanBeMade result }
{
    let mut best = value;
    for other in others {
        match order(best, *other, store, pools) {
            Ok(order) => best = better(greatest, order, best, *other),
            Err(fault) => return Outcome::Fault(fault),
        }
    }
    Outcome::Value(best)
}

/// The later value where it betters the best so far, which is to it in that order, and else that.
fn better(greatest: bool, order: Ordering, best: Holder, other: Holder) -> Holder
    ensures { result ≡ if is_better greatest order then other else best }
{
    let is_better = if greatest {
        order.is_lt()
    } else {
        order.is_gt()
    };
    if is_better { other } else { best }
}

/// Whether all are integers, or all are texts.
fn are_alike(values: &[Holder], store: &Store, pools: &Pools) -> bool
    ensures { result ≡ are_alike pools.now.constants store.now.store values.now }
{
    are_integers(values) || are_texts(values, store, pools)
}

fn are_integers(values: &[Holder]) -> bool
    ensures { result ≡ list_all is_integer values.now }
{
    values.iter().all(|value| matches!(value, Holder::Int(_)))
}

fn are_texts(values: &[Holder], store: &Store, pools: &Pools) -> bool
    ensures { result ≡ list_all (is_text pools.now.constants store.now.store) values.now }
{
    for value in values {
        if !is_text(*value, store, pools) {
            return false;
        }
    }
    true
}

fn is_text(value: Holder, store: &Store, pools: &Pools) -> bool
    ensures { result ≡ is_text pools.now.constants store.now.store value }
{
    matches!(text_or_list(store, pools, value), TextOrListRef::Text(_))
}
