//! The sum of two values.
ghost use Rattle.std.specs.Prelude.{◌≡◌, [], ◌∷◌, IfOk, option_map, string_bytes};
ghost use Rattle.t3_ops.specs.Values.{integer, kind_fault};
ghost use Rattle.t3_ops.specs.Making.{IsCarriedOut};
ghost use Rattle.t3_ops.specs.Adding.{sum_of, number_sum, joined_texts_of, text_sum, list_sum, word_of, text_form_of, added_elements};
ghost use Rattle.t3_ops.specs.References.{text_of, list_of, Appends};
ghost use Rattle.t3_ops.specs.Inner.Outcomes.{made_of, CanBeMade};

use crate::arithmetic::{ArithOp, arith};
use crate::containers::{ContainerRef, container_of};
use crate::copying::{append_list, append_text, append_vector};
use crate::fault::Fault;
use crate::ordering::kind_fault;
use crate::outcome::{OpRefusal, Outcome, carry_out, fitting_list, fitting_text, outcome_of};
use crate::values::{ListRef, TextOrListRef, TextRef, text_or_list};
use std::alloc::{AllocError, Global};
use t3_holder::{Holder, NoMemory};
use t3_pools::Pools;
use t3_store::Store;

/// The sum of two values: of two integers, of a text and what has a text form, or of a list and
/// what is added to it. The left one decides. A new string or list is persistent, and nothing else
/// changes; after a refusal nothing has.
///
/// An integer: `Kind` where the right value is no integer, then `Overflow`. A text: `Stale` where
/// the right value is a reference to an object that isn't there, else `Kind` where it has no text
/// form, then `BadConstant` where one of both can't be read, then `TextLong`. A list:
/// `BadConstant`, then `ListLong`; any value can be added to it. Any other left value: `Stale`
/// where it is a reference to an object that isn't there, and else `Kind`.
pub fn sum(
    alloc: Global,
    left: Holder,
    right: Holder,
    store: &mut Store,
    pools: &Pools,
) -> Result<Holder, OpRefusal>
    ensures carried { IsCarriedOut (sum_of pools.now.constants store.old.store left right)
        store.old.store result store.new.store }
    ensures savepoints { store.new.savepoints ≡ store.old.savepoints }
    ensures writes { store.new.writes ≡ store.old.writes }
{
    let outcome = sum_outcome(alloc, left, right, store, pools)?;
    carry_out(outcome, store)
}

/// What the sum of two values comes to.
fn sum_outcome(
    alloc: Global,
    left: Holder,
    right: Holder,
    store: &Store,
    pools: &Pools,
) -> Result<Outcome, NoMemory>
    ensures sum { IfOk result (λ outcome. made_of outcome
        ≡ sum_of pools.now.constants store.now.store left right) }
    ensures can { IfOk result CanBeMade }
{
    if let Holder::Int(number) = left {
        return Ok(number_sum(number, right));
    }
    match text_or_list(store, pools, left) {
        TextOrListRef::Text(text) => text_sum(alloc, text, right, store, pools),
        TextOrListRef::List(list) => list_sum(alloc, list, right, store, pools),
        TextOrListRef::Neither => Ok(Outcome::Fault(kind_fault(store, &[left]))),
    }
}

/// An integer plus another one.
fn number_sum(left: i32, right: Holder) -> Outcome
    ensures sum { made_of result ≡ number_sum left (integer right) }
    ensures can { CanBeMade result }
{
    match right {
        Holder::Int(right) => match arith(ArithOp::Add, left, right) {
            Ok(sum) => Outcome::Value(Holder::Int(sum)),
            Err(fault) => Outcome::Fault(fault),
        },
        _ => Outcome::Fault(Fault::Kind),
    }
}

/// A text with the text form of a value after it.
fn text_sum(
    alloc: Global,
    left: TextRef<'_>,
    right: Holder,
    store: &Store,
    pools: &Pools,
) -> Result<Outcome, NoMemory>
    ensures sum { IfOk result (λ outcome. made_of outcome
        ≡ text_sum (kind_fault store.now.store (right ∷ []))
        (text_of pools.now.constants left.entry)
        (text_form_of [] pools.now.constants store.now.store right)) }
    ensures can { IfOk result CanBeMade }
{
    if let TextOrListRef::Text(right) = text_or_list(store, pools, right) {
        return joined_texts(alloc, left, right, pools);
    }
    match word(alloc, right, "")? {
        Some(word) => joined_texts(alloc, left, TextRef::Live(word.as_bytes()), pools),
        None => Ok(Outcome::Fault(kind_fault(store, &[right]))),
    }
}

/// A text with another one after it.
fn joined_texts(
    alloc: Global,
    left: TextRef<'_>,
    right: TextRef<'_>,
    pools: &Pools,
) -> Result<Outcome, NoMemory>
    ensures sum { IfOk result (λ outcome. made_of outcome
        ≡ joined_texts_of (text_of pools.now.constants left.entry)
        (text_of pools.now.constants right.entry)) }
    ensures can { IfOk result CanBeMade }
{
    let (Some(left), Some(right)) = (left.read(pools), right.read(pools)) else {
        return Ok(Outcome::Fault(Fault::BadConstant));
    };
    let mut bytes = Vec::new(alloc);
    append_text(left, pools, &mut bytes)?;
    append_text(right, pools, &mut bytes)?;
    Ok(outcome_of(fitting_text(bytes)))
}

/// A list with what a value adds after it.
fn list_sum(
    alloc: Global,
    left: ListRef<'_>,
    right: Holder,
    store: &Store,
    pools: &Pools,
) -> Result<Outcome, NoMemory>
    ensures sum { IfOk result (λ outcome. made_of outcome
        ≡ list_sum (list_of pools.now.constants left.entry)
        (added_elements pools.now.constants store.now.store right)) }
    ensures can { IfOk result CanBeMade }
{
    let mut items = Vec::new(alloc);
    if !append_list(left, pools, &mut items)? {
        return Ok(Outcome::Fault(Fault::BadConstant));
    }
    if !append_added(right, store, pools, &mut items)? {
        return Ok(Outcome::Fault(Fault::BadConstant));
    }
    Ok(outcome_of(fitting_list(items)))
}

/// Appends what a value adds to a list: the elements of a list or a vector, or else itself. Answers
/// whether that could be read.
fn append_added(
    value: Holder,
    store: &Store,
    pools: &Pools,
    items: &mut Vec<Holder>,
) -> Result<bool, AllocError>
    ensures { IfOk result (λ read. Appends items.old.items
        (added_elements pools.now.constants store.now.store value) read items.new.items) }
{
    match container_of(store, pools, value) {
        ContainerRef::List(list) => append_list(list, pools, items),
        ContainerRef::Vector(vector, length) => {
            append_vector(&vector, length, items)?;
            Ok(true)
        }
        ContainerRef::Table(..) | ContainerRef::Other => {
            items.push(value)?;
            Ok(true)
        }
    }
}

/// The text form of a value that is no text, with this one for nil.
pub(crate) fn word(
    alloc: Global,
    value: Holder,
    nil_text: &str,
) -> Result<Option<String>, AllocError>
    ensures { IfOk result (λ text. option_map string_bytes text ≡ word_of nil_text.now value) }
{
    let mut text = String::new(alloc);
    match value {
        Holder::Nil => text.push_str(nil_text)?,
        Holder::True => text.push_str("true")?,
        Holder::Int(number) => write!(text, "{number}")?,
        _ => return Ok(None),
    }
    Ok(Some(text))
}
