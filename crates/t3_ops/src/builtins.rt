//! Built-in functions that make one object at most and change nothing else.
ghost use Rattle.std.specs.Prelude.{◌≡◌, ◌<◌, ◌≤◌, ◌^◌, List, pos, neg_ℤ, [], ◌∷◌, MatchOption, IfOk, IsSome};
ghost use Rattle.t3_holder.specs.declared.holder.Holder.{Holder};
ghost use Rattle.t3_ops.specs.Values.{kind_fault};
ghost use Rattle.t3_ops.specs.Making.{IsCarriedOut};
ghost use Rattle.t3_ops.specs.Adding.{integer_value};
ghost use Rattle.t3_ops.specs.Arithmetic.{number};
ghost use Rattle.t3_ops.specs.Builtins.{pure_at, pure_builtin_of, counted_result, row_of, takes, data_type_of, text_copy_of, to_string_of, to_integer_of, plain_integer_of, text_integer_of, leading_number_of, after_spaces};
ghost use Rattle.t3_ops.specs.References.{text_of};
ghost use Rattle.t3_ops.specs.Inner.Outcomes.{made_of, CanBeMade};

use crate::adding::word;
use crate::builtins::copies::{copy_count, make_string};
use crate::builtins::extremes::extreme;
use crate::copying::text_bytes;
use crate::fault::Fault;
use crate::ordering::kind_fault;
use crate::outcome::{OpRefusal, Outcome, carry_out, fitting_text, outcome_of};
use crate::values::{TextOrListRef, TextRef, text_or_list};
use std::alloc::Global;
use t3_holder::{Holder, NoMemory};
use t3_pools::Pools;
use t3_store::Store;

mod copies;
mod extremes;

/// A built-in function of the set `tads-gen` that makes one object at most and changes nothing
/// else.
#[derive(Clone, Copy, Debug, PartialEq, Eq)]
pub enum PureBuiltin {
    DataType,
    ToString,
    ToInteger,
    Max,
    Min,
    MakeString,
}

/// The function of an index in the set `tads-gen`.
pub fn pure_at(index: u8) -> Option<PureBuiltin>
    ensures { result ≡ pure_at index }
{
    match index {
        0 => Some(PureBuiltin::DataType),
        6 => Some(PureBuiltin::ToString),
        7 => Some(PureBuiltin::ToInteger),
        18 => Some(PureBuiltin::Max),
        19 => Some(PureBuiltin::Min),
        20 => Some(PureBuiltin::MakeString),
        _ => None,
    }
}

/// Carries out the function of an index in the set `tads-gen`, which is one of [`PureBuiltin`]. The
/// first argument is the topmost operand. A new string is persistent, and nothing else changes;
/// after a refusal nothing has.
///
/// `ArgCount` where there are fewer or more arguments than it takes. Then, by the function:
///
/// - `dataType`: no fault.
/// - `toString`: `Stale` where the value is a reference to an object that isn't there, else `Kind`
///   where it has no text form, then `BadConstant` where it can't be read.
/// - `toInteger`: `Stale`, else `Kind` where it is neither nil, true, an integer nor a text, then
///   `BadConstant`, then `Overflow` where what the text says isn't in 32 bits.
/// - `max`, `min`: `Stale` where one value is a reference to an object that isn't there, else
///   `Kind` where they are neither all integers nor all texts, then `BadConstant` where one of two
///   that are compared can't be read.
/// - `makeString`: `Stale`, else `Kind` where the value is neither a text nor an integer, or the
///   count isn't an integer; then `IndexRange` where the integer is no Unicode scalar value, or the
///   count isn't from 0 to 65,535; then `BadConstant`, then `TextLong`.
pub fn pure_builtin(
    alloc: Global,
    index: u8,
    args: &[Holder],
    store: &mut Store,
    pools: &Pools,
) -> Result<Holder, OpRefusal>
    requires { IsSome (pure_at index) }
    ensures carried { IsCarriedOut
        (pure_builtin_of pools.now.constants store.old.store index args.now)
        store.old.store result store.new.store }
    ensures savepoints { store.new.savepoints ≡ store.old.savepoints }
    ensures writes { store.new.writes ≡ store.old.writes }
{
    let Some(builtin) = pure_at(index) else {
        return Err(OpRefusal::Fault(Fault::NoBuiltin));
    };
    let outcome = builtin_outcome(alloc, builtin, args, store, pools)?;
    carry_out(outcome, store)
}

/// What a function comes to. The arguments are counted before the function is looked at.
fn builtin_outcome(
    alloc: Global,
    builtin: PureBuiltin,
    args: &[Holder],
    store: &Store,
    pools: &Pools,
) -> Result<Outcome, NoMemory>
    ensures made { IfOk result (λ outcome. made_of outcome
        ≡ counted_result pools.now.constants store.now.store builtin args.now) }
    ensures can { IfOk result CanBeMade }
{
    if !takes(builtin, args.len()) {
        return Ok(Outcome::Fault(Fault::ArgCount));
    }
    let Some(value) = first(args) else {
        return Ok(Outcome::Fault(Fault::ArgCount));
    };
    match builtin {
        PureBuiltin::DataType => Ok(data_type(value)),
        PureBuiltin::ToString => to_string(alloc, value, store, pools),
        PureBuiltin::ToInteger => to_integer(alloc, value, store, pools),
        PureBuiltin::Max => Ok(extreme(true, args, store, pools)),
        PureBuiltin::Min => Ok(extreme(false, args, store, pools)),
        PureBuiltin::MakeString => make_string(alloc, value, copy_count(args), store, pools),
    }
}

/// Whether a function takes so many arguments.
fn takes(builtin: PureBuiltin, count: usize) -> bool
    ensures { result ≡ takes (row_of builtin) count }
{
    match builtin {
        PureBuiltin::DataType | PureBuiltin::ToString | PureBuiltin::ToInteger => count == 1,
        PureBuiltin::Max | PureBuiltin::Min => count >= 1,
        PureBuiltin::MakeString => count == 1 || count == 2,
    }
}

/// The first value.
pub(crate) fn first(values: &[Holder]) -> Option<Holder>
    ensures { MatchOption result (values.now ≡ []) (λ value. (rest : List Holder)
        × (values.now ≡ value ∷ rest)) }
{
    values.first().copied()
}

/// The number of the type of a value.
fn data_type(value: Holder) -> Outcome
    ensures made { made_of result ≡ data_type_of value }
    ensures can { CanBeMade result }
{
    let tag = match value {
        Holder::Nil => 1,
        Holder::True => 2,
        Holder::Obj(_) => 5,
        Holder::Prop(_) => 6,
        Holder::Int(_) => 7,
        Holder::Text(_) => 8,
        Holder::Shown(_) => 9,
        Holder::List(_) => 10,
        Holder::Code(_) => 11,
        Holder::Func(_) => 12,
        Holder::Enum(_) => 15,
    };
    Outcome::Value(Holder::Int(tag))
}

/// A new string of the text form of a value.
fn to_string(
    alloc: Global,
    value: Holder,
    store: &Store,
    pools: &Pools,
) -> Result<Outcome, NoMemory>
    ensures made { IfOk result (λ outcome. made_of outcome
        ≡ to_string_of pools.now.constants store.now.store value) }
    ensures can { IfOk result CanBeMade }
{
    if let TextOrListRef::Text(text) = text_or_list(store, pools, value) {
        return text_copy(alloc, text, pools);
    }
    match word(alloc, value, "nil")? {
        Some(word) => text_copy(alloc, TextRef::Live(word.as_bytes()), pools),
        None => Ok(Outcome::Fault(kind_fault(store, &[value]))),
    }
}

/// A new string of the bytes of a text.
fn text_copy(alloc: Global, text: TextRef<'_>, pools: &Pools) -> Result<Outcome, NoMemory>
    ensures made { IfOk result (λ outcome. made_of outcome
        ≡ text_copy_of (text_of pools.now.constants text.entry)) }
    ensures can { IfOk result CanBeMade }
{
    match text_bytes(alloc, text, pools)? {
        Some(bytes) => Ok(outcome_of(fitting_text(bytes))),
        None => Ok(Outcome::Fault(Fault::BadConstant)),
    }
}

/// The integer that a value is, or that its text says.
fn to_integer(
    alloc: Global,
    value: Holder,
    store: &Store,
    pools: &Pools,
) -> Result<Outcome, NoMemory>
    ensures made { IfOk result (λ outcome. made_of outcome
        ≡ to_integer_of pools.now.constants store.now.store value) }
    ensures can { IfOk result CanBeMade }
{
    match text_or_list(store, pools, value) {
        TextOrListRef::Text(text) => match text_bytes(alloc, text, pools)? {
            Some(bytes) => Ok(text_integer(&bytes)),
            None => Ok(Outcome::Fault(Fault::BadConstant)),
        },
        TextOrListRef::List(_) => Ok(Outcome::Fault(kind_fault(store, &[value]))),
        TextOrListRef::Neither => Ok(plain_integer(value, store)),
    }
}

/// The integer that a value is which is neither a text nor a list.
fn plain_integer(value: Holder, store: &Store) -> Outcome
    ensures made { made_of result
        ≡ plain_integer_of (kind_fault store.now.store (value ∷ [])) value }
    ensures can { CanBeMade result }
{
    match value {
        Holder::Nil => Outcome::Value(Holder::Int(0)),
        Holder::True => Outcome::Value(Holder::Int(1)),
        Holder::Int(_) => Outcome::Value(value),
        _ => Outcome::Fault(kind_fault(store, &[value])),
    }
}

/// The integer that a text says: after spaces, and one `-` if there is one.
fn text_integer(bytes: &[u8]) -> Outcome
    ensures made { made_of result ≡ text_integer_of bytes.now }
    ensures can { CanBeMade result }
{
    let rest = after_spaces(bytes);
    match rest.split_first() {
        Some((b'-', digits)) => negative_number(digits),
        _ => leading_integer(rest),
    }
}

/// The bytes after the spaces that a text begins with.
fn after_spaces(bytes: &[u8]) -> &[u8]
    ensures { result.now ≡ after_spaces bytes.now }
{
    let mut rest = bytes;
    while let Some((b' ', behind)) = rest.split_first() {
        rest = behind;
    }
    rest
}

/// The integer that digits give.
fn leading_integer(bytes: &[u8]) -> Outcome
    ensures made { made_of result ≡ integer_value (number (pos (leading_number_of 0 bytes.now))) }
    ensures can { CanBeMade result }
{
    match leading_number(bytes) {
        Some(value) if value < 0x8000_0000 => Outcome::Value(Holder::Int(value as i32)),
        _ => Outcome::Fault(Fault::Overflow),
    }
}

/// The negative of the integer that digits give.
fn negative_number(bytes: &[u8]) -> Outcome
    ensures made { made_of result
        ≡ integer_value (number (neg_ℤ (pos (leading_number_of 0 bytes.now)))) }
    ensures can { CanBeMade result }
{
    match leading_number(bytes) {
        Some(value) => Outcome::Value(Holder::Int((-i64::from(value)) as i32)),
        None => Outcome::Fault(Fault::Overflow),
    }
}

/// The number that digits give as far as they go. `None` exactly where it is above 2^31.
fn leading_number(bytes: &[u8]) -> Option<u32>
    ensures { MatchOption result (2 ^ 31 < leading_number_of 0 bytes.now)
        (λ n. (n ≡ leading_number_of 0 bytes.now) × (n ≤ 2 ^ 31)) }
{
    let mut value = 0;
    for byte in bytes {
        if *byte < b'0' || *byte > b'9' {
            return Some(value);
        }
        let next = 10 * u64::from(value) + u64::from(*byte - b'0');
        // A digit more never makes it less.
        if next > 0x8000_0000 {
            return None;
        }
        value = next as u32;
    }
    Some(value)
}
