//! Strings of copies.
ghost use Rattle.std.specs.Prelude.{◌≡◌, [], ◌∷◌, option_map, IfOk};
ghost use Rattle.std.specs.Char.{encode_utf8};
ghost use Rattle.t3_ops.specs.Values.{integer, kind_fault};
ghost use Rattle.t3_ops.specs.Builtins.{make_string_of, text_copies_of, character_copies_of, plain_copies_of, copies_of, character_of, copy_count};
ghost use Rattle.t3_ops.specs.References.{text_of};
ghost use Rattle.t3_ops.specs.Inner.Outcomes.{made_of, CanBeMade};

use crate::copying::text_bytes;
use crate::fault::Fault;
use crate::ordering::kind_fault;
use crate::outcome::{GREATEST_LENGTH, Outcome, count, fitting_text, outcome_of};
use crate::values::{TextOrListRef, TextRef, text_or_list};
use std::alloc::Global;
use t3_holder::{Holder, NoMemory};
use t3_pools::Pools;
use t3_store::Store;

/// How many copies a string is to be made of: the second argument, or 1.
pub(crate) fn copy_count(args: &[Holder]) -> Holder
    ensures { result ≡ copy_count args.now }
{
    match args.get(1) {
        Some(count) => *count,
        None => Holder::Int(1),
    }
}

/// A string of copies of a text, or of the character of an integer.
pub(crate) fn make_string(
    alloc: Global,
    value: Holder,
    count: Holder,
    store: &Store,
    pools: &Pools,
) -> Result<Outcome, NoMemory>
    ensures made { IfOk result (λ outcome. made_of outcome
        ≡ make_string_of pools.now.constants store.now.store value count) }
    ensures can { IfOk result CanBeMade }
{
    match text_or_list(store, pools, value) {
        TextOrListRef::Text(text) => match count {
            Holder::Int(count) => text_copies(alloc, text, count, pools),
            _ => Ok(Outcome::Fault(Fault::Kind)),
        },
        TextOrListRef::List(_) => Ok(Outcome::Fault(kind_fault(store, &[value]))),
        TextOrListRef::Neither => plain_copies(alloc, value, count, store),
    }
}

/// A string of copies of the character of an integer.
fn plain_copies(
    alloc: Global,
    value: Holder,
    count: Holder,
    store: &Store,
) -> Result<Outcome, NoMemory>
    ensures made { IfOk result (λ outcome. made_of outcome
        ≡ plain_copies_of (kind_fault store.now.store (value ∷ []))
        (integer value) (integer count)) }
    ensures can { IfOk result CanBeMade }
{
    match (value, count) {
        (Holder::Int(code), Holder::Int(count)) => character_copies(alloc, code, count),
        (Holder::Int(_), _) => Ok(Outcome::Fault(Fault::Kind)),
        _ => Ok(Outcome::Fault(kind_fault(store, &[value]))),
    }
}

/// A string of copies of a text.
fn text_copies(
    alloc: Global,
    text: TextRef<'_>,
    number: i32,
    pools: &Pools,
) -> Result<Outcome, NoMemory>
    ensures made { IfOk result (λ outcome. made_of outcome
        ≡ text_copies_of (text_of pools.now.constants text.entry) number) }
    ensures can { IfOk result CanBeMade }
{
    let Some(count) = count(number) else {
        return Ok(Outcome::Fault(Fault::IndexRange));
    };
    match text_bytes(alloc, text, pools)? {
        Some(bytes) => copies(alloc, &bytes, count),
        None => Ok(Outcome::Fault(Fault::BadConstant)),
    }
}

/// A string of copies of the character of a code point.
fn character_copies(alloc: Global, code: i32, number: i32) -> Result<Outcome, NoMemory>
    ensures made { IfOk result (λ outcome. made_of outcome ≡ character_copies_of code number) }
    ensures can { IfOk result CanBeMade }
{
    let Some(character) = character(code) else {
        return Ok(Outcome::Fault(Fault::IndexRange));
    };
    let Some(count) = count(number) else {
        return Ok(Outcome::Fault(Fault::IndexRange));
    };
    let mut text = String::new(alloc);
    text.push(character)?;
    copies(alloc, text.as_bytes(), count)
}

/// The character of a code point. `None` where it is no Unicode scalar value.
fn character(code: i32) -> Option<char>
    ensures { option_map encode_utf8 result ≡ character_of code }
{
    if code < 0 {
        return None;
    }
    char::from_u32(code.cast_unsigned())
}

/// A new string of so many copies. What would be too long isn't made.
fn copies(alloc: Global, bytes: &[u8], count: u16) -> Result<Outcome, NoMemory>
    ensures made { IfOk result (λ outcome. made_of outcome ≡ copies_of bytes.now count) }
    ensures can { IfOk result CanBeMade }
{
    if bytes.len() as u128 * u128::from(count) > GREATEST_LENGTH as u128 {
        return Ok(Outcome::Fault(Fault::TextLong));
    }
    let text = bytes.repeat(alloc, usize::from(count))?;
    Ok(outcome_of(fitting_text(text)))
}
