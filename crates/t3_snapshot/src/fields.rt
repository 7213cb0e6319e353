//! The fields of a saved state.
ghost use Rattle.std.specs.Prelude.{◌≡◌, Some, None};
ghost use Rattle.std.specs.Str.{is_utf8};
ghost use Rattle.t3_snapshot.specs.Inner.Reading.{Gives, number_at, byte_at, holder_from, holder_at, front_at, text_at, key_of_holder, key_by, key_at, entry_at, class_from, class_at, prop_at};

use crate::read_error::ReadError;
use std::alloc::Global;
use t3_holder::{Bytes, Holder, Raw, holder_of, raw_of, u16_at, u32_at};
use t3_tables::Pair;
use t3_tadsobj::PropValue;
use t3_undo::Key;

pub(crate) fn take_byte(bytes: &[u8]) -> Result<(u8, &[u8]), ReadError>
    ensures { Gives (λ x. (x.0, x.1.now)) result (byte_at bytes.now) }
{
    match bytes {
        [] => Err(ReadError::Misspelled),
        [byte, rest @ ..] => Ok((*byte, rest)),
    }
}

pub(crate) fn take_u16(bytes: &[u8]) -> Result<(u16, &[u8]), ReadError>
    ensures { Gives (λ x. (x.0, x.1.now)) result (number_at 2 bytes.now) }
{
    if bytes.len() < 2 {
        return Err(ReadError::Misspelled);
    }
    let (_, rest) = bytes.split_at(2);
    Ok((u16_at(bytes, 0), rest))
}

pub(crate) fn take_u32(bytes: &[u8]) -> Result<(u32, &[u8]), ReadError>
    ensures { Gives (λ x. (x.0, x.1.now)) result (number_at 4 bytes.now) }
{
    if bytes.len() < 4 {
        return Err(ReadError::Misspelled);
    }
    let (_, rest) = bytes.split_at(4);
    Ok((u32_at(bytes, 0), rest))
}

#[tactic(auto, unfolding(crate::specs::Inner::Reading::holder_at))]
pub(crate) fn take_holder(bytes: &[u8]) -> Result<(Holder, &[u8]), ReadError>
    ensures { Gives (λ x. (x.0, x.1.now)) result (holder_at bytes.now) }
{
    let (tag, rest) = take_byte(bytes)?;
    let (bits, rest) = take_u32(rest)?;
    let holder = exact_holder(tag, bits)?;
    Ok((holder, rest))
}

/// The holder of a type and a value, where no bits are set that its type doesn't use.
fn exact_holder(tag: u8, bits: u32) -> Result<Holder, ReadError>
    ensures { Gives (λ holder. holder) result (holder_from tag bits) }
{
    match holder_of(Raw { tag, bits }) {
        Some(holder) => {
            if raw_of(holder).bits == bits {
                Ok(holder)
            } else {
                Err(ReadError::Misspelled)
            }
        }
        None => Err(ReadError::Misspelled),
    }
}

#[tactic(auto, unfolding(crate::specs::Inner::Reading::front_at))]
pub(crate) fn take_front(count: usize, bytes: &[u8]) -> Result<(&[u8], &[u8]), ReadError>
    ensures { Gives (λ x. (x.0.now, x.1.now)) result (front_at count bytes.now) }
{
    if bytes.len() < count {
        return Err(ReadError::Misspelled);
    }
    Ok(bytes.split_at(count))
}

#[tactic(auto, unfolding(crate::specs::Inner::Reading::text_at))]
pub(crate) fn take_text(bytes: &[u8]) -> Result<(&[u8], &[u8]), ReadError>
    ensures { Gives (λ x. (x.0.now, x.1.now)) result (text_at bytes.now) }
{
    let (count, rest) = take_u16(bytes)?;
    let (text, rest) = take_front(usize::from(count), rest)?;
    if !is_utf8(text) {
        return Err(ReadError::Misspelled);
    }
    Ok((text, rest))
}

/// Whether bytes are UTF-8.
fn is_utf8(bytes: &[u8]) -> bool
    ensures { result ≡ is_utf8 bytes.now }
{
    match str::from_utf8(bytes) {
        Ok(_) => true,
        Err(_) => false,
    }
}

pub(crate) fn key_of(holder: Holder) -> Result<Key, ReadError>
    ensures { Gives (λ key. key) result (key_of_holder holder) }
{
    match holder {
        Holder::Nil => Ok(Key::Nil),
        Holder::True => Ok(Key::True),
        Holder::Int(number) => Ok(Key::Int(number)),
        Holder::Enum(number) => Ok(Key::Enum(number)),
        Holder::Prop(number) => Ok(Key::Prop(number)),
        Holder::Obj(number) => Ok(Key::Obj(number)),
        Holder::Func(address) => Ok(Key::Func(address)),
        Holder::Text(_) | Holder::Shown(_) | Holder::List(_) | Holder::Code(_) => Err(
            ReadError::Misspelled,
        ),
    }
}

#[tactic(auto, unfolding(crate::specs::Inner::Reading::key_by))]
pub(crate) fn take_key_by(alloc: Global, tag: u8, bytes: &[u8]) -> Result<(Key, &[u8]), ReadError>
    ensures { Gives (λ x. (x.0, x.1.now)) result (key_by tag bytes.now) }
{
    match tag {
        0 => {
            let (holder, rest) = take_holder(bytes)?;
            let key = key_of(holder)?;
            Ok((key, rest))
        }
        1 => {
            let (text, rest) = take_text(bytes)?;
            let text = Vec::from_slice(alloc, text)?;
            Ok((Key::Text(Bytes(text)), rest))
        }
        _ => Err(ReadError::Misspelled),
    }
}

#[tactic(auto, unfolding(crate::specs::Inner::Reading::key_at))]
pub(crate) fn take_key(alloc: Global, bytes: &[u8]) -> Result<(Key, &[u8]), ReadError>
    ensures { Gives (λ x. (x.0, x.1.now)) result (key_at bytes.now) }
{
    let (tag, rest) = take_byte(bytes)?;
    let (key, rest) = take_key_by(alloc, tag, rest)?;
    Ok((key, rest))
}

#[tactic(auto, unfolding(crate::specs::Inner::Reading::entry_at))]
pub(crate) fn take_entry(alloc: Global, bytes: &[u8]) -> Result<(Pair, &[u8]), ReadError>
    ensures { Gives (λ x. (x.0, x.1.now)) result (entry_at bytes.now) }
{
    let (key, rest) = take_key(alloc, bytes)?;
    let (value, rest) = take_holder(rest)?;
    Ok((Pair { key, value }, rest))
}

/// Whether a tads-object with these flags is a class.
fn class_of(flags: u16) -> Result<bool, ReadError>
    ensures { Gives (λ class. class) result (class_from flags) }
{
    match flags {
        0 => Ok(false),
        1 => Ok(true),
        _ => Err(ReadError::Misspelled),
    }
}

/// The flags of a tads-object, which say whether it is a class.
#[tactic(auto, unfolding(crate::specs::Inner::Reading::class_at))]
pub(crate) fn take_class(bytes: &[u8]) -> Result<(bool, &[u8]), ReadError>
    ensures { Gives (λ x. (x.0, x.1.now)) result (class_at bytes.now) }
{
    let (flags, rest) = take_u16(bytes)?;
    let class = class_of(flags)?;
    Ok((class, rest))
}

/// A property of a tads-object.
#[tactic(auto, unfolding(crate::specs::Inner::Reading::prop_at))]
pub(crate) fn take_prop(bytes: &[u8]) -> Result<(PropValue, &[u8]), ReadError>
    ensures { Gives (λ x. (x.0, x.1.now)) result (prop_at bytes.now) }
{
    let (number, rest) = take_u16(bytes)?;
    let (value, rest) = take_holder(rest)?;
    Ok((PropValue { number, value }, rest))
}
