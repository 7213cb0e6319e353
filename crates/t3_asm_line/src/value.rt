//! What words say in the fields of a line.
ghost use Rattle.std.specs.Prelude.{◌≡◌, ◌^◌, ◌≤◌, [], length, map};
ghost use Rattle.std.specs.Option.{option_map};
ghost use Rattle.t3_asm_line.specs.Keywords.{fields_of};
ghost use Rattle.t3_asm_line.specs.Values.{Gives, value_of, values_of, number_value as number_value_of, reference_value as reference_value_of, text_value as text_value_of, holds as holds_of, is_size as is_size_of};

use crate::argument::{Argument, Arguments};
use crate::field::{Field, Layout, Reference};
use crate::hexadecimal::hex_bytes;
use crate::keyword::Keyword;
use crate::labels::is_label;
use crate::numbers::number;
use crate::quoted::quoted;
use crate::refusal::LineRefusal;
use std::alloc::Global;
use t3_holder::Bytes;

/// What words say in a keyword's fields. A word that says nothing comes before one that is out of
/// range.
pub(crate) fn values(
    alloc: Global,
    keyword: Keyword,
    words: &[&[u8]],
) -> Result<Arguments, LineRefusal>
    requires { length (fields_of keyword) ≡ length words.now }
    ensures { Gives result (values_of (fields_of keyword) (map (λ word. word.now) words.now)) }
{
    let mut values = Vec::new(alloc);
    let mut has_far = false;
    for at in 0..words.len() {
        match value(alloc, keyword.field(at), words[at]) {
            Ok(value) => values.push(value)?,
            Err(LineRefusal::Range) => has_far = true,
            Err(refusal) => return Err(refusal),
        }
    }
    if has_far {
        Err(LineRefusal::Range)
    } else {
        Ok(Arguments(values))
    }
}

/// What a word says in a field.
#[tactic(auto, unfolding(crate::specs::Values::value_of))]
fn value(alloc: Global, field: Field, word: &[u8]) -> Result<Argument, LineRefusal>
    ensures { Gives result (value_of field word.now) }
{
    match field.layout() {
        Layout::Number {
            width,
            below,
            most,
            reference,
        } => match number(word) {
            Some(z) => number_value(width, below, most, z),
            None => reference_value(alloc, reference, word),
        },
        Layout::Quoted { least, most } => text_value(quoted(alloc, word)?, least, most),
        Layout::Hex { least, most } => text_value(hex_bytes(alloc, word)?, least, most),
    }
}

/// The bits of a number that a field of so many bytes holds.
#[tactic(auto, using(crate::proofs::Clipping::width_limit))]
fn number_value(width: u8, below: u32, most: u32, z: i64) -> Result<Argument, LineRefusal>
    requires width { width ≤ 4 }
    requires below { below ≤ 256 ^ width }
    ensures { result ≡ number_value_of width below most Reference.Nothing [] (Some z) }
{
    if !holds(below, most, z) {
        Err(LineRefusal::Range)
    } else if z < 0 {
        let limit = 256u64.pow(u32::from(width));
        Ok(Argument::Number((limit - z.unsigned_abs()) as u32))
    } else {
        Ok(Argument::Number(z as u32))
    }
}

/// Whether a number is at most so far below 0, and at most this.
fn holds(below: u32, most: u32, z: i64) -> bool
    ensures { result ≡ holds_of below most z }
{
    if z < 0 {
        z.unsigned_abs() <= u64::from(below)
    } else {
        z.unsigned_abs() <= u64::from(most)
    }
}

/// The label that a word names in place of a number.
fn reference_value(
    alloc: Global,
    reference: Reference,
    word: &[u8],
) -> Result<Argument, LineRefusal>
    ensures { Gives result (reference_value_of reference word.now) }
{
    match (reference, word) {
        (Reference::Address, [b'@', label @ ..]) if is_label(label) => {
            Ok(Argument::Address(Bytes(Vec::from_slice(alloc, label)?)))
        }
        (Reference::Offset, [b'~', label @ ..]) if is_label(label) => {
            Ok(Argument::Offset(Bytes(Vec::from_slice(alloc, label)?)))
        }
        _ => Err(LineRefusal::Number),
    }
}

/// A text of a size that its field holds.
fn text_value(text: Option<Vec<u8>>, least: u16, most: Option<u16>) -> Result<Argument, LineRefusal>
    ensures { result ≡ text_value_of (is_size_of least most)
        (option_map (λ text. text.items) text) }
{
    match text {
        None => Err(LineRefusal::Number),
        Some(text) if is_size(least, most, text.len()) => Ok(Argument::Text(Bytes(text))),
        Some(_) => Err(LineRefusal::Range),
    }
}

/// Whether a text may have this size.
fn is_size(least: u16, most: Option<u16>, size: usize) -> bool
    ensures { result ≡ is_size_of least most size }
{
    usize::from(least) <= size && most.is_none_or(|most| size <= usize::from(most))
}
