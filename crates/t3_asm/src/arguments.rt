//! What stands in the fields of a line, counted from 0.
ghost use Rattle.std.specs.Prelude.{◌≡◌};
ghost use Rattle.std.specs.List.{list_any};
ghost use Rattle.t3_asm.specs.Arguments.{number_at as number_in_field, short_at as short_in_field, text_at as text_in_field, extra_bytes as extra_in, resized as resized_to, block_name as name_in, is_address as names_address, is_offset as names_offset};

use t3_asm_line::{Argument, Keyword};

/// The number in a field; 0 where there is none.
pub(crate) fn number_at(arguments: &[Argument], at: usize) -> u32
    ensures { result ≡ number_in_field arguments.now at }
{
    match arguments.get(at) {
        Some(Argument::Number(number)) => *number,
        _ => 0,
    }
}

/// The number in a field of two bytes.
pub(crate) fn short_at(arguments: &[Argument], at: usize) -> u16
    ensures { result ≡ short_in_field arguments.now at }
{
    (number_at(arguments, at) % 65536) as u16
}

/// The text in a field; nothing where there is none.
pub(crate) fn text_at(arguments: &[Argument], at: usize) -> &[u8]
    ensures { result.now ≡ text_in_field arguments.now at }
{
    match arguments.get(at) {
        Some(Argument::Text(text)) => &text.0,
        _ => b"",
    }
}

/// What a property has besides its number: nothing where its line says no more.
pub(crate) fn extra_bytes(keyword: Keyword, arguments: &[Argument]) -> &[u8]
    ensures { result.now ≡ extra_in keyword arguments.now }
{
    match keyword {
        Keyword::Prop => b"",
        _ => text_at(arguments, 1),
    }
}

/// Whether one of them names a label by its address.
pub(crate) fn name_address(arguments: &[Argument]) -> bool
    ensures { result ≡ list_any names_address arguments.now }
{
    arguments.iter().any(|argument| is_address(argument))
}

/// Whether one of them names a label by its place in the method.
pub(crate) fn name_offset(arguments: &[Argument]) -> bool
    ensures { result ≡ list_any names_offset arguments.now }
{
    arguments.iter().any(|argument| is_offset(argument))
}

/// Whether it names a label by its address.
fn is_address(argument: &Argument) -> bool
    ensures { result ≡ names_address argument.now }
{
    matches!(argument, Argument::Address(_))
}

/// Whether it names a label by its place in the method.
fn is_offset(argument: &Argument) -> bool
    ensures { result ≡ names_offset argument.now }
{
    matches!(argument, Argument::Offset(_))
}

/// The four bytes of a block's name.
pub(crate) fn block_name(arguments: &[Argument]) -> [u8; 4]
    ensures { result ≡ name_in arguments.now }
{
    resized(text_at(arguments, 0), 0)
}

/// Bytes cut or filled up to the size of an array.
#[tactic(auto, unfolding(crate::specs::Arguments::resized))]
pub(crate) fn resized<const N: usize>(bytes: &[u8], fill: u8) -> [u8; N]
    ensures { result ≡ resized_to N fill bytes.now }
{
    let mut array = [fill; N];
    let count = bytes.len().min(N);
    array[..count].copy_from_slice(&bytes[..count]);
    array
}
