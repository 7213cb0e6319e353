//! The lines of a listing.
ghost use Rattle.std.specs.Prelude.{◌≡◌, ◌∷◌, [], ◌++◌, map, length, IfOk, IfErr};
ghost use Rattle.std.specs.Fmt.{decimal};
ghost use Rattle.std.specs.List.{flat_map};
ghost use Rattle.hex.specs.Hex.{encode_lower};
ghost use Rattle.t3_asm_line.specs.Keywords.{fields_of};
ghost use Rattle.t3_asm_line.specs.Listing.{listed_line, spelled as spelled_by, spelled_fields, escape_of, quoted_text, hex_text};
ghost use Rattle.t3_asm_line.specs.Appending.{Appends, argument_of};

use crate::field::{Field, Layout};
use crate::keyword::Keyword;
use itoa::Buffer;
use std::alloc::Global;
use t3_holder::NoMemory;

/// What a field of a listing's line has.
#[derive(Clone, Copy, Debug)]
pub enum Listed<'a> {
    /// A number, as the bits of its field.
    Number(u32),
    /// The bytes of a quoted text or of HEX.
    Text(&'a [u8]),
}

/// Appends a line of a listing, and its newline.
///
/// Where memory is wanting, the bytes are as before.
pub fn append_line(
    alloc: Global,
    keyword: Keyword,
    arguments: &[Listed],
    out: &mut Vec<u8>,
) -> Result<(), NoMemory>
    requires { length arguments.now ≡ length (fields_of keyword) }
    ensures appended { IfOk result (λ _. out.new.items
        ≡ out.old.items ++ (listed_line keyword (map argument_of arguments.now) ++ 10 ∷ [])) }
    ensures kept { IfErr result (λ _. out.new.items ≡ out.old.items) }
{
    let before = out.len();
    match append_parts(alloc, keyword, arguments, out) {
        Ok(()) => Ok(()),
        Err(refusal) => {
            out.truncate(before);
            Err(refusal)
        }
    }
}

#[tactic(auto, unfolding(crate::specs::Listing::listed_line))]
fn append_parts(
    alloc: Global,
    keyword: Keyword,
    arguments: &[Listed],
    out: &mut Vec<u8>,
) -> Result<(), NoMemory>
    requires { length arguments.now ≡ length (fields_of keyword) }
    ensures { Appends out.old.items out.new.items
        (listed_line keyword (map argument_of arguments.now) ++ 10 ∷ []) result }
{
    append_bytes(keyword.name(), out)?;
    append_fields(alloc, keyword, arguments, out)?;
    append_bytes(b"\n", out)
}

/// Appends each argument behind a space.
fn append_fields(
    alloc: Global,
    keyword: Keyword,
    arguments: &[Listed],
    out: &mut Vec<u8>,
) -> Result<(), NoMemory>
    requires { length arguments.now ≡ length (fields_of keyword) }
    ensures { Appends out.old.items out.new.items
        (spelled_fields (fields_of keyword) (map argument_of arguments.now)) result }
{
    for at in 0..arguments.len() {
        append_field(alloc, keyword.field(at), arguments[at], out)?;
    }
    Ok(())
}

/// Appends an argument behind a space.
fn append_field(
    alloc: Global,
    field: Field,
    argument: Listed,
    out: &mut Vec<u8>,
) -> Result<(), NoMemory>
    ensures { Appends out.old.items out.new.items
        (32 ∷ spelled_by field (argument_of argument.entry)) result }
{
    append_bytes(b" ", out)?;
    append_argument(alloc, field, argument, out)
}

/// Appends an argument as its field spells it.
#[tactic(auto, unfolding(crate::specs::Listing::spelled))]
fn append_argument(
    alloc: Global,
    field: Field,
    argument: Listed,
    out: &mut Vec<u8>,
) -> Result<(), NoMemory>
    ensures { Appends out.old.items out.new.items
        (spelled_by field (argument_of argument.entry)) result }
{
    match (field.layout(), argument) {
        (Layout::Number { .. }, Listed::Number(number)) => append_number(number, out),
        (Layout::Quoted { .. }, Listed::Text(text)) => append_quoted(alloc, text, out),
        (Layout::Hex { .. }, Listed::Text(bytes)) => append_hex(alloc, bytes, out),
        _ => Ok(()),
    }
}

fn append_number(number: u32, out: &mut Vec<u8>) -> Result<(), NoMemory>
    ensures { Appends out.old.items out.new.items (decimal number) result }
{
    let mut buffer = Buffer::new();
    append_bytes(buffer.format(number).as_bytes(), out)
}

/// Appends bytes as HEX.
#[tactic(auto, unfolding(crate::specs::Listing::hex_text))]
fn append_hex(alloc: Global, bytes: &[u8], out: &mut Vec<u8>) -> Result<(), NoMemory>
    ensures { Appends out.old.items out.new.items (hex_text bytes.now) result }
{
    if bytes.is_empty() {
        return append_bytes(b"-", out);
    }
    append_digits(alloc, bytes, out)
}

/// Appends two lower-case digits for each byte.
fn append_digits(alloc: Global, bytes: &[u8], out: &mut Vec<u8>) -> Result<(), NoMemory>
    ensures { Appends out.old.items out.new.items (encode_lower bytes.now) result }
{
    let digits = hex::encode(alloc, bytes)?;
    append_bytes(digits.as_bytes(), out)
}

/// Appends a quoted text.
#[tactic(auto, unfolding(crate::specs::Listing::quoted_text))]
fn append_quoted(alloc: Global, text: &[u8], out: &mut Vec<u8>) -> Result<(), NoMemory>
    ensures { Appends out.old.items out.new.items (quoted_text text.now) result }
{
    append_bytes(b"\"", out)?;
    append_escapes(alloc, text, out)?;
    append_bytes(b"\"", out)
}

fn append_escapes(alloc: Global, text: &[u8], out: &mut Vec<u8>) -> Result<(), NoMemory>
    ensures { Appends out.old.items out.new.items (flat_map escape_of text.now) result }
{
    for byte in text {
        append_escape(alloc, *byte, out)?;
    }
    Ok(())
}

/// Appends a byte as it stands in a quoted text.
fn append_escape(alloc: Global, byte: u8, out: &mut Vec<u8>) -> Result<(), NoMemory>
    ensures { Appends out.old.items out.new.items (escape_of byte) result }
{
    match byte {
        b'"' => append_bytes(b"\\\"", out),
        b'\\' => append_bytes(b"\\\\", out),
        b'\n' => append_bytes(b"\\n", out),
        b' '..=b'~' => append_bytes(&[byte], out),
        _ => {
            append_bytes(b"\\x", out)?;
            append_digits(alloc, &[byte], out)
        }
    }
}

fn append_bytes(bytes: &[u8], out: &mut Vec<u8>) -> Result<(), NoMemory>
    ensures { Appends out.old.items out.new.items bytes.now result }
{
    out.extend_from_slice(bytes)?;
    Ok(())
}
