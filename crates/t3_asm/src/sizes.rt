//! How many bytes lines put into pages and objects.
ghost use Rattle.std.specs.Prelude.{◌≡◌, ◌+◌, ◌*◌, ◌^◌, ◌<◌, ◌≤◌};
ghost use Rattle.t3_asm_line.specs.Keywords.{fields_of};
ghost use Rattle.t3_asm.specs.Sizes.{width_of as width, fields_size as size_of_fields, content_size as size_of_content};

use crate::arguments::text_at;
use t3_asm_line::{Argument, Field, Keyword, Layout};

/// How many bytes a number of the field has.
pub(crate) fn width_of(field: Field) -> u8
    ensures width { result ≡ width field }
    ensures few { result ≤ 4 }
{
    match field.layout() {
        Layout::Number { width, .. } => width,
        _ => 0,
    }
}

/// How many bytes the numbers of a line have.
fn fields_size(keyword: Keyword) -> u128
    ensures size { result ≡ size_of_fields (fields_of keyword) }
    ensures few { result ≤ 2 ^ 66 }
{
    let mut size = 0;
    for at in 0..keyword.field_count() {
        size += u128::from(width_of(keyword.field(at)));
    }
    size
}

/// How many bytes a line puts where it stands in a page or in an object.
pub(crate) fn content_size(keyword: Keyword, arguments: &[Argument]) -> u128
    ensures size { result ≡ size_of_content keyword arguments.now }
    ensures few { result ≤ 2 ^ 67 }
{
    match keyword {
        Keyword::Bytes => text_at(arguments, 0).len() as u128,
        Keyword::Text => 2 + text_at(arguments, 0).len() as u128,
        Keyword::U1 => 1,
        Keyword::U2 => 2,
        Keyword::U4 => 4,
        Keyword::Hold => 5,
        Keyword::Method | Keyword::MethodOptional => 10,
        Keyword::Table => 2,
        Keyword::Handler => 10,
        Keyword::Case => 7,
        Keyword::Default => 2,
        Keyword::Instruction(_) => 1 + fields_size(keyword),
        _ => 0,
    }
}
