//! The bytes of lines that pages, objects and kept blocks have.
ghost use Rattle.std.specs.Prelude.{◌≡◌, ◌^◌, ◌≤◌, ◌++◌, length, IfOk};
ghost use Rattle.t3_holder.specs.NumberText.{little_endian};
ghost use Rattle.t3_asm_line.specs.Keywords.{fields_of};
ghost use Rattle.t3_asm.specs.Blocks.{contents_of};
ghost use Rattle.t3_asm.specs.Inner.Forming.{IsNear, AreNear};
ghost use Rattle.t3_asm.specs.Inner.Measures.{near};
ghost use Rattle.t3_asm.specs.Places.{Labels as AnyLabels};
ghost use Rattle.t3_asm.specs.Sizes.{content_size as size_of_content};
ghost use Rattle.t3_asm.specs.Values.{content_text, fields_text, header_text, numbers_text, method_text};

use crate::arguments::{number_at, text_at};
use crate::item::Item;
use crate::labels::Labels;
use crate::level::Level;
use crate::sizes::{content_size, width_of};
use crate::values::{Origin, value_in};
use std::alloc::Global;
use t3_asm_line::{Argument, Field, Keyword};
use t3_holder::{Bytes, NoMemory};

/// The bytes that lines put, up to one that ends them.
pub(crate) fn contents(
    alloc: Global,
    level: Level,
    labels: &Labels,
    items: &[Item],
) -> Result<Bytes, NoMemory>
    requires { AreNear items.now }
    ensures { IfOk result (λ bytes. bytes ≡ contents_of level labels.now items.now) }
{
    let mut bytes = Vec::new(alloc);
    for item in items {
        if level.is_ended_by(item.keyword) {
            return Ok(Bytes(bytes));
        }
        append_content(labels, item, &mut bytes)?;
    }
    Ok(Bytes(bytes))
}

/// How many bytes these are, as far as they can be counted.
pub(crate) fn contents_size(level: Level, items: &[Item]) -> u64
    ensures { (labels : AnyLabels) → result ≡ near (length (contents_of level labels items.now)) }
{
    let mut size = 0_u64;
    for item in items {
        if level.is_ended_by(item.keyword) {
            return size;
        }
        size = size.saturating_add(content_measure(item));
    }
    size
}

/// How many bytes a line puts, as far as they can be counted.
fn content_measure(item: &Item) -> u64
    ensures { (labels : AnyLabels) → result ≡ near (length (content_text labels item.now)) }
{
    put_size(item).min(0xFFFF_FFFF_FFFF_FFFF) as u64
}

/// How many bytes a line puts.
fn put_size(item: &Item) -> u128
    ensures { result ≡ size_of_content item.now.keyword item.now.arguments }
{
    content_size(item.keyword, &item.arguments.0)
}

/// Appends the bytes that a line puts.
#[tactic(auto, unfolding(crate::specs::Values::content_text))]
fn append_content(labels: &Labels, item: &Item, out: &mut Vec<u8>) -> Result<(), NoMemory>
    requires { IsNear item.now }
    ensures { IfOk result (λ _. out.new.items ≡ out.old.items ++ content_text labels.now item.now) }
{
    match item.keyword {
        Keyword::Bytes => append_bytes(text_at(&item.arguments.0, 0), out),
        Keyword::Text => append_text(text_at(&item.arguments.0, 0), out),
        Keyword::U1 => append_numbers(labels, item, out),
        Keyword::U2 => append_numbers(labels, item, out),
        Keyword::U4 => append_numbers(labels, item, out),
        Keyword::Hold => append_numbers(labels, item, out),
        Keyword::Method => append_method(labels, item, out),
        Keyword::MethodOptional => append_method(labels, item, out),
        Keyword::Table => append_numbers(labels, item, out),
        Keyword::Handler => append_numbers(labels, item, out),
        Keyword::Case => append_numbers(labels, item, out),
        Keyword::Default => append_numbers(labels, item, out),
        Keyword::Instruction(opcode) => {
            append_bytes(&[opcode], out)?;
            append_numbers(labels, item, out)
        }
        _ => Ok(()),
    }
}

/// Appends a text behind its length.
fn append_text(text: &[u8], out: &mut Vec<u8>) -> Result<(), NoMemory>
    ensures { IfOk result (λ _. out.new.items
        ≡ out.old.items ++ (little_endian 2 (length text.now) ++ text.now)) }
{
    append_number(2, text.len() as u128, out)?;
    append_bytes(text, out)
}

/// Appends a method's header.
fn append_method(labels: &Labels, item: &Item, out: &mut Vec<u8>) -> Result<(), NoMemory>
    ensures { IfOk result (λ _. out.new.items ≡ out.old.items ++ method_text labels.now item.now) }
{
    let arguments = &item.arguments.0;
    let origin = Origin {
        method: item.place.method,
        address: 0,
    };
    let table = value_in(labels, origin, Field::Offset, arguments.get(3));
    append_header(
        u128::from(number_at(arguments, 0)),
        u128::from(number_at(arguments, 4)),
        u128::from(number_at(arguments, 1)),
        u128::from(number_at(arguments, 2)),
        table,
        out,
    )
}

/// Appends a header of these numbers.
fn append_header(
    parameters: u128,
    optional: u128,
    locals: u128,
    stack: u128,
    table: u128,
    out: &mut Vec<u8>,
) -> Result<(), NoMemory>
    ensures { IfOk result (λ _. out.new.items
        ≡ out.old.items ++ header_text parameters optional locals stack table) }
{
    append_number(1, parameters, out)?;
    append_number(1, optional, out)?;
    append_number(2, locals, out)?;
    append_number(2, stack, out)?;
    append_number(2, table, out)?;
    append_bytes(&[0, 0], out)
}

/// Appends the numbers of a line.
fn append_numbers(labels: &Labels, item: &Item, out: &mut Vec<u8>) -> Result<(), NoMemory>
    requires { IsNear item.now }
    ensures { IfOk result (λ _. out.new.items ≡ out.old.items ++ numbers_text labels.now item.now) }
{
    append_fields(labels, item.origin(), item.keyword, &item.arguments.0, out)
}

/// Appends the numbers in fields that begin here.
fn append_fields(
    labels: &Labels,
    origin: Origin,
    keyword: Keyword,
    arguments: &[Argument],
    out: &mut Vec<u8>,
) -> Result<(), NoMemory>
    requires { origin.address ≤ 2 ^ 113 }
    ensures { IfOk result (λ _. out.new.items ≡ out.old.items
        ++ fields_text labels.now origin.method origin.address (fields_of keyword) arguments.now) }
{
    let mut address = origin.address;
    for at in 0..keyword.field_count() {
        let field = keyword.field(at);
        let own = Origin { address, ..origin };
        let value = value_in(labels, own, field, arguments.get(at));
        append_number(width_of(field), value, out)?;
        address += u128::from(width_of(field));
    }
    Ok(())
}

/// Appends a number in so many bytes, its lowest byte first.
fn append_number(width: u8, number: u128, out: &mut Vec<u8>) -> Result<(), NoMemory>
    ensures { IfOk result (λ _. out.new.items ≡ out.old.items ++ little_endian width number) }
{
    let mut rest = number;
    for _at in 0..width {
        out.push((rest % 256) as u8)?;
        rest /= 256;
    }
    Ok(())
}

fn append_bytes(bytes: &[u8], out: &mut Vec<u8>) -> Result<(), NoMemory>
    ensures { IfOk result (λ _. out.new.items ≡ out.old.items ++ bytes.now) }
{
    out.extend_from_slice(bytes)?;
    Ok(())
}
