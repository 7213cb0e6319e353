//! What is shown of an image: a line for each block, and the line of the whole.
ghost use Rattle.std.specs.Prelude.{◌≡◌, ◌+◌, ◌<◌, ◌≤◌, ◌++◌, [], length, map, codes, string_bytes, IfOk};
ghost use Rattle.std.specs.List.{flat_map, AllByRecursion};
ghost use Rattle.t3_blocks.specs.Spelling.{image_limit};
ghost use Rattle.t3_image_read.specs.ImageText.{head_text, block_text};
ghost use Rattle.t3_image_read.specs.Reader.{totals_of};
ghost use Rattle.t3_image_read.specs.declared.image.Head.{Head};
ghost use Rattle.t3_image_read.specs.Validity.{IsGood};
ghost use Rattle.t3_cli.specs.BlockLines.{show_text, totals_text, block_lines, block_line, end_line_at, header_fields, kind_fields, field, shown_byte as shown_as};

use crate::lines;
use std::alloc::{AllocError, Global};
use t3_blocks::{Block, END_NAME};
use t3_image_read::{HEAD_SIZE, Image, Placed, PlacedBlock, Totals};
use t3_image_write::text_size;

/// What `show` shows: a line for each block of an image and for its end, and the line of the whole.
pub(crate) fn image_lines(alloc: Global, image: &Image) -> Result<String, AllocError>
    ensures { IfOk result (λ lines. string_bytes lines ≡ show_text image.now) }
{
    let mut out = String::new(alloc);
    let end = append_blocks(&image.blocks, HEAD_SIZE, &mut out)?;
    append_end(end, image.eof_flags, &mut out)?;
    let whole = check_line(alloc, totals(image))?;
    out.push_str(whole.as_str())?;
    Ok(out)
}

/// How many blocks an image has, its end among them, and how many bytes.
fn totals(image: &Image) -> Totals
    ensures { result ≡ totals_of image.now }
{
    Totals {
        blocks: image.blocks.0.len() + 1,
        bytes: text_size(image),
    }
}

/// What `check` shows.
pub(crate) fn check_line(alloc: Global, totals: Totals) -> Result<String, AllocError>
    ensures { IfOk result (λ line. string_bytes line ≡ totals_text totals) }
{
    lines::ok(alloc, totals.blocks, totals.bytes)
}

/// Appends the lines of blocks of which the first stands at a place, and gives the place after them.
fn append_blocks(blocks: &Placed, first: usize, out: &mut String) -> Result<usize, AllocError>
    requires good { AllByRecursion IsGood blocks.now }
    requires within { first + length (flat_map block_text blocks.now) ≤ image_limit }
    ensures place { IfOk result (λ place. place ≡ first + length (flat_map block_text blocks.now)) }
    ensures lines { IfOk result (λ _. (head : Head) → length (head_text head) ≡ first → string_bytes
        out.new ≡ string_bytes out.old ++ block_lines head [] blocks.now) }
{
    let mut place = first;
    for placed in &blocks.0 {
        append_line(placed, place, out)?;
        place += placed.size();
    }
    Ok(place)
}

/// Appends the line of a block whose header stands at a place.
fn append_line(placed: &PlacedBlock, place: usize, out: &mut String) -> Result<(), AllocError>
    requires { IsGood placed.now }
    ensures { IfOk result
        (λ _. string_bytes out.new ≡ string_bytes out.old ++ block_line place placed.now) }
{
    let size = placed.block.payload_size();
    append_header(placed.block.name(), place, size, placed.flags, out)?;
    append_kind(&placed.block, out)?;
    out.push('\n')
}

/// Appends the line of the block that ends an image.
fn append_end(place: usize, flags: u16, out: &mut String) -> Result<(), AllocError>
    ensures { IfOk result
        (λ _. string_bytes out.new ≡ string_bytes out.old ++ end_line_at place flags) }
{
    append_header(END_NAME, place, 0, flags, out)?;
    out.push('\n')
}

/// Appends what every block's line begins with.
fn append_header(
    name: [u8; 4],
    place: usize,
    size: u32,
    flags: u16,
    out: &mut String,
) -> Result<(), AllocError>
    ensures { IfOk result
        (λ _. string_bytes out.new ≡ string_bytes out.old ++ header_fields name place size flags) }
{
    append_name(&name, out)?;
    append_field("at", place as u64, out)?;
    append_field("size", u64::from(size), out)?;
    append_field("flags", u64::from(flags), out)
}

/// Appends what is shown of a block of its kind besides.
fn append_kind(block: &Block, out: &mut String) -> Result<(), AllocError>
    ensures { IfOk result
        (λ _. string_bytes out.new ≡ string_bytes out.old ++ kind_fields block.now) }
{
    match block {
        Block::Entry { code, .. } => append_field("code", u64::from(*code), out),
        Block::PoolDef { pool, count, size } => {
            append_field("pool", u64::from(*pool), out)?;
            append_field("count", u64::from(*count), out)?;
            append_field("page", u64::from(*size), out)
        }
        Block::Page {
            pool,
            index,
            mask,
            ..
        } => {
            append_field("pool", u64::from(*pool), out)?;
            append_field("index", u64::from(*index), out)?;
            append_field("mask", u64::from(*mask), out)
        }
        Block::Functions { names } => append_field("entries", names.0.len() as u64, out),
        Block::Metas { metas } => append_field("entries", metas.0.len() as u64, out),
        Block::Objects {
            metaclass,
            objects,
            ..
        } => append_objects(objects.0.len() as u64, *metaclass, out),
        Block::Symbols { symbols } => append_field("entries", symbols.0.len() as u64, out),
        Block::Opaque { .. } => Ok(()),
    }
}

fn append_objects(count: u64, metaclass: u16, out: &mut String) -> Result<(), AllocError>
    ensures { IfOk result (λ _. string_bytes out.new ≡ string_bytes out.old ++ (field (codes
        "objects") count ++ field (codes "metaclass") metaclass)) }
{
    append_field("objects", count, out)?;
    append_field("metaclass", u64::from(metaclass), out)
}

/// Appends a number after what it is.
fn append_field(what: &str, number: u64, out: &mut String) -> Result<(), AllocError>
    ensures { IfOk result
        (λ _. string_bytes out.new ≡ string_bytes out.old ++ field what.now number) }
{
    write!(out, " {what}={number}")
}

/// Appends a block's name, as it can be shown.
fn append_name(name: &[u8], out: &mut String) -> Result<(), AllocError>
    ensures { IfOk result
        (λ _. string_bytes out.new ≡ string_bytes out.old ++ map shown_as name.now) }
{
    for byte in name {
        out.push(char::from(shown_byte(*byte)))?;
    }
    Ok(())
}

/// The byte itself where it is one of plain text, and else a question mark.
fn shown_byte(byte: u8) -> u8
    ensures is { result ≡ shown_as byte }
    ensures ascii { result < 128 }
{
    if matches!(byte, 0x20..=0x7E) {
        byte
    } else {
        b'?'
    }
}
