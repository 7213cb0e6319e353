//! The lines of a listing.
ghost use Rattle.std.specs.Prelude.{◌≡◌, ◌∷◌, ◌++◌, [], length, map, IfOk};
ghost use Rattle.std.specs.List.{AllByRecursion, flat_map};
ghost use Rattle.t3_holder.specs.NumberText.{AreBytes};
ghost use Rattle.t3_asm_line.specs.Appending.{argument_of};
ghost use Rattle.t3_asm_line.specs.declared.argument.Argument.TheVariants.{Text};
ghost use Rattle.t3_asm_line.specs.Keywords.{fields_of};
ghost use Rattle.t3_asm_line.specs.Line.{parsed_line};
ghost use Rattle.t3_asm.specs.Inner.Listed.{Lists};
ghost use Rattle.t3_asm.specs.Listing.{bytes_lines, head_line};

use std::alloc::Global;
use t3_asm_line::{Keyword, Listed, append_line};
use t3_blocks::{Meta, PropEntry, Static, Symbol};
use t3_holder::{Bytes, NoMemory};
use t3_image_read::{Head, PlacedBlock};

/// How many bytes a line of bytes has at most.
const PIECE: usize = 32;

/// What a listing has lines of.
pub(crate) trait Lines {
    ghost use Rattle.std.specs.Prelude.{ℕ, List, IfOk};
    ghost use Rattle.t3_asm_line.specs.declared.line.ParsedLine.{ParsedLine};
    ghost use Rattle.t3_asm.specs.Inner.Listed.{Lists};

    /// Its lines, in a list whose entries have this size.
    ghost lines: { ℕ → Self → List ParsedLine };

    /// Its names and its texts are bytes.
    ghost has_bytes: { Self → Type 0 };

    /// Appends the lines.
    fn append(&self, alloc: Global, size: u16, out: &mut Vec<u8>) -> Result<(), NoMemory>
        ensures lines { Lists out.old.items out.new.items (lines size self.now) result }
        ensures bytes { IfOk result (λ _. has_bytes self.now) };
}

/// Appends the lines of each.
pub(crate) fn append_all<L: Lines>(
    alloc: Global,
    size: u16,
    items: &[L],
    out: &mut Vec<u8>,
) -> Result<(), NoMemory>
    ensures lines { Lists out.old.items out.new.items (flat_map (L.lines size) items.now) result }
    ensures bytes { IfOk result (λ _. AllByRecursion L.has_bytes items.now) }
{
    for item in items {
        item.append(alloc, size, out)?;
    }
    Ok(())
}

/// A text of a line.
pub(crate) fn text(bytes: &[u8]) -> Listed<'_>
    ensures spelled { argument_of result ≡ Text bytes.now }
    ensures bytes { AreBytes bytes.now }
{
    Listed::Text(bytes)
}

/// Appends a line.
pub(crate) fn append(
    alloc: Global,
    keyword: Keyword,
    arguments: &[Listed],
    out: &mut Vec<u8>,
) -> Result<(), NoMemory>
    requires { length arguments.now ≡ length (fields_of keyword) }
    ensures { Lists out.old.items out.new.items
        (parsed_line keyword (map argument_of arguments.now) ∷ []) result }
{
    append_line(alloc, keyword, arguments, out)
}

/// Appends lines of 32 bytes, the last shorter.
pub(crate) fn append_bytes(alloc: Global, bytes: &[u8], out: &mut Vec<u8>) -> Result<(), NoMemory>
    ensures lines { Lists out.old.items out.new.items (bytes_lines bytes.now) result }
    ensures bytes { AreBytes bytes.now }
{
    let mut rest = bytes;
    while !rest.is_empty() {
        let (piece, behind) = rest.split_at(rest.len().min(PIECE));
        append(alloc, Keyword::Bytes, &[Listed::Text(piece)], out)?;
        rest = behind;
    }
    Ok(())
}

impl Lines for Static {
    ghost use Rattle.t3_asm.specs.HasBytes.{StaticHasBytes};
    ghost use Rattle.t3_asm.specs.Listing.{static_lines};

    ghost lines = { λ _. static_lines };

    ghost has_bytes = { StaticHasBytes };

    fn append(&self, alloc: Global, _size: u16, out: &mut Vec<u8>) -> Result<(), NoMemory> {
        append(alloc, Keyword::Object, &[Listed::Number(self.number)], out)?;
        append_bytes(alloc, &self.bytes.0, out)
    }
}

impl Lines for Meta {
    ghost use Rattle.t3_asm.specs.HasBytes.{MetaHasBytes};
    ghost use Rattle.t3_asm.specs.Listing.{meta_lines};

    ghost lines = { λ _. meta_lines };

    ghost has_bytes = { MetaHasBytes };

    fn append(&self, alloc: Global, _size: u16, out: &mut Vec<u8>) -> Result<(), NoMemory> {
        let arguments = [
            text(&self.name.0),
            Listed::Number(u32::from(self.property_size)),
            text(&self.tail.0),
        ];
        append(alloc, Keyword::Metaclass, &arguments, out)?;
        append_all(alloc, self.property_size, &self.props.0, out)
    }
}

impl Lines for PropEntry {
    ghost use Rattle.t3_asm.specs.HasBytes.{PropHasBytes};
    ghost use Rattle.t3_asm.specs.Listing.{prop_lines};

    ghost lines = { prop_lines };

    ghost has_bytes = { PropHasBytes };

    fn append(&self, alloc: Global, size: u16, out: &mut Vec<u8>) -> Result<(), NoMemory> {
        let arguments = [Listed::Number(u32::from(self.number)), text(&self.extra.0)];
        if size == 2 {
            append(alloc, Keyword::Prop, &arguments[..1], out)
        } else {
            append(alloc, Keyword::PropBytes, &arguments, out)
        }
    }
}

impl Lines for Bytes {
    ghost use Rattle.t3_holder.specs.NumberText.{AreBytes};
    ghost use Rattle.t3_asm.specs.Listing.{name_lines};

    ghost lines = { λ _. name_lines };

    ghost has_bytes = { AreBytes };

    fn append(&self, alloc: Global, _size: u16, out: &mut Vec<u8>) -> Result<(), NoMemory> {
        append(alloc, Keyword::FunctionSet, &[text(&self.0)], out)
    }
}

impl Lines for Symbol {
    ghost use Rattle.t3_asm.specs.HasBytes.{SymbolHasBytes};
    ghost use Rattle.t3_asm.specs.Listing.{symbol_lines};

    ghost lines = { λ _. symbol_lines };

    ghost has_bytes = { SymbolHasBytes };

    fn append(&self, alloc: Global, _size: u16, out: &mut Vec<u8>) -> Result<(), NoMemory> {
        let arguments = [
            Listed::Number(u32::from(self.raw.tag)),
            Listed::Number(self.raw.bits),
            text(&self.name.0),
        ];
        append(alloc, Keyword::Symbol, &arguments, out)
    }
}

/// Appends the line of the header.
pub(crate) fn append_head(alloc: Global, head: &Head, out: &mut Vec<u8>) -> Result<(), NoMemory>
    ensures lines { Lists out.old.items out.new.items (head_line head.now ∷ []) result }
    ensures reserved { AreBytes head.now.reserved }
    ensures stamp { AreBytes head.now.stamp }
{
    let arguments = [text(&head.reserved), text(&head.stamp)];
    append(alloc, Keyword::ImageHead, &arguments, out)
}
