//! What the lists of blocks have: objects, metaclasses with their properties, names and symbols.
ghost use Rattle.std.specs.Prelude.{◌≡◌, IfOk, length};
ghost use Rattle.t3_asm.specs.Arguments.{text_at as text_in_field, extra_bytes as extra_in};

use crate::arguments::{extra_bytes, number_at, short_at, text_at};
use crate::content::{contents, contents_size};
use crate::entry::{Entry, entries, entries_size};
use crate::item::Item;
use crate::labels::Labels;
use crate::level::{Level, is_function_set, is_meta, is_object, is_prop, is_symbol};
use crate::values::long_at;
use std::alloc::Global;
use t3_asm_line::Keyword;
use t3_blocks::{Meta, PropEntries, PropEntry, Static, Symbol};
use t3_holder::{Bytes, NoMemory, Raw};

impl Entry for Static {
    ghost use Rattle.t3_asm.specs.Blocks.{is_object, static_of};
    ghost use Rattle.t3_asm.specs.declared.level.Level.TheVariants.{InBlock};
    ghost use Rattle.t3_blocks.specs.Spelling.{static_text};

    ghost level = { InBlock };

    ghost begins = { is_object };

    ghost entry = { static_of };

    ghost text = { static_text };

    fn level() -> Level {
        Level::InBlock
    }

    fn is_begun_by(keyword: Keyword) -> bool {
        is_object(keyword)
    }

    fn read(
        alloc: Global,
        labels: &Labels,
        item: &Item,
        behind: &[Item],
    ) -> Result<Static, NoMemory> {
        Ok(Static {
            number: number_at(&item.arguments.0, 0),
            bytes: contents(alloc, Level::InEntry, labels, behind)?,
        })
    }

    fn measure(width: u8, _item: &Item, behind: &[Item]) -> u64 {
        contents_size(Level::InEntry, behind).saturating_add(4 + u64::from(width))
    }
}

impl Entry for Meta {
    ghost use Rattle.t3_asm.specs.Blocks.{is_meta, meta_of};
    ghost use Rattle.t3_asm.specs.declared.level.Level.TheVariants.{InBlock};
    ghost use Rattle.t3_blocks.specs.Spelling.{meta_text};

    ghost level = { InBlock };

    ghost begins = { is_meta };

    ghost entry = { λ _. meta_of };

    ghost text = { λ _. meta_text };

    fn level() -> Level {
        Level::InBlock
    }

    fn is_begun_by(keyword: Keyword) -> bool {
        is_meta(keyword)
    }

    fn read(
        alloc: Global,
        labels: &Labels,
        item: &Item,
        behind: &[Item],
    ) -> Result<Meta, NoMemory> {
        Ok(Meta {
            name: text_bytes(alloc, item, 0)?,
            property_size: short_at(&item.arguments.0, 1),
            props: PropEntries(entries(alloc, labels, behind)?),
            tail: text_bytes(alloc, item, 2)?,
        })
    }

    fn measure(width: u8, item: &Item, behind: &[Item]) -> u64 {
        let own = 7_u64
            .saturating_add(text_size(item, 0))
            .saturating_add(text_size(item, 2));
        own.saturating_add(entries_size::<PropEntry>(width, behind))
    }
}

impl Entry for PropEntry {
    ghost use Rattle.t3_asm.specs.Blocks.{is_prop, prop_of};
    ghost use Rattle.t3_asm.specs.declared.level.Level.TheVariants.{InEntry};
    ghost use Rattle.t3_blocks.specs.Spelling.{prop_text};

    ghost level = { InEntry };

    ghost begins = { is_prop };

    ghost entry = { λ _. prop_of };

    ghost text = { λ _. prop_text };

    fn level() -> Level {
        Level::InEntry
    }

    fn is_begun_by(keyword: Keyword) -> bool {
        is_prop(keyword)
    }

    fn read(
        alloc: Global,
        _labels: &Labels,
        item: &Item,
        _behind: &[Item],
    ) -> Result<PropEntry, NoMemory> {
        Ok(PropEntry {
            number: short_at(&item.arguments.0, 0),
            extra: extra_of(alloc, item)?,
        })
    }

    fn measure(_width: u8, item: &Item, _behind: &[Item]) -> u64 {
        extra_size(item).saturating_add(2)
    }
}

impl Entry for Bytes {
    ghost use Rattle.t3_asm.specs.Blocks.{is_function_set, set_of};
    ghost use Rattle.t3_asm.specs.declared.level.Level.TheVariants.{InBlock};
    ghost use Rattle.t3_blocks.specs.Spelling.{name_text};

    ghost level = { InBlock };

    ghost begins = { is_function_set };

    ghost entry = { λ _. set_of };

    ghost text = { λ _. name_text };

    fn level() -> Level {
        Level::InBlock
    }

    fn is_begun_by(keyword: Keyword) -> bool {
        is_function_set(keyword)
    }

    fn read(
        alloc: Global,
        _labels: &Labels,
        item: &Item,
        _behind: &[Item],
    ) -> Result<Bytes, NoMemory> {
        text_bytes(alloc, item, 0)
    }

    fn measure(_width: u8, item: &Item, _behind: &[Item]) -> u64 {
        text_size(item, 0).saturating_add(1)
    }
}

impl Entry for Symbol {
    ghost use Rattle.t3_asm.specs.Blocks.{is_symbol, symbol_of};
    ghost use Rattle.t3_asm.specs.declared.level.Level.TheVariants.{InBlock};
    ghost use Rattle.t3_blocks.specs.Spelling.{symbol_text};

    ghost level = { InBlock };

    ghost begins = { is_symbol };

    ghost entry = { symbol_of };

    ghost text = { λ _. symbol_text };

    fn level() -> Level {
        Level::InBlock
    }

    fn is_begun_by(keyword: Keyword) -> bool {
        is_symbol(keyword)
    }

    fn read(
        alloc: Global,
        labels: &Labels,
        item: &Item,
        _behind: &[Item],
    ) -> Result<Symbol, NoMemory> {
        Ok(Symbol {
            raw: Raw {
                tag: (number_at(&item.arguments.0, 0) % 256) as u8,
                bits: long_at(labels, &item.arguments.0, 1),
            },
            name: text_bytes(alloc, item, 2)?,
        })
    }

    fn measure(_width: u8, item: &Item, _behind: &[Item]) -> u64 {
        text_size(item, 2).saturating_add(6)
    }
}

/// The text in a field of a line.
fn text_bytes(alloc: Global, item: &Item, at: usize) -> Result<Bytes, NoMemory>
    ensures { IfOk result (λ bytes. bytes ≡ text_in_field item.now.arguments at) }
{
    Ok(Bytes(Vec::from_slice(alloc, text_at(&item.arguments.0, at))?))
}

/// How many bytes it has.
fn text_size(item: &Item, at: usize) -> u64
    ensures { result ≡ length (text_in_field item.now.arguments at) }
{
    text_at(&item.arguments.0, at).len() as u64
}

/// What a property has besides its number.
fn extra_of(alloc: Global, item: &Item) -> Result<Bytes, NoMemory>
    ensures { IfOk result (λ bytes. bytes ≡ extra_in item.now.keyword item.now.arguments) }
{
    Ok(Bytes(Vec::from_slice(alloc, extra_bytes(item.keyword, &item.arguments.0))?))
}

/// How many bytes that has.
fn extra_size(item: &Item) -> u64
    ensures { result ≡ length (extra_in item.now.keyword item.now.arguments) }
{
    extra_bytes(item.keyword, &item.arguments.0).len() as u64
}
