//! The blocks that lines say.
ghost use Rattle.std.specs.Prelude.{◌≡◌, ℕ, List, length, IfOk};
ghost use Rattle.t3_asm.specs.Blocks.{block_by, block_of as block_said, entry_block as entry_said, head_arguments as head_arguments_of};
ghost use Rattle.t3_asm.specs.Inner.Forming.{AreNear};
ghost use Rattle.t3_asm.specs.Inner.Measures.{near};
ghost use Rattle.t3_asm.specs.Places.{Labels as AnyLabels};
ghost use Rattle.t3_blocks.specs.Spelling.{payload_of};

use crate::arguments::{block_name, number_at, short_at, text_at};
use crate::content::{contents, contents_size};
use crate::entry::{Entry, entries, entries_size};
use crate::item::Item;
use crate::labels::Labels;
use crate::level::{Level, is_block};
use crate::stage::{Stage, size_width};
use crate::values::long_at;
use std::alloc::Global;
use t3_asm_line::{Argument, Keyword};
use t3_blocks::{Block, Meta, Metas, Names, PageBytes, Static, Statics, Symbol, Symbols};
use t3_holder::{Bytes, NoMemory};
use t3_image_read::{HEADER_SIZE, PlacedBlock};

/// The arguments of the line that a block's kind begins with.
fn head_arguments(behind: &[Item]) -> &[Argument]
    ensures { result.now ≡ head_arguments_of behind.now }
{
    match behind.first() {
        Some(item) => &item.arguments.0,
        None => &[],
    }
}

impl Entry for PlacedBlock {
    ghost use Rattle.t3_image_read.specs.ImageText.{block_text};
    ghost use Rattle.t3_asm.specs.Blocks.{is_block, placed_of};
    ghost use Rattle.t3_asm.specs.declared.level.Level.TheVariants.{Image};

    ghost level = { Image };

    ghost begins = { is_block };

    ghost entry = { placed_of };

    ghost text = { λ _. block_text };

    fn level() -> Level {
        Level::Image
    }

    fn is_begun_by(keyword: Keyword) -> bool {
        is_block(keyword)
    }

    fn read(
        alloc: Global,
        labels: &Labels,
        item: &Item,
        behind: &[Item],
    ) -> Result<PlacedBlock, NoMemory> {
        Ok(PlacedBlock {
            flags: short_at(&item.arguments.0, 1),
            block: block_of(alloc, labels, item, behind)?,
        })
    }

    fn measure(_width: u8, item: &Item, behind: &[Item]) -> u64 {
        payload_size(item, behind).saturating_add(HEADER_SIZE as u64)
    }
}

/// The block that a `block` line begins.
#[tactic(auto, unfolding(crate::specs::Blocks::block_of))]
fn block_of(alloc: Global, labels: &Labels, item: &Item, behind: &[Item]) -> Result<Block, NoMemory>
    requires { AreNear behind.now }
    ensures { IfOk result (λ block. block ≡ block_said labels.now item.now behind.now) }
{
    let name = block_name(&item.arguments.0);
    let head = head_arguments(behind);
    Ok(match Stage::of_block(name) {
        Stage::EntryHead => entry_block(alloc, labels, head)?,
        Stage::PoolHead => Block::PoolDef {
            pool: short_at(head, 0),
            count: number_at(head, 1),
            size: number_at(head, 2),
        },
        Stage::PageHead => Block::Page {
            pool: short_at(head, 0),
            index: number_at(head, 1),
            mask: (number_at(head, 2) % 256) as u8,
            bytes: PageBytes::new(alloc, contents(alloc, Level::InBlock, labels, behind)?)?,
        },
        Stage::ObjectsHead => Block::Objects {
            metaclass: short_at(head, 0),
            flags: short_at(head, 1),
            objects: Statics(entries(alloc, labels, behind)?),
        },
        Stage::Metaclasses => Block::Metas {
            metas: Metas(entries(alloc, labels, behind)?),
        },
        Stage::FunctionSets => Block::Functions {
            names: Names(entries::<Bytes>(alloc, labels, behind)?),
        },
        Stage::Symbols => Block::Symbols {
            symbols: Symbols(entries(alloc, labels, behind)?),
        },
        _ => Block::Opaque {
            name,
            bytes: contents(alloc, Level::InBlock, labels, behind)?,
        },
    })
}

/// An `ENTP` of what its line says.
fn entry_block(alloc: Global, labels: &Labels, head: &[Argument]) -> Result<Block, NoMemory>
    ensures { IfOk result (λ block. block ≡ entry_said labels.now head.now) }
{
    Ok(Block::Entry {
        code: long_at(labels, head, 0),
        method_size: short_at(head, 1),
        exception_size: short_at(head, 2),
        debug: [
            short_at(head, 3),
            short_at(head, 4),
            short_at(head, 5),
            short_at(head, 6),
        ],
        tail: Bytes(Vec::from_slice(alloc, text_at(head, 7))?),
    })
}

/// How many bytes the payload of the block has that a `block` line begins, as far as they can be
/// counted.
#[tactic(auto, unfolding(crate::specs::Blocks::block_of))]
fn payload_size(item: &Item, behind: &[Item]) -> u64
    ensures { (labels : AnyLabels) → result
        ≡ near (length (payload_of (block_said labels item.now behind.now))) }
{
    stage_size(Stage::of_block(block_name(&item.arguments.0)), behind)
}

/// The same for a block that has these lines behind its first, of the kind that takes this first.
fn stage_size(stage: Stage, behind: &[Item]) -> u64
    ensures { (labels : AnyLabels) (name : List ℕ) → result
        ≡ near (length (payload_of (block_by labels name behind.now stage))) }
{
    let head = head_arguments(behind);
    match stage {
        Stage::EntryHead => (text_at(head, 7).len() as u64).saturating_add(16),
        Stage::PoolHead => 10,
        Stage::PageHead => contents_size(Level::InBlock, behind).saturating_add(7),
        Stage::ObjectsHead => {
            entries_size::<Static>(size_width(short_at(head, 1)), behind).saturating_add(6)
        }
        Stage::Metaclasses => entries_size::<Meta>(0, behind).saturating_add(2),
        Stage::FunctionSets => entries_size::<Bytes>(0, behind).saturating_add(2),
        Stage::Symbols => entries_size::<Symbol>(0, behind).saturating_add(2),
        _ => contents_size(Level::InBlock, behind),
    }
}
