ghost use Rattle.std.specs.Prelude.{◌≡◌, ◌^◌, ◌<◌, ◌++◌, length, IfOk, IfErr};
ghost use Rattle.std.specs.List.{AllByRecursion};
ghost use Rattle.t3_holder.specs.NumberText.{little_endian};
ghost use Rattle.t3_blocks.specs.Spelling.{IsSpellable, payload_of, counted_text};
ghost use Rattle.t3_blocks.specs.Inner.Appending.{Appends};

use crate::block::Block;
use crate::functions::NameLayout;
use crate::layout::{Layout, append_items};
use crate::metas::MetaLayout;
use crate::objects::StaticLayout;
use crate::parts::{append_bytes, append_masked, append_numbers, append_u16, append_u32};
use crate::symbols::SymbolLayout;
use t3_holder::NoMemory;

/// Appends the payload of a block, which some payload spells.
///
/// Where memory is wanting, the bytes are as before.
pub fn append_block(block: &Block, out: &mut Vec<u8>) -> Result<(), NoMemory>
    requires { IsSpellable block.now }
    ensures appended { IfOk result (λ _. out.new.items ≡ out.old.items ++ payload_of block.now) }
    ensures kept { IfErr result (λ _. out.new.items ≡ out.old.items) }
{
    let before = out.len();
    match append_payload(block, out) {
        Ok(()) => Ok(()),
        Err(refusal) => {
            out.truncate(before);
            Err(refusal)
        }
    }
}

#[tactic(auto, unfolding(crate::specs::Spelling::payload_of))]
fn append_payload(block: &Block, out: &mut Vec<u8>) -> Result<(), NoMemory>
    requires { IsSpellable block.now }
    ensures { Appends out.old.items out.new.items (payload_of block.now) result }
{
    match block {
        Block::Entry {
            code,
            method_size,
            exception_size,
            debug,
            tail,
        } => {
            append_u32(*code, out)?;
            append_numbers(&[*method_size, *exception_size], out)?;
            append_numbers(debug, out)?;
            append_bytes(&tail.0, out)
        }
        Block::Objects {
            metaclass,
            flags,
            objects,
        } => {
            append_u16(objects.0.len() as u16, out)?;
            append_u16(*metaclass, out)?;
            append_u16(*flags, out)?;
            append_items(&StaticLayout { flags: *flags }, &objects.0, out)
        }
        Block::PoolDef { pool, count, size } => {
            append_u16(*pool, out)?;
            append_u32(*count, out)?;
            append_u32(*size, out)
        }
        Block::Page {
            pool,
            index,
            mask,
            bytes,
        } => {
            append_u16(*pool, out)?;
            append_u32(*index, out)?;
            append_bytes(&[*mask], out)?;
            append_masked(bytes.as_slice(), *mask, out)
        }
        Block::Metas { metas } => append_counted(&MetaLayout, &metas.0, out),
        Block::Functions { names } => append_counted(&NameLayout, &names.0, out),
        Block::Symbols { symbols } => append_counted(&SymbolLayout, &symbols.0, out),
        Block::Opaque { bytes, .. } => append_bytes(&bytes.0, out),
    }
}

/// Appends a count, and so many items.
fn append_counted<L: Layout>(
    layout: &L,
    items: &[L::Item],
    out: &mut Vec<u8>,
) -> Result<(), NoMemory>
    requires few { length items.now < 2 ^ 16 }
    requires fit { AllByRecursion (L.fits layout.now) items.now }
    ensures { Appends out.old.items out.new.items
        (counted_text (L.text layout.now) (little_endian 2 (length items.now)) items.now) result }
{
    append_u16(items.len() as u16, out)?;
    append_items(layout, items, out)
}
