//! The rules of values over all lines.
ghost use Rattle.std.specs.Prelude.{◌≡◌, ◌≢◌, ℕ, ◌^◌, ◌≤◌, nat_le, length, IfSome};
ghost use Rattle.t3_blocks.specs.Spelling.{size_width as width_by};
ghost use Rattle.t3_asm.specs.Blocks.{contents_of, meta_of};
ghost use Rattle.t3_asm.specs.Inner.Forming.{IsNear, AreNear};
ghost use Rattle.t3_asm.specs.Inner.Measures.{near};
ghost use Rattle.t3_asm.specs.Places.{Labels as AnyLabels};
ghost use Rattle.t3_asm.specs.Refusals.{IsAtNone};
ghost use Rattle.t3_asm.specs.declared.refusal.AsmWhy.TheVariants as whys;
ghost use Rattle.t3_asm.specs.declared.level.Level.TheVariants as levels;
ghost use Rattle.t3_asm.specs.Source.{is_many as counts_many, is_crowded_block as crowds_block, is_crowded as crowds, is_crowded_meta as crowds_meta, flags_in as flags_by, block_size as size_of_block, header_count as headers_of, passes_limits as passes, value_why as why_of, refused_from, head_size};

use crate::arguments::block_name;
use crate::content::contents_size;
use crate::entry::{Entry, count};
use crate::item::Item;
use crate::labels::Labels;
use crate::level::{Level, ends_block};
use crate::refusal::{AsmRefusal, AsmWhy};
use crate::stage::{Stage, has_large_sizes};
use crate::values::Rule;
use t3_asm_line::Keyword;
use t3_blocks::{IMAGE_LIMIT, Meta, PropEntry, Static, Symbol};
use t3_holder::Bytes;
use t3_image_read::{HEAD_SIZE, HEADER_SIZE, PlacedBlock};

/// The greatest number of two bytes.
const MOST: usize = 65535;

/// The first line that breaks a rule of values.
pub(crate) fn first_refused(labels: &Labels, items: &[Item]) -> Option<AsmRefusal>
    requires { AreNear items.now }
    ensures refused { result ≡ refused_from labels.now head_size 0 items.now }
    ensures at_none { IfSome result IsAtNone }
{
    let mut size = HEAD_SIZE as u64;
    let mut headers = 0_u64;
    for at in 0..items.len() {
        let item = &items[at];
        let behind = &items[at + 1..];
        size = size.saturating_add(block_size(item, behind));
        headers += header_count(item.keyword);
        if let Some(why) = value_why(labels, item, behind, size, headers) {
            return Some(AsmRefusal {
                line: item.line,
                why,
            });
        }
    }
    None
}

/// The first rule of values that a line breaks. With what the line begins, the image has so many bytes
/// and headers.
fn value_why(
    labels: &Labels,
    item: &Item,
    behind: &[Item],
    size: u64,
    headers: u64,
) -> Option<AsmWhy>
    requires { IsNear item.now }
    ensures why { (whole : ℕ) → size ≡ near whole
        → result ≡ why_of labels.now item.now behind.now whole headers }
    ensures rule { IfSome result (λ why. why ≢ whys.NoMemory) }
{
    if item.breaks(Rule::Missing, labels) {
        return Some(AsmWhy::LabelMissing);
    }
    if item.breaks(Rule::Far, labels) {
        return Some(AsmWhy::Jump);
    }
    if item.breaks(Rule::Wide, labels) || is_crowded(item, behind) {
        return Some(AsmWhy::Range);
    }
    if ends_block(item.keyword) && passes_limits(size, headers) {
        return Some(AsmWhy::TooLong);
    }
    None
}

/// Whether the image's limits are passed.
fn passes_limits(size: u64, headers: u64) -> bool
    ensures { (whole : ℕ) → size ≡ near whole → result ≡ passes whole headers }
{
    size > u64::from(IMAGE_LIMIT) || headers > 65536
}

/// How many block headers a line puts.
fn header_count(keyword: Keyword) -> u64
    ensures count { result ≡ headers_of keyword }
    ensures few { result ≤ 1 }
{
    if ends_block(keyword) { 1 } else { 0 }
}

/// How many bytes the image has of the block that a line begins, as far as they can be counted.
fn block_size(item: &Item, behind: &[Item]) -> u64
    ensures { (labels : AnyLabels) → result
        ≡ near (size_of_block labels item.now behind.now item.now.keyword) }
{
    match item.keyword {
        Keyword::Block => PlacedBlock::measure(0, item, behind),
        Keyword::End => HEADER_SIZE as u64,
        _ => 0,
    }
}

/// Whether what a line begins has more entries, or more bytes, than the image has a number for.
fn is_crowded(item: &Item, behind: &[Item]) -> bool
    ensures { (labels : AnyLabels) → result ≡ crowds labels item.now behind.now item.now.keyword }
{
    match item.keyword {
        Keyword::Block => is_crowded_block(Stage::of_block(block_name(&item.arguments.0)), behind),
        Keyword::Objects => is_many(count::<Static>(behind)),
        Keyword::Object => is_crowded_object(item.place.stage, behind),
        Keyword::Metaclass => is_crowded_meta(item, behind),
        _ => false,
    }
}

/// Whether a block that takes this first has more entries than its count says.
fn is_crowded_block(stage: Stage, behind: &[Item]) -> bool
    ensures { (labels : AnyLabels) → result ≡ crowds_block labels behind.now stage }
{
    match stage {
        Stage::Metaclasses => is_many(count::<Meta>(behind)),
        Stage::FunctionSets => is_many(count::<Bytes>(behind)),
        Stage::Symbols => is_many(count::<Symbol>(behind)),
        _ => false,
    }
}

/// Whether an object has more bytes than its size says.
fn is_crowded_object(stage: Stage, behind: &[Item]) -> bool
    ensures { (labels : AnyLabels) → result
        ≡ nat_le (256 ^ width_by (flags_by stage))
        (length (contents_of levels.InEntry labels behind.now)) }
{
    size_limit(stage.flags()) <= contents_size(Level::InEntry, behind)
}

/// One more than the greatest size of an object, in a block with these flags.
fn size_limit(flags: u16) -> u64
    ensures { result ≡ 256 ^ width_by flags }
{
    if has_large_sizes(flags) {
        1 << 32
    } else {
        1 << 16
    }
}

/// Whether a metaclass has more properties, or more bytes, than its entry says.
fn is_crowded_meta(item: &Item, behind: &[Item]) -> bool
    ensures { (labels : AnyLabels) → result ≡ crowds_meta (meta_of item.now behind.now) }
{
    is_many(count::<PropEntry>(behind)) || is_large(Meta::measure(0, item, behind))
}

/// Whether a size is more than two bytes say.
fn is_large(size: u64) -> bool
    ensures { (whole : ℕ) → size ≡ near whole → result ≡ counts_many whole }
{
    size > MOST as u64
}

/// Whether it is more than two bytes count.
fn is_many(count: usize) -> bool
    ensures { result ≡ counts_many count }
{
    count > MOST
}
