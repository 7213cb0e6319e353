//! Lists of what lines begin.
ghost use Rattle.std.specs.Prelude.{◌≡◌, ◌<◌, ◌^◌, length, IfOk};
ghost use Rattle.std.specs.List.{flat_map};
ghost use Rattle.t3_asm.specs.Blocks.{entries_of};
ghost use Rattle.t3_asm.specs.Inner.Forming.{AreNear};
ghost use Rattle.t3_asm.specs.Inner.Measures.{near};
ghost use Rattle.t3_asm.specs.Places.{Labels as AnyLabels};

use crate::item::Item;
use crate::labels::Labels;
use crate::level::Level;
use std::alloc::Global;
use t3_asm_line::Keyword;
use t3_holder::NoMemory;

/// What a line begins: a block, an object, a metaclass, or what stands in a list.
pub(crate) trait Entry: Drop {
    ghost use Rattle.std.specs.Prelude.{◌≡◌, ℕ, Bool, List, length, IfOk};
    ghost use Rattle.t3_asm.specs.Inner.Forming.{AreNear};
    ghost use Rattle.t3_asm.specs.Inner.Measures.{near};
    ghost use Rattle.t3_asm.specs.Places.{Labels as AnyLabels};
    ghost use Rattle.t3_asm.specs.declared.item.Item.{Item as AnyItem};
    ghost use Rattle.t3_asm.specs.declared.level.Level.{Level as AnyLevel};
    ghost use Rattle.t3_asm_line.specs.declared.keyword.Keyword.{Keyword as AnyKeyword};

    /// What the list stands in.
    ghost level: { AnyLevel };

    /// The keywords of the lines that begin one.
    ghost begins: { AnyKeyword → Bool };

    /// What a line says, with those behind it.
    ghost entry: { AnyLabels → AnyItem → List AnyItem → Self };

    /// Its bytes, in a list whose numbers of sizes are so wide.
    ghost text: { ℕ → Self → List ℕ };

    fn level() -> Level
        ensures { result ≡ level };

    fn is_begun_by(keyword: Keyword) -> bool
        ensures { result ≡ begins keyword };

    fn read(alloc: Global, labels: &Labels, item: &Item, behind: &[Item]) -> Result<Self, NoMemory>
        requires near { AreNear behind.now }
        ensures { IfOk result (λ read. read ≡ entry labels.now item.now behind.now) };

    /// How many bytes it has, as far as they can be counted.
    fn measure(width: u8, item: &Item, behind: &[Item]) -> u64
        ensures { (labels : AnyLabels) → result
            ≡ near (length (text width (entry labels item.now behind.now))) };
}

/// What the lines say, up to one that ends the list.
pub(crate) fn entries<E: Entry>(
    alloc: Global,
    labels: &Labels,
    items: &[Item],
) -> Result<Vec<E>, NoMemory>
    requires { AreNear items.now }
    ensures { IfOk result (λ entries. entries.items
        ≡ entries_of E.level E.begins (E.entry labels.now) items.now) }
{
    let mut entries = Vec::new(alloc);
    for at in 0..items.len() {
        let item = &items[at];
        if E::level().is_ended_by(item.keyword) {
            return Ok(entries);
        }
        if E::is_begun_by(item.keyword) {
            entries.push(E::read(alloc, labels, item, &items[at + 1..])?)?;
        }
    }
    Ok(entries)
}

/// How many of them there are.
pub(crate) fn count<E: Entry>(items: &[Item]) -> usize
    ensures { (labels : AnyLabels) → result
        ≡ length (entries_of E.level E.begins (E.entry labels) items.now) }
{
    let mut count = 0;
    for item in items {
        if E::level().is_ended_by(item.keyword) {
            return count;
        }
        if E::is_begun_by(item.keyword) {
            count += 1;
        }
    }
    count
}

/// How many bytes they have, as far as they can be counted.
pub(crate) fn entries_size<E: Entry>(width: u8, items: &[Item]) -> u64
    ensures { (labels : AnyLabels) → result
        ≡ near (length (flat_map (E.text width)
        (entries_of E.level E.begins (E.entry labels) items.now))) }
{
    let mut size = 0_u64;
    for at in 0..items.len() {
        let item = &items[at];
        if E::level().is_ended_by(item.keyword) {
            return size;
        }
        if E::is_begun_by(item.keyword) {
            size = size.saturating_add(E::measure(width, item, &items[at + 1..]));
        }
    }
    size
}
