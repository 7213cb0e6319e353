//! The lines of a source so far.
ghost use Rattle.std.specs.Prelude.{◌≡◌, ℕ, ◌+◌, ◌-◌, ◌*◌, ◌<◌, ◌≤◌, ◌^◌, ◌∷◌, ◌++◌, [], false, IfOk, OnOk};
ghost use Rattle.t3_asm_line.specs.Line.{line_of};
ghost use Rattle.t3_asm.specs.Forms.{is_ended as is_ended_by, is_twice as is_put_twice, items_with, joined as joined_to};
ghost use Rattle.t3_asm.specs.Inner.Forming.{AreReached};
ghost use Rattle.t3_asm.specs.Inner.Tables.{labels_with, sizes_with};
ghost use Rattle.t3_asm.specs.Places.{item_behind, labels_of, newest, place_behind, place_of, pool_sizes_of};
ghost use Rattle.t3_asm.specs.Refusals.{GivesBy};
ghost use Rattle.t3_asm.specs.declared.refusal.AsmWhy.TheVariants as whys;

use crate::arguments::{number_at, short_at, text_at};
use crate::item::Item;
use crate::labels::Labels;
use crate::place::Place;
use crate::pools::PoolSizes;
use crate::refusal::AsmWhy;
use std::alloc::Global;
use std::marker::Model;
use t3_asm_line::{Keyword, ParsedLine, parse_line};
use t3_holder::NoMemory;

/// Lines with their places, and what they say of labels and pools. Contracts see the lines.
#[derive(Drop)]
pub(crate) struct Draft {
    items: Vec<Item>,
    labels: Labels,
    pools: PoolSizes,
}

impl Model for Draft {
    ghost use Rattle.std.specs.Prelude.{List};
    ghost use Rattle.t3_asm.specs.Inner.Drafts.{IsDraft};
    ghost use Rattle.t3_asm.specs.declared.item.Item.{Item};

    ghost Value = { List Item };

    ghost view = { λ d. d.items.items };

    ghost invariant = { λ d. IsDraft d.items.items d.labels d.pools };
}

impl Draft {
    pub(crate) fn new(alloc: Global) -> Draft
        ensures { result ≡ [] }
    {
        Draft {
            items: Vec::new(alloc),
            labels: Labels::new(alloc),
            pools: PoolSizes::new(alloc),
        }
    }

    /// The lines so far, and one of this number with this text.
    pub(crate) fn with_line(self, alloc: Global, line: u32, text: &[u8]) -> Result<Draft, AsmWhy>
        requires first { 0 < line }
        requires reached { AreReached line self }
        ensures due { GivesBy result (items_with line self (line_of text.now)) }
        ensures reached { IfOk result (AreReached (line + 1)) }
    {
        match parse_line(alloc, text)? {
            None => Ok(self),
            Some(parsed) => self.with_parsed(line, parsed),
        }
    }

    fn with_parsed(self, line: u32, parsed: ParsedLine) -> Result<Draft, AsmWhy>
        requires first { 0 < line }
        requires reached { AreReached line self }
        ensures due { GivesBy result (joined_to self (item_behind line self parsed)) }
        ensures reached { IfOk result (AreReached (line + 1)) }
    {
        let place = self.place(&parsed);
        self.joined(Item {
            line,
            place,
            keyword: parsed.keyword,
            arguments: parsed.arguments,
        })
    }

    /// Where a line behind these stands.
    fn place(&self, parsed: &ParsedLine) -> Place
        requires { AreReached (2 ^ 32) self.now }
        ensures place { result ≡ place_of (place_behind (newest self.now)) (pool_sizes_of self.now)
            parsed.now.keyword parsed.now.arguments }
        ensures near { (line : ℕ) → 0 < line → AreReached line self.now
            → result.address ≤ line * 2 ^ 80 }
    {
        self.end()
            .of_line(&self.pools, parsed.keyword, &parsed.arguments.0)
    }

    /// The place behind the newest line.
    fn end(&self) -> Place
        requires { AreReached (2 ^ 32) self.now }
        ensures place { result ≡ place_behind (newest self.now) }
        ensures near { (line : ℕ) → AreReached line self.now
            → result.address ≤ line * 2 ^ 80 - 2 ^ 79 }
    {
        match self.items.last() {
            Some(item) => item.place.behind(item.keyword, &item.arguments.0),
            None => Place::first(),
        }
    }

    /// The lines so far and this one, or the first rule that it breaks.
    #[tactic(auto, unfolding(crate::specs::Forms::joined))]
    fn joined(self, item: Item) -> Result<Draft, AsmWhy>
        ensures { GivesBy result (joined_to self item) }
    {
        if item.is_resized() {
            return Err(AsmWhy::Range);
        }
        if self.is_twice(&item) {
            return Err(AsmWhy::LabelTwice);
        }
        if !item.is_in_order() {
            return Err(AsmWhy::Order);
        }
        Ok(self.with_item(item)?)
    }

    /// Whether the line puts a label that another puts.
    fn is_twice(&self, item: &Item) -> bool
        ensures { result ≡ is_put_twice self.now item.now }
    {
        item.keyword == Keyword::Label
            && self.labels.address(text_at(&item.arguments.0, 0)).is_some()
    }

    fn with_item(self, item: Item) -> Result<Draft, NoMemory>
        requires { is_put_twice self item ≡ false }
        ensures { IfOk result (λ draft. draft ≡ self ++ item ∷ []) }
    {
        let Draft {
            mut items,
            mut labels,
            mut pools,
        } = self;
        keep_label(&mut labels, &item)?;
        keep_size(&mut pools, &item)?;
        items.push(item)?;
        Ok(Draft {
            items,
            labels,
            pools,
        })
    }

    pub(crate) fn items(&self) -> &[Item]
        ensures { result.now ≡ self.now }
    {
        self.items.as_slice()
    }

    pub(crate) fn labels(&self) -> &Labels
        ensures { result.now ≡ labels_of self.now }
    {
        &self.labels
    }

    /// Whether the newest line is the end's.
    pub(crate) fn is_ended(&self) -> bool
        ensures { result ≡ is_ended_by (newest self.now) }
    {
        match self.items.last() {
            Some(item) => item.keyword == Keyword::End,
            None => false,
        }
    }
}

/// Keeps the label that a line puts.
fn keep_label(labels: &mut Labels, item: &Item) -> Result<(), NoMemory>
    ensures { OnOk result (labels.new ≡ labels_with labels.old item.now.keyword item.now) }
{
    if let Keyword::Label = item.keyword {
        labels.put(text_at(&item.arguments.0, 0), item.place.address)?;
    }
    Ok(())
}

/// Keeps the size that a line says of a pool.
fn keep_size(pools: &mut PoolSizes, item: &Item) -> Result<(), NoMemory>
    ensures { OnOk result (pools.new ≡ sizes_with pools.old item.now.keyword item.now) }
{
    if let Keyword::Pool = item.keyword {
        pools.put_first(
            short_at(&item.arguments.0, 0),
            number_at(&item.arguments.0, 2),
        )?;
    }
    Ok(())
}
