//! The image that a source says.
ghost use Rattle.std.specs.Prelude.{◌≡◌, ℕ, ◌⊎◌, ◌<◌, ◌-◌, ◌^◌, length, Ok, Err, IfErr, IfOk};
ghost use Rattle.t3_asm_line.specs.Lines.{lines_of};
ghost use Rattle.t3_image_read.specs.ImageText.{ImageValue};
ghost use Rattle.t3_image_read.specs.Validity.{IsValid};
ghost use Rattle.t3_asm.specs.Arguments.{short_at as short_in_field};
ghost use Rattle.t3_asm.specs.Blocks.{arguments_in, head_by as head_said, head_in, image_of};
ghost use Rattle.t3_asm.specs.Inner.Forming.{AreNear};
ghost use Rattle.t3_asm.specs.Places.{newest};
ghost use Rattle.t3_asm.specs.Refusals.{Gives, IsAtNone, refusal};
ghost use Rattle.t3_asm.specs.Source.{Satisfies, IsBadLine, source};
ghost use Rattle.t3_asm.specs.declared.refusal.AsmWhy.{AsmWhy as AnyWhy};
ghost use Rattle.t3_asm.specs.declared.refusal.AsmWhy.TheVariants as whys;
ghost use Rattle.std.specs.Prelude.{slice_get};

use crate::arguments::{resized, short_at, text_at};
use crate::checks::first_refused;
use crate::entry::entries;
use crate::form::formed;
use crate::item::Item;
use crate::labels::Labels;
use crate::refusal::{AsmRefusal, AsmWhy};
use std::alloc::Global;
use t3_asm_line::{Argument, Keyword};
use t3_holder::NoMemory;
use t3_image_read::{Head, Image, Placed};

/// The image that a source says.
///
/// A source that breaks a rule of form is refused at the first line that does, by the first rule that
/// the line breaks; else one that breaks a rule of values is refused in the same way. Lines count from
/// 1. For want of memory the line is 0.
pub fn assemble(alloc: Global, text: &[u8]) -> Result<Image, AsmRefusal>
    requires { length (lines_of text.now) < 2 ^ 32 - 1 }
    ensures image { IfOk result (Satisfies text.now) }
    ensures bad_line { IfErr result (λ refused. (refused ≡ refusal 0 whys.NoMemory)
        ⊎ IsBadLine text.now refused.line refused.why) }
    ensures satisfied { (image : ImageValue) → Satisfies text.now image
        → (result ≡ Ok image) ⊎ (result ≡ Err (refusal 0 whys.NoMemory)) }
    ensures refused { (line : ℕ) (why : AnyWhy) → IsBadLine text.now line why
        → (result ≡ Err (refusal line why)) ⊎ (result ≡ Err (refusal 0 whys.NoMemory)) }
{
    assembled(alloc, text)
}

#[tactic(auto, unfolding(crate::specs::Source::source))]
fn assembled(alloc: Global, text: &[u8]) -> Result<Image, AsmRefusal>
    requires { length (lines_of text.now) < 2 ^ 32 - 1 }
    ensures due { Gives result (source text.now) }
    ensures at_none { IfErr result IsAtNone }
{
    let draft = formed(alloc, text)?;
    let labels = draft.labels();
    let items = draft.items();
    if let Some(refused) = first_refused(labels, items) {
        return Err(refused);
    }
    match image(alloc, labels, items) {
        Ok(image) => Ok(image),
        Err(NoMemory) => Err(AsmRefusal {
            line: 0,
            why: AsmWhy::NoMemory,
        }),
    }
}

/// The image that lines say, which is valid.
fn image(alloc: Global, labels: &Labels, items: &[Item]) -> Result<Image, NoMemory>
    requires near { AreNear items.now }
    requires valid { IsValid (image_of labels.now items.now) }
    ensures { IfOk result (λ image. image ≡ image_of labels.now items.now) }
{
    let blocks = entries(alloc, labels, items)?;
    Ok(Image {
        head: head(items),
        blocks: Placed(blocks),
        eof_flags: end_flags(items),
    })
}

/// The header that the first line says.
fn head(items: &[Item]) -> Head
    ensures { result ≡ head_in (slice_get items.now 0) }
{
    match items.first() {
        Some(item) => head_of(item.keyword, &item.arguments.0),
        None => head_of(Keyword::Image, &[]),
    }
}

/// The header of a line of this keyword.
fn head_of(keyword: Keyword, arguments: &[Argument]) -> Head
    ensures { result ≡ head_said keyword arguments.now }
{
    match keyword {
        Keyword::ImageHead => Head {
            reserved: resized(text_at(arguments, 0), 0),
            stamp: resized(text_at(arguments, 1), b' '),
        },
        _ => Head {
            reserved: [0; 32],
            stamp: [b' '; 24],
        },
    }
}

/// The flags that the last line says.
fn end_flags(items: &[Item]) -> u16
    ensures { result ≡ short_in_field (arguments_in (newest items.now)) 0 }
{
    match items.last() {
        Some(item) => short_at(&item.arguments.0, 0),
        None => 0,
    }
}
