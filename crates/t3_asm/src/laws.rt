//! What holds of each source and of each listing.
ghost use Rattle.std.specs.Prelude.{◌≡◌, ℕ, ◌-◌, ◌^◌, ◌<◌, ◌⊎◌, List, [], length, Ok, Err, Some, map};
ghost use Rattle.t3_asm_line.specs.Line.{line_of};
ghost use Rattle.t3_asm_line.specs.Lines.{lines_of};
ghost use Rattle.t3_image_read.specs.ImageText.{ImageValue};
ghost use Rattle.t3_image_read.specs.Validity.{IsValid};
ghost use Rattle.t3_asm.specs.Forms.{formed};
ghost use Rattle.t3_asm.specs.HasBytes.{HasBytes};
ghost use Rattle.t3_asm.specs.Listing.{listed_lines, listing};
ghost use Rattle.t3_asm.specs.Places.{items_behind};
ghost use Rattle.t3_asm.specs.Refusals.{refusal};
ghost use Rattle.t3_asm.specs.Source.{Satisfies, IsBadLine};
ghost use Rattle.t3_asm.specs.declared.refusal.AsmWhy.{AsmWhy as AnyWhy};
ghost use Rattle.t3_asm.specs.declared.refusal.AsmWhy.TheVariants as whys;

use crate::listing::list;
use crate::refusal::{AsmRefusal, AsmWhy};
use crate::source::assemble;
use std::alloc::Global;
use t3_asm_line::lines_read;
use t3_holder::NoMemory;
use t3_image_read::Image;

/// A text says exactly one image, or has exactly one bad line with one reason, and never both. The
/// image is valid.
pub fn one_source()
    ensures some { (text : List ℕ) → ((image : ImageValue) × Satisfies text image)
        ⊎ ((line : ℕ) × (why : AnyWhy) × IsBadLine text line why) }
    ensures not_both { (text : List ℕ) (image : ImageValue) (line : ℕ) (why : AnyWhy)
        → Satisfies text image → ¬ IsBadLine text line why }
    ensures one_image { (text : List ℕ) (a b : ImageValue) → Satisfies text a → Satisfies text b
        → a ≡ b }
    ensures one_line { (text : List ℕ) (m n : ℕ) (v w : AnyWhy) → IsBadLine text m v
        → IsBadLine text n w → (m ≡ n) × (v ≡ w) }
    ensures valid { (text : List ℕ) (image : ImageValue) → Satisfies text image → IsValid image }
{}

/// Each line of the listing of a valid image, whose names and texts are bytes, reads back as the keyword
/// and the arguments that it was spelled from.
pub fn listed_lines_read()
    ensures { (image : ImageValue) → IsValid image → HasBytes image
        → map line_of (lines_of (listing image))
        ≡ map (λ line. Ok (Some line)) (listed_lines image) }
{
    lines_read();
}

/// The listing of a valid image, whose names and texts are bytes, breaks no rule of form: it is read into
/// the items of its lines.
pub fn listing_formed()
    ensures { (image : ImageValue) → IsValid image → HasBytes image
        → formed (listing image) ≡ Ok (items_behind 1 [] (listed_lines image)) }
{
    listed_lines_read();
}

/// The listing of a valid image, whose names and texts are bytes, is a source of exactly that image. Its
/// lines can be counted.
pub fn listing_satisfies()
    ensures satisfied { (image : ImageValue) → IsValid image → HasBytes image
        → Satisfies (listing image) image }
    ensures few_lines { (image : ImageValue) → IsValid image → HasBytes image
        → length (lines_of (listing image)) < 2 ^ 32 - 1 }
{
    listed_lines_read();
    listing_formed();
}

/// What is listed assembles to the same image, as far as there is memory.
pub fn list_assembles(alloc: Global, image: &Image) -> Result<Image, AsmRefusal>
    ensures { (result ≡ Ok image.now) ⊎ (result ≡ Err (refusal 0 whys.NoMemory)) }
{
    match list(alloc, image) {
        Ok(source) => assemble(alloc, &source),
        Err(NoMemory) => Err(AsmRefusal {
            line: 0,
            why: AsmWhy::NoMemory,
        }),
    }
}
