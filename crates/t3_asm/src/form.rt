//! The rules of form.
ghost use Rattle.std.specs.Prelude.{◌≡◌, ◌<◌, ◌^◌, ◌-◌, IfErr, IfOk, length};
ghost use Rattle.t3_asm_line.specs.Lines.{lines_of};
ghost use Rattle.t3_asm.specs.Forms.{closed as closed_by, formed as formed_of};
ghost use Rattle.t3_asm.specs.Refusals.{Gives, IsAtNone};
ghost use Rattle.t3_asm.specs.Inner.Forming.{AreNear, Refuses};

use crate::draft::Draft;
use crate::refusal::{AsmRefusal, AsmWhy};
use std::alloc::Global;
use t3_asm_line::split_line;

/// The lines of a source, or the first that breaks a rule of form.
#[tactic(auto, unfolding(crate::specs::Forms::formed))]
pub(crate) fn formed(alloc: Global, text: &[u8]) -> Result<Draft, AsmRefusal>
    requires { length (lines_of text.now) < 2 ^ 32 - 1 }
    ensures due { Gives result (formed_of text.now) }
    ensures at_none { IfErr result IsAtNone }
    ensures near { IfOk result AreNear }
{
    let mut draft = Draft::new(alloc);
    let mut line = 1_u32;
    let mut rest = text;
    while !rest.is_empty() {
        let (text, behind) = split_line(rest);
        draft = match draft.with_line(alloc, line, text) {
            Ok(draft) => draft,
            Err(why) => return Err(refusal_at(line, why)),
        };
        rest = behind;
        line += 1;
    }
    closed(draft, line)
}

/// The lines of a whole source, which ends before this line.
fn closed(draft: Draft, line: u32) -> Result<Draft, AsmRefusal>
    ensures { result ≡ closed_by line draft }
{
    if draft.is_ended() {
        return Ok(draft);
    }
    Err(AsmRefusal {
        line,
        why: AsmWhy::Order,
    })
}

/// The refusal of a line, or want of memory.
fn refusal_at(line: u32, why: AsmWhy) -> AsmRefusal
    ensures { Refuses line why result }
{
    let line = if why == AsmWhy::NoMemory { 0 } else { line };
    AsmRefusal { line, why }
}
