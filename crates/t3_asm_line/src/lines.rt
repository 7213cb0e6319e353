//! The lines of a text.
ghost use Rattle.std.specs.Prelude.{◌≡◌, ◌<◌, ◌≤◌, ◌∷◌, List, ℕ, length};
ghost use Rattle.t3_asm_line.specs.Lines.{lines_of, HasFirstLine};

const NEWLINE: u8 = b'\n';

/// The first line of a text that has a byte, without its newline, and all that follows the newline.
#[tactic(auto, using(crate::proofs::LineEnds::whole_line, crate::proofs::LineEnds::whole_first))]
pub fn split_line(text: &[u8]) -> (&[u8], &[u8])
    requires { 0 < length text.now }
    ensures first { HasFirstLine text.now result.0.now result.1.now }
    ensures lines { lines_of text.now ≡ result.0.now ∷ lines_of result.1.now }
    ensures shorter { length result.1.now < length text.now }
{
    for (at, byte) in text.iter().enumerate() {
        if *byte == NEWLINE {
            return (&text[..at], &text[at + 1..]);
        }
    }
    (text, &text[text.len()..])
}

/// A text has at most as many lines as bytes.
pub fn lines_few()
    ensures { (text : List ℕ) → length (lines_of text) ≤ length text }
{}
