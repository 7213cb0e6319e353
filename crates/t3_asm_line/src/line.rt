//! A line of source.
ghost use Rattle.std.specs.Prelude.{map};
ghost use Rattle.t3_asm_line.specs.Line.{line_of, spoken as spoken_of, label_line as label_line_of};
ghost use Rattle.t3_asm_line.specs.Values.{Gives};

use crate::argument::{Argument, Arguments};
use crate::keyword::{Keyword, keyword_named};
use crate::labels::label_put;
use crate::refusal::LineRefusal;
use crate::value::values;
use crate::words::words;
use std::alloc::Global;
use t3_holder::Bytes;

/// What a line of source says: its keyword, and what its other words say in the keyword's fields.
#[derive(Debug, Drop)]
pub struct ParsedLine {
    pub keyword: Keyword,
    pub arguments: Arguments,
}

/// What a line says, which has no newline; `None` where it has no word.
///
/// `Word` comes before `Number`, and `Number` before `Range`, wherever in the line the words stand
/// that break them.
#[tactic(auto, unfolding(crate::specs::Line::line_of))]
pub fn parse_line(alloc: Global, line: &[u8]) -> Result<Option<ParsedLine>, LineRefusal>
    ensures { Gives result (line_of line.now) }
{
    let words = words(alloc, line)?;
    match words.split_first() {
        Some((first, others)) => Ok(Some(spoken(alloc, first, others)?)),
        None => Ok(None),
    }
}

/// What a first word and those behind it say.
#[tactic(auto, unfolding(crate::specs::Line::spoken))]
fn spoken(alloc: Global, word: &[u8], words: &[&[u8]]) -> Result<ParsedLine, LineRefusal>
    ensures { Gives result (spoken_of word.now (map (λ word. word.now) words.now)) }
{
    if let Some(label) = label_put(word) {
        return label_line(alloc, label, words);
    }
    match keyword_named(word, words.len()) {
        None => Err(LineRefusal::Word),
        Some(keyword) => {
            let arguments = values(alloc, keyword, words)?;
            Ok(ParsedLine { keyword, arguments })
        }
    }
}

/// A line that puts a label, which stands alone.
fn label_line(alloc: Global, label: &[u8], words: &[&[u8]]) -> Result<ParsedLine, LineRefusal>
    ensures { Gives result (label_line_of label.now (map (λ word. word.now) words.now)) }
{
    if !words.is_empty() {
        return Err(LineRefusal::Word);
    }
    let mut arguments = Vec::new(alloc);
    arguments.push(Argument::Text(Bytes(Vec::from_slice(alloc, label)?)))?;
    Ok(ParsedLine {
        keyword: Keyword::Label,
        arguments: Arguments(arguments),
    })
}
