//! The words of a line.
ghost use Rattle.std.specs.Prelude.{◌≡◌, ◌==◌, ◌&&◌, ◌++◌, IfOk, map};
ghost use Rattle.t3_asm_line.specs.Words.{mode_behind, is_plain as plain, closed, words_of};

use std::alloc::Global;
use t3_holder::NoMemory;

const SPACE: u8 = b' ';

const COMMENT: u8 = b';';

const QUOTE: u8 = b'"';

const BACKSLASH: u8 = b'\\';

/// How a byte of a line is read.
#[derive(Clone, Copy)]
pub enum Mode {
    /// Outside quotes.
    Plain,
    /// Inside quotes.
    Quoted,
    /// Inside quotes, right behind a backslash.
    Escaped,
}

impl Mode {
    fn is_plain(self) -> bool
        ensures { result ≡ plain self }
    {
        matches!(self, Mode::Plain)
    }

    /// Whether a byte that is read so begins a comment.
    fn ends_line(self, byte: u8) -> bool
        ensures { result ≡ (plain self && byte == 59) }
    {
        self.is_plain() && byte == COMMENT
    }

    /// Whether a byte that is read so parts two words.
    fn ends_word(self, byte: u8) -> bool
        ensures { result ≡ (plain self && byte == 32) }
    {
        self.is_plain() && byte == SPACE
    }

    /// How the byte behind this one is read.
    fn behind(self, byte: u8) -> Mode
        ensures { result ≡ mode_behind self byte }
    {
        match (self, byte) {
            (Mode::Plain, QUOTE) | (Mode::Escaped, _) => Mode::Quoted,
            (Mode::Quoted, QUOTE) => Mode::Plain,
            (Mode::Quoted, BACKSLASH) => Mode::Escaped,
            (mode, _) => mode,
        }
    }
}

/// The words of a line, without the comment that may end it.
pub(crate) fn words<'s>(alloc: Global, line: &'s [u8]) -> Result<Vec<&'s [u8]>, NoMemory>
    ensures { IfOk result (λ words. map (λ word. word.now) words.items ≡ words_of line.now) }
{
    let mut words = Vec::new(alloc);
    let mut mode = Mode::Plain;
    let mut start = 0;
    for at in 0..line.len() {
        let byte = line[at];
        if mode.ends_line(byte) {
            push_word(&mut words, &line[start..at])?;
            return Ok(words);
        }
        if mode.ends_word(byte) {
            push_word(&mut words, &line[start..at])?;
            start = at + 1;
        } else {
            mode = mode.behind(byte);
        }
    }
    push_word(&mut words, &line[start..])?;
    Ok(words)
}

/// Adds a word where it has a byte.
fn push_word<'s>(words: &mut Vec<&'s [u8]>, word: &'s [u8]) -> Result<(), NoMemory>
    ensures { IfOk result (λ _. map (λ word. word.now) words.new.items
        ≡ map (λ word. word.now) words.old.items ++ closed word.now) }
{
    if !word.is_empty() {
        words.push(word)?;
    }
    Ok(())
}
