//! Words, put on lines.
ghost use Rattle.std.specs.Prelude.{◌≡◌, ◌++◌, [], false, if◌then◌else◌, length, IfOk, IfErr, MatchOption, option_to_list};
ghost use Rattle.std.specs.List.{list_any};
ghost use Rattle.t3_console.specs.Rendering as spec;
ghost use Rattle.t3_console.specs.Inner.Stepping.{lead, column_past, put, column_after, separator_text, column_after_separator, line_ending, put_text, after_text, IsNextWord, PutsWords};
ghost use Rattle.t3_console.specs.Inner.Appending.{Keeps, Appends};

use t3_holder::NoMemory;

const NEWLINE: u8 = b'\n';

/// The last line of a page: its width, and the column that it has come to if there is a word on it.
#[derive(Clone, Copy)]
pub(crate) struct Line {
    pub(crate) width: u16,
    pub(crate) column: Option<usize>,
}

/// The bytes before a separator.
#[derive(Clone, Copy)]
struct Word {
    length: usize,
    /// Its bytes but those that continue a character.
    size: usize,
}

/// Whether a byte parts words.
fn is_separator(byte: u8) -> bool
    ensures { result ≡ spec.is_separator byte }
{
    byte == NEWLINE || byte == b' ' || byte == b'\t'
}

/// Whether a byte counts, since it doesn't continue a character.
fn begins_character(byte: u8) -> bool
    ensures { result ≡ spec.begins_character byte }
{
    !(0x80..=0xBF).contains(&byte)
}

fn size_of(text: &[u8]) -> usize
    ensures { result ≡ spec.size_of text.now }
{
    text.iter().filter(|byte| begins_character(**byte)).count()
}

/// The word at the text's start, or `None` where no separator ends it.
fn next_word(text: &[u8]) -> Option<Word>
    ensures { MatchOption result
        (list_any spec.is_separator text.now ≡ false)
        (λ word. IsNextWord text.now word.length word.size) }
{
    let mut size = 0;
    for (length, byte) in text.iter().enumerate() {
        if is_separator(*byte) {
            return Some(Word { length, size });
        }
        if begins_character(*byte) {
            size += 1;
        }
    }
    None
}

/// The byte before a word of a size, and the column after that word.
fn lead_and_column(line: Line, size: usize) -> (Option<u8>, usize)
    ensures lead { option_to_list result.0 ≡ lead line.width line.column size }
    ensures column { result.1 ≡ column_past line.width line.column size }
{
    let width = usize::from(line.width);
    match line.column {
        None => (None, size),
        Some(column) => {
            if size < width && column < width - size {
                (Some(b' '), column + 1 + size)
            } else {
                (Some(NEWLINE), size)
            }
        }
    }
}

fn put_lead(lead: Option<u8>, out: &mut Vec<u8>) -> Result<(), NoMemory>
    ensures { Appends out.old.items out.new.items (option_to_list lead) result }
{
    if let Some(byte) = lead {
        out.push(byte)?;
    }
    Ok(())
}

/// Puts a word on the line, or on a new one where it doesn't fit. `begun` is the part of it that was taken
/// before.
fn put_word(
    line: Line,
    begun: &[u8],
    rest: &[u8],
    rest_size: usize,
    out: &mut Vec<u8>,
) -> Result<Option<usize>, NoMemory>
    requires { rest_size ≡ spec.size_of rest.now }
    ensures put { Appends out.old.items out.new.items
        (put line.width line.column (begun.now ++ rest.now)) result }
    ensures column { IfOk result (λ column.
        column ≡ column_after line.width line.column (begun.now ++ rest.now)) }
{
    if begun.len() + rest.len() == 0 {
        return Ok(line.column);
    }
    let (lead, column) = lead_and_column(line, size_of(begun) + rest_size);
    put_lead(lead, out)?;
    out.extend_from_slice(begun)?;
    out.extend_from_slice(rest)?;
    Ok(Some(column))
}

/// Puts a word that a separator ends, and the newline where it is one.
fn put_ended_word(
    line: Line,
    begun: &[u8],
    rest: &[u8],
    rest_size: usize,
    separator: u8,
    out: &mut Vec<u8>,
) -> Result<Option<usize>, NoMemory>
    requires { rest_size ≡ spec.size_of rest.now }
    ensures put { Appends out.old.items out.new.items
        (put line.width line.column (begun.now ++ rest.now) ++ separator_text separator) result }
    ensures column { IfOk result (λ column. column
        ≡ column_after_separator separator (column_after line.width line.column (begun.now ++ rest.now))) }
{
    let column = put_word(line, begun, rest, rest_size, out)?;
    if separator == NEWLINE {
        out.push(NEWLINE)?;
        return Ok(None);
    }
    Ok(column)
}

/// Puts the words of a text up to its last separator, the first of which goes on from `begun`.
///
/// Answers the column, and how many bytes that was.
fn put_words(
    line: Line,
    begun: &[u8],
    text: &[u8],
    out: &mut Vec<u8>,
) -> Result<(Option<usize>, usize), NoMemory>
    ensures put { IfOk result (λ done. PutsWords line.width
        (record { column = line.column; word = begun.now })
        text.now out.old.items out.new.items done.0 done.1) }
    ensures kept { IfErr result (λ _. Keeps out.old.items out.new.items) }
{
    let width = line.width;
    let mut column = line.column;
    let mut begun = begun;
    let mut at = 0;
    while let Some(word) = next_word(&text[at..]) {
        let end = at + word.length;
        let line = Line { width, column };
        column = put_ended_word(line, begun, &text[at..end], word.size, text[end], out)?;
        begun = &[];
        at = end + 1;
    }
    Ok((column, at))
}

/// Says a text after a word that isn't ended: the words that it ends are put out, and `word` is then
/// the one that isn't. Answers the column.
pub(crate) fn say_words(
    line: Line,
    word: &mut Vec<u8>,
    text: &[u8],
    out: &mut Vec<u8>,
) -> Result<Option<usize>, NoMemory>
    ensures put { Appends out.old.items out.new.items
        (put_text line.width (record { column = line.column; word = word.old.items }) text.now)
        result }
    ensures after { IfOk result (λ column. record { column = column; word = word.new.items }
        ≡ after_text line.width (record { column = line.column; word = word.old.items })
        text.now) }
    ensures kept { IfErr result (λ _. word.new.items ≡ word.old.items) }
{
    let taken = word.len();
    let (column, at) = put_words(line, word, text, out)?;
    word.extend_from_slice(&text[at..])?;
    if at > 0 {
        word.rotate_left(taken);
        word.truncate(text.len() - at);
    }
    Ok(column)
}

/// Puts the word that isn't ended, and a newline after it where one is asked for and the line isn't
/// empty.
pub(crate) fn put_rest(
    line: Line,
    word: &[u8],
    is_closed: bool,
    out: &mut Vec<u8>,
) -> Result<(), NoMemory>
    ensures { Appends out.old.items out.new.items (put line.width line.column word.now
        ++ (if is_closed then line_ending (column_after line.width line.column word.now) else []))
        result }
{
    let column = put_word(line, word, &[], 0, out)?;
    if is_closed && column.is_some() {
        out.push(NEWLINE)?;
    }
    Ok(())
}
