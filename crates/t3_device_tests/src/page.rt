//! Texts on lines: worked by hand, and many against a small renderer of whole texts.
ghost use Rattle.std.specs.Prelude.{◌<◌};

use std::alloc::Global;
use std::process::Abort;
use std::test::Fail;
use t3_console::Page;
use t3_holder::NoMemory;

/// Texts with words longer than a line, spaces, tabs and newlines in runs, and bytes from 80 up.
const TEXTS: [&[u8]; 40] = [
    b"",
    b"a",
    b" ",
    b"\n",
    b"\t",
    b"the quick brown fox",
    b"the quick brown fox ",
    b"the quick brown fox\n",
    b"abcdefghijkl mn",
    b"mn abcdefghijkl op",
    b"   three   spaces   ",
    b"\t\ttabs\t\tand\t spaces \t",
    b"one\n\ntwo\n\n\nthree",
    b"\n\nleading",
    b"trailing\n\n",
    b" \n \n ",
    b"a b c d e f g h i j k l m n o p q r s t u v w x y z",
    b"aa bb cc dd ee ff gg hh ii jj kk ll mm nn oo pp qq",
    b"1234567890 1234567890 123456789 1 12345678 1",
    b"123456789 123456789 12",
    b"1234 56789 x",
    b"1234 5678 x y",
    b"0123456789\n0123456789 x",
    b"caf\xc3\xa9 na\xc3\xafve \xc3\xa0 la",
    b"\xe2\x82\xac\xe2\x82\xac\xe2\x82\xac \xe2\x82\xac\xe2\x82\xac\xe2\x82\xac \xe2\x82\xac\xe2\x82\xac",
    b"\x80\x81 x \xbf\xbf\xbf y",
    b"\x80 \x80 \x80\n\x80",
    b"\xff\xfe\xc0 \xf0\x9f\x98\x80",
    b"\r\n\x00 \x7f",
    b"a\rb c\x0bd",
    b" a",
    b"\na",
    b"a \n b",
    b"a\n b \nc",
    b"a\t\nb\n\tc",
    b"x  y\n\n  z  ",
    b"a-very-long-word-that-does-not-fit-on-any-of-the-narrow-lines and some more",
    b"It was a bright cold day in April, and the clocks were striking thirteen. He went on.",
    b"one two three four five six seven eight nine ten eleven twelve thirteen fourteen fifteen s",
    b"The end.\nAnd after it a second paragraph, which is longer than the first one was by far.\n",
];

/// A whole text on its lines, paragraph by paragraph.
fn rendered(alloc: Global, width: usize, text: &[u8]) -> Result<Vec<u8>, NoMemory> {
    let mut out = Vec::new(alloc);
    let mut is_first_paragraph = true;
    for paragraph in text.split(|byte| *byte == b'\n') {
        if !is_first_paragraph {
            out.push(b'\n')?;
        }
        is_first_paragraph = false;
        let mut column = 0usize;
        let mut is_first_word = true;
        for word in paragraph.split(|byte| *byte == b' ' || *byte == b'\t') {
            if word.is_empty() {
                continue;
            }
            let size = word.iter().filter(|byte| **byte & 0xC0 != 0x80).count();
            if !is_first_word && column.saturating_add(size) < width {
                out.push(b' ')?;
                column = column.saturating_add(1);
            } else if !is_first_word {
                out.push(b'\n')?;
                column = 0;
            }
            out.extend_from_slice(word)?;
            column = column.saturating_add(size);
            is_first_word = false;
        }
    }
    Ok(out)
}

/// The text up to its last separator.
fn ended(text: &[u8]) -> &[u8] {
    match text.iter().rposition(|byte| b" \t\n".contains(byte)) {
        Some(place) if place < text.len() => &text[..place + 1],
        _ => &[],
    }
}

/// Says a text in pieces of a length, looks at what is put out after each, and ends it by `rest` or by
/// `close`.
fn says_in_pieces(
    rt: &impl Abort,
    alloc: Global,
    page: &mut Page,
    width: u16,
    text: &[u8],
    length: usize,
    is_closed: bool,
) -> Result<(), Fail>
    requires { 0 < length }
{
    let mut out = Vec::new(alloc);
    let mut said = Vec::new(alloc);
    for piece in text.chunks(length) {
        page.say(piece, &mut out)?;
        said.extend_from_slice(piece)?;
        let due = rendered(alloc, usize::from(width), ended(&said))?;
        assert_eq!(rt;
            out.as_slice(),
            due.as_slice(),
            "{said:?} at {width} by {length}"
        );
    }
    let mut due = rendered(alloc, usize::from(width), text)?;
    if is_closed {
        page.close(&mut out)?;
        if due.last().is_some_and(|byte| *byte != b'\n') {
            due.push(b'\n')?;
        }
    } else {
        page.rest(&mut out)?;
    }
    assert_eq!(rt;
        out.as_slice(),
        due.as_slice(),
        "{text:?} at {width} by {length}"
    );
    Ok(())
}

/// All texts, one after the other on one page.
fn says_all_at(rt: &impl Abort, alloc: Global, width: u16) -> Result<(), Fail>
    requires { 0 < width }
{
    let mut page = Page::new(alloc, width);
    for text in TEXTS {
        for length in 1..text.len().saturating_add(2) {
            says_in_pieces(rt, alloc, &mut page, width, text, length, length % 2 == 0)?;
        }
    }
    Ok(())
}

#[test]
fn shows_texts_as_a_renderer_of_whole_texts_does(rt: HostRuntime) -> Result<(), Fail> {
    says_all_at(&rt, rt.alloc(), 1)?;
    says_all_at(&rt, rt.alloc(), 2)?;
    says_all_at(&rt, rt.alloc(), 10)?;
    says_all_at(&rt, rt.alloc(), 79)?;
    says_all_at(&rt, rt.alloc(), 1000)
}

/// A text, and what is put out for it on lines of ten.
type PageRow = (&'static [u8], &'static [u8]);

const BY_HAND: [PageRow; 7] = [
    (b"the quick brown fox", b"the quick\nbrown fox\n"),
    (b"abcdefghijkl mn", b"abcdefghijkl\nmn\n"),
    (b"mn abcdefghijkl", b"mn\nabcdefghijkl\n"),
    (b"  a \t b  ", b"a b\n"),
    (b"a\n\nb\n", b"a\n\nb\n"),
    (
        b"12345 \xc3\xa9\xc3\xa9\xc3\xa9\xc3\xa9 x",
        b"12345 \xc3\xa9\xc3\xa9\xc3\xa9\xc3\xa9\nx\n",
    ),
    (b"", b""),
];

/// A text on a page of its own is put out so.
fn check_lines(rt: &impl Abort, alloc: Global, text: &[u8], lines: &[u8]) -> Result<(), Fail> {
    let mut page = Page::new(alloc, 10);
    let mut out = Vec::new(alloc);
    page.say(text, &mut out)?;
    page.close(&mut out)?;
    assert_eq!(rt; out.as_slice(), lines, "{text:?}");
    Ok(())
}

#[test]
fn shows_what_was_worked_out_by_hand(rt: HostRuntime) -> Result<(), Fail> {
    for (text, lines) in BY_HAND {
        check_lines(&rt, rt.alloc(), text, lines)?;
    }
    Ok(())
}

#[test]
fn says_the_example_of_the_first_page(rt: HostRuntime) -> Result<(), Fail> {
    let alloc = rt.alloc();
    let mut page = Page::new(alloc, 10);
    let mut out = Vec::new(alloc);
    page.say(b"the quick bro", &mut out)?;
    assert_eq!(rt; out.as_slice(), b"the quick".as_slice());
    page.say(b"wn fox", &mut out)?;
    assert_eq!(rt; out.as_slice(), b"the quick\nbrown".as_slice());
    page.close(&mut out)?;
    assert_eq!(rt; out.as_slice(), b"the quick\nbrown fox\n".as_slice());
    Ok(())
}

#[test]
fn keeps_a_word_until_it_is_ended(rt: HostRuntime) -> Result<(), Fail> {
    let alloc = rt.alloc();
    let mut page = Page::new(alloc, 10);
    let mut out = Vec::new(alloc);
    page.say(b"ab", &mut out)?;
    assert_eq!(rt; out.len(), 0);
    page.say(b"cd e", &mut out)?;
    assert_eq!(rt; out.as_slice(), b"abcd".as_slice());
    page.rest(&mut out)?;
    assert_eq!(rt; out.as_slice(), b"abcd e".as_slice());
    check_new_text(&rt, &mut page, &mut out)
}

/// A new text begins at column 0, and with nothing said there is no line to end.
fn check_new_text(rt: &impl Abort, page: &mut Page, out: &mut Vec<u8>) -> Result<(), Fail> {
    page.close(out)?;
    page.say(b"123456789 ", out)?;
    page.close(out)?;
    page.say(b"\n", out)?;
    page.close(out)?;
    assert_eq!(rt; out.as_slice(), b"abcd e123456789\n\n".as_slice());
    Ok(())
}
