//! Stories that say texts on a page and ask for lines of input.
use std::alloc::Global;
use std::process::Abort;
use std::test::Fail;
use t3_cli::Status;
use t3_testing::{played, story};

/// Says its text, and returns.
const SAYS: &str = "pushstr @t / builtin_a 1 0 / retnil";

/// Says each line in brackets, until none is left.
pub(crate) const ECHOES: &str =
    "loop: / builtin_a 0 4 / getr0 / setlcl1 0 / getlcl1 0 / jf @done / \
                      pushstr @right / getlcl1 0 / pushstr @left / builtin_a 3 0 / jmp @loop / done: / retnil";

pub(crate) const BRACKETS: &str = "left: / text \"[\" / right: / text \"]\"";

/// What the story shows that says this text, by lines of a width.
fn said(alloc: Global, text: &str, width: &str) -> Result<Vec<u8>, Fail> {
    let constants = format!(in alloc; "t: / text \"{text}\"")?;
    let image = story(alloc, constants.as_str(), SAYS)?;
    let (_, shown) = played(alloc, &image, &[width], b"")?;
    Ok(shown)
}

/// A text, the width of a line, and what is shown.
const LAYOUTS: [(&str, &str, &str); 12] = [
    (
        "the quick brown fox",
        "--width=10",
        "the quick\nbrown fox\n",
    ),
    ("abcdefghijkl mn", "--width=10", "abcdefghijkl\nmn\n"),
    ("ab c", "--width=1", "ab\nc\n"),
    ("a b c", "--width=2", "a\nb\nc\n"),
    ("a b c", "--width=3", "a b\nc\n"),
    ("a b c", "--width=79", "a b c\n"),
    ("a b c", "--width=1000", "a b c\n"),
    // Spaces and tabs write nothing by themselves, and a newline does.
    (" a  b\\x09c  \\n\\n d", "--width=79", "a b c\n\nd\n"),
    ("a\\n", "--width=79", "a\n"),
    ("  ", "--width=79", ""),
    // Two bytes are one character.
    ("\\xc3\\xa9\\xc3\\xa9 a", "--width=4", "\u{e9}\u{e9} a\n"),
    ("\\xc3\\xa9\\xc3\\xa9 a", "--width=3", "\u{e9}\u{e9}\na\n"),
];

fn check_layout(
    rt: &impl Abort,
    alloc: Global,
    text: &str,
    width: &str,
    want: &str,
) -> Result<(), Fail> {
    let shown = said(alloc, text, width)?;
    assert_eq!(rt; shown.as_slice(), want.as_bytes(), "{text} {width}");
    Ok(())
}

#[test]
fn lays_out_what_is_said(rt: HostRuntime) -> Result<(), Fail> {
    for (text, width, want) in LAYOUTS {
        check_layout(&rt, rt.alloc(), text, width, want)?;
    }
    Ok(())
}

#[test]
fn lines_have_79_columns_where_no_option_says_it(rt: HostRuntime) -> Result<(), Fail> {
    let alloc = rt.alloc();
    // 39 and 39 bytes and a space fill a line, to which one byte more doesn't go.
    let long = "aaaaaaaaaaaaaaaaaaaaaaaaaaaaaaaaaaaaaaa bbbbbbbbbbbbbbbbbbbbbbbbbbbbbbbbbbbbbbb";
    let constants = format!(in alloc; "t: / text \"{long} c\"")?;
    let image = story(alloc, constants.as_str(), SAYS)?;
    let (status, shown) = played(alloc, &image, &[], b"")?;
    let want = format!(in alloc; "{long}\nc\n")?;
    assert_eq!(rt; shown.as_slice(), want.as_bytes());
    assert_eq!(rt; status, Status::Done);
    Ok(())
}

/// Says ten times 99 bytes of one word, which are 990, and two texts more.
const SAYS_990: &str =
    "zerolcl1 0 / loop: / pushstr @a / builtin_a 1 0 / inclcl 0 / getlcl1 0 / pushint8 10 / \
                        jlt @loop / pushstr @b / builtin_a 1 0 / pushstr @c / builtin_a 1 0 / retnil";

/// 99 bytes.
const PIECE: &str =
    "aaaaaaaaaaaaaaaaaaaaaaaaaaaaaaaaaaaaaaaaaaaaaaaaaaaaaaaaaaaaaaaaaaaaaaaaaaaaaaaaaaaaaaaaaaaaaaaaaaa";

/// What is shown behind 998 bytes of a word that ends so, and the word behind it, by lines of 1,000 columns.
fn shown_behind_998(alloc: Global, end: &str, word: &str) -> Result<Vec<u8>, Fail> {
    let constants = format!(in alloc;
        "a: / text \"{PIECE}\" / b: / text \"{end}\" / c: / text \" {word}\""
    )?;
    let image = story(alloc, constants.as_str(), SAYS_990)?;
    let (_, shown) = played(alloc, &image, &["--width=1000"], b"")?;
    Ok(Vec::from_slice(alloc, shown.get(998..).unwrap_or(b""))?)
}

/// How the first word ends, the second one, and what is shown. A space and one byte more fill the line.
const FILLED_LINES: [(&str, &str, &str); 3] = [
    ("bbbbbbbb", "c", " c\n"),
    ("bbbbbbbbb", "c", "b\nc\n"),
    ("bbbbbbbb", "cc", "\ncc\n"),
];

fn check_filled(
    rt: &impl Abort,
    alloc: Global,
    end: &str,
    word: &str,
    want: &str,
) -> Result<(), Fail> {
    let shown = shown_behind_998(alloc, end, word)?;
    assert_eq!(rt; shown.as_slice(), want.as_bytes(), "{end} {word}");
    Ok(())
}

#[test]
fn lines_have_1000_columns_at_most(rt: HostRuntime) -> Result<(), Fail> {
    for (end, word, want) in FILLED_LINES {
        check_filled(&rt, rt.alloc(), end, word, want)?;
    }
    Ok(())
}

/// A word that is longer than the line and is said in ten pieces, behind another and in front of one.
#[test]
fn a_word_goes_on_from_piece_to_piece(rt: HostRuntime) -> Result<(), Fail> {
    let alloc = rt.alloc();
    let body =
        "pushstr @a / builtin_a 1 0 / loop: / pushstr @b / builtin_a 1 0 / inclcl 0 / getlcl1 0 / \
                pushint8 10 / jlt @loop / pushstr @c / builtin_a 1 0 / retnil";
    let body = format!(in alloc; "zerolcl1 0 / {body}")?;
    let image = story(
        alloc,
        "a: / text \"x \" / b: / text \"ab\" / c: / text \" y\"",
        body.as_str(),
    )?;
    let (_, shown) = played(alloc, &image, &["--width=15"], b"")?;
    let want = b"x\nabababababababababab\ny\n";
    assert_eq!(rt; shown.as_slice(), want.as_slice());
    Ok(())
}

/// Input, and what is shown. Behind a line that was asked for the page begins anew, at column 0.
const INPUTS: [(&[u8], &[u8]); 9] = [
    (b"", b""),
    (b"e", b"[e]"),
    (b"e\n", b"[e]"),
    (b"e\r\nw", b"[e][w]"),
    (b"e\r", b"[e\r]"),
    (b"\n\n", b"[][]"),
    (b"go  e\n", b"[go e]"),
    (b"caf\xc3\xa9\n", b"[caf\xc3\xa9]"),
    (b"caf\xc3\n", b"[caf?]"),
];

fn check_input(
    rt: &impl Abort,
    alloc: Global,
    image: &[u8],
    input: &[u8],
    want: &[u8],
) -> Result<(), Fail> {
    let (status, shown) = played(alloc, image, &[], input)?;
    assert_eq!(rt; shown.as_slice(), want, "{input:?}");
    assert_eq!(rt; status, Status::Done);
    Ok(())
}

#[test]
fn gives_lines_of_input(rt: HostRuntime) -> Result<(), Fail> {
    let image = story(rt.alloc(), BRACKETS, ECHOES)?;
    for (input, want) in INPUTS {
        check_input(&rt, rt.alloc(), &image, input, want)?;
    }
    Ok(())
}

/// Takes a line with an argument, and a line whose length isn't looked at.
#[test]
fn a_line_takes_no_argument(rt: HostRuntime) -> Result<(), Fail> {
    let alloc = rt.alloc();
    let image = story(alloc, BRACKETS, "push_1 / builtin_a 1 4 / retnil")?;
    let (status, shown) = played(alloc, &image, &[], b"e\n")?;
    assert_eq!(rt;
        shown.as_slice(),
        b"[unhandled object=1 fault=2]\n".as_slice()
    );
    assert_eq!(rt; status, Status::Unhandled);
    Ok(())
}

/// What the story shows that takes one line, of so many bytes that no newline ends.
fn long_line(alloc: Global, size: usize) -> Result<(Status, Vec<u8>), Fail> {
    let image = story(
        alloc,
        "ok: / text \"ok\"",
        "builtin_a 0 4 / pushstr @ok / builtin_a 1 0 / retnil",
    )?;
    let mut input = Vec::new(alloc);
    input.resize(size, b'a')?;
    played(alloc, &image, &[], &input)
}

/// How many bytes a line has, what is shown, and the status.
const LONG_LINES: [(usize, &str, Status); 4] = [
    (65_535, "ok\n", Status::Done),
    (65_536, "[unhandled object=1 fault=10]\n", Status::Unhandled),
    (
        16_777_215,
        "[unhandled object=1 fault=10]\n",
        Status::Unhandled,
    ),
    (16_777_216, "[input limit]\n", Status::InputLimit),
];

fn check_long_line(
    rt: &impl Abort,
    alloc: Global,
    size: usize,
    want: &str,
    status: Status,
) -> Result<(), Fail> {
    let (got, shown) = long_line(alloc, size)?;
    assert_eq!(rt; shown.as_slice(), want.as_bytes(), "{size}");
    assert_eq!(rt; got, status, "{size}");
    Ok(())
}

#[test]
fn a_line_is_a_string_and_no_longer(rt: HostRuntime) -> Result<(), Fail> {
    for (size, want, status) in LONG_LINES {
        check_long_line(&rt, rt.alloc(), size, want, status)?;
    }
    Ok(())
}

/// How many steps there may be, what is shown, and the status: the entry's call, two instructions that say, one that
/// asks, and the return are five. A line isn't a step of its own, and a run may end while one is shown to be wanted.
const ASKED_STEPS: [(&str, &[u8], Status); 3] = [
    ("--steps=5", b">", Status::Done),
    ("--steps=4", b">[step limit]\n", Status::StepLimit),
    ("--steps=3", b">\n[step limit]\n", Status::StepLimit),
];

fn check_asked_steps(
    rt: &impl Abort,
    alloc: Global,
    steps: &str,
    want: &[u8],
    status: Status,
) -> Result<(), Fail> {
    let image = story(
        alloc,
        "t: / text \">\"",
        "pushstr @t / builtin_a 1 0 / builtin_a 0 4 / retnil",
    )?;
    let (got, shown) = played(alloc, &image, &[steps], b"e\n")?;
    assert_eq!(rt; shown.as_slice(), want, "{steps}");
    assert_eq!(rt; got, status, "{steps}");
    Ok(())
}

#[test]
fn a_line_is_no_further_step(rt: HostRuntime) -> Result<(), Fail> {
    for (steps, want, status) in ASKED_STEPS {
        check_asked_steps(&rt, rt.alloc(), steps, want, status)?;
    }
    Ok(())
}
