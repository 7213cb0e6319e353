//! The methods of texts.
use crate::fixture::{
    At, BAD, BAD_TEXT, EMPTY_TEXT, END, GONE, GONE_CLASS, KIND, LIST, LIVE_TEXT, NO, RANGE, Row,
    START, TABLE, TEXT, Want, YES, first_unlike,
};
use std::test::Fail;
use t3_holder::Holder;
use t3_kinds::Methods;

const LENGTH: At = (Methods::Text, 0);

const SUBSTR: At = (Methods::Text, 1);

const STARTS: At = (Methods::Text, 7);

const ENDS: At = (Methods::Text, 8);

const LENGTH_ROWS: [Row; 7] = [
    (LENGTH, TEXT, &[], Want::Value(Holder::Int(4))),
    (LENGTH, END, &[], Want::Value(Holder::Int(1))),
    (LENGTH, EMPTY_TEXT, &[], Want::Value(Holder::Int(0))),
    (LENGTH, LIVE_TEXT, &[], Want::Value(Holder::Int(2))),
    (LENGTH, BAD_TEXT, &[], BAD),
    (LENGTH, LIST, &[], KIND),
    (LENGTH, GONE_CLASS, &[], GONE),
];

#[test]
fn lengths(rt: HostRuntime) -> Result<(), Fail> {
    assert_eq!(rt; first_unlike(rt.alloc(), &LENGTH_ROWS)?, None);
    Ok(())
}

/// All of the text.
const WHOLE: Want = Want::Text(b"a\xC3\xA9\xE6\x97\xA5\xF0\x9D\x84\x9E");

const ONE: Holder = Holder::Int(1);

const MANY: Holder = Holder::Int(i32::MAX);

const SUBSTR_ROWS: [Row; 24] = [
    (SUBSTR, TEXT, &[ONE], WHOLE),
    (SUBSTR, TEXT, &[ONE, MANY], WHOLE),
    (SUBSTR, TEXT, &[ONE, Holder::Int(4)], WHOLE),
    (SUBSTR, TEXT, &[ONE, ONE], Want::Text(b"a")),
    (
        SUBSTR,
        TEXT,
        &[Holder::Int(2), ONE],
        Want::Text(b"\xC3\xA9"),
    ),
    (
        SUBSTR,
        TEXT,
        &[Holder::Int(2), Holder::Int(2)],
        Want::Text(b"\xC3\xA9\xE6\x97\xA5"),
    ),
    (
        SUBSTR,
        TEXT,
        &[Holder::Int(4)],
        Want::Text(b"\xF0\x9D\x84\x9E"),
    ),
    (SUBSTR, TEXT, &[Holder::Int(5)], Want::Text(b"")),
    (SUBSTR, TEXT, &[MANY, MANY], Want::Text(b"")),
    (SUBSTR, TEXT, &[ONE, Holder::Int(0)], Want::Text(b"")),
    (SUBSTR, LIVE_TEXT, &[Holder::Int(2)], Want::Text(b"d")),
    (SUBSTR, EMPTY_TEXT, &[ONE], Want::Text(b"")),
    (SUBSTR, TEXT, &[Holder::Int(0)], RANGE),
    (SUBSTR, TEXT, &[Holder::Int(i32::MIN)], RANGE),
    (SUBSTR, TEXT, &[ONE, Holder::Int(-1)], RANGE),
    (SUBSTR, BAD_TEXT, &[Holder::Int(0)], RANGE),
    (SUBSTR, BAD_TEXT, &[ONE], BAD),
    (SUBSTR, TEXT, &[Holder::Nil], KIND),
    (SUBSTR, TEXT, &[Holder::Int(0), Holder::Nil], KIND),
    (SUBSTR, TEXT, &[Holder::Nil, Holder::Int(-1)], KIND),
    (SUBSTR, TEXT, &[GONE_CLASS], KIND),
    (SUBSTR, BAD_TEXT, &[ONE, Holder::Nil], KIND),
    (SUBSTR, LIST, &[ONE], KIND),
    (SUBSTR, GONE_CLASS, &[ONE], GONE),
];

#[test]
fn parts(rt: HostRuntime) -> Result<(), Fail> {
    assert_eq!(rt; first_unlike(rt.alloc(), &SUBSTR_ROWS)?, None);
    Ok(())
}

const END_ROWS: [Row; 18] = [
    (STARTS, TEXT, &[START], YES),
    (STARTS, TEXT, &[TEXT], YES),
    (STARTS, TEXT, &[EMPTY_TEXT], YES),
    (STARTS, TEXT, &[END], NO),
    (STARTS, START, &[TEXT], NO),
    (STARTS, BAD_TEXT, &[TEXT], BAD),
    (STARTS, TEXT, &[BAD_TEXT], BAD),
    (STARTS, BAD_TEXT, &[Holder::Nil], KIND),
    (STARTS, TEXT, &[GONE_CLASS], GONE),
    (STARTS, TEXT, &[TABLE], KIND),
    (ENDS, TEXT, &[END], YES),
    (ENDS, TEXT, &[TEXT], YES),
    (ENDS, EMPTY_TEXT, &[EMPTY_TEXT], YES),
    (ENDS, TEXT, &[START], NO),
    (ENDS, END, &[TEXT], NO),
    (ENDS, TEXT, &[LIST], KIND),
    (ENDS, TEXT, &[BAD_TEXT], BAD),
    (ENDS, BAD_TEXT, &[GONE_CLASS], GONE),
];

#[test]
fn ends(rt: HostRuntime) -> Result<(), Fail> {
    assert_eq!(rt; first_unlike(rt.alloc(), &END_ROWS)?, None);
    Ok(())
}
