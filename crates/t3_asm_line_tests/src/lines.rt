//! Words and the rules on them, worked out by hand.
use crate::telling::check_rows;
use std::test::Fail;
use t3_asm_line::{Keyword, LineRefusal, parse_line};

/// The example of the crate's first page.
#[test]
fn reads_a_line_with_a_comment(rt: HostRuntime) -> Result<(), Fail> {
    let alloc = rt.alloc();
    let line = parse_line(alloc, b"pool 1 0x10 256 ; code")?.expect(&rt, "it has words");
    assert_eq!(rt; line.keyword, Keyword::Pool);
    assert_eq!(rt;
        parse_line(alloc, b"pool 1 0x10 x").err(),
        Some(LineRefusal::Number)
    );
    Ok(())
}

#[test]
fn reads_words_and_comments(rt: HostRuntime) -> Result<(), Fail> {
    check_rows(
        &rt,
        rt.alloc(),
        &[
            (b"", "nothing"),
            (b"   ", "nothing"),
            (b"; image", "nothing"),
            (b"image", "Image"),
            (b"  image  ", "Image"),
            (b"image;x", "Image"),
            (b"image ; \"x", "Image"),
            (b"\timage", "Word"),
            (b"image\r", "Word"),
            (b"u1\t1", "Word"),
            (b"u1 1\r", "Number"),
            (b"Image", "Word"),
            (b"frob", "Word"),
            (b"image 00", "Word"),
            (b"end", "Word"),
            (b"end 0", "End 0"),
            (b"end 0 0", "Word"),
        ],
    )
}

#[test]
fn reads_numbers(rt: HostRuntime) -> Result<(), Fail> {
    check_rows(
        &rt,
        rt.alloc(),
        &[
            (b"u1 0", "U1 0"),
            (b"u1 255", "U1 255"),
            (b"u1 256", "Range"),
            (b"u1 -1", "Range"),
            (b"u1 -0", "U1 0"),
            (b"u1 007", "U1 7"),
            (b"u1 -007", "Range"),
            (b"u1 0x0F", "U1 15"),
            (b"u1 0xfF", "U1 255"),
            (b"u1 0x100", "Range"),
            (b"u1 0x", "Number"),
            (b"u1 0X1", "Number"),
            (b"u1 -0x1", "Number"),
            (b"u1 +1", "Number"),
            (b"u1 -", "Number"),
            (b"u1 1a", "Number"),
            (b"u1 --1", "Number"),
            (b"u1 @L", "Number"),
            (b"u1 ~L", "Number"),
            (b"u1 99999999999999999999999999999999999999999", "Range"),
            (b"u1 18446744073709551616", "Range"),
            (b"u2 65535", "U2 65535"),
            (b"u2 65536", "Range"),
            (b"u2 -1", "Range"),
            (b"u2 ~L", "U2 ~4c"),
            (b"u2 @L", "Number"),
            (b"u4 4294967295", "U4 4294967295"),
            (b"u4 4294967296", "Range"),
            (b"u4 -1", "Range"),
            (b"u4 @L", "U4 @4c"),
            (b"u4 ~L", "Number"),
            (b"u4 @", "Number"),
            (b"u4 @a-b", "Number"),
            (b"u4 @@L", "Number"),
        ],
    )
}

#[test]
fn reads_values_and_jumps(rt: HostRuntime) -> Result<(), Fail> {
    check_rows(
        &rt,
        rt.alloc(),
        &[
            (b"hold 7 -1", "Hold 7 4294967295"),
            (b"hold 7 -2147483648", "Hold 7 2147483648"),
            (b"hold 7 -2147483649", "Range"),
            (b"hold 7 4294967295", "Hold 7 4294967295"),
            (b"hold 7 4294967296", "Range"),
            (b"hold 8 @cave", "Hold 8 @63617665"),
            (b"hold 256 0", "Range"),
            (b"hold 8 ~L", "Number"),
            (b"case 7 -2 -32768", "Case 7 4294967294 32768"),
            (b"case 7 0 32767", "Case 7 0 32767"),
            (b"case 7 0 32768", "Range"),
            (b"default -32769", "Range"),
            (b"default @L", "Default @4c"),
            (b"default ~L", "Number"),
        ],
    )
}

#[test]
fn reads_quoted_texts(rt: HostRuntime) -> Result<(), Fail> {
    check_rows(
        &rt,
        rt.alloc(),
        &[
            (b"text \"\"", "Text ="),
            (b"text \"a b;c\"", "Text =6120623b63"),
            (b"text \"a\\\\\"", "Text =615c"),
            (b"text \"\\\"\\n\\x41\\x4A\\x4a\"", "Text =220a414a4a"),
            (b"text \"a\"b", "Number"),
            (b"text \"a\" b", "Word"),
            (b"text a", "Number"),
            (b"text a\"b c\"", "Number"),
            (b"text \"a", "Number"),
            (b"text \"a ; b", "Number"),
            (b"text \"ab\\\"", "Number"),
            (b"text \"ab\\", "Number"),
            (b"text \"\\x4\"", "Number"),
            (b"text \"\\x4g\"", "Number"),
            (b"text \"\\t\"", "Number"),
            (b"text \"\t\x80\"", "Text =0980"),
            (b"block \"ENTP\" 1", "Block =454e5450 1"),
            (b"block \"ENT\" 1", "Range"),
            (b"block \"ENTPX\" 1", "Range"),
            (b"block \"ENTPX\" 65536", "Range"),
            (b"block ENTP 65536", "Number"),
        ],
    )
}

#[test]
fn reads_hex(rt: HostRuntime) -> Result<(), Fail> {
    check_rows(
        &rt,
        rt.alloc(),
        &[
            (b"bytes -", "Bytes ="),
            (b"bytes 00fFAb", "Bytes =00ffab"),
            (b"bytes 0", "Number"),
            (b"bytes 0g", "Number"),
            (b"bytes --", "Number"),
            (b"image 00 00", "Range"),
        ],
    )
}

#[test]
fn reads_labels(rt: HostRuntime) -> Result<(), Fail> {
    check_rows(
        &rt,
        rt.alloc(),
        &[
            (b"L:", "Label =4c"),
            (b"nop: ; x", "Label =6e6f70"),
            (b"7_a:", "Label =375f61"),
            (b"L: image", "Word"),
            (b":", "Word"),
            (b"a-b:", "Word"),
        ],
    )
}

#[test]
fn breaks_rules_in_their_order(rt: HostRuntime) -> Result<(), Fail> {
    check_rows(
        &rt,
        rt.alloc(),
        &[
            (b"frob x", "Word"),
            (b"pool 99999 x 1", "Number"),
            (b"pool 99999 1", "Word"),
        ],
    )
}
