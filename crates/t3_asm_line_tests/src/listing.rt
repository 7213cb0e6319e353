//! A listing worked out by hand.
use std::test::Fail;
use t3_asm_line::{Keyword, Listed, append_line};

#[test]
fn lists_the_worked_lines(rt: HostRuntime) -> Result<(), Fail> {
    let alloc = rt.alloc();
    let mut out = Vec::new(alloc);
    append_line(alloc, Keyword::Image, &[], &mut out)?;
    let pool = [
        Listed::Number(1),
        Listed::Number(0),
        Listed::Number(u32::MAX),
    ];
    append_line(alloc, Keyword::Pool, &pool, &mut out)?;
    append_line(alloc, Keyword::Bytes, &[Listed::Text(b"")], &mut out)?;
    append_line(
        alloc,
        Keyword::Bytes,
        &[Listed::Text(b"\x00\xAB")],
        &mut out,
    )?;
    let name = [Listed::Text(b"a \"\\\n\x7f~\xe9")];
    append_line(alloc, Keyword::FunctionSet, &name, &mut out)?;
    let expected =
        "image\npool 1 0 4294967295\nbytes -\nbytes 00ab\nfunction-set \"a \\\"\\\\\\n\\x7f~\\xe9\"\n";
    assert_eq!(rt; out.as_slice(), expected.as_bytes());
    Ok(())
}
