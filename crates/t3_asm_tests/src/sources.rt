//! Sources with their images or bad lines, worked out by hand from the rules.
ghost use Rattle.std.specs.Prelude.{◌<◌, ◌-◌, ◌^◌, length};

use std::alloc::Global;
use std::process::Abort;
use std::test::Fail;
use t3_asm::{AsmRefusal, assemble, list, list_assembles};
use t3_asm_line::lines_few;
use t3_image_read::{HEAD_SIZE, Image};
use t3_image_write::write_image;

/// What a source says: the bytes of its image behind the header, as HEX, or the line at which it is
/// refused, and why.
fn told(rt: &impl Abort, alloc: Global, source: &[u8]) -> Result<String, Fail> {
    assert!(rt; source.len() < 4_294_967_295);
    match assemble_few(alloc, source) {
        Ok(image) => image_told(alloc, &image),
        Err(refusal) => {
            let line = refusal.line;
            let why = refusal.why;
            Ok(format!(in alloc; "{line} {why:?}")?)
        }
    }
}

/// The same as `assemble`, of a text with fewer bytes than there may be lines.
pub(crate) fn assemble_few(alloc: Global, source: &[u8]) -> Result<Image, AsmRefusal>
    requires { length source.now < 2 ^ 32 - 1 }
{
    lines_few();
    assemble(alloc, source)
}

fn image_told(alloc: Global, image: &Image) -> Result<String, Fail> {
    let bytes = write_image(alloc, image)?;
    let start = bytes.len().min(HEAD_SIZE);
    Ok(hex::encode(alloc, &bytes[start..])?)
}

/// Each row has a source, and what it says.
fn check_rows(rt: &impl Abort, alloc: Global, rows: &[(&[u8], &str)]) -> Result<(), Fail> {
    for row in rows {
        let (source, expected) = *row;
        assert_eq!(rt; told(rt, alloc, source)?.as_str(), expected);
    }
    Ok(())
}

#[test]
fn refuses_forms(rt: HostRuntime) -> Result<(), Fail> {
    check_rows(
        &rt,
        rt.alloc(),
        &[
            (b"", "1 Order"),
            (b"\n", "2 Order"),
            (b"image\n", "2 Order"),
            (b"image\n;end 0", "3 Order"),
            (b"end 0\n", "1 Order"),
            (b"image\nimage\nend 0\n", "2 Order"),
            (b"image\nend 0\nend 0\n", "3 Order"),
            (b"image\nend 0\nnop\n", "3 Order"),
            (b"image\nblock \"ENTP\" 1\nend 0\n", "3 Order"),
            (
                b"image\nblock \"OBJS\" 1\nblock \"FNSD\" 1\nend 0\n",
                "3 Order",
            ),
            (
                b"image\nblock \"OBJS\" 1\nobjects 0 0\nu1 0\nend 0\n",
                "4 Order",
            ),
            (b"image\nblock \"EOF \" 0\nend 0\n", "2 Order"),
            (b"image\nblock \"ZZZZ\" 1\nend 0\n", "2 Order"),
            (b"image\nfrob\nend\n", "2 Word"),
            (b"image\nu1 x\nend 0\n", "2 Number"),
            (b"image\nu1 256\nend 0\n", "2 Range"),
            (b"image\nu1 255\nend 0\n", "2 Order"),
            (b"image\nu1 x\nfrob\nend 0\n", "2 Number"),
            (b"image\nfrob x\nend 0\n", "2 Word"),
            (b"image\npool 65536 x 0\nend 0\n", "2 Number"),
            (b"image\nu4 ~a\nend 0\n", "2 Number"),
            (b"image\nu2 @a\nend 0\n", "2 Number"),
            (
                b"image\nblock \"CPPG\" 1\npage 1 0 0\na:\nend 0\n",
                "4 Order",
            ),
            (
                b"image\nblock \"CPPG\" 1\npage 1 0 0\nu4 @a\nend 0\n",
                "4 Order",
            ),
            (
                b"image\nblock \"CPDF\" 1\npool 2 1 16\nblock \"CPPG\" 1\npage 1 0 0\na:\nend 0\n",
                "6 Order",
            ),
            (
                b"image\n\
                  block \"CPDF\" 1\npool 1 1 16\n\
                  block \"CPPG\" 1\npage 1 0 0\na:\na:\n\
                  end 0\n",
                "7 LabelTwice",
            ),
            (
                b"image\n\
                  block \"CPDF\" 1\npool 1 1 16\n\
                  block \"CPPG\" 1\npage 1 0 0\nu2 ~a\n\
                  end 0\n",
                "6 Order",
            ),
            (
                b"image\nblock \"CPPG\" 1\npage 1 0 0\nmethod 0 0 0 0\nu2 ~a\nend 0\n",
                "5 Order",
            ),
            (
                b"image\nblock \"OBJS\" 1\nobjects 0 0\nobject 1\nu2 ~a\nend 0\n",
                "5 Order",
            ),
            (
                b"image\n\
                  block \"CPDF\" 1\npool 1 1 16\n\
                  block \"CPPG\" 1\npage 1 0 0\na:\n\
                  block \"CPPG\" 1\npage 2 0 0\na:\n\
                  end 0\n",
                "9 LabelTwice",
            ),
            (b"image\nblock \"MCLD\" 1\nprop 1\nend 0\n", "3 Order"),
            (
                b"image\nblock \"MCLD\" 1\nmetaclass \"a\" 0 -\nprop 1\nend 0\n",
                "4 Range",
            ),
            (
                b"image\nblock \"MCLD\" 1\nmetaclass \"a\" 3 -\nprop 1\nend 0\n",
                "4 Range",
            ),
            (
                b"image\nblock \"MCLD\" 1\nmetaclass \"a\" 2 -\nprop 1 00\nend 0\n",
                "4 Range",
            ),
            (
                b"image\nblock \"MCLD\" 1\nmetaclass \"a\" 1 -\nprop 1\nend 0\n",
                "4 Range",
            ),
        ],
    )
}

#[test]
fn refuses_values(rt: HostRuntime) -> Result<(), Fail> {
    check_rows(
        &rt,
        rt.alloc(),
        &[
            (
                b"image\nblock \"ENTP\" 1\nentry @a 0 0 0 0 0 0 -\nend 0\n",
                "3 LabelMissing",
            ),
            (
                b"image\nblock \"ENTP\" 1\nentry @a 0 0 0 0 0 0 -\nend 0\nnop\n",
                "5 Order",
            ),
            (
                b"image\n\
                  block \"CPDF\" 1\npool 1 1 16\n\
                  block \"CPPG\" 1\npage 1 0 0\njmp @a\njmp @b\n\
                  end 0\n",
                "6 LabelMissing",
            ),
            (
                b"image\n\
                  block \"CPDF\" 1\npool 1 2 32768\n\
                  block \"CPPG\" 1\npage 1 0 0\na:\n\
                  block \"CPPG\" 1\npage 1 1 0\njmp @a\n\
                  end 0\n",
                "9 Jump",
            ),
            (
                b"image\n\
                  block \"CPDF\" 1\npool 1 2 32769\n\
                  block \"CPPG\" 1\npage 1 0 0\njmp @a\n\
                  block \"CPPG\" 1\npage 1 1 0\na:\n\
                  end 0\n",
                "6 Jump",
            ),
            (
                b"image\n\
                  block \"CPDF\" 1\npool 1 3 4294967295\n\
                  block \"CPPG\" 1\npage 1 2 0\na:\nu4 @a\n\
                  end 0\n",
                "7 Range",
            ),
            (
                b"image\n\
                  block \"CPDF\" 1\npool 1 1 16\n\
                  block \"CPPG\" 1\npage 1 0 0\na:\nu1 0\nmethod 0 0 0 0\nu2 ~a\n\
                  end 0\n",
                "9 Range",
            ),
            (
                b"image\n\
                  block \"CPDF\" 1\npool 1 2 65536\n\
                  block \"CPPG\" 1\npage 1 0 0\nmethod 0 0 0 ~a\n\
                  block \"CPPG\" 1\npage 1 1 0\na:\n\
                  end 0\n",
                "6 Range",
            ),
        ],
    )
}

/// A label beyond four bytes, in front of a line that uses it.
#[test]
fn refuses_the_first_rule_of_a_line(rt: HostRuntime) -> Result<(), Fail> {
    check_rows(
        &rt,
        rt.alloc(),
        &[
            (
                b"image\n\
                  block \"CPDF\" 1\npool 1 3 4294967295\n\
                  block \"CPPG\" 1\npage 1 2 0\na:\n\
                  block \"CPPG\" 1\npage 1 0 0\ncase 6 @a @b\n\
                  end 0\n",
                "9 LabelMissing",
            ),
            (
                b"image\n\
                  block \"CPDF\" 1\npool 1 3 4294967295\n\
                  block \"CPPG\" 1\npage 1 2 0\na:\n\
                  block \"CPPG\" 1\npage 1 0 0\ncase 6 @a @a\n\
                  end 0\n",
                "9 Jump",
            ),
            (
                b"image\n\
                  block \"CPDF\" 1\npool 1 3 4294967295\n\
                  block \"CPPG\" 1\npage 1 2 0\na:\n\
                  block \"CPPG\" 1\npage 1 0 0\ncase 6 @a 0\njmp @b\n\
                  end 0\n",
                "9 Range",
            ),
        ],
    )
}

/// The worked story of 185 bytes.
const STORY: &[u8] = b"image\n\
  block \"ENTP\" 1\nentry @main 10 10 0 0 0 0 -\n\
  block \"CPDF\" 1\npool 1 1 64\n\
  block \"FNSD\" 1\nfunction-set \"tads-io/030007\"\n\
  block \"CPPG\" 1\npage 1 0 0\nmain:\nmethod 0 0 2 0\npushint8 42\nbuiltin_a 1 0\nretnil\n\
  end 0\n";

/// Sources and their images.
const WORKED: [(&[u8], &str); 10] = [
    (b"image\nend 0", "454f4620000000000000"),
    (
        b" image ; the head\n\nblock \"ZZZZ\" 2\nend 3\n",
        "5a5a5a5a000000000200454f4620000000000300",
    ),
    (
        STORY,
        "454e5450100000000100000000000a000a000000000000000000435044460a000000010001000100000040000000\
464e534411000000010001000e746164732d696f2f303330303037\
435050471700000001000100000000000000000000020000000000032ab1010051454f4620000000000000",
    ),
    (
        b"image\n\
          block \"OBJS\" 1\nobjects 0 0\nobject 7\nu1 5\nhold 7 -1\n\
          block \"SYMD\" 0\nsymbol 6 -2 \"x\"\n\
          block \"MCLD\" 1\nmetaclass \"m\" 3 ff\nprop 258 01\n\
          end 3\n",
        "4f424a531200000001000100000000000700000006000507ffffffff53594d44090000000000010006feffffff0178\
4d434c440e000000010001000c00016d01000300020101ff454f4620000000000300",
    ),
    (
        b"image\n\
          block \"MCLD\" 0\nmetaclass \"m\" 2 -\nprop 7\nmetaclass \"\" 0 -\n\
          end 0\n",
        "4d434c4413000000000002000a00016d01000200070007000000000000454f4620000000000000",
    ),
    (
        b"image\n\
          block \"CPDF\" 1\npool 1 2 16\n\
          block \"CPPG\" 1\npage 1 1 0\nu4 @b\na:\n\
          block \"CPPG\" 1\npage 1 0 0\nu1 0\nb:\nu4 @a\n\
          end 0\n",
        "435044460a000000010001000200000010000000435050470b0000000100010001000000000\
1000000435050470c0000000100010000000000000014000000454f4620000000000000",
    ),
    (
        b"image\n\
          block \"CPDF\" 1\npool 1 1 16\n\
          block \"CPPG\" 1\npage 1 0 0\nmethod 0 0 0 ~a\na:\n\
          block \"OBJS\" 1\nobjects 0 0\nobject 1\nu2 ~a\n\
          end 0\n",
        "435044460a000000010001000100000010000000\
43505047110000000100010000000000000000000000000a000000\
4f424a530e00000001000100000000000100000002000a00454f4620000000000000",
    ),
    (
        b"image\nblock \"CPPG\" 1\npage 1 0 0\nmethod 1 2 3 4 5\nend 0\n",
        "4350504711000000010001000000000000\
01050200030004000000454f4620000000000000",
    ),
    (
        b"image\n\
          block \"CPDF\" 1\npool 1 2 32768\n\
          block \"CPPG\" 1\npage 1 0 0\njmp @a\n\
          block \"CPPG\" 1\npage 1 1 0\na:\n\
          end 0\n",
        "435044460a000000010001000200000000800000435050470a00000001000100000000000091ff7f\
4350504707000000010001000100000000454f4620000000000000",
    ),
    (
        b"image\n\
          block \"CPDF\" 1\npool 1 2 32767\n\
          block \"CPPG\" 1\npage 1 0 0\na:\n\
          block \"CPPG\" 1\npage 1 1 0\njmp @a\n\
          end 0\n",
        "435044460a0000000100010002000000ff7f00004350504707000000010001000000000000\
435050470a000000010001000100000000910080454f4620000000000000",
    ),
];

#[test]
fn makes_the_worked_images(rt: HostRuntime) -> Result<(), Fail> {
    check_rows(&rt, rt.alloc(), &WORKED)
}

/// The listing of a source's image; nothing where it is refused.
fn relisted(rt: &impl Abort, alloc: Global, source: &[u8]) -> Result<Vec<u8>, Fail> {
    assert!(rt; source.len() < 4_294_967_295);
    match assemble_few(alloc, source) {
        Ok(image) => Ok(list(alloc, &image)?),
        Err(_) => Ok(Vec::new(alloc)),
    }
}

/// What a source says once its image is listed and assembled again.
fn told_again(rt: &impl Abort, alloc: Global, source: &[u8]) -> Result<String, Fail> {
    assert!(rt; source.len() < 4_294_967_295);
    let image = assemble_few(alloc, source)?;
    image_told(alloc, &list_assembles(alloc, &image)?)
}

#[test]
fn lists_what_assembles_to_the_same(rt: HostRuntime) -> Result<(), Fail> {
    let alloc = rt.alloc();
    assert_eq!(rt; relisted(&rt, alloc, STORY)?.len(), 302);
    for row in &WORKED {
        let (source, expected) = *row;
        assert_eq!(rt; told_again(&rt, alloc, source)?.as_str(), expected);
    }
    Ok(())
}
