//! Lines worked out by hand from the table of lines.
use crate::telling::{check_rows, told};
use std::alloc::Global;
use std::test::Fail;
use t3_asm_line::{Argument, parse_line};

#[test]
fn reads_each_line_of_an_image(rt: HostRuntime) -> Result<(), Fail> {
    check_rows(
        &rt,
        rt.alloc(),
        &[
            (
                b"image 0000000000000000000000000000000000000000000000000000000000000000 202020202020202020202020202020202020202020202020",
                "ImageHead =0000000000000000000000000000000000000000000000000000000000000000 =202020202020202020202020202020202020202020202020",
            ),
            (
                b"image 00000000000000000000000000000000000000000000000000000000000000 202020202020202020202020202020202020202020202020",
                "Range",
            ),
            (
                b"image 000000000000000000000000000000000000000000000000000000000000000000 202020202020202020202020202020202020202020202020",
                "Range",
            ),
            (
                b"image 0000000000000000000000000000000000000000000000000000000000000000 2020202020202020202020202020202020202020202020",
                "Range",
            ),
            (
                b"image 0000000000000000000000000000000000000000000000000000000000000000 20202020202020202020202020202020202020202020202020",
                "Range",
            ),
            (
                b"entry @main 10 10 0 0 0 65535 -",
                "Entry @6d61696e 10 10 0 0 0 65535 =",
            ),
            (b"entry 0 1 2 3 4 5 6", "Word"),
            (b"entry 0 1 2 3 4 5 @a -", "Number"),
            (b"pool 2 4294967295 0x80", "Pool 2 4294967295 128"),
            (b"pool 1 1 @a", "Number"),
            (b"page 1 4294967295 255", "Page 1 4294967295 255"),
            (b"page 1 0 256", "Range"),
            (b"objects 0 65535", "Objects 0 65535"),
            (b"object 4294967295", "Object 4294967295"),
            (b"object @a", "Number"),
            (b"object 0", "Object 0"),
            (b"object 4294967296", "Range"),
            (
                b"metaclass \"tads-object/030005\" 2 -",
                "Metaclass =746164732d6f626a6563742f303330303035 2 =",
            ),
            (b"metaclass \"root-object\" 2", "Word"),
            (b"prop 7", "Prop 7"),
            (b"prop 65535 0aff", "PropBytes 65535 =0aff"),
            (b"prop 65536", "Range"),
            (b"prop 0", "Prop 0"),
            (b"prop 1 2 3", "Word"),
            (b"function-set \"t3vm\"", "FunctionSet =7433766d"),
            (b"symbol 6 -1 \"\"", "Symbol 6 4294967295 ="),
            (b"symbol 12 @main \"f\"", "Symbol 12 @6d61696e =66"),
        ],
    )
}

#[test]
fn reads_each_line_of_a_method(rt: HostRuntime) -> Result<(), Fail> {
    check_rows(
        &rt,
        rt.alloc(),
        &[
            (b"method 255 65535 4 ~t", "Method 255 65535 4 ~74"),
            (b"method 0 0 4 0", "Method 0 0 4 0"),
            (b"method 1 0 4 0 255", "MethodOptional 1 0 4 0 255"),
            (b"method 1 0 4 0 256", "Range"),
            (b"method 1 0 4 0 ~t", "Number"),
            (b"method 0 0 4", "Word"),
            (b"method 0 0 4 0 0 0", "Word"),
            (b"method 0 0 4 @t", "Number"),
            (b"method 256 0 4 0", "Range"),
            (b"table 65535", "Table 65535"),
            (b"handler ~a ~b 0 ~c", "Handler ~61 ~62 0 ~63"),
            (
                b"handler 0 65535 4294967295 0",
                "Handler 0 65535 4294967295 0",
            ),
            (b"handler 0 0 @c 0", "Number"),
            (b"handler 0 0 0 65536", "Range"),
            (b"case 5 1", "Word"),
        ],
    )
}

#[test]
fn reads_instructions(rt: HostRuntime) -> Result<(), Fail> {
    check_rows(
        &rt,
        rt.alloc(),
        &[
            (b"nop", "Instruction(242)"),
            (b"nop;x", "Instruction(242)"),
            (b"NOP", "Word"),
            (b"nop 0", "Word"),
            (b"nop: nop", "Word"),
            (b"\xF2", "Word"),
            (b"push_0", "Instruction(1)"),
            (b"pushint8 -128", "Instruction(3) 128"),
            (b"pushint8 127", "Instruction(3) 127"),
            (b"pushint8 128", "Range"),
            (b"pushint8 -129", "Range"),
            (b"pushint -2147483648", "Instruction(4) 2147483648"),
            (b"pushint 2147483647", "Instruction(4) 2147483647"),
            (b"pushint 4294967295", "Range"),
            (b"pushint 2147483648", "Range"),
            (b"pushint -2147483649", "Range"),
            (b"pushint @L", "Number"),
            (b"pushstr @cave", "Instruction(5) @63617665"),
            (b"pushobj 0", "Instruction(7) 0"),
            (b"pushobj @o", "Instruction(7) @6f"),
            (b"getprop 0", "Instruction(96) 0"),
            (b"getprop 65536", "Range"),
            (b"getprop ~L", "Number"),
            (b"call 1 @move", "Instruction(88) 1 @6d6f7665"),
            (b"call 256 @move", "Range"),
            (b"call 1", "Word"),
            (b"objcallprop 1 2 3", "Instruction(103) 1 2 3"),
            (b"expinherit 1 2 3", "Instruction(116) 1 2 3"),
            (b"expinherit 1 65536 x", "Number"),
            (b"jmp @loop", "Instruction(145) @6c6f6f70"),
            (b"jmp -1", "Instruction(145) 65535"),
            (b"jmp 32768", "Range"),
            (b"jmp ~loop", "Number"),
            (b"switch 65535", "Instruction(144) 65535"),
            (b"switch", "Word"),
            (b"switch 1 2", "Word"),
            (b"builtin1 1 2 3", "Instruction(181) 1 2 3"),
            (b"addilcl4 65535 -1", "Instruction(211) 65535 4294967295"),
        ],
    )
}

/// A line of a keyword and a quoted text of so many bytes, and what it says: its size again, or the rule
/// that it breaks.
fn size_told(alloc: Global, keyword: &str, size: usize) -> Result<String, Fail> {
    let mut line = Vec::from_slice(alloc, keyword.as_bytes())?;
    line.extend_from_slice(b" \"")?;
    for _ in 0..size {
        line.push(b'a')?;
    }
    line.push(b'"')?;
    match parse_line(alloc, &line) {
        Ok(Some(line)) => match line.arguments.0.as_slice() {
            [Argument::Text(bytes)] => {
                let size = bytes.0.len();
                Ok(format!(in alloc; "{size}")?)
            }
            _ => Ok(String::from_str(alloc, "other")?),
        },
        Ok(None) => Ok(String::from_str(alloc, "nothing")?),
        Err(refusal) => Ok(format!(in alloc; "{refusal:?}")?),
    }
}

#[test]
fn holds_texts_up_to_their_limits(rt: HostRuntime) -> Result<(), Fail> {
    let alloc = rt.alloc();
    let rows = [
        ("function-set", 255, "255"),
        ("function-set", 256, "Range"),
        ("text", 65_535, "65535"),
        ("text", 65_536, "Range"),
    ];
    for (keyword, size, want) in rows {
        assert_eq!(rt; size_told(alloc, keyword, size)?.as_str(), want);
    }
    Ok(())
}
