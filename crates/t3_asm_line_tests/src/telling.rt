//! What a line says, as a text that a test compares.
use std::alloc::Global;
use std::process::Abort;
use std::test::Fail;
use t3_asm_line::{Argument, parse_line};
use t3_holder::Bytes;

/// What a line says: the keyword and its arguments, or the rule that it breaks.
pub(crate) fn told(alloc: Global, line: &[u8]) -> Result<String, Fail> {
    match parse_line(alloc, line) {
        Ok(None) => Ok(String::from_str(alloc, "nothing")?),
        Ok(Some(line)) => {
            let keyword = line.keyword;
            let mut text = format!(in alloc; "{keyword:?}")?;
            for argument in &line.arguments.0 {
                push_argument(alloc, argument, &mut text)?;
            }
            Ok(text)
        }
        Err(refusal) => Ok(format!(in alloc; "{refusal:?}")?),
    }
}

fn push_argument(alloc: Global, argument: &Argument, text: &mut String) -> Result<(), Fail> {
    match argument {
        Argument::Number(number) => {
            let number = *number;
            text.push_str(format!(in alloc; " {number}")?.as_str())?;
        }
        Argument::Address(label) => push_bytes(alloc, " @", label, text)?,
        Argument::Offset(label) => push_bytes(alloc, " ~", label, text)?,
        Argument::Text(bytes) => push_bytes(alloc, " =", bytes, text)?,
    }
    Ok(())
}

/// Adds a mark, and bytes as HEX.
fn push_bytes(alloc: Global, mark: &str, bytes: &Bytes, text: &mut String) -> Result<(), Fail> {
    text.push_str(mark)?;
    text.push_str(hex::encode(alloc, bytes.0.as_slice())?.as_str())?;
    Ok(())
}

/// Each row has a line, and what it says.
pub(crate) fn check_rows(
    rt: &impl Abort,
    alloc: Global,
    rows: &[(&[u8], &str)],
) -> Result<(), Fail> {
    for row in rows {
        let (line, expected) = *row;
        assert_eq!(rt; told(alloc, line)?.as_str(), expected);
    }
    Ok(())
}
