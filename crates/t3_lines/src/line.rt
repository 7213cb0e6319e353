//! A line, as it is given.
ghost use Rattle.std.specs.Prelude.{◌≡◌, IfOk, map};
ghost use Rattle.std.specs.Str.{IsUtf8};
ghost use Rattle.std.specs.Str.Lines.{strip_carriage_return};
ghost use Rattle.t3_lines.specs.Lines as spec;

use std::alloc::Global;
use t3_holder::{Bytes, NoMemory};

const CARRIAGE_RETURN: u8 = b'\r';

/// What comes of wanting the next line.
#[derive(Debug, Drop)]
pub enum WantedLine {
    /// The line, which is UTF-8, without its newline.
    Line(Bytes),
    /// No line is left, and the input has fewer than 16,777,216 bytes.
    EndOfInput,
    /// The first 16,777,216 bytes of the input don't end the line, and the input has so many.
    PastLimit,
}

/// The line without the carriage return at its end, if it has one there.
pub(crate) fn without_return(line: &[u8]) -> &[u8]
    ensures { result.now ≡ strip_carriage_return line.now }
{
    let length = line.len();
    if length > 0 && line[length - 1] == CARRIAGE_RETURN {
        &line[..length - 1]
    } else {
        line
    }
}

/// A question mark in place of a byte from 128 up.
fn plain(byte: u8) -> u8
    ensures { result ≡ spec.plain byte }
{
    if byte < 0x80 { byte } else { b'?' }
}

fn plain_copy(alloc: Global, line: &[u8]) -> Result<Vec<u8>, NoMemory>
    ensures { IfOk result (λ copy. copy.items ≡ map spec.plain line.now) }
{
    let mut copy = Vec::new(alloc);
    for byte in line {
        copy.push(plain(*byte))?;
    }
    Ok(copy)
}

/// A copy of the line that is UTF-8: where it isn't, each byte from 128 up is a question mark.
pub(crate) fn readable(alloc: Global, line: &[u8]) -> Result<Bytes, NoMemory>
    ensures copy { IfOk result (λ copy. copy ≡ spec.readable line.now) }
    ensures utf8 { IfOk result (λ copy. IsUtf8 copy) }
{
    match str::from_utf8(line) {
        Ok(_) => Ok(Bytes(Vec::from_slice(alloc, line)?)),
        Err(_) => Ok(Bytes(plain_copy(alloc, line)?)),
    }
}
