//! Quoted texts.
ghost use Rattle.std.specs.Prelude.{◌≡◌, ◌<◌, ◌∷◌, ℕ, List, IfOk, IfSome, Option, None};
ghost use Rattle.std.specs.Option.{option_map};
ghost use Rattle.hex.specs.Hex.{hex_digit_value};
ghost use Rattle.t3_asm_line.specs.Quoted.{text_from, quoted_of};
ghost use Rattle.t3_asm_line.specs.Inner.Escaped.{text_behind, IsDue, TurnsWell};

use std::alloc::Global;
use t3_holder::NoMemory;

const QUOTE: u8 = b'"';

const BACKSLASH: u8 = b'\\';

/// What is due in a quoted text.
#[derive(Clone, Copy)]
pub enum Due {
    /// A byte of the text, a backslash, or the quote that ends it.
    AnyByte,
    /// What a backslash begins.
    Escape,
    /// The first of two hexadecimal digits.
    FirstDigit,
    /// The second one, behind a first one of this value.
    SecondDigit(u8),
}

/// What a byte of a quoted text does.
#[derive(Clone, Copy)]
pub enum Turn {
    /// No text goes on so.
    NoText,
    /// It ends the text.
    Close,
    /// The text has this byte.
    Give(u8),
    /// This is due behind it.
    Await(Due),
}

/// The text that a word says between quotes; `None` where it is no quoted text.
#[tactic(auto, unfolding(crate::specs::Quoted::quoted_of))]
pub(crate) fn quoted(alloc: Global, word: &[u8]) -> Result<Option<Vec<u8>>, NoMemory>
    ensures { IfOk result (λ text. option_map (λ text. text.items) text ≡ quoted_of word.now) }
{
    match word {
        [QUOTE, bytes @ ..] => text(alloc, bytes),
        _ => Ok(None),
    }
}

/// The text that these bytes say up to the quote that is the last of them.
fn text(alloc: Global, bytes: &[u8]) -> Result<Option<Vec<u8>>, NoMemory>
    ensures { IfOk result (λ text. option_map (λ text. text.items) text
        ≡ text_from Due.AnyByte bytes.now) }
{
    let mut text = Vec::new(alloc);
    let mut due = Due::AnyByte;
    for at in 0..bytes.len() {
        match turn_at(due, bytes[at]) {
            Turn::NoText => return Ok(None),
            Turn::Close if at + 1 == bytes.len() => return Ok(Some(text)),
            Turn::Close => return Ok(None),
            Turn::Give(byte) => {
                text.push(byte)?;
                due = Due::AnyByte;
            }
            Turn::Await(next) => due = next,
        }
    }
    Ok(None)
}

/// What a byte does where this is due.
fn turn_at(due: Due, byte: u8) -> Turn
    requires { IsDue due }
    ensures behind { (bytes : List ℕ) → text_from due (byte ∷ bytes) ≡ text_behind result bytes }
    ensures well { TurnsWell result }
{
    match due {
        Due::AnyByte => plain(byte),
        Due::Escape => escape(byte),
        Due::FirstDigit => match digit(byte) {
            Some(high) => Turn::Await(Due::SecondDigit(high)),
            None => Turn::NoText,
        },
        Due::SecondDigit(high) => match digit(byte) {
            Some(low) => Turn::Give(high * 16 + low),
            None => Turn::NoText,
        },
    }
}

/// What a byte does that no backslash stands before.
fn plain(byte: u8) -> Turn
    ensures behind { (bytes : List ℕ)
        → text_from Due.AnyByte (byte ∷ bytes) ≡ text_behind result bytes }
    ensures well { TurnsWell result }
{
    match byte {
        QUOTE => Turn::Close,
        BACKSLASH => Turn::Await(Due::Escape),
        _ => Turn::Give(byte),
    }
}

/// What a byte does right behind a backslash.
fn escape(byte: u8) -> Turn
    ensures behind { (bytes : List ℕ)
        → text_from Due.Escape (byte ∷ bytes) ≡ text_behind result bytes }
    ensures well { TurnsWell result }
{
    match byte {
        QUOTE | BACKSLASH => Turn::Give(byte),
        b'n' => Turn::Give(b'\n'),
        b'x' => Turn::Await(Due::FirstDigit),
        _ => Turn::NoText,
    }
}

/// The value of a hexadecimal digit.
fn digit(byte: u8) -> Option<u8>
    ensures value { result ≡ hex_digit_value byte }
    ensures low { IfSome result (λ value. value < 16) }
{
    match byte {
        b'0'..=b'9' => Some(byte - b'0'),
        b'a'..=b'f' => Some(byte - b'a' + 10),
        b'A'..=b'F' => Some(byte - b'A' + 10),
        _ => None,
    }
}
