//! HEX.
ghost use Rattle.std.specs.Prelude.{◌≡◌, IfOk, codes};
ghost use Rattle.std.specs.Str.{bytes_eq};
ghost use Rattle.std.specs.Option.{option_map};
ghost use Rattle.t3_asm_line.specs.Hexadecimal.{hex_of};

use hex::FromHexError;
use std::alloc::Global;
use t3_holder::NoMemory;

/// The bytes that a word says in hexadecimal digits, or none for `-`; `None` where it says none.
#[tactic(auto, unfolding(crate::specs::Hexadecimal::hex_of))]
pub(crate) fn hex_bytes(alloc: Global, word: &[u8]) -> Result<Option<Vec<u8>>, NoMemory>
    ensures { IfOk result (λ bytes. option_map (λ bytes. bytes.items) bytes ≡ hex_of word.now) }
{
    if is_none(word) {
        return Ok(Some(Vec::new(alloc)));
    }
    match hex::decode(alloc, word) {
        Ok(bytes) => Ok(Some(bytes)),
        Err(FromHexError::OutOfMemory) => Err(NoMemory),
        Err(_) => Ok(None),
    }
}

/// Whether a word says that there is no byte.
fn is_none(word: &[u8]) -> bool
    ensures { result ≡ bytes_eq word.now (codes "-") }
{
    word == b"-".as_slice()
}
