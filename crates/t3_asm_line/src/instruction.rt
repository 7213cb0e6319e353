//! Instructions as lines of source.
ghost use Rattle.std.specs.Prelude.{◌≡◌};
ghost use Rattle.t3_asm_line.specs.Instructions.{field_of, opcode_named as opcode_of};

use crate::field::Field;
use t3_methods::{Kind, opcode_named};

/// The opcode of the instruction of a name.
#[tactic(auto, using(crate::proofs::Instructions::opcode_is, crate::proofs::Instructions::no_text))]
pub(crate) fn opcode(word: &[u8]) -> Option<u8>
    ensures { result ≡ opcode_of word.now }
{
    match str::from_utf8(word) {
        Ok(name) => opcode_named(name),
        Err(_) => None,
    }
}

/// The field of an operand.
pub(crate) fn operand_field(kind: Kind) -> Field
    ensures { result ≡ field_of kind }
{
    match kind {
        Kind::Ubyte => Field::Ubyte,
        Kind::Sbyte => Field::Sbyte,
        Kind::Uint2 | Kind::Property | Kind::Cases => Field::Uint2,
        Kind::Jump => Field::Jump,
        Kind::Uint4 | Kind::Object => Field::Address,
        Kind::Int4 => Field::Int4,
    }
}
