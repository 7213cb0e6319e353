//! What the instruction table says of an opcode by itself: for tools that read and write instructions
//! by their names.
ghost use Rattle.t3_methods.specs.Answers.{FindsShape, FindsOpcode};
ghost use Rattle.t3_methods.specs.Inner.Rows.{DecidesName};

use crate::kind::Kind;
use crate::rows::row_at;
use crate::window::Window;

/// The name of an instruction, and what operands it has.
#[derive(Clone, Copy, Debug, PartialEq, Eq, Hash)]
pub struct Shape {
    /// The name in lower case, as it stands in a source.
    pub name: &'static str,
    /// The kinds of its operands, in the order in which they stand.
    pub kinds: &'static [Kind],
}

/// The shape of an opcode's instruction. `None` where the byte is no opcode.
pub fn shape_of(opcode: u8) -> Option<Shape>
    ensures { FindsShape opcode result }
{
    let window = Window {
        address: 0,
        bytes: &[],
    };
    match row_at::<false>(opcode, &window) {
        Some(row) => Some(Shape {
            name: row.name,
            kinds: row.kinds,
        }),
        None => None,
    }
}

/// The opcode of the instruction of a name. `None` where no instruction has it.
pub fn opcode_named(name: &str) -> Option<u8>
    ensures { FindsOpcode name.now result }
{
    for code in 0..256_u16 {
        let opcode = code as u8;
        if is_named(opcode, name) {
            return Some(opcode);
        }
    }
    None
}

/// Whether the opcode's instruction has the name.
fn is_named(opcode: u8, name: &str) -> bool
    ensures { DecidesName name.now opcode result }
{
    match shape_of(opcode) {
        Some(shape) => shape.name == name,
        None => false,
    }
}
