//! The code of a drill: one method.
ghost use Rattle.std.specs.Prelude.{◌≡◌, ◌∷◌, ◌++◌, IfOk};
ghost use Rattle.t3_holder.specs.NumberText.{little_endian};
ghost use Rattle.t3_drill.specs.Drill.{add_object, code as code_of, ending, instructions_text};

use crate::actions::append_actions;
use std::alloc::Global;
use t3_holder::{NoMemory, u16_bytes, u32_bytes};

/// The opcodes of a drill.
pub(crate) mod opcode {
    pub(crate) const PUSH_0: u8 = 0x01;

    pub(crate) const PUSHINT8: u8 = 0x03;

    pub(crate) const ADD: u8 = 0x22;

    pub(crate) const RETNIL: u8 = 0x51;

    pub(crate) const OBJGETPROP: u8 = 0x66;

    pub(crate) const GETR0: u8 = 0x8B;

    pub(crate) const BUILTIN_A: u8 = 0xB1;

    pub(crate) const BUILTIN_B: u8 = 0xB2;

    pub(crate) const OBJSETPROP: u8 = 0xE8;
}

/// The header of the method: no parameters, no locals, and a depth of 4.
const METHOD: [u8; 10] = [0, 0, 0, 0, 4, 0, 0, 0, 0, 0];

/// How many objects there are.
pub(crate) const OBJECTS: u32 = 64;

/// The property of the objects.
const PROPERTY: u16 = 1;

/// The function that says a value.
const SAY: u8 = 0;

/// The code of a drill.
pub(crate) fn code(alloc: Global, number: u8) -> Result<Vec<u8>, NoMemory>
    ensures { IfOk result (λ code. code.items ≡ code_of number) }
{
    let mut code = Vec::from_slice(alloc, &METHOD)?;
    append_actions(number, &mut code)?;
    append_ending(&mut code)?;
    Ok(code)
}

/// Appends what says the sum of the objects, and returns.
fn append_ending(code: &mut Vec<u8>) -> Result<(), NoMemory>
    ensures { IfOk result (λ _. code.new.items ≡ code.old.items ++ instructions_text ending) }
{
    code.push(opcode::PUSH_0)?;
    for object in 1..=OBJECTS {
        append_addition(object, code)?;
    }
    code.extend_from_slice(&[opcode::BUILTIN_B, 1, SAY, opcode::RETNIL])?;
    Ok(())
}

/// Appends what adds an object.
fn append_addition(object: u32, code: &mut Vec<u8>) -> Result<(), NoMemory>
    ensures { IfOk result (λ _. code.new.items
        ≡ code.old.items ++ instructions_text (add_object object)) }
{
    append_property(opcode::OBJGETPROP, object, code)?;
    code.extend_from_slice(&[opcode::GETR0, opcode::ADD])?;
    Ok(())
}

/// Appends an instruction on the property 1 of an object.
pub(crate) fn append_property(opcode: u8, object: u32, code: &mut Vec<u8>) -> Result<(), NoMemory>
    ensures { IfOk result (λ _. code.new.items
        ≡ code.old.items ++ (opcode ∷ (little_endian 4 object ++ little_endian 2 1))) }
{
    code.push(opcode)?;
    code.extend_from_slice(&u32_bytes(object))?;
    code.extend_from_slice(&u16_bytes(PROPERTY))?;
    Ok(())
}
