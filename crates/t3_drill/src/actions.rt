//! The actions of a drill, drawn from its seeds.
ghost use Rattle.std.specs.Prelude.{◌≡◌, ◌++◌, IfOk};
ghost use Rattle.t3_drill.specs.Drill.{actions, drawn_action, drill_actions as drill_actions_of, instructions_text, next_seed as next_seed_of, set_object};

use crate::code::{OBJECTS, append_property, opcode};
use t3_holder::NoMemory;

/// How many actions a drill has, times its number.
const ACTIONS: u32 = 1_000;

/// Each seed is below this.
const SEEDS: u64 = 1 << 31;

/// The function that makes a savepoint.
const SAVEPOINT: u8 = 13;

/// The function that undoes.
const UNDO: u8 = 14;

/// How many actions the drill of a number has.
pub fn drill_actions(number: u8) -> u32
    ensures { result ≡ drill_actions_of number }
{
    ACTIONS * u32::from(number)
}

/// Appends the actions of a drill.
pub(crate) fn append_actions(number: u8, code: &mut Vec<u8>) -> Result<(), NoMemory>
    ensures { IfOk result (λ _. code.new.items
        ≡ code.old.items ++ instructions_text (actions number)) }
{
    let mut seed = u32::from(number);
    for _ in 0..drill_actions(number) {
        seed = next_seed(seed);
        append_drawn(seed / 65_536, code)?;
    }
    Ok(())
}

/// The seed that follows a seed.
fn next_seed(seed: u32) -> u32
    ensures { result ≡ next_seed_of seed }
{
    ((u64::from(seed) * 1_103_515_245 + 12_345) % SEEDS) as u32
}

/// Appends the action that is drawn.
fn append_drawn(draw: u32, code: &mut Vec<u8>) -> Result<(), NoMemory>
    ensures { IfOk result (λ _. code.new.items
        ≡ code.old.items ++ instructions_text (drawn_action draw)) }
{
    if draw % 16 == 0 {
        code.extend_from_slice(&[opcode::BUILTIN_A, 0, SAVEPOINT])?;
    } else if draw % 16 == 1 {
        code.extend_from_slice(&[opcode::BUILTIN_A, 0, UNDO])?;
    } else {
        append_set(1 + draw % OBJECTS, (draw % 100) as u8, code)?;
    }
    Ok(())
}

/// Appends what sets an object to a number.
fn append_set(object: u32, number: u8, code: &mut Vec<u8>) -> Result<(), NoMemory>
    ensures { IfOk result (λ _. code.new.items
        ≡ code.old.items ++ instructions_text (set_object object number)) }
{
    code.extend_from_slice(&[opcode::PUSHINT8, number])?;
    append_property(opcode::OBJSETPROP, object, code)
}
