//! The instruction at an address: its row is found by the opcode, its operands are read where they stand,
//! and then whether they stand whole.
ghost use Rattle.std.specs.Prelude.{◌≡◌, ◌+◌, ◌<◌, ◌^◌, IfOk};
ghost use Rattle.t3_methods.specs.Answers.{FindsInstr, found_of, IsOfRow};
ghost use Rattle.t3_methods.specs.Inner.Window.{Shows};
ghost use Rattle.t3_methods.specs.Inner.Decoding.{FindsInWindow};

use crate::decoded::Decoded;
use crate::instr::Instr;
use crate::operands::instruction_end;
use crate::refusal::CodeRefusal;
use crate::rows::row_at;
use crate::window::{WINDOW_SIZE, Window};
use t3_pools::Pools;

/// The instruction at an address in code, and how many bytes it has.
///
/// `NoByte` where no byte stands at the address, `Opcode` where that byte is none of the table, and
/// `Operand` where it is one and its operands aren't there whole: bytes are missing, a property or an
/// object has the number 0, or a case's holder means nothing. The instruction ends below 2^31. It takes
/// no memory.
pub fn instr_at(pools: &Pools, address: u32) -> Result<(Instr, u32), CodeRefusal>
    ensures finds { FindsInstr pools.now.code address result }
    ensures within { IfOk result (λ found. address + found.1 < 2 ^ 31) }
{
    match decode_over(pools, address) {
        Ok(decoded) => Ok((decoded.instr, decoded.size)),
        Err(refusal) => Err(refusal),
    }
}

/// As `instr_at`, with how many values the instruction takes off the stack or looks at there, and the
/// local or argument that it names.
#[inline(always)]
pub fn decode_at(pools: &Pools, address: u32) -> Result<Decoded, CodeRefusal>
    ensures finds { FindsInstr pools.now.code address (found_of result) }
    ensures row { IfOk result IsOfRow }
    ensures within { IfOk result (λ decoded. address + decoded.size < 2 ^ 31) }
{
    let window = Window::in_page(pools, address);
    match decode::<true>(pools, &window) {
        Ok(decoded) => Ok(decoded),
        // Taken apart, so that what stands in a page isn't kept in memory for the sake of this call.
        Err(CodeRefusal::Operand) if window.bytes.len() < WINDOW_SIZE => {
            match decode_over(pools, address) {
                Ok(decoded) => Ok(decoded),
                Err(refusal) => Err(refusal),
            }
        }
        Err(refusal) => Err(refusal),
    }
}

/// As `decode_at`, where the instruction may go over the border of a page.
#[cold]
#[inline(never)]
fn decode_over(pools: &Pools, address: u32) -> Result<Decoded, CodeRefusal>
    ensures finds { FindsInstr pools.now.code address (found_of result) }
    ensures row { IfOk result IsOfRow }
    ensures within { IfOk result (λ decoded. address + decoded.size < 2 ^ 31) }
{
    let mut room = [0; WINDOW_SIZE];
    let window = Window::gathered(pools, address, &mut room);
    decode::<false>(pools, &window)
}

/// The instruction at the front of a window, as far as that tells. Of `HOT`, see `row_at`.
fn decode<const HOT: bool>(pools: &Pools, window: &Window) -> Result<Decoded, CodeRefusal>
    requires { Shows pools.now.code window.now.address window.now.bytes.now }
    ensures finds { FindsInWindow pools.now.code window.now (found_of result) }
    ensures row { IfOk result IsOfRow }
    ensures within { IfOk result (λ decoded. window.now.address + decoded.size < 2 ^ 31) }
{
    if window.bytes.is_empty() {
        return Err(CodeRefusal::NoByte);
    }
    let opcode = window.ubyte(0);
    let Some(row) = row_at::<HOT>(opcode, window) else {
        return Err(CodeRefusal::Opcode(opcode));
    };
    let Some(size) = instruction_end(pools, *window, &row) else {
        return Err(CodeRefusal::Operand);
    };
    Ok(Decoded {
        instr: row.code,
        size,
        takes: row.takes,
        slot: row.slot,
    })
}
