ghost use Rattle.std.specs.Prelude.{◌≡◌, ◌+◌, ◌<◌, ◌^◌, IfOk};
ghost use Rattle.t3_methods.specs.MethodHeader.{FindsHeader, header_in};

use crate::refusal::CodeRefusal;
use crate::window::{WINDOW_SIZE, Window};
use t3_pools::Pools;

/// What stands in front of a method's instructions, ten bytes.
#[derive(Clone, Copy, Debug, PartialEq, Eq, Hash)]
pub struct Header {
    /// How many parameters have to be given, up to 127.
    pub least: u8,
    /// Whether any number of further arguments may be given.
    pub varying: bool,
    /// How many parameters follow those that have to be given, and may be left out.
    pub optional: u8,
    /// How many local variables it has.
    pub locals: u16,
    /// How many operands it has at most. It is kept and not enforced.
    pub depth: u16,
    /// The offset of the exception table from the header, or 0 where there is none.
    pub exceptions: u16,
    /// The offset of debug records from the header.
    pub debug: u16,
}

/// Added to the first byte where more arguments may be taken.
const VARYING: u8 = 0x80;

/// The header of the method at an address.
///
/// `Header` exactly where fewer than ten bytes stand there. A header ends below 2^31. It takes no memory.
pub fn header_at(pools: &Pools, method: u32) -> Result<Header, CodeRefusal>
    ensures finds { FindsHeader pools.now.code method result }
    ensures is { result ≡ header_in pools.now.code method }
    ensures within { IfOk result (λ _. method + 10 < 2 ^ 31) }
{
    let mut room = [0; WINDOW_SIZE];
    let window = Window::at(pools, method, &mut room);
    if window.bytes.len() < WINDOW_SIZE {
        return Err(CodeRefusal::Header);
    }
    let parameters = window.ubyte(0);
    Ok(Header {
        least: parameters % VARYING,
        varying: parameters >= VARYING,
        optional: window.ubyte(1),
        locals: window.uint2(2),
        depth: window.uint2(4),
        exceptions: window.uint2(6),
        debug: window.uint2(8),
    })
}
