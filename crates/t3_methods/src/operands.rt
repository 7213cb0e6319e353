//! Whether the operands of an instruction stand whole.
ghost use Rattle.std.specs.Prelude.{◌≡◌, ◌+◌, ◌*◌, ◌^◌, ◌<◌, ◌≤◌, true, length, IsTrue};
ghost use Rattle.t3_methods.specs.declared.kind.Kind.TheVariants.{Cases};
ghost use Rattle.t3_methods.specs.Inner.Window.{Shows, widths_of, are_named, are_cased};
ghost use Rattle.t3_methods.specs.Inner.Window.{is_cases_last};
ghost use Rattle.t3_methods.specs.Inner.Cases.{FindsEnd, FindsEnds};

use crate::cases::has_switch;
use crate::instr::Instr;
use crate::rows::TableRow;
use crate::window::Window;
use t3_pools::Pools;

/// In how many bytes the count of cases stands.
const COUNT_SIZE: u32 = 2;

/// Where an instruction ends that a window begins with, by the row of its opcode. `None` where it doesn't
/// stand there: bytes are missing, a property or an object has the number 0, or a case means nothing.
#[inline(always)]
pub(crate) fn instruction_end(pools: &Pools, window: Window, row: &TableRow<Instr>) -> Option<u32>
    requires shows { Shows pools.now.code window.address window.bytes.now }
    requires opcode { 0 < length window.bytes.now }
    requires end { row.now.end ≡ 1 + widths_of row.now.kinds.now }
    requires named { row.now.is_named ≡ are_named true window.bytes.now 1 row.now.kinds.now }
    requires cases { row.now.has_cases ≡ are_cased row.now.kinds.now }
    requires room { 1 + widths_of row.now.kinds.now ≤ 10 }
    requires last { is_cases_last row.now.kinds.now ≡ true }
    ensures { FindsEnds pools.now.code window.entry 1 row.now.kinds.now result }
{
    let end = row.end;
    if window.bytes.len() < end as usize {
        return None;
    }
    if !row.is_named {
        return None;
    }
    if row.has_cases {
        return cases_end(pools, window, end - COUNT_SIZE);
    }
    Some(end)
}

/// Where a switch ends whose count of cases stands at a place of a window. `None` where its cases don't
/// stand behind that.
fn cases_end(pools: &Pools, window: Window, place: u32) -> Option<u32>
    requires shows { Shows pools.now.code window.address window.bytes.now }
    requires room { place + 2 ≤ 10 }
    requires behind { place + 2 ≤ length window.bytes.now }
    ensures { FindsEnd pools.now.code window.entry place Cases result }
{
    let count = window.uint2(place);
    let first = window.address + place + COUNT_SIZE;
    if has_switch(pools, first, count) {
        Some(place + 4 + 7 * u32::from(count))
    } else {
        None
    }
}
