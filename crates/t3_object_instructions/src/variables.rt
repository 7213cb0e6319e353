//! The variables of a method, the properties of objects, and elements and entries.
ghost use Rattle.std.specs.Prelude.{◌≡◌, ◌+◌, ◌≤◌, ◌^◌, IfOk, IsTrue, Ok};
ghost use Rattle.t3_frame_instructions.specs.Acting.{HasDone};
ghost use Rattle.t3_object_instructions.specs.Instructions.{local_action};
ghost use Rattle.t3_object_instructions.specs.Steady.{is_steady_local};

use crate::item::set_item;
use crate::set::{set_by_pointer, set_of_popped, set_popped};
use std::alloc::Global;
use t3_frame_instructions::{
    Core, Quiet, add_number, add_popped, set_local, subtract_popped, take_argument, take_local,
};
use t3_holder::{Holder, NoMemory};
use t3_methods::LocalCode;
use t3_pools::Pools;

/// Carries out an instruction on a variable, a property, an element or an entry. Fewer than 2^63 - 2^17 writes
/// were made.
///
/// Of a variable `Kind` comes where integers are wanted and a value is none, `Overflow`, and the faults of
/// [`t3_ops::sum`]. Of a property `NotObject` where there is no object, `CannotSet` where it has none to be set,
/// and `Stale` where the object isn't there. Of an element or an entry the faults of
/// [`t3_ops::list_with_element`], [`t3_ops::vector_index`] and [`t3_ops::key`]. Where the property, or the
/// element of a vector, is present, no memory is taken.
#[inline(always)]
pub fn local(
    alloc: Global,
    pools: &Pools,
    core: &mut Core,
    code: LocalCode,
) -> Result<Quiet, NoMemory>
    requires { core.old.store.writes + 131072 ≤ 2 ^ 63 }
    ensures done { IfOk result
        (λ effect. HasDone (local_action pools.now code) core.old effect core.new) }
    ensures steady { IsTrue (is_steady_local core.old.store.store core.old.frames.newest.this
        core.old.frames.newest.operands code) → result ≡ Ok Quiet.Next }
{
    match code {
        LocalCode::Inclcl(n) => Ok(add_number(core, n, 1)),
        LocalCode::Declcl(n) => Ok(add_number(core, n, -1)),
        LocalCode::Addilcl1(n, number) => Ok(add_number(core, u16::from(n), i32::from(number))),
        LocalCode::Addilcl4(n, number) => Ok(add_number(core, n, number)),
        LocalCode::Addtolcl(n) => add_popped(alloc, pools, core, n),
        LocalCode::Subfromlcl(n) => Ok(subtract_popped(core, n)),
        LocalCode::Zerolcl1(n) => Ok(set_local(core, u16::from(n), Holder::Int(0))),
        LocalCode::Zerolcl2(n) => Ok(set_local(core, n, Holder::Int(0))),
        LocalCode::Nillcl1(n) => Ok(set_local(core, u16::from(n), Holder::Nil)),
        LocalCode::Nillcl2(n) => Ok(set_local(core, n, Holder::Nil)),
        LocalCode::Onelcl1(n) => Ok(set_local(core, u16::from(n), Holder::Int(1))),
        LocalCode::Onelcl2(n) => Ok(set_local(core, n, Holder::Int(1))),
        LocalCode::Setlcl1(n) => Ok(take_local(core, u16::from(n))),
        LocalCode::Setlcl2(n) => Ok(take_local(core, n)),
        LocalCode::Setarg1(n) => Ok(take_argument(core, u16::from(n))),
        LocalCode::Setarg2(n) => Ok(take_argument(core, n)),
        LocalCode::Setind => Ok(set_item(alloc, pools, core)?),
        LocalCode::Setprop(p) => Ok(set_of_popped(core, p)?),
        LocalCode::Ptrsetprop => Ok(set_by_pointer(core)?),
        LocalCode::Setpropself(p) => {
            let this = core.frames.this();
            Ok(set_popped(core, p, this)?)
        }
        LocalCode::Objsetprop(n, p) => Ok(set_popped(core, p, Holder::Obj(n))?),
        LocalCode::Nop => Ok(Quiet::Next),
    }
}
