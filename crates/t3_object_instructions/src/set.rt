//! Setting a property of an object.
ghost use Rattle.std.specs.Prelude.{◌≡◌, ◌≤◌, ◌+◌, ◌^◌, IfOk, IsSome, IsTrue, Ok, is_some, option_and_then};
ghost use Rattle.t3_undo.specs.declared.cell.Cell.TheVariants.{Prop};
ghost use Rattle.t3_store.specs.Value.{holder_at, supers_of};
ghost use Rattle.t3_store.specs.Store.{value_at, written};
ghost use Rattle.t3_frame_instructions.specs.Context.{pops};
ghost use Rattle.t3_object_instructions.specs.Evaluating.{by_property};
ghost use Rattle.t3_object_instructions.specs.Setting.{sets, sets_in, sets_popped, takes_store};
ghost use Rattle.t3_object_instructions.specs.Steady.{has_property, sets_present, sets_present_by_top, sets_present_of_top};
ghost use Rattle.t3_frame_instructions.specs.Acting.{HasDone};

use t3_frame_instructions::{CodeWhy, Core, Quiet};
use t3_holder::{Holder, NoMemory};
use t3_ops::Fault;
use t3_store::{Kind, StoreRefusal};
use t3_undo::Cell;

/// Sets a property of the topmost operand to the next one.
#[inline(never)]
pub(crate) fn set_of_popped(core: &mut Core, property: u16) -> Result<Quiet, NoMemory>
    requires { core.old.store.writes + 131072 ≤ 2 ^ 63 }
    ensures done { IfOk result
        (λ effect. HasDone (pops (sets_popped property)) core.old effect core.new) }
    ensures steady { IsTrue (sets_present_of_top core.old.store.store property
        core.old.frames.newest.operands) → result ≡ Ok Quiet.Next }
{
    match core.frames.pop() {
        Some(object) => set_popped(core, property, object),
        None => Ok(Quiet::Stop(CodeWhy::Underflow)),
    }
}

/// Sets the property that is the topmost operand, of the next one, to the one behind it.
#[inline(never)]
pub(crate) fn set_by_pointer(core: &mut Core) -> Result<Quiet, NoMemory>
    requires { core.old.store.writes + 131072 ≤ 2 ^ 63 }
    ensures done { IfOk result (λ effect. HasDone (pops (by_property (λ p. pops (sets_popped p))))
        core.old effect core.new) }
    ensures steady { IsTrue (sets_present_by_top core.old.store.store
        core.old.frames.newest.operands) → result ≡ Ok Quiet.Next }
{
    match core.frames.pop() {
        Some(Holder::Prop(property)) => set_of_popped(core, property),
        Some(_) => Ok(Quiet::Fault(Fault::Kind)),
        None => Ok(Quiet::Stop(CodeWhy::Underflow)),
    }
}

/// Sets a property of an object to the topmost operand.
#[inline(never)]
pub(crate) fn set_popped(core: &mut Core, property: u16, object: Holder) -> Result<Quiet, NoMemory>
    requires { core.old.store.writes + 131072 ≤ 2 ^ 63 }
    ensures done { IfOk result
        (λ effect. HasDone (sets_popped property object) core.old effect core.new) }
    ensures steady { IsTrue (sets_present core.old.store.store property object
        core.old.frames.newest.operands) → result ≡ Ok Quiet.Next }
{
    match core.frames.pop() {
        Some(value) => set(core, property, object, value),
        None => Ok(Quiet::Stop(CodeWhy::Underflow)),
    }
}

/// Sets a property of an object to a value.
fn set(core: &mut Core, property: u16, object: Holder, value: Holder) -> Result<Quiet, NoMemory>
    requires { core.old.store.writes + 131072 ≤ 2 ^ 63 }
    ensures done { IfOk result
        (λ effect. HasDone (sets property object value) core.old effect core.new) }
    ensures steady { IsTrue (has_property core.old.store.store property object)
        → result ≡ Ok Quiet.Next }
{
    match object {
        Holder::Obj(number) => set_of_object(core, property, number, value),
        Holder::Text(_) | Holder::List(_) => Ok(Quiet::Fault(Fault::CannotSet)),
        _ => Ok(Quiet::Fault(Fault::NotObject)),
    }
}

/// Sets a property of the object of a number. No memory is taken where the object has it.
fn set_of_object(
    core: &mut Core,
    property: u16,
    number: u32,
    value: Holder,
) -> Result<Quiet, NoMemory>
    requires { core.old.store.writes + 131072 ≤ 2 ^ 63 }
    ensures done { IfOk result (λ effect. HasDone (λ context. sets_in property number value
        (value_at context.store number) context) core.old effect core.new) }
    ensures steady { IsTrue (is_some (holder_at (value_at core.old.store.store number) (Prop property)))
        → result ≡ Ok Quiet.Next }
{
    if core.store.replace_prop(number, property, value) {
        return Ok(Quiet::Next);
    }
    set_by_kind(core, property, number, value)
}

/// Sets a property of the object of a number, by what the object is.
#[cold]
#[inline(never)]
fn set_by_kind(
    core: &mut Core,
    property: u16,
    number: u32,
    value: Holder,
) -> Result<Quiet, NoMemory>
    requires { core.old.store.writes + 131072 ≤ 2 ^ 63 }
    ensures { IfOk result (λ effect. HasDone (λ context. sets_in property number value
        (value_at context.store number) context) core.old effect core.new) }
{
    match core.store.kind(number) {
        Some(Kind::Tads) => write(core, property, number, value),
        Some(_) => Ok(Quiet::Fault(Fault::CannotSet)),
        None => Ok(Quiet::Fault(Fault::Stale)),
    }
}

/// Sets a property of a tads-object.
fn write(core: &mut Core, property: u16, number: u32, value: Holder) -> Result<Quiet, NoMemory>
    requires few { core.old.store.writes + 131072 ≤ 2 ^ 63 }
    requires tads { IsSome (option_and_then supers_of (value_at core.old.store.store number)) }
    ensures { IfOk result (λ effect. HasDone
        (λ context. takes_store (written number (Prop property) value context.store) context) core.old
        effect core.new) }
{
    match core.store.write(number, Cell::Prop(property), Some(value)) {
        Ok(()) => Ok(Quiet::Next),
        Err(StoreRefusal::Full) => Ok(Quiet::StoreFull),
        Err(StoreRefusal::NoMemory) => Err(NoMemory),
    }
}
