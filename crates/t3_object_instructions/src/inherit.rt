//! Evaluating a property as another object has it.
ghost use Rattle.std.specs.Prelude.{IfOk};
ghost use Rattle.t3_frame_instructions.specs.Context.{pops};
ghost use Rattle.t3_object_instructions.specs.Evaluating.{delegates, inherits, found_or_nil};
ghost use Rattle.t3_frame_instructions.specs.Acting.{HasDone};
ghost use Rattle.t3_kinds.specs.Search.{found_value};

use crate::evaluate::{answer, give_found};
use crate::search::find_inherited;
use crate::values::tads_object;
use std::alloc::Global;
use t3_frame_instructions::{CodeWhy, Core, Quiet};
use t3_holder::{Holder, NoMemory};
use t3_kinds::{Found, find_property};

/// A property as self has it behind the object that defines the method.
pub(crate) fn inherit(
    alloc: Global,
    core: &mut Core,
    property: u16,
    count: u8,
) -> Result<Quiet, NoMemory>
    ensures { IfOk result (λ effect. HasDone (inherits property count) core.old effect core.new) }
{
    let defining = core.frames.defining();
    match tads_object(&core.store, core.frames.this()) {
        Ok(number) => {
            let found = find_inherited(alloc, &core.store, defining, number, property)?;
            Ok(give_found_or_nil(core, found, count))
        }
        Err(fault) => Ok(Quiet::Fault(fault)),
    }
}

/// A property as the tads-object has it that a value is.
pub(crate) fn delegate(
    alloc: Global,
    core: &mut Core,
    value: Holder,
    property: u16,
    count: u8,
) -> Result<Quiet, NoMemory>
    ensures { IfOk result (λ effect. HasDone (delegates property count value) core.old effect core.new) }
{
    match tads_object(&core.store, value) {
        Ok(number) => {
            let found = find_property(alloc, &core.store, number, property)?;
            Ok(give_found_or_nil(core, found, count))
        }
        Err(fault) => Ok(Quiet::Fault(fault)),
    }
}

/// As the topmost operand has it, which goes.
pub(crate) fn delegate_popped(
    alloc: Global,
    core: &mut Core,
    property: u16,
    count: u8,
) -> Result<Quiet, NoMemory>
    ensures { IfOk result (λ effect. HasDone (pops (delegates property count)) core.old effect core.new) }
{
    match core.frames.pop() {
        Some(value) => delegate(alloc, core, value, property, count),
        None => Ok(Quiet::Stop(CodeWhy::Underflow)),
    }
}

/// What comes of what was found, or of nothing.
fn give_found_or_nil(core: &mut Core, found: Option<Found>, count: u8) -> Quiet
    ensures { HasDone (found_or_nil count (found_value found)) core.old result core.new }
{
    match found {
        Some(found) => {
            let this = core.frames.this();
            give_found(core, this, found, count)
        }
        None => answer(core, Holder::Nil, u16::from(count)),
    }
}
