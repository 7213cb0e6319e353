//! Evaluating a property of a value.
ghost use Rattle.std.specs.Prelude.{◌≡◌, ◌+◌, ◌≤◌, ◌^◌, IfOk};
ghost use Rattle.t3_store.specs.Store.{value_at};
ghost use Rattle.t3_frame_instructions.specs.Context.{answers, pops};
ghost use Rattle.t3_object_instructions.specs.Evaluating.{by_property, evaluates, of_object, found_action, asks, asks_object};
ghost use Rattle.t3_frame_instructions.specs.Acting.{HasDone};

use crate::listed::call_listed;
use crate::methods::{metaclasses_of, method_of};
use crate::saying::say_value;
use std::alloc::Global;
use t3_frame_instructions::{CodeWhy, Core, Quiet, ask_for_call};
use t3_frames::Call;
use t3_holder::{Holder, NoMemory};
use t3_kinds::{Found, find_property};
use t3_load::Program;
use t3_ops::Fault;
use t3_store::Kind;

/// Evaluates a property of a value, with so many operands as arguments.
pub(crate) fn evaluate(
    alloc: Global,
    program: &Program,
    core: &mut Core,
    value: Holder,
    property: u16,
    count: u8,
) -> Result<Quiet, NoMemory>
    requires { core.old.store.writes + 131072 ≤ 2 ^ 63 }
    ensures { IfOk result
        (λ effect. HasDone (evaluates program.now property count value) core.old effect core.new) }
{
    match value {
        Holder::Obj(number) => evaluate_object(alloc, program, core, number, property, count),
        // What is asked is answered anew, so that what comes of a property that is found is known here.
        Holder::Text(_) => Ok(ask(alloc, program, core, property, count, value, Kind::Text)?),
        Holder::List(_) => Ok(ask(alloc, program, core, property, count, value, Kind::List)?),
        _ => Ok(Quiet::Fault(Fault::NotObject)),
    }
}

/// Of the topmost operand, which goes.
pub(crate) fn evaluate_popped(
    alloc: Global,
    program: &Program,
    core: &mut Core,
    property: u16,
    count: u8,
) -> Result<Quiet, NoMemory>
    requires { core.old.store.writes + 131072 ≤ 2 ^ 63 }
    ensures { IfOk result
        (λ effect. HasDone (pops (evaluates program.now property count)) core.old effect core.new) }
{
    match core.frames.pop() {
        Some(value) => evaluate(alloc, program, core, value, property, count),
        None => Ok(Quiet::Stop(CodeWhy::Underflow)),
    }
}

/// The property that is the topmost operand, of the next one.
pub(crate) fn evaluate_by_pointer(
    alloc: Global,
    program: &Program,
    core: &mut Core,
    count: u8,
) -> Result<Quiet, NoMemory>
    requires { core.old.store.writes + 131072 ≤ 2 ^ 63 }
    ensures { IfOk result (λ effect. HasDone
        (pops (by_property (λ p. pops (evaluates program.now p count)))) core.old effect core.new) }
{
    match core.frames.pop() {
        Some(Holder::Prop(property)) => evaluate_popped(alloc, program, core, property, count),
        Some(_) => Ok(Quiet::Fault(Fault::Kind)),
        None => Ok(Quiet::Stop(CodeWhy::Underflow)),
    }
}

/// Of self.
pub(crate) fn evaluate_self(
    alloc: Global,
    program: &Program,
    core: &mut Core,
    property: u16,
    count: u8,
) -> Result<Quiet, NoMemory>
    requires { core.old.store.writes + 131072 ≤ 2 ^ 63 }
    ensures { IfOk result (λ effect. HasDone (λ context. evaluates program.now property count
        context.frame.this context) core.old effect core.new) }
{
    let this = core.frames.this();
    evaluate(alloc, program, core, this, property, count)
}

/// The property that is the topmost operand, of self.
pub(crate) fn evaluate_self_by_pointer(
    alloc: Global,
    program: &Program,
    core: &mut Core,
    count: u8,
) -> Result<Quiet, NoMemory>
    requires { core.old.store.writes + 131072 ≤ 2 ^ 63 }
    ensures { IfOk result (λ effect. HasDone (λ context. pops
        (by_property (λ p. evaluates program.now p count context.frame.this)) context) core.old effect
        core.new) }
{
    let this = core.frames.this();
    match core.frames.pop() {
        Some(Holder::Prop(property)) => evaluate(alloc, program, core, this, property, count),
        Some(_) => Ok(Quiet::Fault(Fault::Kind)),
        None => Ok(Quiet::Stop(CodeWhy::Underflow)),
    }
}

/// Of an object.
fn evaluate_object(
    alloc: Global,
    program: &Program,
    core: &mut Core,
    number: u32,
    property: u16,
    count: u8,
) -> Result<Quiet, NoMemory>
    requires { core.old.store.writes + 131072 ≤ 2 ^ 63 }
    ensures { IfOk result (λ effect. HasDone
        (λ context. of_object program.now property count number (value_at context.store number) context)
        core.old effect core.new) }
{
    match find_property(alloc, &core.store, number, property)? {
        Some(found) => Ok(give_found(core, Holder::Obj(number), found, count)),
        None => Ok(ask_object(alloc, program, core, number, property, count)?),
    }
}

/// Of an object for which the property isn't found.
#[cold]
#[inline(never)]
fn ask_object(
    alloc: Global,
    program: &Program,
    core: &mut Core,
    number: u32,
    property: u16,
    count: u8,
) -> Result<Quiet, NoMemory>
    requires { core.old.store.writes + 131072 ≤ 2 ^ 63 }
    ensures { IfOk result (λ effect. HasDone
        (λ context. asks_object program.now property count number (value_at context.store number) context)
        core.old effect core.new) }
{
    match core.store.kind(number) {
        Some(kind) => ask(
            alloc,
            program,
            core,
            property,
            count,
            Holder::Obj(number),
            kind,
        ),
        None => Ok(Quiet::Fault(Fault::Stale)),
    }
}

/// What comes of a value that was found for a property of self.
pub(crate) fn give_found(core: &mut Core, this: Holder, found: Found, count: u8) -> Quiet
    ensures { HasDone (found_action this found.defining found.value count) core.old result core.new }
{
    match found.value {
        Holder::Code(method) => {
            let call = Call {
                method,
                laid: None,
                count: u16::from(count),
                this,
                defining: found.defining,
                gives: None,
            };
            ask_for_call(core, call)
        }
        Holder::Shown(text) if count == 0 => say_value(core, Holder::Text(text)),
        _ if count == 0 => answer(core, found.value, 0),
        _ => Quiet::Fault(Fault::ArgCount),
    }
}

/// Asks the methods of a kind for a property of self.
fn ask(
    alloc: Global,
    program: &Program,
    core: &mut Core,
    property: u16,
    count: u8,
    this: Holder,
    kind: Kind,
) -> Result<Quiet, NoMemory>
    requires { core.old.store.writes + 131072 ≤ 2 ^ 63 }
    ensures { IfOk result (λ effect. HasDone (asks program.now property count this kind) core.old effect
        core.new) }
{
    let count = u16::from(count);
    match method_of(program.kinds.0.as_slice(), property, metaclasses_of(kind)) {
        Some((metaclass, index)) => {
            call_listed(alloc, program, core, metaclass, index, this, count)
        }
        None => Ok(answer(core, Holder::Nil, count)),
    }
}

/// Drops the topmost operands, so many, and answers a value.
pub(crate) fn answer(core: &mut Core, value: Holder, count: u16) -> Quiet
    ensures done { HasDone (answers value count) core.old result core.new }
    ensures store { core.new.store ≡ core.old.store }
{
    core.frames.drop_operands(count);
    core.register = value;
    Quiet::Next
}
