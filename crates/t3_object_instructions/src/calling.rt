//! Calling, returning, and evaluating properties.
ghost use Rattle.std.specs.Prelude.{◌+◌, ◌≤◌, ◌^◌, IfOk};
ghost use Rattle.t3_frame_instructions.specs.Context.{pops, returns};
ghost use Rattle.t3_frame_instructions.specs.Acting.{HasDone};
ghost use Rattle.t3_object_instructions.specs.Instructions.{call_action, calls_pointer};

use crate::evaluate::{
    evaluate, evaluate_by_pointer, evaluate_popped, evaluate_self, evaluate_self_by_pointer,
};
use crate::inherit::{delegate, delegate_popped, inherit};
use std::alloc::Global;
use t3_frame_instructions::{CodeWhy, Core, Quiet, ask_for_call};
use t3_frames::Call;
use t3_holder::{Holder, NoMemory};
use t3_load::Program;
use t3_methods::CallCode;
use t3_ops::Fault;

/// Carries out an instruction that calls, returns or evaluates a property. Fewer than 2^63 - 2^17 writes were
/// made. Memory is wanted only by the methods of metaclasses, and where a property is searched for in an object
/// with two superclasses or more.
///
/// `NotObject` comes where a value has no properties, `Stale` where its object isn't there, `Kind` where a
/// property or a function is to be popped and there is another value, `ArgCount` where arguments are given to
/// what takes none, `NoMethod` where the image lists a method that there isn't, and `NoSay` where a text is to
/// be said and there is no function for that; and the faults of [`t3_kinds::listed_method`], and of creating a
/// tads-object. The faults of a call come where it is made.
pub fn call(
    alloc: Global,
    program: &Program,
    core: &mut Core,
    code: CallCode,
) -> Result<Quiet, NoMemory>
    requires { core.old.store.writes + 131072 ≤ 2 ^ 63 }
    ensures { IfOk result (λ effect. HasDone (call_action program.now code) core.old effect core.new) }
{
    match code {
        CallCode::Retval => Ok(return_popped(core)),
        CallCode::Retnil => Ok(return_with(core, Holder::Nil)),
        CallCode::Rettrue => Ok(return_with(core, Holder::True)),
        CallCode::Ret => Ok(Quiet::Return),
        CallCode::Getprop(p) => evaluate_popped(alloc, program, core, p, 0),
        CallCode::Callprop(count, p) => evaluate_popped(alloc, program, core, p, count),
        CallCode::Ptrcallprop(count) => evaluate_by_pointer(alloc, program, core, count),
        CallCode::Getpropself(p) => evaluate_self(alloc, program, core, p, 0),
        CallCode::Callpropself(count, p) => evaluate_self(alloc, program, core, p, count),
        CallCode::Ptrcallpropself(count) => evaluate_self_by_pointer(alloc, program, core, count),
        CallCode::Objgetprop(n, p) => evaluate(alloc, program, core, Holder::Obj(n), p, 0),
        CallCode::Objcallprop(count, n, p) => {
            evaluate(alloc, program, core, Holder::Obj(n), p, count)
        }
        CallCode::Inherit(count, p) => inherit(alloc, core, p, count),
        CallCode::Expinherit(count, p, n) => delegate(alloc, core, Holder::Obj(n), p, count),
        CallCode::Delegate(count, p) => delegate_popped(alloc, core, p, count),
        CallCode::Call(count, method) => {
            Ok(ask_for_call(core, Call::function(method, u16::from(count))))
        }
        CallCode::Ptrcall(count) => Ok(call_popped(core, count)),
    }
}

/// Returns the topmost operand.
fn return_popped(core: &mut Core) -> Quiet
    ensures { HasDone (pops returns) core.old result core.new }
{
    match core.frames.pop() {
        Some(value) => return_with(core, value),
        None => Quiet::Stop(CodeWhy::Underflow),
    }
}

fn return_with(core: &mut Core, value: Holder) -> Quiet
    ensures { HasDone (returns value) core.old result core.new }
{
    core.register = value;
    Quiet::Return
}

/// Calls the function that is the topmost operand, which goes, with the next ones, so many.
fn call_popped(core: &mut Core, count: u8) -> Quiet
    ensures { HasDone (pops (calls_pointer count)) core.old result core.new }
{
    match core.frames.pop() {
        Some(Holder::Func(method)) => {
            ask_for_call(core, Call::function(method, u16::from(count)))
        }
        Some(_) => Quiet::Fault(Fault::Kind),
        None => Quiet::Stop(CodeWhy::Underflow),
    }
}
