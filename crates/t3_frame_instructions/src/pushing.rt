//! Pushing values.
ghost use Rattle.std.specs.Prelude.{◌≡◌};
ghost use Rattle.t3_frame_instructions.specs.Context.{pushes};
ghost use Rattle.t3_frame_instructions.specs.Pushing.{pushed_value, push_action};
ghost use Rattle.t3_frame_instructions.specs.Acting.{HasDone};

use crate::context::Core;
use crate::effect::Quiet;
use t3_holder::Holder;
use t3_methods::PushCode;
use t3_ops::Fault;

/// Pushes the value of an instruction. `StackFull` where the frames hold as many values as they may.
#[inline(always)]
pub fn push(core: &mut Core, code: PushCode) -> Quiet
    ensures { HasDone (push_action code) core.old result core.new }
{
    push_value(core, pushed_value(code))
}

/// The value that an instruction pushes.
pub fn pushed_value(code: PushCode) -> Holder
    ensures { result ≡ pushed_value code }
{
    match code {
        PushCode::Push0 => Holder::Int(0),
        PushCode::Push1 => Holder::Int(1),
        PushCode::Pushint8(number) => Holder::Int(i32::from(number)),
        PushCode::Pushint(number) => Holder::Int(number),
        PushCode::Pushstr(address) => Holder::Text(address),
        PushCode::Pushlst(address) => Holder::List(address),
        PushCode::Pushobj(number) => Holder::Obj(number),
        PushCode::Pushnil => Holder::Nil,
        PushCode::Pushtrue => Holder::True,
        PushCode::Pushpropid(number) => Holder::Prop(number),
        PushCode::Pushfnptr(address) => Holder::Func(address),
        PushCode::Pushenum(number) => Holder::Enum(number),
    }
}

/// Pushes a value. `StackFull` where the frames hold as many values as they may.
#[inline(always)]
pub fn push_value(core: &mut Core, value: Holder) -> Quiet
    ensures { HasDone (pushes value) core.old result core.new }
{
    if core.frames.is_full() {
        return Quiet::Fault(Fault::StackFull);
    }
    core.frames.push(value);
    Quiet::Next
}
