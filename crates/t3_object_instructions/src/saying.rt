//! Saying values by a function of the image.
ghost use Rattle.std.specs.Prelude.{◌≡◌};
ghost use Rattle.t3_frame_instructions.specs.Context.{pops};
ghost use Rattle.t3_frame_instructions.specs.Acting.{HasDone};
ghost use Rattle.t3_object_instructions.specs.Saying.{saying, say_value as say_value_of, changes_say, sets_say};

use crate::evaluate::answer;
use t3_frame_instructions::{CodeWhy, Core, Quiet, ask_for_call};
use t3_frames::Call;
use t3_holder::Holder;
use t3_ops::Fault;

/// Says a value, by calling the function by which values are said. `NoSay` where there is none.
pub(crate) fn say_value(core: &mut Core, value: Holder) -> Quiet
    ensures { HasDone (saying value) core.old result core.new }
{
    match core.say {
        Some(method) => ask_for_call(core, Call::function_on(method, value)),
        None => Quiet::Fault(Fault::NoSay),
    }
}

/// Says the topmost operand, which goes.
pub(crate) fn say_popped(core: &mut Core) -> Quiet
    ensures { HasDone (pops saying) core.old result core.new }
{
    match core.frames.pop() {
        Some(value) => say_value(core, value),
        None => Quiet::Stop(CodeWhy::Underflow),
    }
}

/// Sets by which function values are said: the topmost operand, which goes, or none where that is nil. The
/// former one is answered. `Kind` where it is no function and not nil.
pub(crate) fn set_say_popped(core: &mut Core) -> Quiet
    ensures { HasDone (pops sets_say) core.old result core.new }
{
    match core.frames.pop() {
        Some(Holder::Func(method)) => change_say(core, Some(method)),
        Some(Holder::Nil) => change_say(core, None),
        Some(_) => Quiet::Fault(Fault::Kind),
        None => Quiet::Stop(CodeWhy::Underflow),
    }
}

fn change_say(core: &mut Core, say: Option<u32>) -> Quiet
    ensures { HasDone (changes_say say) core.old result core.new }
{
    let former = former_value(core.say);
    core.say = say;
    answer(core, former, 0)
}

/// The function as a value, or nil.
fn former_value(say: Option<u32>) -> Holder
    ensures { result ≡ say_value_of say }
{
    match say {
        Some(method) => Holder::Func(method),
        None => Holder::Nil,
    }
}
