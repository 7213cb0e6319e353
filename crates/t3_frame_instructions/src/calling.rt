//! Calling.
ghost use Rattle.t3_frame_instructions.specs.Context.{calls};
ghost use Rattle.t3_frame_instructions.specs.Acting.{HasDone};

use crate::context::Core;
use crate::effect::Quiet;
use t3_frames::Call;

/// Asks for a call. Its faults are the caller's, and come where the call is made.
#[inline(always)]
pub fn ask_for_call(core: &mut Core, call: Call) -> Quiet
    ensures { HasDone (calls call) core.old result core.new }
{
    core.call = call;
    Quiet::Call
}
