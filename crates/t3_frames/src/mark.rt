use crate::call::Call;
use t3_holder::Holder;

/// What of a frame is no value, and how many arguments and locals it has.
#[derive(Clone, Copy, Debug)]
pub(crate) struct FrameMark {
    pub(crate) method: u32,
    pub(crate) place: u32,
    pub(crate) next: u32,
    pub(crate) arguments: usize,
    /// How many of the arguments were given. The missing ones come after them.
    pub(crate) given: usize,
    pub(crate) locals: usize,
    pub(crate) this: Holder,
    pub(crate) defining: u32,
    pub(crate) gives: Option<u32>,
}

/// What of an older frame is no value, and how many values of each sort it has.
#[derive(Clone, Copy, Debug)]
pub(crate) struct OlderMark {
    pub(crate) mark: FrameMark,
    pub(crate) operands: usize,
}

impl FrameMark {
    ghost use Rattle.std.specs.Prelude.{◌≡◌, ◌+◌, ◌≤◌, ◌<◌, ◌^◌};
    ghost use Rattle.t3_frames.specs.Frame.{room};
    ghost use Rattle.t3_frames.specs.Inner.Marks.{called_mark};

    /// A method that is called, at the first instruction after its header of ten bytes.
    pub(crate) fn called(call: Call, given: usize, missing: u16, locals: u16) -> FrameMark
        requires method { call.method + 10 < 2 ^ 32 }
        requires few { given ≤ room }
        ensures { result ≡ called_mark call given missing locals }
    {
        FrameMark {
            method: call.method,
            place: call.method + 10,
            next: call.method + 10,
            arguments: given + usize::from(missing),
            given,
            locals: usize::from(locals),
            this: call.this,
            defining: call.defining,
            gives: call.gives,
        }
    }
}
