//! Savepoints, and undoing to them.
ghost use Rattle.std.specs.Prelude.{◌≡◌, ◌<◌, ◌^◌};
ghost use Rattle.t3_object_instructions.specs.Evaluating.{unless_argued};
ghost use Rattle.t3_object_instructions.specs.Savepoints.{saves, undoes};
ghost use Rattle.t3_frame_instructions.specs.Acting.{HasDone};

use t3_frame_instructions::{Core, Quiet, truth_value};
use t3_holder::Holder;
use t3_ops::Fault;

/// Makes a savepoint, which takes no arguments. No memory is taken.
pub(crate) fn make_savepoint(core: &mut Core, count: u16) -> Quiet
    requires { core.old.store.savepoints < 2 ^ 63 }
    ensures done { HasDone (λ context. unless_argued count (saves context) context) core.old result
        core.new }
    ensures steady { count ≡ 0 → result ≡ Quiet.Next }
{
    if count != 0 {
        return Quiet::Fault(Fault::ArgCount);
    }
    core.store.savepoint();
    core.register = Holder::Nil;
    Quiet::Next
}

/// Undoes to the newest savepoint, if one is held, which takes no arguments. No memory is taken.
pub(crate) fn undo(core: &mut Core, count: u16) -> Quiet
    ensures done { HasDone (λ context. unless_argued count (undoes context) context) core.old result
        core.new }
    ensures steady { count ≡ 0 → result ≡ Quiet.Next }
{
    if count != 0 {
        return Quiet::Fault(Fault::ArgCount);
    }
    core.register = truth_value(core.store.undo());
    Quiet::Next
}
