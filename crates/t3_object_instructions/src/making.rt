//! Creating, saying, throwing, indexing, and calling built-in functions.
ghost use Rattle.std.specs.Prelude.{◌≡◌, ◌<◌, ◌^◌, IfOk, IsTrue, Ok};
ghost use Rattle.t3_frame_instructions.specs.Context.{pops};
ghost use Rattle.t3_frame_instructions.specs.Acting.{HasAction, HasDone};
ghost use Rattle.t3_object_instructions.specs.Exceptions.{throws};
ghost use Rattle.t3_object_instructions.specs.Instructions.{make_action};
ghost use Rattle.t3_object_instructions.specs.Steady.{is_steady_make};
ghost use Rattle.t3_object_instructions.specs.Acting.{effect_of, HasFileName};

use crate::builtin::builtin;
use crate::create::create;
use crate::effect::MakeEffect;
use crate::item::index_popped;
use crate::saying::{say_popped, say_value};
use std::alloc::Global;
use t3_frame_instructions::{CodeWhy, Core, Quiet};
use t3_holder::{Holder, NoMemory};
use t3_load::Program;
use t3_methods::MakeCode;
use t3_ops::Fault;

/// Carries out an instruction that makes an object, says, throws, takes an element or an entry, or calls a
/// built-in function. `NoSay` comes where a value is to be said and there is no function for that.
///
/// `CannotMake` comes where the image lists no metaclass of that index, or one that has no objects of its own;
/// else the faults of creating, of [`t3_ops::index`], [`t3_ops::pure_builtin`] and [`t3_ops::said_text`];
/// `NoBuiltin` where there is no such function; and of throwing `NotObject`, and `Stale` where the object
/// isn't there. A file that is asked for has a name that files may have; `FileName` comes where a story names it
/// otherwise. Fewer than 2^63 savepoints were made. Making one, and undoing to the newest, take no memory.
pub fn make(
    alloc: Global,
    program: &Program,
    core: &mut Core,
    code: MakeCode,
) -> Result<MakeEffect, NoMemory>
    requires { core.old.store.savepoints < 2 ^ 63 }
    ensures done { IfOk result (λ effect. HasAction (make_action program.now code) core.old
        (effect_of effect core.new.call) core.new) }
    ensures named { IfOk result HasFileName }
    ensures steady { IsTrue (is_steady_make program.now code)
        → result ≡ Ok (MakeEffect.Quiet Quiet.Next) }
{
    let effect = match code {
        MakeCode::Builtina(count, index) => {
            return builtin(alloc, program, core, 0, index, u16::from(count));
        }
        MakeCode::Builtinb(count, index) => {
            return builtin(alloc, program, core, 1, index, u16::from(count));
        }
        MakeCode::Builtinc(count, index) => {
            return builtin(alloc, program, core, 2, index, u16::from(count));
        }
        MakeCode::Builtind(count, index) => {
            return builtin(alloc, program, core, 3, index, u16::from(count));
        }
        MakeCode::Builtin1(count, index, set) => {
            return builtin(alloc, program, core, set, index, u16::from(count));
        }
        MakeCode::New1(count, index) => {
            create(
                alloc,
                program,
                core,
                false,
                u16::from(count),
                u16::from(index),
            )?
        }
        MakeCode::New2(count, index) => create(alloc, program, core, false, count, index)?,
        MakeCode::Trnew1(count, index) => {
            create(
                alloc,
                program,
                core,
                true,
                u16::from(count),
                u16::from(index),
            )?
        }
        MakeCode::Trnew2(count, index) => create(alloc, program, core, true, count, index)?,
        MakeCode::Say(text) => say_value(core, Holder::Text(text)),
        MakeCode::Sayval => say_popped(core),
        MakeCode::Throw => throw_popped(core),
        MakeCode::Index => index_popped(alloc, &program.pools, core)?,
    };
    Ok(MakeEffect::Quiet(effect))
}

/// Throws the topmost operand, which has to be an object that is there.
fn throw_popped(core: &mut Core) -> Quiet
    ensures { HasDone (pops throws) core.old result core.new }
{
    match core.frames.pop() {
        Some(Holder::Obj(number)) if core.store.live(number) => Quiet::Throw(number),
        Some(Holder::Obj(_)) => Quiet::Fault(Fault::Stale),
        Some(_) => Quiet::Fault(Fault::NotObject),
        None => Quiet::Stop(CodeWhy::Underflow),
    }
}
