//! Built-in functions.
ghost use Rattle.std.specs.Prelude.{◌≡◌, ◌==◌, ◌<◌, ◌^◌, if◌then◌else◌, IfOk, IsSome, IsTrue, Ok, Some, reverse, take};
ghost use Rattle.std.specs.List.{slice_get};
ghost use Rattle.t3_load.specs.declared.sets.SetKind.TheVariants.{Gen};
ghost use Rattle.t3_ops.specs.Builtins.{pure_at as pure_by, pure_builtin_of};
ghost use Rattle.t3_ops.specs.declared.fault.Fault.TheVariants.{ArgCount};
ghost use Rattle.t3_frames.specs.declared.call.Call.{Call as AnyCall};
ghost use Rattle.t3_frame_instructions.specs.Effect.{WantLine, Fault as FaultEffect};
ghost use Rattle.t3_frame_instructions.specs.Context.{answers};
ghost use Rattle.t3_frame_instructions.specs.Making.{makes};
ghost use Rattle.t3_frame_instructions.specs.Acting.{HasAction, HasDone, quiet_of};
ghost use Rattle.t3_object_instructions.specs.Builtins.{builtin_action, gen_by, io_action, savepoint_action, says, vm_action};
ghost use Rattle.t3_object_instructions.specs.Steady.{is_savepoint_call};
ghost use Rattle.t3_object_instructions.specs.Creating.{arguments};
ghost use Rattle.t3_object_instructions.specs.Acting.{effect_of, HasFileName};

use crate::effect::MakeEffect;
use crate::evaluate::answer;
use crate::saved_states::{restart, restore, save};
use crate::savepoints::{make_savepoint, undo};
use crate::saying::set_say_popped;
use std::alloc::Global;
use t3_frame_instructions::{Core, Quiet};
use t3_holder::{Holder, NoMemory};
use t3_load::{Program, SetKind};
use t3_ops::{Fault, OpRefusal, pure_at, pure_builtin, said_text};
use t3_pools::Pools;

/// The index of the function that says values.
const SAY: u8 = 0;

/// The index of the function that takes a line of input.
const INPUT_LINE: u8 = 4;

/// The index of the function that sets by which function values are said.
const SET_SAY: u8 = 1;

/// The index of the function that makes a savepoint.
const SAVEPOINT: u8 = 13;

/// The index of the function that undoes to the newest savepoint.
const UNDO: u8 = 14;

/// The index of the function that saves the persistent objects in a file.
const SAVE: u8 = 15;

/// The index of the function that restores them from one.
const RESTORE: u8 = 16;

/// The index of the function that puts the image's objects in their place.
const RESTART: u8 = 17;

/// Calls a function of a set, with so many operands. The set is one of the image's table.
pub(crate) fn builtin(
    alloc: Global,
    program: &Program,
    core: &mut Core,
    set: u8,
    index: u8,
    count: u16,
) -> Result<MakeEffect, NoMemory>
    requires { core.old.store.savepoints < 2 ^ 63 }
    ensures done { IfOk result (λ effect. HasAction (builtin_action program.now set index count)
        core.old (effect_of effect core.new.call) core.new) }
    ensures named { IfOk result HasFileName }
    ensures steady { IsTrue (is_savepoint_call (slice_get program.now.sets set) index count)
        → result ≡ Ok (MakeEffect.Quiet Quiet.Next) }
{
    match program.sets.0.get(usize::from(set)) {
        Some(SetKind::Io) => io_builtin(alloc, &program.pools, core, index, count),
        Some(SetKind::Gen) => gen_builtin(alloc, &program.pools, core, index, count),
        Some(SetKind::Vm) => Ok(MakeEffect::Quiet(vm_builtin(core, index, count))),
        None => Ok(MakeEffect::Quiet(Quiet::Fault(Fault::NoBuiltin))),
    }
}

/// Calls a function of the set for input and output.
fn io_builtin(
    alloc: Global,
    pools: &Pools,
    core: &mut Core,
    index: u8,
    count: u16,
) -> Result<MakeEffect, NoMemory>
    ensures done { IfOk result (λ effect. HasAction (io_action pools.now.constants index count)
        core.old (effect_of effect core.new.call) core.new) }
    ensures named { IfOk result HasFileName }
{
    if index == SAY {
        return say(alloc, pools, core, count);
    }
    if index == INPUT_LINE {
        return Ok(MakeEffect::Quiet(want_line(count)));
    }
    Ok(MakeEffect::Quiet(Quiet::Fault(Fault::NoBuiltin)))
}

/// Wants a line of input, which takes no arguments.
fn want_line(count: u16) -> Quiet
    ensures { (call : AnyCall) → quiet_of result call
        ≡ if count == 0 then WantLine else FaultEffect ArgCount }
{
    if count == 0 {
        Quiet::WantLine
    } else {
        Quiet::Fault(Fault::ArgCount)
    }
}

/// Says so many operands, the topmost first.
fn say(alloc: Global, pools: &Pools, core: &mut Core, count: u16) -> Result<MakeEffect, NoMemory>
    ensures done { IfOk result (λ effect. HasAction (says pools.now.constants count) core.old
        (effect_of effect core.new.call) core.new) }
    ensures named { IfOk result HasFileName }
{
    if count == 0 {
        return Ok(MakeEffect::Quiet(Quiet::Fault(Fault::ArgCount)));
    }
    core.frames.turn_operands(count);
    match said_text(alloc, core.frames.topmost(count), &core.store, pools)? {
        Ok(text) => {
            core.frames.drop_operands(count);
            core.register = Holder::Nil;
            Ok(MakeEffect::Say(text))
        }
        Err(fault) => Ok(MakeEffect::Quiet(Quiet::Fault(fault))),
    }
}

/// Calls a function of the machine's own set.
fn vm_builtin(core: &mut Core, index: u8, count: u16) -> Quiet
    ensures { HasDone (vm_action index count) core.old result core.new }
{
    if index != SET_SAY {
        return Quiet::Fault(Fault::NoBuiltin);
    }
    if count != 1 {
        return Quiet::Fault(Fault::ArgCount);
    }
    set_say_popped(core)
}

/// Calls a function of the general set.
fn gen_builtin(
    alloc: Global,
    pools: &Pools,
    core: &mut Core,
    index: u8,
    count: u16,
) -> Result<MakeEffect, NoMemory>
    requires { core.old.store.savepoints < 2 ^ 63 }
    ensures done { IfOk result (λ effect. HasAction
        (gen_by pools.now.constants (pure_by index) index count) core.old
        (effect_of effect core.new.call) core.new) }
    ensures named { IfOk result HasFileName }
    ensures steady { IsTrue (is_savepoint_call (Some Gen) index count)
        → result ≡ Ok (MakeEffect.Quiet Quiet.Next) }
{
    match pure_at(index) {
        Some(_) => {
            let effect = turn_and_call(alloc, pools, core, index, count)?;
            Ok(MakeEffect::Quiet(effect))
        }
        None => savepoint_builtin(alloc, pools, core, index, count),
    }
}

/// Calls a function of the general set that makes no object: on savepoints and saved states.
fn savepoint_builtin(
    alloc: Global,
    pools: &Pools,
    core: &mut Core,
    index: u8,
    count: u16,
) -> Result<MakeEffect, NoMemory>
    requires { core.old.store.savepoints < 2 ^ 63 }
    ensures done { IfOk result (λ effect. HasAction
        (savepoint_action pools.now.constants index count) core.old
        (effect_of effect core.new.call) core.new) }
    ensures named { IfOk result HasFileName }
    ensures steady { IsTrue (is_savepoint_call (Some Gen) index count)
        → result ≡ Ok (MakeEffect.Quiet Quiet.Next) }
{
    match index {
        SAVEPOINT => Ok(MakeEffect::Quiet(make_savepoint(core, count))),
        UNDO => Ok(MakeEffect::Quiet(undo(core, count))),
        SAVE => save(alloc, pools, core, count),
        RESTORE => restore(alloc, pools, core, count),
        RESTART => Ok(restart(core, count)),
        _ => Ok(MakeEffect::Quiet(Quiet::Fault(Fault::NoBuiltin))),
    }
}

/// Calls a function that makes one object at most, with so many operands as arguments.
fn turn_and_call(
    alloc: Global,
    pools: &Pools,
    core: &mut Core,
    index: u8,
    count: u16,
) -> Result<Quiet, NoMemory>
    requires { IsSome (pure_by index) }
    ensures { IfOk result (λ effect. HasDone
        (gen_by pools.now.constants (pure_by index) index count) core.old effect core.new) }
{
    core.frames.turn_operands(count);
    call_pure(alloc, pools, core, index, count)
}

/// Calls a function that makes one object at most, with so many operands as arguments, which were turned over.
fn call_pure(
    alloc: Global,
    pools: &Pools,
    core: &mut Core,
    index: u8,
    count: u16,
) -> Result<Quiet, NoMemory>
    requires { IsSome (pure_by index) }
    ensures { IfOk result (λ effect. HasDone (λ context. makes
        (pure_builtin_of pools.now.constants context.store index (reverse (arguments count context)))
        (λ value context. answers value count context) context) core.old effect core.new) }
{
    match pure_builtin(
        alloc,
        index,
        core.frames.topmost(count),
        &mut core.store,
        pools,
    ) {
        Ok(value) => Ok(answer(core, value, count)),
        Err(OpRefusal::Fault(fault)) => Ok(Quiet::Fault(fault)),
        Err(OpRefusal::Full) => Ok(Quiet::StoreFull),
        Err(OpRefusal::NoMemory) => Err(NoMemory),
    }
}
