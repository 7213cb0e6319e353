//! An instruction is carried out, and what comes of it.
ghost use Rattle.std.specs.Prelude.{◌≡◌, ◌<◌, ◌^◌, IfOk, IsOk, IsTrue, OnOk};
ghost use Rattle.t3_interp.specs.declared.event.Event.TheVariants.{Went};
ghost use Rattle.t3_interp.specs.declared.running.Stage.TheVariants.{Method};
ghost use Rattle.t3_methods.specs.declared.instr.Instr.TheVariants.{Call, Make};
ghost use Rattle.t3_object_instructions.specs.Steady.{is_steady_make};
ghost use Rattle.t3_interp.specs.Steady.{is_steady};
ghost use Rattle.t3_frame_instructions.specs.Acting.{context_of};
ghost use Rattle.t3_good_instructions.specs.Contexts.{IsGoodProgram, IsGoodContext};
ghost use Rattle.t3_snapshot.specs.Layout.{IsGoodHolder};
ghost use Rattle.t3_interp.specs.Inner.Acting.{IsCased, IsStanding, HasActed, MayWrite, Tells};

use crate::event::Event;
use crate::running::{Awaited, Running};
use std::alloc::Global;
use t3_frame_instructions::{jump, math, push, stack};
use t3_holder::NoMemory;
use t3_load::Program;
use t3_methods::{CallCode, Instr, MakeCode};
use t3_object_instructions::{MakeEffect, call, local, make};

/// Does to the newest frame, to the register and to the objects what an instruction does, and what comes of
/// that. Answers whether something is told.
#[inline(always)]
pub(crate) fn act(
    alloc: Global,
    program: &Program,
    running: &mut Running,
    instr: &Instr,
) -> Result<bool, NoMemory>
    requires method { running.old.stage ≡ Method }
    requires untold { running.old.event ≡ Went }
    requires cases { IsCased program.now.pools.code instr.now }
    requires next { running.old.core.frames.newest.next < 2 ^ 31 }
    requires few { MayWrite running.old }
    requires marks { running.old.core.store.savepoints < 2 ^ 63 }
    requires program { IsGoodProgram IsGoodHolder program.now }
    requires stands { IsStanding program.now.pools.code running.old.core.frames.newest.place
        instr.now }
    requires context { IsGoodContext IsGoodHolder (context_of running.old.core) }
    ensures acted { OnOk result (HasActed program.now instr.now running.old running.new) }
    ensures told { IfOk result (Tells running.new) }
    ensures steady { IsTrue (is_steady program.now running.old.core.store.store
        running.old.core.frames.newest.this running.old.core.frames.newest.operands instr.now)
        → IsOk result }
{
    // What comes of an effect is settled beside the instructions of its kind, so that the compiler knows it
    // where there is but one. What `act_call` and `act_make` answer is made anew, so that the loop tests once what
    // came of a step.
    match instr {
        Instr::Push(code) => {
            let effect = push(&mut running.core, *code);
            running.settle(alloc, program, effect)
        }
        Instr::Math(code) => {
            let effect = math(alloc, &program.pools, &mut running.core, *code)?;
            running.settle(alloc, program, effect)
        }
        Instr::Call(code) => Ok(act_call(alloc, program, running, code)?),
        Instr::Stack(code) => {
            let effect = stack(&mut running.core, *code);
            running.settle(alloc, program, effect)
        }
        Instr::Jump(code) => {
            let effect = jump(alloc, &program.pools, &mut running.core, *code)?;
            running.settle(alloc, program, effect)
        }
        Instr::Make(code) => Ok(act_make(alloc, program, running, code)?),
        Instr::Local(code) => {
            let effect = local(alloc, &program.pools, &mut running.core, *code)?;
            running.settle(alloc, program, effect)
        }
    }
}

/// The same for what calls, returns or evaluates a property. It stands apart, since it is long.
#[inline(never)]
fn act_call(
    alloc: Global,
    program: &Program,
    running: &mut Running,
    code: &CallCode,
) -> Result<bool, NoMemory>
    requires method { running.old.stage ≡ Method }
    requires untold { running.old.event ≡ Went }
    requires few { MayWrite running.old }
    ensures acted { OnOk result (HasActed program.now (Call code.now) running.old running.new) }
    ensures told { IfOk result (Tells running.new) }
{
    let effect = call(alloc, program, &mut running.core, *code)?;
    running.settle(alloc, program, effect)
}

/// The same for what makes an object, says, throws, or calls a built-in function. It stands apart, since its
/// effect, which has room for a text or a name, is handed over in memory.
#[inline(never)]
fn act_make(
    alloc: Global,
    program: &Program,
    running: &mut Running,
    code: &MakeCode,
) -> Result<bool, NoMemory>
    requires method { running.old.stage ≡ Method }
    requires untold { running.old.event ≡ Went }
    requires few { MayWrite running.old }
    requires marks { running.old.core.store.savepoints < 2 ^ 63 }
    requires program { IsGoodProgram IsGoodHolder program.now }
    requires stands { IsStanding program.now.pools.code running.old.core.frames.newest.place
        (Make code.now) }
    requires context { IsGoodContext IsGoodHolder (context_of running.old.core) }
    ensures acted { OnOk result (HasActed program.now (Make code.now) running.old running.new) }
    ensures told { IfOk result (Tells running.new) }
    ensures steady { IsTrue (is_steady_make program.now code.now) → IsOk result }
{
    match make(alloc, program, &mut running.core, *code)? {
        MakeEffect::Quiet(effect) => running.settle(alloc, program, effect),
        MakeEffect::Say(text) => {
            running.say(text);
            Ok(true)
        }
        MakeEffect::Save(name) => running.save(alloc, program, name),
        MakeEffect::Restore(name) => Ok(running.wait(Awaited::File, Event::WantGet(name))),
        MakeEffect::Restart => running.restart(alloc, program),
    }
}
