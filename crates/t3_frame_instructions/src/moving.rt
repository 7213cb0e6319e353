//! The stack, and what the frame has.
ghost use Rattle.std.specs.Prelude.{pos};
ghost use Rattle.std.specs.List.{slice_get};
ghost use Rattle.t3_holder.specs.declared.holder.Holder.TheVariants.{Int};
ghost use Rattle.t3_frame_instructions.specs.declared.effect.CodeWhy.TheVariants.{Local, Argument};
ghost use Rattle.t3_frame_instructions.specs.Context.{pushes, pops, pops_two};
ghost use Rattle.t3_frame_instructions.specs.Pushing.{stack_action, dup_on, swaps, drops, pushes_or};
ghost use Rattle.t3_frame_instructions.specs.Acting.{HasDone};

use crate::context::Core;
use crate::effect::{CodeWhy, Quiet};
use crate::pushing::push_value;
use t3_holder::Holder;
use t3_methods::StackCode;

/// Carries out an instruction that moves values. `StackFull` where a value is to be pushed and the frames
/// hold as many as they may.
#[inline(always)]
pub fn stack(core: &mut Core, code: StackCode) -> Quiet
    ensures { HasDone (stack_action code) core.old result core.new }
{
    match code {
        StackCode::Getlcl1(n) => push_local(core, u16::from(n)),
        StackCode::Getlcl2(n) => push_local(core, n),
        StackCode::Getarg1(n) => push_argument(core, u16::from(n)),
        StackCode::Getarg2(n) => push_argument(core, n),
        StackCode::Pushself => push_this(core),
        StackCode::Getargc => push_count(core),
        StackCode::Dup => dup(core),
        StackCode::Disc => disc(core),
        StackCode::Disc1(count) => {
            core.frames.drop_operands(u16::from(count));
            Quiet::Next
        }
        StackCode::Getr0 => push_register(core),
        StackCode::Swap => swap(core),
    }
}

#[inline(always)]
fn push_local(core: &mut Core, n: u16) -> Quiet
    ensures { HasDone (λ context. pushes_or Local (slice_get context.frame.locals n) context) core.old result
        core.new }
{
    match core.frames.local(n) {
        Some(value) => push_value(core, value),
        None => Quiet::Stop(CodeWhy::Local),
    }
}

#[inline(always)]
fn push_argument(core: &mut Core, n: u16) -> Quiet
    ensures { HasDone (λ context. pushes_or Argument (slice_get context.frame.arguments n) context) core.old
        result core.new }
{
    match core.frames.argument(n) {
        Some(value) => push_value(core, value),
        None => Quiet::Stop(CodeWhy::Argument),
    }
}

#[inline(always)]
fn push_this(core: &mut Core) -> Quiet
    ensures { HasDone (λ context. pushes context.frame.this context) core.old result core.new }
{
    let value = core.frames.this();
    push_value(core, value)
}

/// Pushes how many arguments the method was given.
#[inline(always)]
fn push_count(core: &mut Core) -> Quiet
    ensures { HasDone (λ context. pushes (Int (pos context.frame.given)) context) core.old result core.new }
{
    let count = core.frames.given() as i32;
    push_value(core, Holder::Int(count))
}

#[inline(always)]
fn push_register(core: &mut Core) -> Quiet
    ensures { HasDone (λ context. pushes context.register context) core.old result core.new }
{
    let value = core.register;
    push_value(core, value)
}

/// Doubles the topmost operand.
#[inline(always)]
fn dup(core: &mut Core) -> Quiet
    ensures { HasDone (λ context. dup_on context.frame.operands context) core.old result core.new }
{
    match core.frames.top() {
        Some(value) => push_value(core, value),
        None => Quiet::Stop(CodeWhy::Underflow),
    }
}

/// Drops the topmost operand.
#[inline(always)]
fn disc(core: &mut Core) -> Quiet
    ensures { HasDone (pops drops) core.old result core.new }
{
    match core.frames.pop() {
        Some(_) => Quiet::Next,
        None => Quiet::Stop(CodeWhy::Underflow),
    }
}

/// Exchanges the two topmost operands.
#[inline(always)]
fn swap(core: &mut Core) -> Quiet
    ensures { HasDone (pops_two swaps) core.old result core.new }
{
    let Some((upper, lower)) = core.frames.pop_two() else {
        return Quiet::Stop(CodeWhy::Underflow);
    };
    core.frames.push(upper);
    core.frames.push(lower);
    Quiet::Next
}
