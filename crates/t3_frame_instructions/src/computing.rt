//! Computing of the topmost operands, which the result takes the place of.
ghost use Rattle.std.specs.Prelude.{◌≡◌, ◌<◌, IfOk};
ghost use Rattle.t3_holder.specs.declared.holder.Holder.TheVariants.{Int};
ghost use Rattle.t3_frames.specs.Frame.{values, room};
ghost use Rattle.t3_frame_instructions.specs.Context.{pops, pops_two};
ghost use Rattle.t3_frame_instructions.specs.Making.{puts, gives};
ghost use Rattle.t3_frame_instructions.specs.Computing.{math_action, computed_of, computes, computes_with, adds, tells, tells_truth};
ghost use Rattle.t3_frame_instructions.specs.Relations.{truth_value_of};
ghost use Rattle.t3_frame_instructions.specs.Acting.{HasDone};

use crate::context::Core;
use crate::effect::{CodeWhy, Quiet};
use crate::relation::{Relation, related};
use std::alloc::Global;
use t3_holder::{Holder, NoMemory};
use t3_methods::MathCode;
use t3_ops::{ArithOp, EqualRefusal, Fault, OpRefusal, arith, sum, truth};
use t3_pools::Pools;

/// Carries out an instruction that computes or compares. Its faults are those of [`arith`], [`sum`],
/// `equal` and `order`, and `Kind` where integers are wanted and a value is none. Memory is wanted only
/// where values other than two integers are added or compared.
#[inline(always)]
pub fn math(
    alloc: Global,
    pools: &Pools,
    core: &mut Core,
    code: MathCode,
) -> Result<Quiet, NoMemory>
    ensures { IfOk result (λ effect. HasDone (math_action pools.now code) core.old effect core.new) }
{
    match code {
        MathCode::Neg => Ok(compute_with(core, ArithOp::Sub, 0)),
        MathCode::Bnot => Ok(compute_with(core, ArithOp::Sub, -1)),
        MathCode::Add => add(alloc, pools, core),
        MathCode::Sub => Ok(compute(core, ArithOp::Sub)),
        MathCode::Mul => Ok(compute(core, ArithOp::Mul)),
        MathCode::Band => Ok(compute(core, ArithOp::And)),
        MathCode::Bor => Ok(compute(core, ArithOp::Or)),
        MathCode::Shl => Ok(compute(core, ArithOp::Shl)),
        MathCode::Ashr => Ok(compute(core, ArithOp::Ashr)),
        MathCode::Xor => Ok(compute(core, ArithOp::Xor)),
        MathCode::Div => Ok(compute(core, ArithOp::Div)),
        MathCode::Mod => Ok(compute(core, ArithOp::Mod)),
        MathCode::Not => Ok(tell_truth(core, false)),
        MathCode::Boolize => Ok(tell_truth(core, true)),
        MathCode::Inc => Ok(compute_with(core, ArithOp::Add, 1)),
        MathCode::Dec => Ok(compute_with(core, ArithOp::Add, -1)),
        MathCode::Lshr => Ok(compute(core, ArithOp::Lshr)),
        MathCode::Eq => tell(alloc, pools, core, Relation::Equal),
        MathCode::Ne => tell(alloc, pools, core, Relation::Unequal),
        MathCode::Lt => tell(alloc, pools, core, Relation::Less),
        MathCode::Le => tell(alloc, pools, core, Relation::AtMost),
        MathCode::Gt => tell(alloc, pools, core, Relation::Greater),
        MathCode::Ge => tell(alloc, pools, core, Relation::AtLeast),
    }
}

/// Computes of a number and the topmost operand, in this order.
#[inline(always)]
fn compute_with(core: &mut Core, op: ArithOp, number: i32) -> Quiet
    ensures { HasDone (pops (computes_with op number)) core.old result core.new }
{
    match core.frames.pop() {
        Some(value) => give(core, computed(op, Holder::Int(number), value)),
        None => Quiet::Stop(CodeWhy::Underflow),
    }
}

/// Computes of the two topmost operands, of which the topmost is the right one.
#[inline(always)]
fn compute(core: &mut Core, op: ArithOp) -> Quiet
    ensures { HasDone (pops_two (computes op)) core.old result core.new }
{
    match core.frames.pop_two() {
        Some((right, left)) => give(core, computed(op, left, right)),
        None => Quiet::Stop(CodeWhy::Underflow),
    }
}

/// Adds the two topmost operands, of which the topmost is the right one.
#[inline(always)]
fn add(alloc: Global, pools: &Pools, core: &mut Core) -> Result<Quiet, NoMemory>
    ensures { IfOk result
        (λ effect. HasDone (pops_two (adds pools.now.constants)) core.old effect core.new) }
{
    match core.frames.pop_two() {
        Some((right, left)) => add_values(alloc, pools, core, left, right),
        None => Ok(Quiet::Stop(CodeWhy::Underflow)),
    }
}

/// Puts the sum of two values on top.
#[inline(always)]
fn add_values(
    alloc: Global,
    pools: &Pools,
    core: &mut Core,
    left: Holder,
    right: Holder,
) -> Result<Quiet, NoMemory>
    requires { values core.old.frames < room }
    ensures { IfOk result
        (λ effect. HasDone (adds pools.now.constants right left) core.old effect core.new) }
{
    if let (Holder::Int(left), Holder::Int(right)) = (left, right) {
        return Ok(add_numbers(pools, core, left, right));
    }
    Ok(add_others(alloc, pools, core, left, right)?)
}

/// Puts the sum of two integers on top.
#[inline(always)]
fn add_numbers(pools: &Pools, core: &mut Core, left: i32, right: i32) -> Quiet
    requires { values core.old.frames < room }
    ensures { HasDone (adds pools.now.constants (Int right) (Int left)) core.old result core.new }
{
    let _ = pools;
    match arith(ArithOp::Add, left, right) {
        Ok(sum) => put(core, Holder::Int(sum)),
        Err(fault) => Quiet::Fault(fault),
    }
}

/// Puts the sum of any two values on top. It stands apart from the loop of a run, since it may want memory.
#[cold]
#[inline(never)]
fn add_others(
    alloc: Global,
    pools: &Pools,
    core: &mut Core,
    left: Holder,
    right: Holder,
) -> Result<Quiet, NoMemory>
    requires { values core.old.frames < room }
    ensures { IfOk result
        (λ effect. HasDone (adds pools.now.constants right left) core.old effect core.new) }
{
    match sum(alloc, left, right, &mut core.store, pools) {
        Ok(value) => Ok(put(core, value)),
        Err(OpRefusal::Fault(fault)) => Ok(Quiet::Fault(fault)),
        Err(OpRefusal::Full) => Ok(Quiet::StoreFull),
        Err(OpRefusal::NoMemory) => Err(NoMemory),
    }
}

/// Tells whether the two topmost operands are so to each other, of which the topmost is the right one.
#[inline(always)]
fn tell(
    alloc: Global,
    pools: &Pools,
    core: &mut Core,
    relation: Relation,
) -> Result<Quiet, NoMemory>
    ensures { IfOk result
        (λ effect. HasDone (pops_two (tells pools.now.constants relation)) core.old effect core.new) }
{
    let Some((right, left)) = core.frames.pop_two() else {
        return Ok(Quiet::Stop(CodeWhy::Underflow));
    };
    match related(alloc, relation, left, right, &core.store, pools) {
        Ok(is) => Ok(put(core, truth_value(is))),
        Err(EqualRefusal::Fault(fault)) => Ok(Quiet::Fault(fault)),
        Err(EqualRefusal::NoMemory) => Err(NoMemory),
    }
}

/// Tells whether the topmost operand has this truth.
#[inline(always)]
fn tell_truth(core: &mut Core, wanted: bool) -> Quiet
    ensures { HasDone (pops (tells_truth wanted)) core.old result core.new }
{
    match core.frames.pop() {
        Some(value) => put(core, truth_value(truth(value) == wanted)),
        None => Quiet::Stop(CodeWhy::Underflow),
    }
}

/// Puts a value on top, in the place of operands that were taken off.
#[inline(always)]
pub fn put(core: &mut Core, value: Holder) -> Quiet
    requires { values core.old.frames < room }
    ensures done { HasDone (puts value) core.old result core.new }
    ensures store { core.new.store ≡ core.old.store }
{
    core.frames.push(value);
    Quiet::Next
}

/// Puts a result on top, in the place of operands that were taken off.
#[inline(always)]
pub fn give(core: &mut Core, outcome: Result<Holder, Fault>) -> Quiet
    requires { values core.old.frames < room }
    ensures { HasDone (gives outcome) core.old result core.new }
{
    match outcome {
        Ok(value) => put(core, value),
        Err(fault) => Quiet::Fault(fault),
    }
}

/// What an operation gives of two values.
#[inline(always)]
pub(crate) fn computed(op: ArithOp, left: Holder, right: Holder) -> Result<Holder, Fault>
    ensures { result ≡ computed_of op left right }
{
    match (left, right) {
        (Holder::Int(left), Holder::Int(right)) => Ok(Holder::Int(arith(op, left, right)?)),
        _ => Err(Fault::Kind),
    }
}

/// The value by which a truth is told.
#[inline(always)]
pub fn truth_value(is: bool) -> Holder
    ensures { result ≡ truth_value_of is }
{
    if is { Holder::True } else { Holder::Nil }
}
