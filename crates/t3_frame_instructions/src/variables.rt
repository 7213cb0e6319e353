//! The variables of a method.
ghost use Rattle.std.specs.Prelude.{IfOk};
ghost use Rattle.t3_holder.specs.declared.holder.Holder.TheVariants.{Int};
ghost use Rattle.t3_frame_instructions.specs.Context.{pops};
ghost use Rattle.t3_frame_instructions.specs.Variables.{adds_number, adds_to_local, becomes, becomes_sum, sets_argument, sets_local, subtracts};
ghost use Rattle.t3_frame_instructions.specs.Acting.{HasDone};

use crate::computing::computed;
use crate::context::Core;
use crate::effect::{CodeWhy, Quiet};
use std::alloc::Global;
use t3_holder::{Holder, NoMemory};
use t3_ops::{ArithOp, Fault, OpRefusal, arith, sum};
use t3_pools::Pools;

/// Sets the local of a number, if there is one.
#[inline(always)]
pub fn set_local(core: &mut Core, n: u16, value: Holder) -> Quiet
    ensures { HasDone (sets_local n value) core.old result core.new }
{
    core.frames.set_local(n, value);
    Quiet::Next
}

/// Adds a number to a local. `Kind` where it is no integer, then `Overflow`.
#[inline(always)]
pub fn add_number(core: &mut Core, n: u16, number: i32) -> Quiet
    ensures { HasDone (adds_number n number) core.old result core.new }
{
    match core.frames.local(n) {
        Some(value) => become_result(core, n, computed(ArithOp::Add, Holder::Int(number), value)),
        None => Quiet::Stop(CodeWhy::Local),
    }
}

/// Adds the topmost operand, which goes, to a local, by [`sum`].
#[inline(always)]
pub fn add_popped(alloc: Global, pools: &Pools, core: &mut Core, n: u16) -> Result<Quiet, NoMemory>
    ensures { IfOk result
        (λ effect. HasDone (pops (adds_to_local pools.now.constants n)) core.old effect core.new) }
{
    match core.frames.pop() {
        Some(right) => add_to_local(alloc, pools, core, n, right),
        None => Ok(Quiet::Stop(CodeWhy::Underflow)),
    }
}

/// Adds a value to a local.
#[inline(always)]
fn add_to_local(
    alloc: Global,
    pools: &Pools,
    core: &mut Core,
    n: u16,
    right: Holder,
) -> Result<Quiet, NoMemory>
    ensures { IfOk result
        (λ effect. HasDone (adds_to_local pools.now.constants n right) core.old effect core.new) }
{
    match core.frames.local(n) {
        Some(left) => become_sum(alloc, pools, core, n, left, right),
        None => Ok(Quiet::Stop(CodeWhy::Local)),
    }
}

/// Sets a local to the sum of two values.
#[inline(always)]
fn become_sum(
    alloc: Global,
    pools: &Pools,
    core: &mut Core,
    n: u16,
    left: Holder,
    right: Holder,
) -> Result<Quiet, NoMemory>
    ensures { IfOk result
        (λ effect. HasDone (becomes_sum pools.now.constants n right left) core.old effect core.new) }
{
    if let (Holder::Int(left), Holder::Int(right)) = (left, right) {
        return Ok(become_sum_of_numbers(pools, core, n, left, right));
    }
    Ok(become_sum_of_others(alloc, pools, core, n, left, right)?)
}

/// Sets a local to the sum of two integers.
#[inline(always)]
fn become_sum_of_numbers(pools: &Pools, core: &mut Core, n: u16, left: i32, right: i32) -> Quiet
    ensures { HasDone (becomes_sum pools.now.constants n (Int right) (Int left)) core.old result core.new }
{
    let _ = pools;
    match arith(ArithOp::Add, left, right) {
        Ok(sum) => set_local(core, n, Holder::Int(sum)),
        Err(fault) => Quiet::Fault(fault),
    }
}

/// Sets a local to the sum of any two values. It stands apart from the loop of a run, since it may want
/// memory.
#[cold]
#[inline(never)]
fn become_sum_of_others(
    alloc: Global,
    pools: &Pools,
    core: &mut Core,
    n: u16,
    left: Holder,
    right: Holder,
) -> Result<Quiet, NoMemory>
    ensures { IfOk result
        (λ effect. HasDone (becomes_sum pools.now.constants n right left) core.old effect core.new) }
{
    match sum(alloc, left, right, &mut core.store, pools) {
        Ok(value) => Ok(set_local(core, n, value)),
        Err(OpRefusal::Fault(fault)) => Ok(Quiet::Fault(fault)),
        Err(OpRefusal::Full) => Ok(Quiet::StoreFull),
        Err(OpRefusal::NoMemory) => Err(NoMemory),
    }
}

/// Takes the topmost operand, which goes, from a local. `Kind` where one of both is no integer, then
/// `Overflow`.
#[inline(always)]
pub fn subtract_popped(core: &mut Core, n: u16) -> Quiet
    ensures { HasDone (pops (subtracts n)) core.old result core.new }
{
    match core.frames.pop() {
        Some(right) => subtract(core, n, right),
        None => Quiet::Stop(CodeWhy::Underflow),
    }
}

/// Takes a value from a local.
#[inline(always)]
fn subtract(core: &mut Core, n: u16, right: Holder) -> Quiet
    ensures { HasDone (subtracts n right) core.old result core.new }
{
    match core.frames.local(n) {
        Some(left) => become_result(core, n, computed(ArithOp::Sub, left, right)),
        None => Quiet::Stop(CodeWhy::Local),
    }
}

/// Sets a local to a result that is there.
#[inline(always)]
fn become_result(core: &mut Core, n: u16, outcome: Result<Holder, Fault>) -> Quiet
    ensures { HasDone (becomes n outcome) core.old result core.new }
{
    match outcome {
        Ok(value) => set_local(core, n, value),
        Err(fault) => Quiet::Fault(fault),
    }
}

/// Sets a local to the topmost operand, which goes.
#[inline(always)]
pub fn take_local(core: &mut Core, n: u16) -> Quiet
    ensures { HasDone (pops (sets_local n)) core.old result core.new }
{
    match core.frames.pop() {
        Some(value) => set_local(core, n, value),
        None => Quiet::Stop(CodeWhy::Underflow),
    }
}

/// Sets an argument to the topmost operand, which goes.
#[inline(always)]
pub fn take_argument(core: &mut Core, n: u16) -> Quiet
    ensures { HasDone (pops (sets_argument n)) core.old result core.new }
{
    match core.frames.pop() {
        Some(value) => set_argument(core, n, value),
        None => Quiet::Stop(CodeWhy::Underflow),
    }
}

/// Sets the argument of a number, if there is one.
#[inline(always)]
fn set_argument(core: &mut Core, n: u16, value: Holder) -> Quiet
    ensures { HasDone (sets_argument n value) core.old result core.new }
{
    core.frames.set_argument(n, value);
    Quiet::Next
}
