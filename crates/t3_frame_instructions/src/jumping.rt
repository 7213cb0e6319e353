//! Jumping. A target that is no address stops the run where the jump is taken.
ghost use Rattle.std.specs.Prelude.{◌≡◌, ◌+◌, ◌<◌, ◌^◌, ℤ, option_map, IfOk};
ghost use Rattle.std.specs.List.{slice_get};
ghost use Rattle.t3_methods.specs.declared.instr.JumpCode.TheVariants.{Switch};
ghost use Rattle.t3_frame_instructions.specs.Context.{pops, pops_two};
ghost use Rattle.t3_frame_instructions.specs.Relations.{turn_limit, AnswersTold};
ghost use Rattle.t3_frame_instructions.specs.Jumping.{as_address, chosen_of, enters_subroutine, jump_action, jump_in, jumps_by, jumps_by_truth, keeps_on, leaves_subroutine, switches, target_from_of, target_of};
ghost use Rattle.t3_frame_instructions.specs.Acting.{HasDone, HasCasesOf, context_of};

use crate::context::Core;
use crate::effect::{CodeWhy, Quiet};
use crate::relation::{Relation, TURN_LIMIT, related};
use std::alloc::Global;
use t3_holder::{Holder, NoMemory};
use t3_methods::{JumpCode, case_at};
use t3_ops::{EqualRefusal, Fault, equal, truth};
use t3_pools::Pools;
use t3_store::Store;

/// The number of the pool of code.
const CODE: u8 = 1;

/// Carries out an instruction that jumps. Its faults are those of `equal` and `order` where values are
/// compared, `StackFull` where a subroutine is entered and the frames hold as many values as they may, and
/// `Kind` where one is left by what is no offset. Memory is wanted only where values other than two integers
/// are compared.
#[inline(always)]
pub fn jump(
    alloc: Global,
    pools: &Pools,
    core: &mut Core,
    code: JumpCode,
) -> Result<Quiet, NoMemory>
    requires cases { HasCasesOf pools.now.code code }
    requires next { core.old.frames.newest.next < 2 ^ 31 }
    ensures { IfOk result (λ effect. HasDone (jump_action pools.now code) core.old effect core.new) }
{
    match code {
        JumpCode::Switch { count, at } => Ok(switch(alloc, pools, core, at, count)?),
        JumpCode::Jmp(distance) => Ok(Quiet::Jump(target(core, distance))),
        JumpCode::Jt(distance) => Ok(jump_if(core, true, distance)),
        JumpCode::Jf(distance) => Ok(jump_if(core, false, distance)),
        JumpCode::Je(distance) => jump_by(alloc, pools, core, Relation::Equal, distance),
        JumpCode::Jne(distance) => jump_by(alloc, pools, core, Relation::Unequal, distance),
        JumpCode::Jgt(distance) => jump_by(alloc, pools, core, Relation::Greater, distance),
        JumpCode::Jge(distance) => jump_by(alloc, pools, core, Relation::AtLeast, distance),
        JumpCode::Jlt(distance) => jump_by(alloc, pools, core, Relation::Less, distance),
        JumpCode::Jle(distance) => jump_by(alloc, pools, core, Relation::AtMost, distance),
        JumpCode::Jst(distance) => Ok(jump_keeping(core, true, distance)),
        JumpCode::Jsf(distance) => Ok(jump_keeping(core, false, distance)),
        JumpCode::Ljsr(distance) => Ok(enter_subroutine(core, distance)),
        JumpCode::Lret(n) => Ok(leave_subroutine(core, n)),
    }
}

/// Where a jump goes whose operand stands at an address. `None` where that is no address.
#[inline(always)]
pub fn target_from(operand: u32, distance: i16) -> Option<u32>
    ensures { result ≡ target_from_of operand distance }
{
    address_of(i64::from(operand) + i64::from(distance))
}

/// A number as an address, where it is one. One comparison tells that.
#[inline(always)]
fn address_of(number: i64) -> Option<u32>
    ensures { result ≡ as_address number }
{
    if (0..1 << 32).contains(&number) {
        Some(number as u32)
    } else {
        None
    }
}

/// Where a jump goes whose operand is the instruction's only one.
#[inline(always)]
fn target(core: &Core, distance: i16) -> Option<u32>
    ensures { result ≡ target_of distance (context_of core.now) }
{
    address_of(i64::from(core.frames.place()) + 1 + i64::from(distance))
}

/// Jumps where the topmost operand has this truth, and drops it.
#[inline(always)]
fn jump_if(core: &mut Core, wanted: bool, distance: i16) -> Quiet
    ensures { HasDone (pops (jumps_by_truth wanted distance)) core.old result core.new }
{
    match core.frames.pop() {
        Some(value) if truth(value) == wanted => Quiet::Jump(target(core, distance)),
        Some(_) => Quiet::Next,
        None => Quiet::Stop(CodeWhy::Underflow),
    }
}

/// Jumps where the two topmost operands are so to each other, of which the topmost is the right one, and
/// drops both.
#[inline(always)]
fn jump_by(
    alloc: Global,
    pools: &Pools,
    core: &mut Core,
    relation: Relation,
    distance: i16,
) -> Result<Quiet, NoMemory>
    ensures { IfOk result (λ effect. HasDone (pops_two (jumps_by pools.now.constants relation distance))
        core.old effect core.new) }
{
    let Some((right, left)) = core.frames.pop_two() else {
        return Ok(Quiet::Stop(CodeWhy::Underflow));
    };
    match related(alloc, relation, left, right, &core.store, pools) {
        Ok(true) => Ok(Quiet::Jump(target(core, distance))),
        Ok(false) => Ok(Quiet::Next),
        Err(EqualRefusal::Fault(fault)) => Ok(Quiet::Fault(fault)),
        Err(EqualRefusal::NoMemory) => Err(NoMemory),
    }
}

/// Jumps where the topmost operand has this truth, and keeps it, and else drops it.
#[inline(always)]
fn jump_keeping(core: &mut Core, wanted: bool, distance: i16) -> Quiet
    ensures { HasDone (λ context. keeps_on wanted distance context.frame.operands context) core.old result
        core.new }
{
    match core.frames.top() {
        Some(value) if truth(value) == wanted => Quiet::Jump(target(core, distance)),
        Some(_) => {
            core.frames.drop_operands(1);
            Quiet::Next
        }
        None => Quiet::Stop(CodeWhy::Underflow),
    }
}

/// Jumps, once the offset of the next instruction from the method's header is pushed.
fn enter_subroutine(core: &mut Core, distance: i16) -> Quiet
    requires { core.old.frames.newest.next < 2 ^ 31 }
    ensures { HasDone (enters_subroutine distance) core.old result core.new }
{
    if core.frames.is_full() {
        return Quiet::Fault(Fault::StackFull);
    }
    let method = core.frames.method().cast_signed();
    let offset = core.frames.next().cast_signed() - method;
    core.frames.push(Holder::Int(offset));
    Quiet::Jump(target(core, distance))
}

/// Goes to the offset from the method's header that a local has.
fn leave_subroutine(core: &mut Core, n: u16) -> Quiet
    ensures { HasDone (λ context. leaves_subroutine (slice_get context.frame.locals n) context) core.old
        result core.new }
{
    match core.frames.local(n) {
        Some(Holder::Int(offset)) if (0..65_536).contains(&offset) => {
            Quiet::Jump(core.frames.method().checked_add(offset.cast_unsigned()))
        }
        Some(_) => Quiet::Fault(Fault::Kind),
        None => Quiet::Stop(CodeWhy::Local),
    }
}

/// Jumps by the first case that is equal to the topmost operand, which goes, and else by the jump behind
/// the last case.
#[inline(never)]
fn switch(
    alloc: Global,
    pools: &Pools,
    core: &mut Core,
    at: u32,
    count: u16,
) -> Result<Quiet, NoMemory>
    requires { HasCasesOf pools.now.code (Switch count at) }
    ensures { IfOk result
        (λ effect. HasDone (pops (switches pools.now count at)) core.old effect core.new) }
{
    match core.frames.pop() {
        Some(value) => switch_by(alloc, pools, core, at, count, value),
        None => Ok(Quiet::Stop(CodeWhy::Underflow)),
    }
}

/// Jumps by the first case that is equal to a value.
fn switch_by(
    alloc: Global,
    pools: &Pools,
    core: &mut Core,
    at: u32,
    count: u16,
    value: Holder,
) -> Result<Quiet, NoMemory>
    requires { HasCasesOf pools.now.code (Switch count at) }
    ensures { IfOk result
        (λ effect. HasDone (switches pools.now count at value) core.old effect core.new) }
{
    match chosen(alloc, pools, &core.store, at, count, value) {
        Ok(Some((operand, distance))) => Ok(Quiet::Jump(target_from(operand, distance))),
        Ok(None) => Ok(Quiet::Stop(CodeWhy::Operand)),
        Err(EqualRefusal::Fault(fault)) => Ok(Quiet::Fault(fault)),
        Err(EqualRefusal::NoMemory) => Err(NoMemory),
    }
}

/// Where the operand of the jump stands by which a switch of so many cases goes for a value, and its
/// distance. All comparisons together have the turns of one instruction.
fn chosen(
    alloc: Global,
    pools: &Pools,
    store: &Store,
    at: u32,
    count: u16,
    value: Holder,
) -> Result<Option<(u32, i16)>, EqualRefusal>
    requires { HasCasesOf pools.now.code (Switch count at) }
    ensures { AnswersTold (chosen_of pools.now store.now.store value at count turn_limit) result }
{
    let mut turns = TURN_LIMIT;
    for nth in 0..count {
        let Some((holder, operand, distance)) = case_at(pools, at, nth) else {
            return Ok(None);
        };
        match equal(alloc, value, holder, store, pools, &mut turns) {
            Ok(true) => return Ok(Some((operand, distance))),
            Ok(false) => {}
            Err(refusal) => return Err(refusal),
        }
    }
    Ok(last_jump(pools, at + 7 * u32::from(count)))
}

/// The distance at an address, with that address.
fn last_jump(pools: &Pools, at: u32) -> Option<(u32, i16)>
    requires { at + 2 < 2 ^ 31 }
    ensures { result ≡ option_map (λ jump. (at, jump)) (jump_in pools.now.code at) }
{
    let Some(low) = pools.byte(CODE, at) else {
        return None;
    };
    let Some(high) = pools.byte(CODE, at + 1) else {
        return None;
    };
    let number = 256 * u16::from(high) + u16::from(low);
    Some((at, number.cast_signed()))
}
