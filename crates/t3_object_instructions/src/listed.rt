//! Carrying out the methods of metaclasses.
ghost use Rattle.std.specs.Prelude.{◌≡◌, ◌+◌, ◌≤◌, ◌^◌, IfOk, IsTrue, reverse};
ghost use Rattle.t3_kinds.specs.Methods.{is_listed as is_listed_at, listed_deed};
ghost use Rattle.t3_frame_instructions.specs.Relations.{turn_limit};
ghost use Rattle.t3_frame_instructions.specs.Acting.{HasDone};
ghost use Rattle.t3_object_instructions.specs.Creating.{arguments};
ghost use Rattle.t3_object_instructions.specs.Listed.{methods_by, instance_by as instance_at, deed_action, listed_action};

use crate::create::create_instance;
use crate::evaluate::answer;
use std::alloc::Global;
use t3_frame_instructions::{Core, Quiet, TURN_LIMIT};
use t3_holder::{Holder, NoMemory};
use t3_kinds::{Methods, is_listed, listed_method};
use t3_load::{MetaKind, Program};
use t3_ops::{Fault, OpRefusal};
use t3_pools::Pools;

/// The index of createInstance among the methods of tads-objects.
const CREATE_INSTANCE: u16 = 0;

/// The index of createTransientInstance.
const CREATE_TRANSIENT_INSTANCE: u16 = 2;

/// Carries out the method of an index of a metaclass on self, with so many operands as arguments.
pub(crate) fn call_listed(
    alloc: Global,
    program: &Program,
    core: &mut Core,
    metaclass: MetaKind,
    index: usize,
    this: Holder,
    count: u16,
) -> Result<Quiet, NoMemory>
    requires { core.old.store.writes + 131072 ≤ 2 ^ 63 }
    ensures { IfOk result (λ effect. HasDone (listed_action program.now (methods_by metaclass) index
        this count) core.old effect core.new) }
{
    let Some(kind) = methods_of(metaclass) else {
        return Ok(Quiet::Fault(Fault::NoMethod));
    };
    let Ok(index) = u16::try_from(index) else {
        return Ok(Quiet::Fault(Fault::NoMethod));
    };
    match instance_by(kind, index) {
        Some(transient) => create_instance(alloc, program, core, this, transient, count),
        None => call_unturned(alloc, &program.pools, core, kind, index, this, count),
    }
}

/// The methods that a metaclass has; that of all collections has none.
fn methods_of(metaclass: MetaKind) -> Option<Methods>
    ensures { result ≡ methods_by metaclass }
{
    match metaclass {
        MetaKind::Root => Some(Methods::Root),
        MetaKind::Collection => None,
        MetaKind::Tads => Some(Methods::Tads),
        MetaKind::Text => Some(Methods::Text),
        MetaKind::List => Some(Methods::List),
        MetaKind::Vector => Some(Methods::Vector),
        MetaKind::Table => Some(Methods::Table),
    }
}

/// Whether a method makes an instance of self, and then whether that is transient.
fn instance_by(kind: Methods, index: u16) -> Option<bool>
    ensures { result ≡ instance_at kind index }
{
    match (kind, index) {
        (Methods::Tads, CREATE_INSTANCE) => Some(false),
        (Methods::Tads, CREATE_TRANSIENT_INSTANCE) => Some(true),
        _ => None,
    }
}

/// Carries out a method that makes no instance, if there is one.
fn call_unturned(
    alloc: Global,
    pools: &Pools,
    core: &mut Core,
    kind: Methods,
    index: u16,
    this: Holder,
    count: u16,
) -> Result<Quiet, NoMemory>
    requires { core.old.store.writes + 131072 ≤ 2 ^ 63 }
    ensures { IfOk result (λ effect. HasDone (λ context. deed_action
        (listed_deed pools.now.constants context.store turn_limit kind index this
        (arguments count context)) count context) core.old effect core.new) }
{
    if !is_listed(kind, index) {
        return Ok(Quiet::Fault(Fault::NoMethod));
    }
    core.frames.turn_operands(count);
    call_turned(alloc, pools, core, kind, index, this, count)
}

/// Carries out a method that there is, with so many operands as arguments, which were turned over.
fn call_turned(
    alloc: Global,
    pools: &Pools,
    core: &mut Core,
    kind: Methods,
    index: u16,
    this: Holder,
    count: u16,
) -> Result<Quiet, NoMemory>
    requires listed { IsTrue (is_listed_at kind index) }
    requires few { core.old.store.writes + 131072 ≤ 2 ^ 63 }
    ensures { IfOk result (λ effect. HasDone (λ context. deed_action
        (listed_deed pools.now.constants context.store turn_limit kind index this
        (reverse (arguments count context))) count context) core.old effect core.new) }
{
    let mut turns = TURN_LIMIT;
    match listed_method(
        alloc,
        kind,
        index,
        this,
        core.frames.topmost(count),
        &mut core.store,
        pools,
        &mut turns,
    ) {
        Ok(value) => Ok(answer(core, value, count)),
        Err(OpRefusal::Fault(fault)) => Ok(Quiet::Fault(fault)),
        Err(OpRefusal::Full) => Ok(Quiet::StoreFull),
        Err(OpRefusal::NoMemory) => Err(NoMemory),
    }
}
