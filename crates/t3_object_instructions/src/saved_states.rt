//! Saving, restoring and restarting: what is asked for.
ghost use Rattle.std.specs.Prelude.{◌≡◌, IfOk};
ghost use Rattle.t3_frame_instructions.specs.Effect.{Save, Restore};
ghost use Rattle.t3_frame_instructions.specs.Acting.{HasAction};
ghost use Rattle.t3_ops.specs.Making.{when_read};
ghost use Rattle.t3_ops.specs.References.{text_of};
ghost use Rattle.t3_object_instructions.specs.SavedStates.{file_name_of, as_file_name, asks_of_file, restarts};
ghost use Rattle.t3_holder.specs.FileName.{IsFileName};
ghost use Rattle.t3_object_instructions.specs.Acting.{effect_of, HasFileName};
ghost use Rattle.t3_object_instructions.specs.Inner.Naming.{HasNamed};

use crate::effect::MakeEffect;
use crate::file_name::is_file_name;
use std::alloc::Global;
use t3_frame_instructions::{CodeWhy, Core, Quiet};
use t3_holder::{Bytes, Holder, NoMemory};
use t3_ops::{Fault, TextOrListRef, TextRef, kind_fault, text_bytes, text_or_list};
use t3_pools::Pools;
use t3_store::Store;

/// Asks to save the persistent objects in the file that the one argument names.
pub(crate) fn save(
    alloc: Global,
    pools: &Pools,
    core: &mut Core,
    count: u16,
) -> Result<MakeEffect, NoMemory>
    ensures done { IfOk result (λ effect. HasAction (asks_of_file Save pools.now.constants count)
        core.old (effect_of effect core.new.call) core.new) }
    ensures named { IfOk result HasFileName }
{
    match name_popped(alloc, pools, core, count)? {
        Ok(name) => Ok(MakeEffect::Save(name)),
        Err(quiet) => Ok(MakeEffect::Quiet(quiet)),
    }
}

/// Asks to be given the file that the one argument names, from which the persistent objects are restored.
pub(crate) fn restore(
    alloc: Global,
    pools: &Pools,
    core: &mut Core,
    count: u16,
) -> Result<MakeEffect, NoMemory>
    ensures done { IfOk result (λ effect. HasAction (asks_of_file Restore pools.now.constants count)
        core.old (effect_of effect core.new.call) core.new) }
    ensures named { IfOk result HasFileName }
{
    match name_popped(alloc, pools, core, count)? {
        Ok(name) => Ok(MakeEffect::Restore(name)),
        Err(quiet) => Ok(MakeEffect::Quiet(quiet)),
    }
}

/// Asks to put the image's objects in place, which takes no arguments.
pub(crate) fn restart(core: &Core, count: u16) -> MakeEffect
    ensures done { HasAction (restarts count) core.now (effect_of result core.now.call) core.now }
    ensures named { HasFileName result }
{
    let _ = core;
    if count == 0 {
        MakeEffect::Restart
    } else {
        MakeEffect::Quiet(Quiet::Fault(Fault::ArgCount))
    }
}

/// The name of a file that the topmost operand is, which is the one argument and goes; or what is asked for
/// in its place.
fn name_popped(
    alloc: Global,
    pools: &Pools,
    core: &mut Core,
    count: u16,
) -> Result<Result<Bytes, Quiet>, NoMemory>
    ensures { IfOk result (λ named. HasNamed pools.now.constants count core.old named core.new) }
{
    if count != 1 {
        return Ok(Err(Quiet::Fault(Fault::ArgCount)));
    }
    let Some(value) = core.frames.pop() else {
        return Ok(Err(Quiet::Stop(CodeWhy::Underflow)));
    };
    match file_name(alloc, &core.store, pools, value)? {
        Ok(name) => Ok(Ok(name)),
        Err(fault) => Ok(Err(Quiet::Fault(fault))),
    }
}

/// The name of a file that a value is. `Stale` where it is a reference to an object that isn't there, and else
/// `Kind` where it is no text; then `BadConstant` where it can't be read, and `FileName` where no file may have
/// that name.
fn file_name(
    alloc: Global,
    store: &Store,
    pools: &Pools,
    value: Holder,
) -> Result<Result<Bytes, Fault>, NoMemory>
    ensures name { IfOk result (λ name. name ≡ file_name_of pools.now.constants store.now.store value) }
    ensures good { IfOk result (λ name. IfOk name IsFileName) }
{
    match text_or_list(store, pools, value) {
        TextOrListRef::Text(text) => read_name(alloc, text, pools),
        TextOrListRef::List(_) | TextOrListRef::Neither => Ok(Err(kind_fault(store, &[value]))),
    }
}

/// The name that a text is.
fn read_name(
    alloc: Global,
    text: TextRef<'_>,
    pools: &Pools,
) -> Result<Result<Bytes, Fault>, NoMemory>
    ensures name { IfOk result (λ name. name
        ≡ when_read (text_of pools.now.constants text.entry) as_file_name) }
    ensures good { IfOk result (λ name. IfOk name IsFileName) }
{
    match text_bytes(alloc, text, pools)? {
        Some(bytes) => Ok(checked_name(bytes)),
        None => Ok(Err(Fault::BadConstant)),
    }
}

/// These bytes, where a file may have them as its name.
fn checked_name(bytes: Vec<u8>) -> Result<Bytes, Fault>
    ensures name { result ≡ as_file_name bytes.items }
    ensures good { IfOk result IsFileName }
{
    if is_file_name(&bytes) {
        Ok(Bytes(bytes))
    } else {
        Err(Fault::FileName)
    }
}
