//! The objects that an object names.
ghost use Rattle.std.specs.Prelude.{◌≡◌, ◌++◌, OnOk};
ghost use Rattle.std.specs.List.{flat_map};
ghost use Rattle.t3_store.specs.Value.{new_value};
ghost use Rattle.t3_snapshot.specs.State.{named_by, named_by_key, named_in, named_as_keys};
ghost use Rattle.t3_snapshot.specs.Building.{saved_value, MakesRisingProps, HasRisingProps};

use crate::saved_object::SavedObject;
use t3_holder::{Holder, NoMemory};
use t3_store::NewObject;
use t3_tables::Pair;
use t3_tadsobj::PropValue;
use t3_undo::Key;

/// Notes the object that a holder names.
fn note_holder(holder: Holder, named: &mut Vec<u32>) -> Result<(), NoMemory>
    ensures { OnOk result (named.new.items ≡ named.old.items ++ named_by holder) }
{
    if let Holder::Obj(number) = holder {
        named.push(number)?;
    }
    Ok(())
}

/// Notes the object that a key names.
fn note_key(key: &Key, named: &mut Vec<u32>) -> Result<(), NoMemory>
    ensures { OnOk result (named.new.items ≡ named.old.items ++ named_by_key key.now) }
{
    if let Key::Obj(number) = key {
        named.push(*number)?;
    }
    Ok(())
}

/// Notes the objects that holders name.
fn note_holders(holders: &[Holder], named: &mut Vec<u32>) -> Result<(), NoMemory>
    ensures { OnOk result (named.new.items ≡ named.old.items ++ flat_map named_by holders.now) }
{
    for holder in holders {
        note_holder(*holder, named)?;
    }
    Ok(())
}

/// Notes the objects that the values of properties name.
fn note_props(props: &[PropValue], named: &mut Vec<u32>) -> Result<(), NoMemory>
    ensures { OnOk result (named.new.items
        ≡ named.old.items ++ flat_map (λ prop. named_by prop.value) props.now) }
{
    for prop in props {
        note_holder(prop.value, named)?;
    }
    Ok(())
}

/// Notes the objects that the values of entries name.
fn note_values(pairs: &[Pair], named: &mut Vec<u32>) -> Result<(), NoMemory>
    ensures { OnOk result (named.new.items
        ≡ named.old.items ++ flat_map (λ pair. named_by pair.value) pairs.now) }
{
    for pair in pairs {
        note_holder(pair.value, named)?;
    }
    Ok(())
}

/// Notes the objects that the keys of entries name.
fn note_keys(pairs: &[Pair], named: &mut Vec<u32>) -> Result<(), NoMemory>
    ensures { OnOk result (named.new.items
        ≡ named.old.items ++ flat_map (λ pair. named_by_key pair.key) pairs.now) }
{
    for pair in pairs {
        note_key(&pair.key, named)?;
    }
    Ok(())
}

/// Notes the objects that the holders of an object name.
#[tactic(auto, unfolding(crate::specs::State::named_in))]
pub(crate) fn note_named(object: &SavedObject, named: &mut Vec<u32>) -> Result<(), NoMemory>
    requires rising { HasRisingProps object.now }
    ensures { OnOk result (named.new.items ≡ named.old.items ++ named_in (saved_value object.now)) }
{
    match object {
        SavedObject::Made(what) => note_made(what, named),
        SavedObject::Table { pairs, default } => {
            note_holder(*default, named)?;
            note_values(pairs, named)
        }
    }
}

/// Notes the objects that the holders of an object that is made at once name.
#[tactic(auto, unfolding(crate::specs::State::named_in))]
fn note_made(what: &NewObject, named: &mut Vec<u32>) -> Result<(), NoMemory>
    requires rising { MakesRisingProps what.now }
    ensures { OnOk result (named.new.items ≡ named.old.items ++ named_in (new_value what.now)) }
{
    match what {
        NewObject::Tads {
            supers: _,
            class: _,
            props,
        } => note_props(props.items(), named),
        NewObject::List(items) | NewObject::Vector(items) => note_holders(&items.0, named),
        NewObject::Text(_) | NewObject::Table => Ok(()),
    }
}

/// Notes the objects that its keys name.
#[tactic(auto, unfolding(crate::specs::State::named_as_keys))]
pub(crate) fn note_named_keys(object: &SavedObject, named: &mut Vec<u32>) -> Result<(), NoMemory>
    ensures { OnOk result (named.new.items
        ≡ named.old.items ++ named_as_keys (saved_value object.now)) }
{
    match object {
        SavedObject::Made(_) => Ok(()),
        SavedObject::Table { pairs, default: _ } => note_keys(pairs, named),
    }
}
