//! The parts of a state as bytes, without what refers to what isn't there.
ghost use Rattle.std.specs.Prelude.{◌≡◌, ◌++◌, ◌<◌, ◌^◌, IsTrue, OnOk, map, filter, length};
ghost use Rattle.std.specs.List.{flat_map, AllByRecursion};
ghost use Rattle.t3_tadsobj.specs.Props.{pair_of};
ghost use Rattle.t3_snapshot.specs.Layout.{holder_of_key, holder_text, bytes_text, key_text, entry_text, super_text, prop_text, counted_text, IsGoodHolder, IsKey, IsEntry, IsProp, AreCounted};
ghost use Rattle.t3_snapshot.specs.State.{trimmed_holder, trimmed_entry, trimmed_entries, trimmed_prop, keeps_key};
ghost use Rattle.t3_snapshot.specs.Inner.Writing.{kept_text};

use t3_holder::{Holder, NoMemory, raw_bytes, raw_of, u16_bytes, u32_bytes};
use t3_store::ObjectsRef;
use t3_tables::Pair;
use t3_tadsobj::PropValue;
use t3_undo::Key;

/// Nil for a reference that names no object.
fn trimmed_holder(state: &ObjectsRef<'_>, holder: Holder) -> Holder
    ensures { result ≡ trimmed_holder state.now holder }
{
    match holder {
        Holder::Obj(number) => {
            if state.at(number).is_object() {
                Holder::Obj(number)
            } else {
                Holder::Nil
            }
        }
        other => other,
    }
}

/// Whether a key isn't such a reference.
fn keeps_key(state: &ObjectsRef<'_>, key: &Key) -> bool
    ensures { result ≡ keeps_key state.now key.now }
{
    match key {
        Key::Obj(number) => state.at(*number).is_object(),
        _ => true,
    }
}

/// Appends a holder as it is.
#[tactic(auto, unfolding(crate::specs::Layout::holder_text))]
fn append_raw(holder: Holder, out: &mut Vec<u8>) -> Result<(), NoMemory>
    requires { IsGoodHolder holder }
    ensures { OnOk result (out.new.items ≡ out.old.items ++ holder_text holder) }
{
    let bytes = holder_bytes(holder);
    out.extend_from_slice(&bytes)?;
    Ok(())
}

/// The five bytes of a holder.
#[tactic(auto, unfolding(crate::specs::Layout::holder_text))]
fn holder_bytes(holder: Holder) -> [u8; 5]
    requires { IsGoodHolder holder }
    ensures { result ≡ holder_text holder }
{
    raw_bytes(raw_of(holder))
}

/// Appends a holder, nil for a reference that names no object.
pub(crate) fn append_holder(
    state: &ObjectsRef<'_>,
    holder: Holder,
    out: &mut Vec<u8>,
) -> Result<(), NoMemory>
    requires { IsGoodHolder (trimmed_holder state.now holder) }
    ensures { OnOk result (out.new.items
        ≡ out.old.items ++ holder_text (trimmed_holder state.now holder)) }
{
    append_raw(trimmed_holder(state, holder), out)
}

/// Appends holders.
fn append_holders(
    state: &ObjectsRef<'_>,
    holders: &[Holder],
    out: &mut Vec<u8>,
) -> Result<(), NoMemory>
    requires { AllByRecursion IsGoodHolder (map (trimmed_holder state.now) holders.now) }
    ensures { OnOk result (out.new.items ≡ out.old.items
        ++ flat_map (λ holder. holder_text (trimmed_holder state.now holder)) holders.now) }
{
    for holder in holders {
        let holder = *holder;
        append_holder(state, holder, out)?;
    }
    Ok(())
}

/// Appends the items of a list, or the elements of a vector, after their count.
#[tactic(auto, unfolding(crate::specs::Layout::counted_text))]
pub(crate) fn append_list(
    state: &ObjectsRef<'_>,
    holders: &[Holder],
    out: &mut Vec<u8>,
) -> Result<(), NoMemory>
    requires { AreCounted 2 IsGoodHolder (map (trimmed_holder state.now) holders.now) }
    ensures { OnOk result (out.new.items ≡ out.old.items
        ++ counted_text 2 holder_text (map (trimmed_holder state.now) holders.now)) }
{
    out.extend_from_slice(&u16_bytes(holders.len() as u16))?;
    append_holders(state, holders, out)?;
    Ok(())
}

/// Appends bytes after their length.
#[tactic(auto, unfolding(crate::specs::Layout::bytes_text))]
pub(crate) fn append_bytes(bytes: &[u8], out: &mut Vec<u8>) -> Result<(), NoMemory>
    requires { length bytes.now < 2 ^ 16 }
    ensures { OnOk result (out.new.items ≡ out.old.items ++ bytes_text bytes.now) }
{
    out.extend_from_slice(&u16_bytes(bytes.len() as u16))?;
    out.extend_from_slice(bytes)?;
    Ok(())
}

/// A key that isn't a text, as a holder.
fn holder_of_key(key: &Key) -> Holder
    ensures { result ≡ holder_of_key key.now }
{
    match key {
        Key::Nil => Holder::Nil,
        Key::True => Holder::True,
        Key::Int(number) => Holder::Int(*number),
        Key::Enum(number) => Holder::Enum(*number),
        Key::Prop(number) => Holder::Prop(*number),
        Key::Func(address) => Holder::Func(*address),
        Key::Obj(number) => Holder::Obj(*number),
        Key::Text(_) => Holder::Nil,
    }
}

/// Appends a key.
#[tactic(auto, unfolding(crate::specs::Layout::key_text))]
fn append_key(key: &Key, out: &mut Vec<u8>) -> Result<(), NoMemory>
    requires { IsKey key.now }
    ensures { OnOk result (out.new.items ≡ out.old.items ++ key_text key.now) }
{
    match key {
        Key::Text(bytes) => {
            out.push(1)?;
            append_bytes(&bytes.0, out)
        }
        _ => {
            out.push(0)?;
            append_raw(holder_of_key(key), out)
        }
    }
}

/// Appends an entry.
#[tactic(auto, unfolding(crate::specs::Layout::entry_text))]
fn append_entry(state: &ObjectsRef<'_>, pair: &Pair, out: &mut Vec<u8>) -> Result<(), NoMemory>
    requires { IsEntry (trimmed_entry state.now pair.now) }
    ensures { OnOk result (out.new.items
        ≡ out.old.items ++ entry_text (trimmed_entry state.now pair.now)) }
{
    append_key(&pair.key, out)?;
    append_holder(state, pair.value, out)
}

/// Appends an entry, but none under a key that refers to what isn't there.
fn append_kept(state: &ObjectsRef<'_>, pair: &Pair, out: &mut Vec<u8>) -> Result<(), NoMemory>
    requires { IsTrue (keeps_key state.now pair.now.key)
        → IsEntry (trimmed_entry state.now pair.now) }
    ensures { OnOk result (out.new.items ≡ out.old.items ++ kept_text state.now pair.now) }
{
    if keeps_key(state, &pair.key) {
        return append_entry(state, pair, out);
    }
    Ok(())
}

/// Appends the entries that are kept.
fn append_entries(state: &ObjectsRef<'_>, pairs: &[Pair], out: &mut Vec<u8>) -> Result<(), NoMemory>
    requires { AllByRecursion (λ pair. IsTrue (keeps_key state.now pair.key)
        → IsEntry (trimmed_entry state.now pair)) pairs.now }
    ensures { OnOk result (out.new.items
        ≡ out.old.items ++ flat_map (kept_text state.now) pairs.now) }
{
    for pair in pairs {
        append_kept(state, pair, out)?;
    }
    Ok(())
}

/// How many entries are kept.
fn count_kept(state: &ObjectsRef<'_>, pairs: &[Pair]) -> usize
    ensures { result ≡ length (filter (λ pair. keeps_key state.now pair.key) pairs.now) }
{
    pairs
        .iter()
        .filter(|pair| keeps_key(state, &pair.key))
        .count()
}

/// Appends the entries that are kept after their count.
#[tactic(auto, unfolding(crate::specs::Layout::counted_text))]
pub(crate) fn append_table(
    state: &ObjectsRef<'_>,
    pairs: &[Pair],
    out: &mut Vec<u8>,
) -> Result<(), NoMemory>
    requires { AreCounted 4 IsEntry (trimmed_entries state.now pairs.now) }
    ensures { OnOk result (out.new.items ≡ out.old.items
        ++ counted_text 4 entry_text (trimmed_entries state.now pairs.now)) }
{
    let count = count_kept(state, pairs);
    out.extend_from_slice(&u32_bytes(count as u32))?;
    append_entries(state, pairs, out)?;
    Ok(())
}

/// Appends the numbers of superclasses.
#[tactic(auto, unfolding(crate::specs::Layout::super_text))]
fn append_super_numbers(supers: &[u32], out: &mut Vec<u8>) -> Result<(), NoMemory>
    ensures { OnOk result (out.new.items ≡ out.old.items ++ flat_map super_text supers.now) }
{
    for number in supers {
        out.extend_from_slice(&u32_bytes(*number))?;
    }
    Ok(())
}

/// Appends the numbers of superclasses after their count.
#[tactic(auto, unfolding(crate::specs::Layout::counted_text))]
pub(crate) fn append_supers(supers: &[u32], out: &mut Vec<u8>) -> Result<(), NoMemory>
    requires { length supers.now < 2 ^ 16 }
    ensures { OnOk result (out.new.items ≡ out.old.items ++ counted_text 2 super_text supers.now) }
{
    out.extend_from_slice(&u16_bytes(supers.len() as u16))?;
    append_super_numbers(supers, out)?;
    Ok(())
}

/// Appends a property: its number and its value.
#[tactic(auto, unfolding(crate::specs::Layout::prop_text))]
fn append_prop(state: &ObjectsRef<'_>, prop: PropValue, out: &mut Vec<u8>) -> Result<(), NoMemory>
    requires { IsProp (trimmed_prop state.now (pair_of prop)) }
    ensures { OnOk result (out.new.items
        ≡ out.old.items ++ prop_text (trimmed_prop state.now (pair_of prop))) }
{
    out.extend_from_slice(&u16_bytes(prop.number))?;
    append_holder(state, prop.value, out)
}

/// Appends properties.
fn append_prop_values(
    state: &ObjectsRef<'_>,
    props: &[PropValue],
    out: &mut Vec<u8>,
) -> Result<(), NoMemory>
    requires { AllByRecursion (λ prop. IsProp (trimmed_prop state.now (pair_of prop))) props.now }
    ensures { OnOk result (out.new.items ≡ out.old.items
        ++ flat_map (λ prop. prop_text (trimmed_prop state.now (pair_of prop))) props.now) }
{
    for prop in props {
        let prop = *prop;
        append_prop(state, prop, out)?;
    }
    Ok(())
}

/// Appends properties after their count.
#[tactic(auto, unfolding(crate::specs::Layout::counted_text))]
pub(crate) fn append_props(
    state: &ObjectsRef<'_>,
    props: &[PropValue],
    out: &mut Vec<u8>,
) -> Result<(), NoMemory>
    requires { AreCounted 2 IsProp (map (trimmed_prop state.now) (map pair_of props.now)) }
    ensures { OnOk result (out.new.items ≡ out.old.items
        ++ counted_text 2 prop_text (map (trimmed_prop state.now) (map pair_of props.now))) }
{
    out.extend_from_slice(&u16_bytes(props.len() as u16))?;
    append_prop_values(state, props, out)?;
    Ok(())
}
