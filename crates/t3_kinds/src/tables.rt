//! The methods of lookup tables.
ghost use Rattle.std.specs.Prelude.{◌≡◌, ◌++◌, [], ◌+◌, ◌<◌, ◌≤◌, ◌^◌, true, Ok, IfOk, OnOk, length, map};
ghost use Rattle.t3_tables.specs.declared.pair.Pair.{Pair};
ghost use Rattle.t3_kinds.specs.Methods.{table_deed};
ghost use Rattle.t3_tables.specs.Entries.{value_under};
ghost use Rattle.t3_ops.specs.Containers.{table_pairs};
ghost use Rattle.t3_kinds.specs.TableMethods.{table_of, is_key_present_of, remove_entry_of, removed_entry, entry_count_of, value_list_of, key_list_of, listed_keys, have_fitting_texts, has_fitting_text, key_text, key_value, key_values, key_strings, with_string, next_after, number_after, set_default_of};
ghost use Rattle.t3_kinds.specs.Inner.Deeds.{changes_of, Comes};
ghost use Rattle.t3_kinds.specs.Inner.Selves.{FindsTable, IsTableAt, table_by};

use crate::deed::{Came, Change, Deed, answer, answer_count, answer_new, answer_truth, first};
use crate::methods::TableMethod;
use std::alloc::Global;
use t3_holder::{Bytes, Holder, NoMemory};
use t3_lists::Holders;
use t3_ops::{Fault, fitting_list, key};
use t3_pools::Pools;
use t3_store::{NewObject, ObjectAt, Store};
use t3_tables::Pair;
use t3_undo::{Cell, Key};

/// How many elements a list has at most, and how many bytes a string.
const GREATEST_LENGTH: usize = 65_535;

/// A table, with its number and its default.
#[derive(Drop)]
pub(crate) struct TableAt<'o> {
    number: u32,
    object: ObjectAt<'o>,
    default: Holder,
}

/// The table that a value is.
pub(crate) fn table_at(store: &Store, me: Holder) -> Option<TableAt<'_>>
    ensures { FindsTable store.now.store (table_of store.now.store me) result }
{
    let Holder::Obj(number) = me else {
        return None;
    };
    let object = store.at(number);
    // Nothing but a table has one.
    let default = object.get(&Cell::Default)?;
    Some(TableAt {
        number,
        object,
        default,
    })
}

/// What a method comes to on a table.
pub(crate) fn table_deed(
    alloc: Global,
    method: TableMethod,
    table: TableAt<'_>,
    args: &[Holder],
    store: &Store,
    pools: &Pools,
) -> Result<Came, NoMemory>
    requires { IsTableAt store.now.store table }
    ensures { Comes (table_deed pools.now.constants store.now.store method args.now
        table.entry.number (table_by table.entry)) store.now.store result }
{
    match method {
        TableMethod::IsKeyPresent => is_key_present(alloc, &table, first(args), store, pools),
        TableMethod::RemoveElement => remove_entry(alloc, &table, first(args), store, pools),
        TableMethod::GetEntryCount => entry_count(alloc, &table, store),
        TableMethod::KeysToList => key_list(alloc, &table, store),
        TableMethod::ValsToList => value_list(alloc, &table, store),
        TableMethod::GetDefaultValue => Ok(answer(alloc, table.default)),
        TableMethod::SetDefaultValue => set_default(alloc, &table, first(args), store),
    }
}

fn is_key_present(
    alloc: Global,
    table: &TableAt<'_>,
    key_value: Holder,
    store: &Store,
    pools: &Pools,
) -> Result<Came, NoMemory>
    requires { IsTableAt store.now.store table.now }
    ensures { Comes (is_key_present_of pools.now.constants store.now.store
        (table_pairs table.now.object) key_value) store.now.store result }
{
    match key(alloc, key_value, store, pools)? {
        Ok(key) => {
            let former = table.object.get(&Cell::Key(key));
            Ok(answer_truth(alloc, former.is_some()))
        }
        Err(fault) => Ok(Err(fault)),
    }
}

/// The entry of a key is taken away, if there is one.
fn remove_entry(
    alloc: Global,
    table: &TableAt<'_>,
    key_value: Holder,
    store: &Store,
    pools: &Pools,
) -> Result<Came, NoMemory>
    requires { IsTableAt store.now.store table.now }
    ensures { Comes (remove_entry_of pools.now.constants store.now.store table.now.number
        (table_pairs table.now.object) key_value) store.now.store result }
{
    match key(alloc, key_value, store, pools)? {
        Ok(key) => removed_entry(alloc, table, key, store),
        Err(fault) => Ok(Err(fault)),
    }
}

/// What taking away the entry of a key comes to: its former value, or nil.
fn removed_entry(
    alloc: Global,
    table: &TableAt<'_>,
    key: Key,
    store: &Store,
) -> Result<Came, NoMemory>
    requires { IsTableAt store.now.store table.now }
    ensures { Comes (removed_entry table.now.number key
        (value_under key (table_pairs table.now.object))) store.now.store result }
{
    let _ = store;
    let cell = Cell::Key(key);
    let Some(former) = table.object.get(&cell) else {
        return Ok(answer(alloc, Holder::Nil));
    };
    let mut changes = Vec::new(alloc);
    changes.push(Change::Write(table.number, cell, None))?;
    Ok(Ok(Deed {
        changes,
        answer: former,
    }))
}

fn entry_count(alloc: Global, table: &TableAt<'_>, store: &Store) -> Result<Came, NoMemory>
    requires { IsTableAt store.now.store table.now }
    ensures { Comes (entry_count_of (table_pairs table.now.object)) store.now.store result }
{
    let _ = store;
    let entries = table.object.entries(alloc)?;
    Ok(answer_count(alloc, entries.0.len()))
}

/// A new list of the values.
fn value_list(alloc: Global, table: &TableAt<'_>, store: &Store) -> Result<Came, NoMemory>
    requires { IsTableAt store.now.store table.now }
    ensures { Comes (value_list_of store.now.store (table_pairs table.now.object)) store.now.store
        result }
{
    let entries = table.object.entries(alloc)?;
    let items = values(alloc, entries.0.as_slice())?;
    answer_new(alloc, fitting_list(items), store)
}

fn values(alloc: Global, pairs: &[Pair]) -> Result<Vec<Holder>, NoMemory>
    ensures { IfOk result (λ items. items.items ≡ map (λ (pair : Pair). pair.value) pairs.now) }
{
    let mut items = Vec::new(alloc);
    for pair in pairs {
        items.push(pair.value)?;
    }
    Ok(items)
}

/// A new list of the keys, after new strings of those that are texts.
fn key_list(alloc: Global, table: &TableAt<'_>, store: &Store) -> Result<Came, NoMemory>
    requires { IsTableAt store.now.store table.now }
    ensures { Comes (key_list_of store.now.store (table_pairs table.now.object)) store.now.store
        result }
{
    let entries = table.object.entries(alloc)?;
    key_list_of(alloc, entries.0.as_slice(), store)
}

fn key_list_of(alloc: Global, pairs: &[Pair], store: &Store) -> Result<Came, NoMemory>
    ensures { Comes (key_list_of store.now.store pairs.now) store.now.store result }
{
    if pairs.len() > GREATEST_LENGTH {
        return Ok(Err(Fault::ListLong));
    }
    if !have_fitting_texts(pairs) {
        return Ok(Err(Fault::TextLong));
    }
    listed_keys(alloc, pairs, store)
}

/// The strings, and then the list.
fn listed_keys(alloc: Global, pairs: &[Pair], store: &Store) -> Result<Came, NoMemory>
    requires few { length pairs.now ≤ 65535 }
    requires fit { have_fitting_texts pairs.now ≡ true }
    ensures { Comes (Ok (listed_keys store.now.store pairs.now)) store.now.store result }
{
    let (items, after) = key_values(alloc, pairs, store.next())?;
    let mut changes = key_strings(alloc, pairs)?;
    changes.push(Change::Make(NewObject::List(Holders(items))))?;
    Ok(Ok(Deed {
        changes,
        answer: Holder::Obj(after),
    }))
}

/// Whether each text is one that a string can have.
fn have_fitting_texts(pairs: &[Pair]) -> bool
    ensures { result ≡ have_fitting_texts pairs.now }
{
    for pair in pairs {
        if !has_fitting_text(&pair.key) {
            return false;
        }
    }
    true
}

fn has_fitting_text(key: &Key) -> bool
    ensures { result ≡ has_fitting_text (key_text key.now) }
{
    match key {
        Key::Text(bytes) => bytes.0.len() <= GREATEST_LENGTH,
        _ => true,
    }
}

/// The keys as values, and the number after those of the strings, of which the first has that number.
fn key_values(alloc: Global, pairs: &[Pair], first: u32) -> Result<(Vec<Holder>, u32), NoMemory>
    requires first { first ≤ 2 ^ 31 }
    requires few { length pairs.now ≤ 65535 }
    ensures { IfOk result (λ found. (found.0.items ≡ key_values first pairs.now)
        × (found.1 ≡ number_after first pairs.now)) }
{
    let mut items = Vec::new(alloc);
    let mut next = first;
    for pair in pairs {
        items.push(key_value(next, &pair.key))?;
        next = next_after(&pair.key, next);
    }
    Ok((items, next))
}

/// A key as a value; a text is the value of that number.
fn key_value(next: u32, key: &Key) -> Holder
    ensures { result ≡ key_value next key.now }
{
    match key {
        Key::Nil => Holder::Nil,
        Key::True => Holder::True,
        Key::Int(number) => Holder::Int(*number),
        Key::Enum(number) => Holder::Enum(*number),
        Key::Prop(number) => Holder::Prop(*number),
        Key::Func(address) => Holder::Func(*address),
        Key::Obj(number) => Holder::Obj(*number),
        Key::Text(_) => Holder::Obj(next),
    }
}

/// The next number, after a string of the key if it is a text.
fn next_after(key: &Key, next: u32) -> u32
    requires { next + 1 < 2 ^ 32 }
    ensures after { result ≡ next_after (key_text key.now) next }
    ensures within { result ≤ next + 1 }
{
    match key {
        Key::Text(_) => next + 1,
        _ => next,
    }
}

/// The creations of the strings.
fn key_strings(alloc: Global, pairs: &[Pair]) -> Result<Vec<Change>, NoMemory>
    ensures { IfOk result (λ changes. changes_of changes.items ≡ key_strings pairs.now) }
{
    let mut changes = Vec::new(alloc);
    for pair in pairs {
        push_string(alloc, &pair.key, &mut changes)?;
    }
    Ok(changes)
}

/// Appends the creation of a string of the key, if it is a text.
fn push_string(alloc: Global, key: &Key, changes: &mut Vec<Change>) -> Result<(), NoMemory>
    ensures { OnOk result (changes_of changes.new.items
        ≡ changes_of changes.old.items ++ with_string (key_text key.now) []) }
{
    if let Key::Text(bytes) = key {
        let copy = Vec::from_slice(alloc, bytes.0.as_slice())?;
        changes.push(Change::Make(NewObject::Text(Bytes(copy))))?;
    }
    Ok(())
}

fn set_default(
    alloc: Global,
    table: &TableAt<'_>,
    value: Holder,
    store: &Store,
) -> Result<Came, NoMemory>
    requires { IsTableAt store.now.store table.now }
    ensures { Comes (set_default_of table.now.number value) store.now.store result }
{
    let _ = store;
    let mut changes = Vec::new(alloc);
    changes.push(Change::Write(table.number, Cell::Default, Some(value)))?;
    Ok(Ok(Deed {
        changes,
        answer: Holder::Nil,
    }))
}
