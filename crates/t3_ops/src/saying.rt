//! The text in which values are said together.
ghost use Rattle.std.specs.Prelude.{◌≡◌, [], IfOk, option_map};
ghost use Rattle.std.specs.List.{list_all};
ghost use Rattle.t3_ops.specs.Adding.{word_of};
ghost use Rattle.t3_ops.specs.Saying.{has_text_form, joined_text_forms, read_text_form, said_text_of};
ghost use Rattle.t3_ops.specs.References.{Appends, text_of};

use crate::copying::append_text;
use crate::fault::Fault;
use crate::ordering::kind_fault;
use crate::values::{TextOrListRef, TextRef, text_or_list};
use itoa::Buffer;
use std::alloc::{AllocError, Global};
use t3_holder::{Bytes, Holder, NoMemory};
use t3_pools::Pools;
use t3_store::Store;

/// The text forms of values, joined: of a text its bytes, of nil nothing, of true `true`, and of an integer
/// its decimal text.
///
/// `Stale` where a value is a reference to an object that isn't there and one of them has no text form, else
/// `Kind` where one has none, then `BadConstant` where one is a constant that can't be read.
pub fn said_text(
    alloc: Global,
    values: &[Holder],
    store: &Store,
    pools: &Pools,
) -> Result<Result<Bytes, Fault>, NoMemory>
    ensures { IfOk result
        (λ text. text ≡ said_text_of pools.now.constants store.now.store values.now) }
{
    if !have_text_forms(values, store, pools) {
        return Ok(Err(kind_fault(store, values)));
    }
    match joined(alloc, values, store, pools)? {
        Some(bytes) => Ok(Ok(Bytes(bytes))),
        None => Ok(Err(Fault::BadConstant)),
    }
}

fn have_text_forms(values: &[Holder], store: &Store, pools: &Pools) -> bool
    ensures { result ≡ list_all (has_text_form pools.now.constants store.now.store) values.now }
{
    for value in values {
        if !has_text_form(*value, store, pools) {
            return false;
        }
    }
    true
}

fn has_text_form(value: Holder, store: &Store, pools: &Pools) -> bool
    ensures { result ≡ has_text_form pools.now.constants store.now.store value }
{
    match text_or_list(store, pools, value) {
        TextOrListRef::Text(_) => true,
        TextOrListRef::List(_) => false,
        TextOrListRef::Neither => matches!(value, Holder::Nil | Holder::True | Holder::Int(_)),
    }
}

/// The text forms of values, joined. `None` exactly where one can't be read, or hasn't one.
fn joined(
    alloc: Global,
    values: &[Holder],
    store: &Store,
    pools: &Pools,
) -> Result<Option<Vec<u8>>, AllocError>
    ensures { IfOk result (λ bytes. option_map (λ v. v.items) bytes
        ≡ joined_text_forms pools.now.constants store.now.store values.now) }
{
    let mut bytes = Vec::new(alloc);
    for value in values {
        if !append_text_form(*value, store, pools, &mut bytes)? {
            return Ok(None);
        }
    }
    Ok(Some(bytes))
}

/// Appends the text form of a value. Answers whether it could be read.
fn append_text_form(
    value: Holder,
    store: &Store,
    pools: &Pools,
    bytes: &mut Vec<u8>,
) -> Result<bool, AllocError>
    ensures { IfOk result (λ read. Appends bytes.old.items
        (read_text_form pools.now.constants store.now.store value) read bytes.new.items) }
{
    match text_or_list(store, pools, value) {
        TextOrListRef::Text(text) => append_read(text, pools, bytes),
        TextOrListRef::List(_) => Ok(false),
        TextOrListRef::Neither => append_word(value, bytes),
    }
}

/// Appends the bytes of a text. Answers whether it could be read.
fn append_read(text: TextRef<'_>, pools: &Pools, bytes: &mut Vec<u8>) -> Result<bool, AllocError>
    ensures { IfOk result (λ read. Appends bytes.old.items (text_of pools.now.constants text.entry) read
        bytes.new.items) }
{
    match text.read(pools) {
        Some(place) => {
            append_text(place, pools, bytes)?;
            Ok(true)
        }
        None => Ok(false),
    }
}

/// Appends the text form of a value that is no text. Answers whether it has one.
fn append_word(value: Holder, bytes: &mut Vec<u8>) -> Result<bool, AllocError>
    ensures { IfOk result (λ has. Appends bytes.old.items (word_of [] value) has bytes.new.items) }
{
    match value {
        Holder::Nil => {}
        Holder::True => bytes.extend_from_slice(b"true")?,
        Holder::Int(number) => {
            let mut buffer = Buffer::new();
            bytes.extend_from_slice(buffer.format(number).as_bytes())?;
        }
        _ => return Ok(false),
    }
    Ok(true)
}
