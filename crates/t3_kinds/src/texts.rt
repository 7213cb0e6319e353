//! The methods of texts.
ghost use Rattle.std.specs.Prelude.{◌≡◌, ◌≤◌, List, ℕ, Bool, IfOk, option_map, length, take, drop, nat_eq};
ghost use Rattle.t3_ops.specs.References.{text_of};
ghost use Rattle.t3_kinds.specs.Methods.{text_deed};
ghost use Rattle.t3_kinds.specs.TextMethods.{text_length_of, substr_of, part_of_text, compared_texts, tested_texts, begins, character_count, character_start, characters_in};
ghost use Rattle.t3_kinds.specs.Inner.Deeds.{Comes};
ghost use Rattle.t3_kinds.specs.Inner.Selves.{bytes_of, test_at};

use crate::deed::{Came, answer_count, answer_new, answer_truth, first, second};
use crate::methods::TextMethod;
use crate::part::{Part, part_from};
use std::alloc::Global;
use t3_holder::{Holder, NoMemory};
use t3_ops::{Fault, TextOrListRef, TextRef, fitting_text, kind_fault, text_bytes, text_or_list};
use t3_pools::Pools;
use t3_store::Store;

/// What a method comes to on a text.
pub(crate) fn text_deed(
    alloc: Global,
    method: TextMethod,
    text: TextRef<'_>,
    args: &[Holder],
    store: &Store,
    pools: &Pools,
) -> Result<Came, NoMemory>
    ensures { Comes (text_deed pools.now.constants store.now.store method args.now
        (text_of pools.now.constants text.entry)) store.now.store result }
{
    match method {
        TextMethod::Length => text_length(alloc, text, store, pools),
        TextMethod::Substr => substr(alloc, text, first(args), second(args), store, pools),
        TextMethod::StartsWith => has_at(alloc, End::First, text, first(args), store, pools),
        TextMethod::EndsWith => has_at(alloc, End::Last, text, first(args), store, pools),
    }
}

/// The bytes of a text: those of an object, or a copy of a constant's.
#[derive(Drop)]
pub(crate) enum ReadText<'o> {
    Live(&'o [u8]),
    Copied(Vec<u8>),
}

impl<'o> ReadText<'o> {
    fn bytes(&self) -> &[u8]
        ensures { result.now ≡ bytes_of self.now }
    {
        match self {
            ReadText::Live(bytes) => bytes,
            ReadText::Copied(bytes) => bytes.as_slice(),
        }
    }
}

/// The bytes of a text. `None` exactly where it is a constant that can't be read.
fn read<'o>(
    alloc: Global,
    text: TextRef<'o>,
    pools: &'o Pools,
) -> Result<Option<ReadText<'o>>, NoMemory>
    ensures { IfOk result (λ read. option_map bytes_of read
        ≡ text_of pools.now.constants text.entry) }
{
    if let TextRef::Live(bytes) = text {
        return Ok(Some(ReadText::Live(bytes)));
    }
    match text_bytes(alloc, text, pools)? {
        Some(bytes) => Ok(Some(ReadText::Copied(bytes))),
        None => Ok(None),
    }
}

fn text_length(
    alloc: Global,
    text: TextRef<'_>,
    store: &Store,
    pools: &Pools,
) -> Result<Came, NoMemory>
    ensures { Comes (text_length_of (text_of pools.now.constants text.entry)) store.now.store result }
{
    let _ = store;
    match read(alloc, text, pools)? {
        Some(text) => Ok(answer_count(alloc, character_count(text.bytes()))),
        None => Ok(Err(Fault::BadConstant)),
    }
}

/// Whether a character begins with a byte.
fn begins(byte: u8) -> bool
    ensures { result ≡ begins byte }
{
    !(128..192).contains(&byte)
}

/// How many characters a text has.
fn character_count(bytes: &[u8]) -> usize
    ensures { result ≡ character_count bytes.now }
{
    let mut count = 0;
    for byte in bytes {
        if begins(*byte) {
            count += 1;
        }
    }
    count
}

fn substr(
    alloc: Global,
    text: TextRef<'_>,
    from: Holder,
    count: Option<Holder>,
    store: &Store,
    pools: &Pools,
) -> Result<Came, NoMemory>
    ensures { Comes (substr_of store.now.store (text_of pools.now.constants text.entry) from count)
        store.now.store result }
{
    match part_from(from, count) {
        Ok(part) => part_of_text(alloc, text, part, store, pools),
        Err(fault) => Ok(Err(fault)),
    }
}

/// A new string of a part of a text.
fn part_of_text(
    alloc: Global,
    text: TextRef<'_>,
    part: Part,
    store: &Store,
    pools: &Pools,
) -> Result<Came, NoMemory>
    ensures { Comes (part_of_text store.now.store (text_of pools.now.constants text.entry) part)
        store.now.store result }
{
    match read(alloc, text, pools)? {
        Some(text) => {
            let bytes = Vec::from_slice(alloc, characters_in(part, text.bytes()))?;
            answer_new(alloc, fitting_text(bytes), store)
        }
        None => Ok(Err(Fault::BadConstant)),
    }
}

/// The characters of a part.
fn characters_in(part: Part, bytes: &[u8]) -> &[u8]
    ensures { result.now ≡ characters_in part bytes.now }
{
    let rest = &bytes[character_start(bytes, part.skipped)..];
    match part.count {
        Some(count) => &rest[..character_start(rest, count)],
        None => rest,
    }
}

/// The index of the byte with which the character of a number begins, from 0 on, or the length where
/// there are no more.
fn character_start(bytes: &[u8], number: usize) -> usize
    ensures start { result ≡ character_start number bytes.now }
    ensures within { result ≤ length bytes.now }
{
    let mut left = number;
    for index in 0..bytes.len() {
        if begins(bytes[index]) {
            if left == 0 {
                return index;
            }
            left -= 1;
        }
    }
    bytes.len()
}

/// The end of a text that is compared.
#[derive(Clone, Copy)]
pub(crate) enum End {
    First,
    Last,
}

/// Whether a text has another one at an end.
fn has_at(
    alloc: Global,
    end: End,
    text: TextRef<'_>,
    other: Holder,
    store: &Store,
    pools: &Pools,
) -> Result<Came, NoMemory>
    ensures { Comes (compared_texts (test_at end) pools.now.constants store.now.store
        (text_of pools.now.constants text.entry) other) store.now.store result }
{
    match text_or_list(store, pools, other) {
        TextOrListRef::Text(other) => text_has_at(alloc, end, text, other, store, pools),
        TextOrListRef::List(_) | TextOrListRef::Neither => Ok(Err(kind_fault(store, &[other]))),
    }
}

fn text_has_at(
    alloc: Global,
    end: End,
    text: TextRef<'_>,
    other: TextRef<'_>,
    store: &Store,
    pools: &Pools,
) -> Result<Came, NoMemory>
    ensures { Comes (tested_texts (test_at end) (text_of pools.now.constants text.entry)
        (text_of pools.now.constants other.entry)) store.now.store result }
{
    let _ = store;
    let text = read(alloc, text, pools)?;
    let other = read(alloc, other, pools)?;
    match (text, other) {
        (Some(text), Some(other)) => {
            let holds = have_at(end, text.bytes(), other.bytes());
            Ok(answer_truth(alloc, holds))
        }
        _ => Ok(Err(Fault::BadConstant)),
    }
}

/// Whether bytes have others at an end.
fn have_at(end: End, bytes: &[u8], other: &[u8]) -> bool
    ensures { result ≡ test_at end bytes.now other.now }
{
    match end {
        End::First => bytes.starts_with(other),
        End::Last => bytes.ends_with(other),
    }
}
