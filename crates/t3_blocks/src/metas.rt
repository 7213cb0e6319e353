//! The metaclasses and their properties.
ghost use Rattle.std.specs.Prelude.{◌≡◌, ◌+◌, ◌++◌, codes, length, MatchOption, IfOk};
ghost use Rattle.t3_blocks.specs.Inner.Metas.{IsMetaOrNone, meta_head_text, IsMetaHead};
ghost use Rattle.t3_blocks.specs.Spelling.{meta_body, IsMeta, prop_text, IsProp};
ghost use Rattle.t3_blocks.specs.Malformed.{BeginsWithItem};
ghost use Rattle.t3_blocks.specs.Parsing.{Gives};

use crate::block::Block;
use crate::items::{Meta, Metas, PropEntries, PropEntry};
use crate::layout::{Layout, append_items, items_size, take_counted, take_items};
use crate::parts::{append_bytes, append_name, append_u16};
use crate::refusal::PayloadRefusal;
use crate::split::{split_frame, split_name, split_u16};
use std::alloc::Global;
use t3_holder::{Bytes, NoMemory};

/// How many bytes an entry has besides its name, its properties and what follows them: its size, the
/// name's length, and how many properties there are and how large.
const ENTRY_FIELDS: usize = 7;

/// Each item is a metaclass's entry.
#[derive(Clone, Copy)]
pub(crate) struct MetaLayout;

/// Each item is a property of so many bytes.
#[derive(Clone, Copy)]
pub(crate) struct PropLayout {
    pub(crate) size: u16,
}

impl Layout for MetaLayout {
    ghost use Rattle.t3_blocks.specs.Spelling.{meta_text, IsMeta};

    type Item = Meta;

    ghost text = { λ _. meta_text };

    ghost fits = { λ _. IsMeta };

    fn take<'a>(
        &self,
        alloc: Global,
        bytes: &'a [u8],
    ) -> Result<Option<(Meta, &'a [u8])>, NoMemory> {
        match split_frame(bytes) {
            Some((body, trailing)) => match take_meta(alloc, body)? {
                Some(meta) => Ok(Some((meta, trailing))),
                None => Ok(None),
            },
            None => Ok(None),
        }
    }

    fn append(&self, meta: &Meta, out: &mut Vec<u8>) -> Result<(), NoMemory> {
        append_u16(size_of(meta), out)?;
        append_name(&meta.name.0, out)?;
        append_u16(meta.props.0.len() as u16, out)?;
        append_u16(meta.property_size, out)?;
        let layout = PropLayout {
            size: meta.property_size,
        };
        append_items(&layout, &meta.props.0, out)?;
        append_bytes(&meta.tail.0, out)
    }

    #[tactic(auto, using(crate::proofs::Sizes::length_meta_text))]
    fn size(&self, meta: &Meta) -> usize {
        usize::from(size_of(meta))
    }
}

impl Layout for PropLayout {
    ghost use Rattle.t3_blocks.specs.Spelling.{prop_text, IsProp};

    type Item = PropEntry;

    ghost text = { λ _. prop_text };

    ghost fits = { λ layout. IsProp layout.size };

    fn take<'a>(
        &self,
        alloc: Global,
        bytes: &'a [u8],
    ) -> Result<Option<(PropEntry, &'a [u8])>, NoMemory> {
        match split_prop(bytes, self.size) {
            Some((number, extra, trailing)) => {
                let extra = Bytes(Vec::from_slice(alloc, extra)?);
                Ok(Some((PropEntry { number, extra }, trailing)))
            }
            None => Ok(None),
        }
    }

    fn append(&self, entry: &PropEntry, out: &mut Vec<u8>) -> Result<(), NoMemory> {
        append_u16(entry.number, out)?;
        append_bytes(&entry.extra.0, out)
    }

    #[tactic(auto, using(crate::proofs::Sizes::length_prop_text))]
    fn size(&self, entry: &PropEntry) -> usize {
        2 + entry.extra.0.len()
    }
}

/// A payload of `MCLD`: a count, and so many metaclasses.
pub(crate) fn metas(alloc: Global, payload: &[u8]) -> Result<Block, PayloadRefusal>
    ensures { Gives (codes "MCLD") payload.now result }
{
    let metas = Metas(take_counted(alloc, &MetaLayout, payload)?);
    Ok(Block::Metas { metas })
}

/// The metaclass that the body of an entry is; `None` where it is none.
fn take_meta(alloc: Global, body: &[u8]) -> Result<Option<Meta>, NoMemory>
    ensures { IfOk result (IsMetaOrNone body.now) }
{
    match split_meta(body) {
        Some((name, count, property_size, rest)) => {
            let layout = PropLayout {
                size: property_size,
            };
            match take_items(alloc, &layout, count, rest) {
                Ok((props, tail)) => Ok(Some(Meta {
                    name: Bytes(Vec::from_slice(alloc, name)?),
                    property_size,
                    props: PropEntries(props),
                    tail: Bytes(Vec::from_slice(alloc, tail)?),
                })),
                Err(PayloadRefusal::Malformed { .. }) => Ok(None),
                Err(PayloadRefusal::NoMemory) => Err(NoMemory),
            }
        }
        None => Ok(None),
    }
}

/// What comes before the properties: the name, their count and their size.
fn split_meta(body: &[u8]) -> Option<(&[u8], u16, u16, &[u8])>
    ensures { MatchOption result (¬ BeginsWithItem meta_head_text IsMetaHead body.now)
        (λ parts. IsMetaHead (record { name = parts.0.now; count = parts.1; size = parts.2 })
        × (body.now
        ≡ meta_head_text (record { name = parts.0.now; count = parts.1; size = parts.2 })
        ++ parts.3.now)) }
{
    let (name, rest) = split_name(body)?;
    let (count, rest) = split_u16(rest)?;
    let (property_size, rest) = split_u16(rest)?;
    Some((name, count, property_size, rest))
}

/// A property's number and the rest of its bytes, and what follows it.
fn split_prop(bytes: &[u8], size: u16) -> Option<(u16, &[u8], &[u8])>
    ensures { MatchOption result (¬ BeginsWithItem prop_text (IsProp size) bytes.now)
        (λ parts. IsProp size (record { number = parts.0; extra = parts.1.now })
        × (bytes.now ≡ prop_text (record { number = parts.0; extra = parts.1.now })
        ++ parts.2.now)) }
{
    let (number, rest) = split_u16(bytes)?;
    let (extra, trailing) = rest.split_at_checked(usize::from(size).checked_sub(2)?)?;
    Some((number, extra, trailing))
}

/// How many bytes the entry of a metaclass has.
fn entry_size(name: &[u8], property_size: u16, props: &[PropEntry], tail: &[u8]) -> u16
    requires { IsMeta (record {
      name = name.now;
      property_size = property_size;
      props = props.now;
      tail = tail.now;
    }) }
    ensures { result ≡ 2 + length
        (meta_body (record {
          name = name.now;
          property_size = property_size;
          props = props.now;
          tail = tail.now;
        })) }
{
    let layout = PropLayout {
        size: property_size,
    };
    (ENTRY_FIELDS + name.len() + items_size(&layout, props) + tail.len()) as u16
}

fn size_of(meta: &Meta) -> u16
    requires { IsMeta meta.now }
    ensures { result ≡ 2 + length (meta_body meta.now) }
{
    entry_size(
        &meta.name.0,
        meta.property_size,
        &meta.props.0,
        &meta.tail.0,
    )
}
