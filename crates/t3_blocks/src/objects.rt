//! The objects of a block, with their sizes in two or four bytes.
ghost use Rattle.std.specs.Prelude.{◌≡◌, ◌==◌, ◌^◌, ◌<◌, ◌++◌, codes, length, MatchOption};
ghost use Rattle.std.specs.Int.{bit_at};
ghost use Rattle.t3_holder.specs.NumberText.{little_endian};
ghost use Rattle.t3_blocks.specs.Spelling.{static_text, IsStatic, size_width};
ghost use Rattle.t3_blocks.specs.Malformed.{BeginsWithItem};
ghost use Rattle.t3_blocks.specs.Parsing.{Gives};
ghost use Rattle.t3_blocks.specs.Inner.Appending.{Appends};

use crate::block::Block;
use crate::items::{Static, Statics};
use crate::layout::{Layout, take_list};
use crate::parts::{append_bytes, append_u16, append_u32};
use crate::refusal::PayloadRefusal;
use crate::split::{split_u16, split_u32};
use std::alloc::Global;
use t3_holder::{Bytes, NoMemory, u16_at};

/// How many bytes come before the first object.
pub(crate) const OBJECTS_HEAD: usize = 6;

/// The flag of a block of objects whose sizes have four bytes.
const LARGE_SIZES: u16 = 0x0001;

/// Each item is an object's number, its size and its bytes.
#[derive(Clone, Copy)]
pub(crate) struct StaticLayout {
    /// The flags of the block, which say how many bytes a size has.
    pub(crate) flags: u16,
}

impl Layout for StaticLayout {
    ghost use Rattle.t3_blocks.specs.Spelling.{static_text, IsStatic, size_width};

    type Item = Static;

    ghost text = { λ layout. static_text (size_width layout.flags) };

    ghost fits = { λ layout. IsStatic (size_width layout.flags) };

    fn take<'a>(
        &self,
        alloc: Global,
        bytes: &'a [u8],
    ) -> Result<Option<(Static, &'a [u8])>, NoMemory> {
        match split_static(bytes, self.flags) {
            Some((number, bytes, trailing)) => {
                let bytes = Bytes(Vec::from_slice(alloc, bytes)?);
                Ok(Some((Static { number, bytes }, trailing)))
            }
            None => Ok(None),
        }
    }

    fn append(&self, object: &Static, out: &mut Vec<u8>) -> Result<(), NoMemory> {
        append_u32(object.number, out)?;
        append_size(object.bytes.0.len(), self.flags, out)?;
        append_bytes(&object.bytes.0, out)
    }

    #[tactic(auto, using(crate::proofs::Sizes::length_static_text))]
    fn size(&self, object: &Static) -> usize {
        4 + width_of(self.flags) + object.bytes.0.len()
    }
}

/// A payload of `OBJS`: a count, a metaclass's index, flags, and so many objects.
pub(crate) fn objects(alloc: Global, payload: &[u8]) -> Result<Block, PayloadRefusal>
    ensures { Gives (codes "OBJS") payload.now result }
{
    if payload.len() < OBJECTS_HEAD {
        return Err(PayloadRefusal::Malformed { items: 0 });
    }
    let due = u16_at(payload, 0);
    let metaclass = u16_at(payload, 2);
    let flags = u16_at(payload, 4);
    let objects = take_list(
        alloc,
        &StaticLayout { flags },
        due,
        &payload[OBJECTS_HEAD..],
    )?;
    Ok(Block::Objects {
        metaclass,
        flags,
        objects: Statics(objects),
    })
}

/// An object's number and bytes, and what follows them.
fn split_static(bytes: &[u8], flags: u16) -> Option<(u32, &[u8], &[u8])>
    ensures { MatchOption result
        (¬ BeginsWithItem (static_text (size_width flags)) (IsStatic (size_width flags)) bytes.now)
        (λ parts. IsStatic (size_width flags) (record { number = parts.0; bytes = parts.1.now })
        × (bytes.now
        ≡ static_text (size_width flags) (record { number = parts.0; bytes = parts.1.now })
        ++ parts.2.now)) }
{
    let (number, rest) = split_u32(bytes)?;
    let (size, rest) = split_size(rest, flags)?;
    let (bytes, trailing) = rest.split_at_checked(size)?;
    Some((number, bytes, trailing))
}

/// An object's size, in as many bytes as the flags say, and what follows it.
fn split_size(bytes: &[u8], flags: u16) -> Option<(usize, &[u8])>
    ensures { MatchOption result (length bytes.now < size_width flags)
        (λ parts. (parts.0 < 256 ^ size_width flags)
        × (bytes.now ≡ little_endian (size_width flags) parts.0 ++ parts.1.now)) }
{
    if has_large_sizes(flags) {
        let (size, rest) = split_u32(bytes)?;
        return Some((size as usize, rest));
    }
    let (size, rest) = split_u16(bytes)?;
    Some((usize::from(size), rest))
}

/// Appends an object's size, in as many bytes as the flags say.
fn append_size(size: usize, flags: u16, out: &mut Vec<u8>) -> Result<(), NoMemory>
    requires { size < 256 ^ size_width flags }
    ensures { Appends out.old.items out.new.items (little_endian (size_width flags) size) result }
{
    let large = has_large_sizes(flags);
    if large {
        append_u32(size as u32, out)
    } else {
        append_u16(size as u16, out)
    }
}

/// Whether the sizes of objects have four bytes and not two.
fn has_large_sizes(flags: u16) -> bool
    ensures { result ≡ (bit_at flags 0 == 1) }
{
    flags & LARGE_SIZES != 0
}

/// How many bytes the size of an object has.
fn width_of(flags: u16) -> usize
    ensures { result ≡ size_width flags }
{
    if has_large_sizes(flags) { 4 } else { 2 }
}
