//! The names of function sets.
ghost use Rattle.std.specs.Prelude.{codes};
ghost use Rattle.t3_blocks.specs.Parsing.{Gives};

use crate::block::Block;
use crate::items::Names;
use crate::layout::{Layout, take_counted};
use crate::parts::append_name;
use crate::refusal::PayloadRefusal;
use crate::split::split_name;
use std::alloc::Global;
use t3_holder::{Bytes, NoMemory};

/// Each item is a length-prefixed name.
#[derive(Clone, Copy)]
pub(crate) struct NameLayout;

impl Layout for NameLayout {
    ghost use Rattle.t3_blocks.specs.Spelling.{name_text, IsName};

    type Item = Bytes;

    ghost text = { λ _. name_text };

    ghost fits = { λ _. IsName };

    fn take<'a>(
        &self,
        alloc: Global,
        bytes: &'a [u8],
    ) -> Result<Option<(Bytes, &'a [u8])>, NoMemory> {
        match split_name(bytes) {
            Some((name, trailing)) => {
                let name = Bytes(Vec::from_slice(alloc, name)?);
                Ok(Some((name, trailing)))
            }
            None => Ok(None),
        }
    }

    fn append(&self, name: &Bytes, out: &mut Vec<u8>) -> Result<(), NoMemory> {
        append_name(&name.0, out)
    }

    fn size(&self, name: &Bytes) -> usize {
        1 + name.0.len()
    }
}

/// A payload of `FNSD`: a count, and so many names.
pub(crate) fn functions(alloc: Global, payload: &[u8]) -> Result<Block, PayloadRefusal>
    ensures { Gives (codes "FNSD") payload.now result }
{
    let names = Names(take_counted(alloc, &NameLayout, payload)?);
    Ok(Block::Functions { names })
}
