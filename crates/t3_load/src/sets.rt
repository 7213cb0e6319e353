//! The function sets of an image.
ghost use Rattle.std.specs.Prelude.{◌≡◌};
ghost use Rattle.t3_load.specs.Names.{IsTable, names_in};
ghost use Rattle.t3_load.specs.Sets.{set_name, set_named};

use crate::listing::{Listing, entries};
use crate::names::base;
use crate::refusal::NameRefusal;
use std::alloc::Global;
use std::marker::Model;
use t3_blocks::Block;
use t3_holder::{Bytes, NoMemory};
use t3_image_read::Image;

/// The sets of built-in functions that there are.
#[derive(Clone, Copy, Debug, PartialEq, Eq)]
pub enum SetKind {
    /// What a story of any kind uses.
    Gen,
    /// Input and output.
    Io,
    /// The machine itself.
    Vm,
}

/// Each of them once.
const SETS: [SetKind; 3] = [SetKind::Gen, SetKind::Io, SetKind::Vm];

impl SetKind {
    /// The name by which an image lists it, without a version.
    pub fn name(self) -> &'static [u8]
        ensures { result.now ≡ set_name self }
    {
        match self {
            SetKind::Gen => b"tads-gen",
            SetKind::Io => b"tads-io",
            SetKind::Vm => b"t3vm",
        }
    }
}

/// The function sets of an image, by their indices. Contracts see the list.
#[derive(Debug, Drop)]
pub struct Sets(pub Vec<SetKind>);

impl Model for Sets {
    ghost use Rattle.std.specs.Prelude.{List};
    ghost use Rattle.t3_load.specs.declared.sets.SetKind.{SetKind};

    ghost Value = { List SetKind };

    ghost view = { λ s. s.0.items };
}

impl Sets {
    /// The function sets of all `FNSD` blocks, in order. `Unknown` exactly where a name, without its version, is that of
    /// none, with the index of the first such name.
    pub(crate) fn of(alloc: Global, image: &Image) -> Result<Sets, NameRefusal>
        ensures { IsTable (λ sets. sets) set_named (names_in image.now.blocks) result }
    {
        Ok(Sets(entries(alloc, &SetListing, &image.blocks.0)?))
    }
}

/// The function set of a name with or without a version.
fn set_named(name: &[u8]) -> Option<SetKind>
    ensures { result ≡ set_named name.now }
{
    let base = base(name);
    SETS.iter().copied().find(|set| set.name() == base)
}

/// The function sets in blocks.
#[derive(Clone, Copy)]
struct SetListing;

impl Listing for SetListing {
    ghost use Rattle.t3_load.specs.Names.{names_of};
    ghost use Rattle.t3_load.specs.Sets.{set_named};

    type Item = Bytes;

    type Entry = SetKind;

    ghost items = { λ _. names_of };

    ghost meaning = { λ _. set_named };

    fn items<'a>(&self, block: &'a Block) -> &'a [Bytes] {
        match block {
            Block::Functions { names } => &names.0,
            _ => &[],
        }
    }

    fn entry(&self, _alloc: Global, name: &Bytes) -> Result<Option<SetKind>, NoMemory> {
        Ok(set_named(&name.0))
    }
}
