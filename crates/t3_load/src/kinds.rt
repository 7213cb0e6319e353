//! The metaclasses of an image.
ghost use Rattle.std.specs.Prelude.{◌≡◌, IfOk};
ghost use Rattle.t3_load.specs.Names.{IsTable, metas_in};
ghost use Rattle.t3_load.specs.Kinds.{kind_name, kind_named, kind_entry_of, numbers_of};

use crate::listing::{Listing, entries};
use crate::names::base;
use crate::refusal::NameRefusal;
use std::alloc::Global;
use std::marker::Model;
use t3_blocks::{Block, Meta, PropEntry};
use t3_holder::NoMemory;
use t3_image_read::Image;

/// The metaclasses that there are.
#[derive(Clone, Copy, Debug, PartialEq, Eq)]
pub enum MetaKind {
    /// What all objects have in common. No object is of it.
    Root,
    /// What lists and vectors have in common. No object is of it.
    Collection,
    /// Objects with superclasses and properties.
    Tads,
    /// Strings.
    Text,
    List,
    Vector,
    /// Lookup tables. None stands in an image.
    Table,
}

/// Each of them once.
const KINDS: [MetaKind; 7] = [
    MetaKind::Root,
    MetaKind::Collection,
    MetaKind::Tads,
    MetaKind::Text,
    MetaKind::List,
    MetaKind::Vector,
    MetaKind::Table,
];

impl MetaKind {
    /// The name by which an image lists it, without a version.
    pub fn name(self) -> &'static [u8]
        ensures { result.now ≡ kind_name self }
    {
        match self {
            MetaKind::Root => b"root-object",
            MetaKind::Collection => b"collection",
            MetaKind::Tads => b"tads-object",
            MetaKind::Text => b"string",
            MetaKind::List => b"list",
            MetaKind::Vector => b"vector",
            MetaKind::Table => b"lookuptable",
        }
    }
}

/// Property numbers, of which each is that of the method with its index. Contracts see the list.
#[derive(Debug, Drop)]
pub struct PropNumbers(pub Vec<u16>);

impl Model for PropNumbers {
    ghost use Rattle.std.specs.Prelude.{List, ℕ};

    ghost Value = { List ℕ };

    ghost view = { λ p. p.0.items };
}

/// A metaclass that an image lists.
#[derive(Debug, Drop)]
pub struct KindEntry {
    pub kind: MetaKind,
    /// The properties by which its methods are called.
    pub props: PropNumbers,
}

/// The metaclasses of an image, by their indices. Contracts see the list.
#[derive(Debug, Drop)]
pub struct Kinds(pub Vec<KindEntry>);

impl Model for Kinds {
    ghost use Rattle.std.specs.Prelude.{List};
    ghost use Rattle.t3_load.specs.declared.kinds.KindEntry.{KindEntry};

    ghost Value = { List KindEntry };

    ghost view = { λ k. k.0.items };
}

impl Kinds {
    /// The metaclasses of all `MCLD` blocks, in order. `Unknown` exactly where a name, without its version, is that of
    /// none, with the index of the first such name.
    pub(crate) fn of(alloc: Global, image: &Image) -> Result<Kinds, NameRefusal>
        ensures { IsTable (λ kinds. kinds) kind_entry_of (metas_in image.now.blocks) result }
    {
        Ok(Kinds(entries(alloc, &MetaListing, &image.blocks.0)?))
    }
}

/// The metaclass of a name with or without a version.
fn kind_named(name: &[u8]) -> Option<MetaKind>
    ensures { result ≡ kind_named name.now }
{
    let base = base(name);
    KINDS.iter().copied().find(|kind| kind.name() == base)
}

/// The metaclasses in blocks.
#[derive(Clone, Copy)]
struct MetaListing;

impl Listing for MetaListing {
    ghost use Rattle.t3_load.specs.Names.{metas_of};
    ghost use Rattle.t3_load.specs.Kinds.{kind_entry_of};

    type Item = Meta;

    type Entry = KindEntry;

    ghost items = { λ _. metas_of };

    ghost meaning = { λ _. kind_entry_of };

    fn items<'a>(&self, block: &'a Block) -> &'a [Meta] {
        match block {
            Block::Metas { metas } => &metas.0,
            _ => &[],
        }
    }

    fn entry(&self, alloc: Global, meta: &Meta) -> Result<Option<KindEntry>, NoMemory> {
        match kind_named(&meta.name.0) {
            Some(kind) => {
                let props = PropNumbers(numbers(alloc, &meta.props.0)?);
                Ok(Some(KindEntry { kind, props }))
            }
            None => Ok(None),
        }
    }
}

/// The numbers of properties.
fn numbers(alloc: Global, props: &[PropEntry]) -> Result<Vec<u16>, NoMemory>
    ensures { IfOk result (λ numbers. numbers.items ≡ numbers_of props.now) }
{
    let mut numbers = Vec::with_capacity(alloc, props.len())?;
    for prop in props {
        numbers.push(prop.number)?;
    }
    Ok(numbers)
}
