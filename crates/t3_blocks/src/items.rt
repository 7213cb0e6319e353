//! The items of counted payloads, and the lists that hold them.
//!
//! A list is made from a `Vec`, and gives it back, without memory.
use std::marker::Model;
use t3_holder::{Bytes, Raw};

/// A list of names. Contracts see the list. Where a payload spells it, it has at most 65,535 names of
/// at most 255 bytes each.
#[derive(Debug, Drop)]
pub struct Names(pub Vec<Bytes>);

impl Model for Names {
    ghost use Rattle.std.specs.Prelude.{List, ℕ};

    ghost Value = { List (List ℕ) };

    ghost view = { λ n. n.0.items };
}

/// A property that a metaclass lists.
#[derive(Debug, Drop)]
pub struct PropEntry {
    pub number: u16,
    /// What else the metaclass's property size has room for. It is kept.
    pub extra: Bytes,
}

/// The properties of a metaclass. Contracts see the list.
#[derive(Debug, Drop)]
pub struct PropEntries(pub Vec<PropEntry>);

impl Model for PropEntries {
    ghost use Rattle.std.specs.Prelude.{List};
    ghost use Rattle.t3_blocks.specs.declared.items.PropEntry.{PropEntry};

    ghost Value = { List PropEntry };

    ghost view = { λ p. p.0.items };
}

/// A metaclass that an image uses.
#[derive(Debug, Drop)]
pub struct Meta {
    pub name: Bytes,
    /// How many bytes each property has, its number among them. Without a property it may say anything,
    /// else at least 2.
    pub property_size: u16,
    pub props: PropEntries,
    /// What follows the properties within the entry. It is kept.
    pub tail: Bytes,
}

/// The metaclasses of an image in the order of their indices. Contracts see the list.
#[derive(Debug, Drop)]
pub struct Metas(pub Vec<Meta>);

impl Model for Metas {
    ghost use Rattle.std.specs.Prelude.{List};
    ghost use Rattle.t3_blocks.specs.declared.items.Meta.{Meta};

    ghost Value = { List Meta };

    ghost view = { λ m. m.0.items };
}

/// An object that stands in the image, as bytes whose layout its metaclass knows.
#[derive(Debug, Drop)]
pub struct Static {
    pub number: u32,
    pub bytes: Bytes,
}

/// The objects of one block. Contracts see the list.
#[derive(Debug, Drop)]
pub struct Statics(pub Vec<Static>);

impl Model for Statics {
    ghost use Rattle.std.specs.Prelude.{List};
    ghost use Rattle.t3_blocks.specs.declared.items.Static.{Static};

    ghost Value = { List Static };

    ghost view = { λ s. s.0.items };
}

/// A name that the image gives to a data holder.
#[derive(Debug, Drop)]
pub struct Symbol {
    pub raw: Raw,
    pub name: Bytes,
}

/// The symbols of one block. Contracts see the list.
#[derive(Debug, Drop)]
pub struct Symbols(pub Vec<Symbol>);

impl Model for Symbols {
    ghost use Rattle.std.specs.Prelude.{List};
    ghost use Rattle.t3_blocks.specs.declared.items.Symbol.{Symbol};

    ghost Value = { List Symbol };

    ghost view = { λ s. s.0.items };
}
