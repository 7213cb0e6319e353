//! The methods of metaclasses, by the properties under which the image lists them.
ghost use Rattle.std.specs.Prelude.{◌≡◌, ◌==◌};
ghost use Rattle.std.specs.List.{position_from};
ghost use Rattle.t3_object_instructions.specs.Search.{metaclasses_of as metaclasses_by, methods_of as methods_by, method_of as method_by, same_kind as same_kind_by};

use t3_load::{KindEntry, MetaKind};
use t3_store::Kind;

/// The metaclasses that have the methods of a kind: its own first, and last that of all objects.
pub(crate) fn metaclasses_of(kind: Kind) -> &'static [MetaKind]
    ensures { result.now ≡ metaclasses_by kind }
{
    match kind {
        Kind::Tads => &[MetaKind::Tads, MetaKind::Root],
        Kind::Text => &[MetaKind::Text, MetaKind::Root],
        Kind::List => &[MetaKind::List, MetaKind::Collection, MetaKind::Root],
        Kind::Vector => &[MetaKind::Vector, MetaKind::Collection, MetaKind::Root],
        Kind::Table => &[MetaKind::Table, MetaKind::Collection, MetaKind::Root],
    }
}

/// The first of these metaclasses that has a method by a property, and the method's first index.
pub(crate) fn method_of(
    kinds: &[KindEntry],
    property: u16,
    metaclasses: &[MetaKind],
) -> Option<(MetaKind, usize)>
    ensures { result ≡ method_by kinds.now property metaclasses.now }
{
    for kind in metaclasses {
        let properties = methods_of(kinds, *kind);
        if let Some(index) = index_of(properties, property) {
            return Some((*kind, index));
        }
    }
    None
}

/// The properties of a metaclass's methods; of one that is listed twice those of the first entry.
fn methods_of(kinds: &[KindEntry], kind: MetaKind) -> &[u16]
    ensures { result.now ≡ methods_by kinds.now kind }
{
    for entry in kinds {
        if entry.kind == kind {
            return entry.props.0.as_slice();
        }
    }
    &[]
}

/// The first place of a property among others, from 0.
fn index_of(properties: &[u16], property: u16) -> Option<usize>
    ensures { result ≡ position_from (λ p. p == property) 0 properties.now }
{
    for index in 0..properties.len() {
        if properties[index] == property {
            return Some(index);
        }
    }
    None
}
