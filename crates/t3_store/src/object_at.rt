//! What stands under a number, looked up once.
ghost use Rattle.std.specs.Prelude.{◌≡◌, ◌≤◌, Some, IfSome, IsSome, IfOk, is_some, option_map, option_and_then, map};
ghost use Rattle.std.specs.List.Sorted.{IsStrictlyIncreasing};
ghost use Rattle.std.specs.FinMap.{entries};
ghost use Rattle.t3_undo.specs.declared.cell.Cell.TheVariants.{Prop};
ghost use Rattle.t3_store.specs.Value.{holder_at, kind_of, supers_of, is_class_at, props_at, text_of, items_in, length_of, entries_in};

use crate::kind::Kind;
use crate::object::Object;
use std::alloc::Global;
use std::marker::Model;
use t3_holder::{Holder, NoMemory};
use t3_tables::Entries;
use t3_tadsobj::Props;
use t3_undo::Cell;

/// What stands under a number: an object, or nothing. Contracts see its value.
#[derive(Drop)]
pub struct ObjectAt<'o> {
    object: Option<&'o Object>,
}

impl<'o> Model for ObjectAt<'o> {
    ghost use Rattle.std.specs.Prelude.{Option, IfSome};
    ghost use Rattle.std.specs.Coded.{coded_option};
    ghost use Rattle.t3_store.specs.Value as value;
    ghost use Rattle.t3_store.specs.Value.{coded_value};

    ghost Value = { Option value.Value };

    ghost coded = { coded_option coded_value };

    ghost use Rattle.t3_store.specs.Inner.Shapes.{thing_of, value_under};
    ghost use Rattle.t3_store.specs.Inner.Valid.{IsValid};

    ghost view = { λ o. value_under o.object };

    ghost invariant = { λ o. IfSome o.object (λ object. IsValid (thing_of object.now)) };
}

impl<'o> ObjectAt<'o> {
    ghost use Rattle.std.specs.Prelude.{IfSome};
    ghost use Rattle.t3_store.specs.Inner.Shapes.{thing_of, value_under};
    ghost use Rattle.t3_store.specs.Inner.Valid.{IsValid};

    #[inline(always)]
    pub(crate) fn new(object: Option<&'o Object>) -> ObjectAt<'o>
        requires { IfSome object (λ object. IsValid (thing_of object.now)) }
        ensures { result ≡ value_under object.entry }
    {
        ObjectAt { object }
    }

    /// Whether an object stands there.
    #[inline(always)]
    pub fn is_object(&self) -> bool
        ensures { result ≡ is_some self.now }
    {
        self.object.is_some()
    }

    /// What stands in a cell of it.
    #[inline(always)]
    pub fn get(&self, cell: &Cell) -> Option<Holder>
        ensures { result ≡ holder_at self.now cell.now }
    {
        match self.object {
            Some(object) => object.get(cell).value(),
            None => None,
        }
    }

    /// The value of a property of it. `None` exactly where it isn't a tads-object, or hasn't the property.
    #[inline(always)]
    pub fn prop(&self, number: u16) -> Option<Holder>
        ensures { result ≡ holder_at self.now (Prop number) }
    {
        match self.object {
            Some(object) => object.prop(number),
            None => None,
        }
    }

    /// What it is.
    #[inline(always)]
    pub fn kind(&self) -> Option<Kind>
        ensures { result ≡ option_map kind_of self.now }
    {
        match self.object {
            Some(object) => Some(object.kind()),
            None => None,
        }
    }

    /// The superclasses of a tads-object. `None` exactly where it isn't one.
    #[inline(always)]
    pub fn supers(&self) -> Option<&'o [u32]>
        ensures { option_map (λ supers. supers.now) result ≡ option_and_then supers_of self.now }
    {
        match self.object {
            Some(object) => object.supers(),
            None => None,
        }
    }

    /// Whether it is a class.
    pub fn is_class(&self) -> bool
        ensures { result ≡ is_class_at self.now }
    {
        match self.object {
            Some(object) => object.is_class(),
            None => false,
        }
    }

    /// The properties of a tads-object with their values, by rising number.
    pub fn props(&self, alloc: Global) -> Result<Props, NoMemory>
        requires { IsSome (option_and_then supers_of self.now) }
        ensures props { IfOk result (λ props. map (λ prop. (prop.number, prop.value)) props
            ≡ entries (props_at self.now)) }
        ensures rising { IfOk result (λ props. IsStrictlyIncreasing (map (λ prop. prop.number) props)) }
    {
        match self.object {
            Some(object) => object.props(alloc),
            None => Ok(Props(Vec::new(alloc))),
        }
    }

    /// The bytes of a string. `None` exactly where it isn't one.
    pub fn text(&self) -> Option<&'o [u8]>
        ensures { option_map (λ bytes. bytes.now) result ≡ option_and_then text_of self.now }
    {
        match self.object {
            Some(object) => object.text(),
            None => None,
        }
    }

    /// The items of a list. `None` exactly where it isn't one.
    pub fn items(&self) -> Option<&'o [Holder]>
        ensures { option_map (λ items. items.now) result ≡ option_and_then items_in self.now }
    {
        match self.object {
            Some(object) => object.items(),
            None => None,
        }
    }

    /// How many elements a vector has. `None` exactly where it isn't one.
    pub fn length(&self) -> Option<u32>
        ensures length { result ≡ option_and_then length_of self.now }
        ensures few { IfSome result (λ count. count ≤ 65535) }
    {
        match self.object {
            Some(object) => object.length(),
            None => None,
        }
    }

    /// The entries of a table, the oldest first.
    pub fn entries(&self, alloc: Global) -> Result<Entries, NoMemory>
        requires { IsSome (option_and_then entries_in self.now) }
        ensures { IfOk result (λ pairs. Some pairs ≡ option_and_then entries_in self.now) }
    {
        match self.object {
            Some(object) => object.entries(alloc),
            None => Ok(Entries(Vec::new(alloc))),
        }
    }
}
