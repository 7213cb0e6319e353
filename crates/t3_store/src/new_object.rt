ghost use Rattle.std.specs.Prelude.{◌≡◌, ◌+◌, ◌<◌, ◌≤◌, IfOk, OnOk, map, length};
ghost use Rattle.std.specs.FinMap.{from_entries, len};
ghost use Rattle.std.specs.Ordering.{nat_cmp};
ghost use Rattle.t3_lists.specs.Vector.{parts_of, filled};
ghost use Rattle.t3_lists.specs.Vector as vectors;
ghost use Rattle.t3_undo.specs.Content.{with_place, places_for};
ghost use Rattle.t3_store.specs.Value.{Tads, new_value, units_of, HasFittingLength};
ghost use Rattle.t3_tadsobj.specs.Props.{pair_of};
ghost use Rattle.t3_store.specs.Inner.Shapes.{thing_of, value_of, tick_of, HasFreshPlaces, HasElements, IsWithElement};
ghost use Rattle.t3_store.specs.Inner.Valid.{IsValid};

use crate::object::Object;
use crate::table_cells::eights;
use std::alloc::Global;
use t3_holder::{Bytes, Holder, NoMemory};
use t3_lists::{Holders, List, Text, Vector};
use t3_tables::Table;
use t3_tadsobj::{Props, TadsObject};
use t3_undo::{Cell, Content, Metaclass, Numbers};

/// What an object is to be made of.
#[derive(Debug, Drop)]
pub enum NewObject {
    Tads {
        /// From left to right.
        supers: Numbers,
        class: bool,
        props: Props,
    },
    Text(Bytes),
    List(Holders),
    /// With these elements.
    Vector(Holders),
    /// Without entries, and with nil as its default.
    Table,
}

impl NewObject {
    /// How many units the object will count.
    pub fn units(&self) -> u64
        ensures { result ≡ units_of (new_value self.now) }
    {
        match self {
            NewObject::Tads {
                supers,
                class: _,
                props,
            } => tads_units(supers, props),
            NewObject::Text(bytes) => eights(bytes.0.len()),
            NewObject::List(items) | NewObject::Vector(items) => items.0.len() as u64,
            NewObject::Table => 0,
        }
    }

    /// The object.
    pub(crate) fn make(self, alloc: Global) -> Result<Object, NoMemory>
        requires { HasFittingLength (new_value self) }
        ensures value { IfOk result (λ object. value_of (thing_of object) ≡ new_value self) }
        ensures valid { IfOk result (λ object. IsValid (thing_of object)) }
        ensures tick { IfOk result (λ object. tick_of object ≤ 1) }
        ensures fresh_places { IfOk result (λ object. HasFreshPlaces object) }
    {
        match self {
            NewObject::Tads {
                supers,
                class,
                props,
            } => make_tads(alloc, supers, class, &props),
            NewObject::Text(bytes) => Ok(Object::Text(Text::of(bytes))),
            NewObject::List(items) => Ok(Object::List(List::of(items))),
            NewObject::Vector(items) => Ok(Object::Vector(make_vector(alloc, &items)?)),
            NewObject::Table => Ok(Object::Table(Box::new(alloc, Table::new(alloc))?)),
        }
    }
}

/// How many units a tads-object with these superclasses and properties counts.
fn tads_units(supers: &Numbers, props: &Props) -> u64
    ensures { result ≡ length supers.now + len (from_entries {R = nat_cmp} (map pair_of props.now)) }
{
    supers.0.len() as u64 + props.items().len() as u64
}

/// A tads-object with these superclasses, this class flag and these properties.
fn make_tads(alloc: Global, supers: Numbers, class: bool, props: &Props) -> Result<Object, NoMemory>
    ensures value { IfOk result (λ object. value_of (thing_of object)
        ≡ Tads supers class (from_entries (map pair_of props.now))) }
    ensures valid { IfOk result (λ object. IsValid (thing_of object)) }
    ensures tick { IfOk result (λ object. tick_of object ≤ 1) }
    ensures fresh_places { IfOk result (λ object. HasFreshPlaces object) }
{
    let mut object = TadsObject::of(alloc, supers, class);
    let items = props.items();
    let mut left = items.len();
    while left > 0 {
        left -= 1;
        object.set(items[left].number, items[left].value)?;
    }
    Ok(Object::Tads(object))
}

/// A vector of these elements.
fn make_vector(alloc: Global, items: &Holders) -> Result<Vector, NoMemory>
    requires { length items.now ≤ 65535 }
    ensures parts { IfOk result (λ vector. parts_of vector ≡ filled items.now) }
    ensures fresh_places { IfOk result (λ vector. vectors.places_of vector ≡ places_for (parts_of vector)) }
{
    let mut vector = Vector::new(alloc);
    for index in 0..items.0.len() {
        add_element(&mut vector, index as u32, items.0[index])?;
    }
    Ok(vector)
}

/// Adds an element to a vector of so many.
fn add_element(vector: &mut Vector, count: u32, value: Holder) -> Result<(), NoMemory>
    requires few { count < 65535 }
    requires count { HasElements (parts_of vector.old) count }
    ensures parts { OnOk result (IsWithElement (parts_of vector.old) (parts_of vector.new) count value) }
    ensures places { OnOk result (vectors.places_of vector.new
        ≡ with_place (vectors.places_of vector.old) (Cell.Elem (count + 1))) }
{
    let cell = Cell::Elem(count + 1);
    vector.make_place(Cell::Elem(count + 1))?;
    let _absent = vector.put(&cell, Content::Held(value));
    Ok(())
}
