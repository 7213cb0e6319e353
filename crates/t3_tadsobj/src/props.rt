ghost use Rattle.std.specs.Prelude.{◌≡◌, map, nat_eq};
ghost use Rattle.std.specs.List.{IsDistinct};

use std::marker::Model;
use t3_holder::Holder;

/// A property's number and its value.
#[derive(Clone, Copy, Debug, PartialEq, Eq)]
pub struct PropValue {
    pub number: u16,
    pub value: Holder,
}

/// A list of properties with distinct numbers, that owns its memory. Contracts see the list.
///
/// It is made from a `Vec`, and gives it back, without memory.
#[derive(Debug, Drop)]
pub struct Props(pub Vec<PropValue>);

impl Model for Props {
    ghost use Rattle.std.specs.Prelude.{List, map, nat_eq};
    ghost use Rattle.std.specs.List.{IsDistinct};
    ghost use Rattle.t3_tadsobj.specs.declared.props.PropValue.{PropValue};

    ghost Value = { List PropValue };

    ghost view = { λ p. p.0.items };

    ghost invariant = { λ p. IsDistinct nat_eq (map (λ prop. prop.number) p.0.items) };
}

impl Props {
    /// The properties in their order.
    pub fn items(&self) -> &[PropValue]
        ensures items { result.now ≡ self.now }
        ensures distinct { IsDistinct nat_eq (map (λ prop. prop.number) self.now) }
    {
        self.0.as_slice()
    }
}
