ghost use Rattle.std.specs.Prelude.{◌≡◌, map};
ghost use Rattle.std.specs.List.{IsDistinct};
ghost use Rattle.std.specs.Ordering.{eq_by_cmp};
ghost use Rattle.t3_undo.specs.Key.{key_cmp};

use std::marker::Model;
use t3_holder::Holder;
use t3_undo::Key;

/// An entry of a table: a key and its value.
#[derive(Debug, PartialEq, Eq, Drop)]
pub struct Pair {
    pub key: Key,
    pub value: Holder,
}

/// A list of entries with distinct keys, that owns its memory. Contracts see the list.
///
/// It is made from a `Vec`, and gives it back, without memory.
#[derive(Debug, Drop)]
pub struct Entries(pub Vec<Pair>);

impl Model for Entries {
    ghost use Rattle.std.specs.Prelude.{List, map};
    ghost use Rattle.std.specs.List.{IsDistinct};
    ghost use Rattle.std.specs.Ordering.{eq_by_cmp};
    ghost use Rattle.t3_undo.specs.Key.{key_cmp};
    ghost use Rattle.t3_tables.specs.declared.pair.Pair.{Pair};

    ghost Value = { List Pair };

    ghost view = { λ e. e.0.items };

    ghost invariant = { λ e. IsDistinct (eq_by_cmp key_cmp) (map (λ pair. pair.key) e.0.items) };
}

impl Entries {
    /// The entries in their order.
    pub fn items(&self) -> &[Pair]
        ensures items { result.now ≡ self.now }
        ensures distinct { IsDistinct (eq_by_cmp key_cmp) (map (λ pair. pair.key) self.now) }
    {
        self.0.as_slice()
    }
}
