//! The order of keys: by their kinds, and then by their values.
ghost use Rattle.std.specs.Prelude.{◌≡◌, nat_eq};
ghost use Rattle.std.specs.Ordering.{as_partial_cmp, nat_cmp};
ghost use Rattle.std.specs.Cmp.{partial_order_from_total};
ghost use Rattle.std.specs.Cmp.Lexicographic.{slice_cmp};
ghost use Rattle.std.proofs.Common.{refl};
ghost use Rattle.t3_undo.specs.Key.{key_cmp, key_cmp_total};
ghost use Rattle.t3_undo.specs.Inner.KeyOrder.{key_kind, key_value, int_value};

use crate::key::Key;
use std::cmp::Ordering;

impl PartialOrd for Key {
    ghost partial_cmp = { as_partial_cmp key_cmp };

    ghost laws = { partial_order_from_total key_cmp_total };

    fn partial_cmp(&self, other: &Key) -> Option<Ordering> {
        Some(self.cmp(other))
    }
}

impl Ord for Key {
    ghost cmp = { key_cmp };

    ghost total = { key_cmp_total };

    ghost matches_partial_cmp = { λ x y. refl };

    ghost matches_eq = { λ x y. refl };

    fn cmp(&self, other: &Key) -> Ordering {
        compare_keys(self, other)
    }
}

fn compare_keys(key: &Key, other: &Key) -> Ordering
    ensures { result ≡ key_cmp key.now other.now }
{
    kind(key).cmp(&kind(other)).then(compare_values(key, other))
}

/// A key's kind as a number.
fn kind(key: &Key) -> u8
    ensures { result ≡ key_kind key.now }
{
    match key {
        Key::Nil => 0,
        Key::True => 1,
        Key::Int(_) => 2,
        Key::Enum(_) => 3,
        Key::Prop(_) => 4,
        Key::Func(_) => 5,
        Key::Obj(_) => 6,
        Key::Text(_) => 7,
    }
}

/// How the values of two keys of one kind stand.
fn compare_values(key: &Key, other: &Key) -> Ordering
    ensures { key_kind key.now ≡ key_kind other.now
        → result ≡ slice_cmp nat_cmp (key_value key.now) (key_value other.now) }
{
    match (key, other) {
        (Key::Int(number), Key::Int(other)) => compare_ints(*number, *other),
        (Key::Enum(number), Key::Enum(other)) => number.cmp(other),
        (Key::Prop(number), Key::Prop(other)) => number.cmp(other),
        (Key::Func(address), Key::Func(other)) => address.cmp(other),
        (Key::Obj(number), Key::Obj(other)) => number.cmp(other),
        (Key::Text(bytes), Key::Text(other)) => bytes.0.as_slice().cmp(other.0.as_slice()),
        _ => Ordering::Equal,
    }
}

/// How two integers stand: those below 0 behind the others, and these in their turn from -1 down.
fn compare_ints(number: i32, other: i32) -> Ordering
    ensures { result ≡ slice_cmp nat_cmp (int_value number) (int_value other) }
{
    if number < 0 {
        if other < 0 {
            other.cmp(&number)
        } else {
            Ordering::Greater
        }
    } else if other < 0 {
        Ordering::Less
    } else {
        number.cmp(&other)
    }
}
