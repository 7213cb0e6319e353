ghost use Rattle.std.specs.Prelude.{◌≡◌, IfOk};
ghost use Rattle.std.specs.Cmp.{partial_equiv_from_equiv, eq_by_cmp_equiv};
ghost use Rattle.std.specs.Ordering.{eq_by_cmp};
ghost use Rattle.t3_undo.specs.Key.{key_cmp, key_cmp_total, key_input, key_input-respects};

use std::alloc::Global;
use std::cmp::{Eq, PartialEq};
use std::hash::{Hash, Hasher};
use t3_holder::{Bytes, NoMemory};

/// What a table's entry is found by. Two keys are equal where they are the same value; a text is equal to
/// one of the same bytes, wherever these came from.
#[derive(Debug, Drop)]
pub enum Key {
    Nil,
    True,
    Int(i32),
    Enum(u32),
    /// A property's number.
    Prop(u16),
    /// The code address of a function.
    Func(u32),
    /// An object's number.
    Obj(u32),
    Text(Bytes),
}

impl Key {
    /// An equal key. Only a text takes memory.
    pub fn copy(&self, alloc: Global) -> Result<Key, NoMemory>
        ensures { IfOk result (λ copy. copy ≡ self.now) }
    {
        match self {
            Key::Nil => Ok(Key::Nil),
            Key::True => Ok(Key::True),
            Key::Int(number) => Ok(Key::Int(*number)),
            Key::Enum(number) => Ok(Key::Enum(*number)),
            Key::Prop(number) => Ok(Key::Prop(*number)),
            Key::Func(address) => Ok(Key::Func(*address)),
            Key::Obj(number) => Ok(Key::Obj(*number)),
            Key::Text(bytes) => {
                let copy = Vec::from_slice(alloc, bytes.0.as_slice())?;
                Ok(Key::Text(Bytes(copy)))
            }
        }
    }
}

impl PartialEq for Key {
    ghost eq = { eq_by_cmp key_cmp };

    ghost laws = { partial_equiv_from_equiv (eq_by_cmp_equiv key_cmp_total) };

    fn eq(&self, other: &Key) -> bool {
        same_key(self, other)
    }
}

impl Eq for Key {
    ghost laws = { eq_by_cmp_equiv key_cmp_total };
}

impl Hash for Key {
    ghost hash_input = { key_input };

    ghost respects_eq = { key_input-respects };

    fn hash<H: Hasher>(&self, state: &mut H) {
        match self {
            Key::Nil => state.write_u8(0),
            Key::True => state.write_u8(1),
            Key::Int(number) => {
                state.write_u8(2);
                state.write_i32(*number);
            }
            Key::Enum(number) => {
                state.write_u8(3);
                state.write_u32(*number);
            }
            Key::Prop(number) => {
                state.write_u8(4);
                state.write_u16(*number);
            }
            Key::Func(address) => {
                state.write_u8(5);
                state.write_u32(*address);
            }
            Key::Obj(number) => {
                state.write_u8(6);
                state.write_u32(*number);
            }
            Key::Text(bytes) => {
                state.write_u8(7);
                state.write(bytes.0.as_slice());
            }
        }
    }
}

/// Whether two keys are the same.
fn same_key(key: &Key, other: &Key) -> bool
    ensures { result ≡ eq_by_cmp key_cmp key.now other.now }
{
    match key {
        Key::Nil => matches!(other, Key::Nil),
        Key::True => matches!(other, Key::True),
        Key::Int(number) => matches!(other, Key::Int(same) if number == same),
        Key::Enum(number) => matches!(other, Key::Enum(same) if number == same),
        Key::Prop(number) => matches!(other, Key::Prop(same) if number == same),
        Key::Func(address) => matches!(other, Key::Func(same) if address == same),
        Key::Obj(number) => matches!(other, Key::Obj(same) if number == same),
        Key::Text(bytes) => match other {
            Key::Text(same) => bytes.0.as_slice() == same.0.as_slice(),
            _ => false,
        },
    }
}
